// Whether a tag forbids what a request writes or masks, before any of it is rewritten.
ghost use Rattle.std.specs.Prelude.{◌≡◌, false, ◌+◌, ◌*◌, ◌≤◌, ◌<◌, map, length, get_or};
ghost use Rattle.bcd.specs.Bcd.{registers};
ghost use Rattle.bcd.specs.Words.{number_of};
ghost use Rattle.settings.specs.TagWords.{tag_of, strict_mark, some_strict};
ghost use Rattle.rewrite.specs.Registers.{registers_at};
ghost use Rattle.rewrite.specs.Legal.{stays_raw, forbids, some_forbids, some_has, forbidden};
ghost use Rattle.rewrite.specs.inner.Lent.{Run as InBuffer, Sent};

use crate::carrying::{Carried, Run, carried_by};
use crate::registers::{WORDS, register_at};
use crate::tags::Tags;
use bcd::Kind;
use pdu::Asked;
use values::tagwords::{STRICT_MARK, tag_address, tag_is_strict, tag_kind};

// The number in a tag's registers, which stand from byte k on, the low word first.
fn number_at(d: &[u8], k: usize, kind: Kind) -> u32
    requires { k + 2 * registers kind ≤ length d.now }
    ensures { result ≡ number_of (registers_at k (registers kind) d.now) }
{
    let low = register_at(d, k);
    if bcd::registers_of(kind) == 1 {
        return low;
    }
    low + WORDS * register_at(d, k + 2)
}

// Whether a tag stays raw over a run of registers: the run has a part of it, or all of it with a value outside its range.
fn is_raw(d: &[u8], run: Run, word: u64) -> bool
    requires { InBuffer run.base run.start run.quantity d.now }
    ensures { result ≡ stays_raw run.start (registers_at run.base run.quantity d.now) (tag_of word) }
{
    let kind = tag_kind(word);
    let address = tag_address(word) as usize;
    let last = rewrite::last_of(word);
    let from = run.start as usize;
    let end = run.end();
    if (address < from) | (end <= last) {
        return (from <= last) & (address < end);
    }
    let k = run.base + 2 * (address - from);
    !bcd::is_in_range(kind, number_at(d, k, kind))
}

// Whether one tag forbids the run: one that is not strict costs this test alone.
fn forbids(d: &[u8], run: Run, word: u64) -> bool
    requires { InBuffer run.base run.start run.quantity d.now }
    ensures { result ≡ forbids run.start (registers_at run.base run.quantity d.now) (tag_of word) }
{
    if tag_is_strict(word) {
        return is_raw(d, run, word);
    }
    false
}

// Whether one of the tags in the run forbids it.
fn some_forbids(d: &[u8], run: Run, tags: Tags) -> bool
    requires { InBuffer run.base run.start run.quantity d.now }
    ensures { result ≡ some_forbids run.start (registers_at run.base run.quantity d.now) (map tag_of tags.entry.words.now) }
{
    let end = run.end();
    for word in tags.reaching(run.start as usize) {
        if end <= tag_address(*word) as usize {
            break;
        }
        if forbids(d, run, *word) {
            return true;
        }
    }
    false
}

// Whether a tag has the register of the address: of tags that ascend only the first that does not end before it can.
fn has_tag(tags: Tags, address: u16) -> bool
    ensures { result ≡ some_has address (map tag_of tags.entry.words.now) }
{
    let Some(&word) = tags.words.get(tags.first_from(address as usize)) else {
        return false;
    };
    tag_address(word) <= address
}

// Whether a tag forbids the request: any tag a mask of its register, a strict one what is written; where the first word has no mark, no tag is strict.
pub fn is_forbidden(frame: &[u8], asked: Asked, tags: Tags) -> bool
    requires sent { Sent asked frame.now }
    requires words_value { get_or tags.words.now 0 0 < strict_mark → some_strict (map tag_of tags.words.now) ≡ false }
    ensures { result ≡ forbidden (map tag_of tags.entry.words.now) asked frame.now }
{
    match carried_by(asked) {
        Carried::Nothing => false,
        Carried::Mask(address) => has_tag(tags, address),
        Carried::Run(run) => match tags.words {
            [first, ..] if STRICT_MARK <= *first => some_forbids(frame, run, tags),
            _ => false,
        },
    }
}
