// A run of registers in a buffer, rewritten in place by the tag words.
ghost use Rattle.std.specs.Prelude.{◌≡◌, ◌+◌, ◌*◌, ◌≤◌, ◌<◌, [], ◌∷◌, map, length};
ghost use Rattle.laws.specs.Bytes.{pair_at};
ghost use Rattle.bcd.specs.Bcd.{registers};
ghost use Rattle.settings.specs.TagWords.{tag_of, kind_of};
ghost use Rattle.rewrite.specs.Rewriting.{turned, with_counts, rewriting};
ghost use Rattle.rewrite.specs.Frames.{reencoded};
ghost use Rattle.rewrite.specs.inner.Lent.{Run as InBuffer, whole_laid};
ghost use Rattle.payloads.specs.inner.TagSteps.{counted};

use crate::carrying::Run;
use crate::tags::Tags;
use bcd::Kind;
use rewrite::{Raw, Rawness, Way};
use values::tagwords::{tag_address, tag_kind};

// How many values a register can hold.
pub const WORDS: u32 = 65536;

// The register at byte k, both bytes of which are there.
pub fn register_at(d: &[u8], k: usize) -> u32
    requires { k + 1 < length d.now }
    ensures { (result ≡ pair_at d.now k) × (result < 65536) }
{
    u16::from_be_bytes([d[k], d[k + 1]]) as u32
}

// Whether a request 06 that writes the value to the address is re-encoded: its register is a whole tag, whose range has the value.
pub fn is_reencoded(tags: Tags, address: u16, value: u16) -> bool
    ensures { result ≡ reencoded (map tag_of tags.entry.words.now) address value }
{
    let at = address as usize;
    let Some(&word) = tags.words.get(tags.first_from(at)) else {
        return false;
    };
    if (tag_address(word) as usize != at) | (rewrite::last_of(word) != at) {
        return false;
    }
    bcd::is_in_range(tag_kind(word), value as u32)
}

// A tag's number, rewritten if its value allows.
#[inline(always)]
fn turn(way: Way, kind: Kind, n: u32) -> Option<u32>
    ensures { result ≡ turned way kind n }
{
    match way {
        Way::ToBcd => bcd::encode(kind, n),
        Way::ToBinary => bcd::decode(kind, n),
    }
}

// A whole tag of two registers, the low word first. (One function for one and two registers would branch on the count at each step, where the speed of a reply is: no plainer. So with `pair_tag` and `word_tag` below.)
fn whole_pair(d: &mut [u8], k: usize, way: Way) -> Rawness
    requires { k + 3 < length d.old }
    ensures { counted result d.new ≡ whole_laid way Kind.Width32 k d.old }
{
    let low = register_at(d, k);
    let high = register_at(d, k + 2);
    let Some(n) = turn(way, Kind::Width32, low + WORDS * high) else {
        return Rawness::Value;
    };
    wire::put_at(d, k + 2, (n / WORDS) as u16);
    wire::put_at(d, k, (n % WORDS) as u16);
    Rawness::NotRaw
}

// A whole tag of one register, which stands from byte k on.
fn whole_word(d: &mut [u8], k: usize, way: Way, kind: Kind) -> Rawness
    requires { (registers kind ≡ 1) × (k + 1 < length d.old) }
    ensures { counted result d.new ≡ whole_laid way kind k d.old }
{
    let Some(n) = turn(way, kind, register_at(d, k)) else {
        return Rawness::Value;
    };
    wire::put_at(d, k, (n % WORDS) as u16);
    Rawness::NotRaw
}

// A tag of two registers over a run of registers.
fn pair_tag(d: &mut [u8], run: Run, way: Way, word: u64) -> Rawness
    requires in_buffer { InBuffer run.base run.start run.quantity d.old }
    requires word_value { kind_of (tag_of word) ≡ Kind.Width32 }
    ensures { counted result d.new ≡ rewriting way run.base run.start run.quantity (tag_of word ∷ []) d.old }
{
    let address = tag_address(word) as usize;
    let last = address + 1;
    let from = run.start as usize;
    let end = run.end();
    if (address < from) | (end <= last) {
        if (last < from) | (end <= address) {
            return Rawness::NotRaw;
        }
        return Rawness::Partial;
    }
    let k = run.base + 2 * (address - from);
    whole_pair(d, k, way)
}

// A tag of one register over a run of registers, which never covers a part of it.
fn word_tag(d: &mut [u8], run: Run, way: Way, word: u64) -> Rawness
    requires in_buffer { InBuffer run.base run.start run.quantity d.old }
    requires word_value { registers (kind_of (tag_of word)) ≡ 1 }
    ensures { counted result d.new ≡ rewriting way run.base run.start run.quantity (tag_of word ∷ []) d.old }
{
    let address = tag_address(word) as usize;
    let from = run.start as usize;
    let end = run.end();
    if (address < from) | (end <= address) {
        return Rawness::NotRaw;
    }
    let k = run.base + 2 * (address - from);
    whole_word(d, k, way, tag_kind(word))
}

// One tag over a run of registers.
fn one_tag(d: &mut [u8], run: Run, way: Way, word: u64) -> Rawness
    requires { InBuffer run.base run.start run.quantity d.old }
    ensures { counted result d.new ≡ rewriting way run.base run.start run.quantity (tag_of word ∷ []) d.old }
{
    if bcd::registers_of(tag_kind(word)) == 1 {
        word_tag(d, run, way, word)
    } else {
        pair_tag(d, run, way, word)
    }
}

// Every tag over the run of registers.
pub fn rewrite(d: &mut [u8], run: Run, way: Way, tags: Tags) -> Raw
    requires { InBuffer run.base run.start run.quantity d.old }
    ensures { with_counts result.partial result.value d.new ≡ rewriting way run.base run.start run.quantity (map tag_of tags.entry.words.now) d.old }
{
    let end = run.end();
    let mut raw = Raw::default();
    for word in tags.reaching(run.start as usize) {
        if end <= tag_address(*word) as usize {
            break;
        }
        match one_tag(d, run, way, *word) {
            Rawness::NotRaw => {}
            Rawness::Partial => raw.partial += 1,
            Rawness::Value => raw.value += 1,
        }
    }
    raw
}
