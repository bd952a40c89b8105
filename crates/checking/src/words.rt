// What was asked as one word, and from its word again.
#![tactic(auto, unfolding(pdu::specs::Words::asked_bits, pdu::specs::Words::asked_from, pdu::specs::Words::word_of, pdu::specs::Words::what_of, pdu::specs::Words::closed_in, pdu::specs::Words::entry_of))]

ghost use Rattle.std.specs.Prelude.{◌≡◌, ◌%◌, ◌<◌};
ghost use Rattle.laws.specs.Bits.{with};
ghost use Rattle.pdu.specs.Words.{asked_bits, asked_from, word_of, what_of, closed_bit, closed_in, what_in, entry_of};

use pdu::{Asked, Class, Entry, ProxyId, What};

// A word of what was asked: unit and function above 48 bits, in which a class keeps fields of 16 bits.
const BYTES: u64 = 256;

const FIELDS: u64 = 65536;

// The quantities of 23 are at most 125 and 121: 7 bits each.
const QUANTITIES: u64 = 128;

const KEPT: u64 = FIELDS * FIELDS * FIELDS;

// Bit 32 of a live place's word, where that is a read's: the read is closed.
const CLOSED: u64 = FIELDS * FIELDS;

// What a class keeps of what was asked, in 48 bits.
fn asked_bits(asked: Asked) -> u64
    ensures { (result ≡ asked_bits asked) × (result < 281474976710656) }
{
    match asked {
        Asked::Read {
            start,
            quantity,
            ..
        }
        | Asked::MultipleWrite {
            start,
            quantity,
            ..
        } => start as u64 * FIELDS + quantity as u64,
        Asked::SingleWrite { address, value, .. } => address as u64 * FIELDS + value as u64,
        Asked::MaskWrite {
            address,
            and_mask,
            or_mask,
        } => (address as u64 * FIELDS + and_mask as u64) * FIELDS + or_mask as u64,
        Asked::ReadWrite {
            start,
            quantity,
            write_start,
            write_quantity,
        } => {
            let read = start as u64 * QUANTITIES + quantity as u64;
            (read * FIELDS + write_start as u64) * QUANTITIES + write_quantity as u64
        }
        Asked::Other => 0,
    }
}

// What was asked as one word. (`word_of` and `what_of` are functions and no `From`: docs/TRIALS.md names them.)
pub fn word_of(what: What) -> u64
    ensures { result ≡ word_of what }
{
    let bits = asked_bits(what.asked);
    (what.unit as u64 * BYTES + what.function as u64) * KEPT + bits
}

// What 23 asked, from what it kept: two starts, and a quantity below each.
fn read_write_from(bits: u64) -> Asked
    ensures { result ≡ asked_from Class.ReadsWrites bits }
{
    let write = bits / QUANTITIES;
    let read = write / FIELDS;
    Asked::ReadWrite {
        start: (read / QUANTITIES % FIELDS) as u16,
        quantity: (read % QUANTITIES) as u16,
        write_start: (write % FIELDS) as u16,
        write_quantity: (bits % QUANTITIES) as u16,
    }
}

// What was asked, from what its class kept.
fn asked_from(class: Class, bits: u64) -> Asked
    ensures { result ≡ asked_from class bits }
{
    let first = (bits / FIELDS % FIELDS) as u16;
    let second = (bits % FIELDS) as u16;
    match class {
        Class::Reads(table) => Asked::Read {
            table,
            start: first,
            quantity: second,
        },
        Class::WritesOne(table) => Asked::SingleWrite {
            table,
            address: first,
            value: second,
        },
        Class::WritesMany(table) => Asked::MultipleWrite {
            table,
            start: first,
            quantity: second,
        },
        Class::Masks => Asked::MaskWrite {
            address: (bits / FIELDS / FIELDS % FIELDS) as u16,
            and_mask: first,
            or_mask: second,
        },
        Class::ReadsWrites => read_write_from(bits),
        Class::Others => Asked::Other,
    }
}

// What was asked, from its word.
pub fn what_of(word: u64) -> What
    ensures { result ≡ what_of word }
{
    let function = function_in(word);
    What {
        unit: unit_in(word),
        function,
        asked: asked_from(pdu::class_of(function), word % KEPT),
    }
}

// The unit, the function and what was asked, each by itself.
pub fn unit_in(word: u64) -> u8
    ensures { result ≡ (what_of word).unit }
{
    (word / KEPT / BYTES % BYTES) as u8
}

pub fn function_in(word: u64) -> u8
    ensures { result ≡ (what_of word).function }
{
    (word / KEPT % BYTES) as u8
}

pub fn asked_in(word: u64) -> Asked
    ensures { result ≡ (what_of word).asked }
{
    what_of(word).asked
}

// Whether a word is that of a read and has bit 32, and the word with it.
pub fn is_closed(word: u64) -> bool
    ensures { result ≡ closed_in word }
{
    pdu::is_read(asked_in(word)) && word / CLOSED % 2 == 1
}

pub fn closed_word(word: u64) -> u64
    ensures { result ≡ with word closed_bit }
{
    word | CLOSED
}

// The entry that a word makes, and its word again.
pub fn entry_of(id: ProxyId, word: u64, deadline: u64) -> Entry
    ensures { result ≡ entry_of id word deadline }
{
    Entry {
        id,
        what: what_of(word),
        deadline,
    }
}

pub fn word_of_entry(e: Entry) -> u64
    ensures { result ≡ word_of (what_in e) }
{
    word_of(e.what)
}
