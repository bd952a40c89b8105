// The calls that a row can name, and the numbers in them.
//   fresh                           a fresh state with document 01's settings
//   fresh timeout 99 join 1 tags 2 sign 1 0 ttl 500 0 strict 1 0
//                                   the same with these numbers; the tags are document 01's with these signs and ttls and strict or not, 0 where none is given, and nothing behind the second
//   attach 3, detach 3, request 3 at 0: 12 34 .., reply at 0: 00 00 .., tick at 0, link lost
//   cursor                          the cursor, the clock and the attached clients
//   split: 12 34 ..                 the first frame of a run
//   read: version=1/..              a settings text, with '/' for LF
//   write timeout 99 join 1 tags 2 sign 1 0 ttl 500 0 strict 1 0
//                                   a settings text from a value as of fresh
// Behind a comma may stand lengths other than the usual ones: "out 259" and "list 15" for the lent buffers, "size 261" for the frame, which
// is filled up with zeros.
ghost use Rattle.std.specs.Prelude.{◌≤◌, ◌≡◌};
ghost use Rattle.settings.specs.Values.{settings_of};
ghost use Rattle.scripts.specs.Calls.{Tells};
ghost use Rattle.scripts.specs.Words.{letter_of, document, short_number, tag_number, settings_in, length_in};

use parts::{field, number, rest};
use settings::Settings;

// The letter that tells a call: its first; of request, reply and read the third, in upper case.
pub fn letter(call: &[u8]) -> u8
    ensures { result ≡ letter_of call.now }
{
    let first = wire::byte_at(call, 0);
    if first == b'r' {
        wire::byte_at(call, 2) % 32 + 64
    } else {
        first
    }
}

// The calls; a letter that tells no other tells of a lost link.
#[derive(Clone, Copy)]
pub enum Call {
    Fresh,
    Attach,
    Detach,
    Request,
    Reply,
    Tick,
    LinkLost,
    Cursor,
    Split,
    Read,
    Write,
}

impl Call {
    // The call that a row names.
    pub fn named(call: &[u8]) -> Call
        ensures { Tells (letter_of call.now) result }
    {
        match letter(call) {
            b'f' => Call::Fresh,
            b'a' => Call::Attach,
            b'd' => Call::Detach,
            b'Q' => Call::Request,
            b'P' => Call::Reply,
            b't' => Call::Tick,
            b'c' => Call::Cursor,
            b's' => Call::Split,
            b'A' => Call::Read,
            b'w' => Call::Write,
            _ => Call::LinkLost,
        }
    }
}

// Document 01's settings.
fn document_value() -> Settings
    ensures { result ≡ settings_of document }
{
    let mut addr = [0u16; numbers::MOST_TAGS];
    let mut width = [0u16; numbers::MOST_TAGS];
    addr[0] = 1024;
    width[0] = 16;
    addr[1] = 1026;
    width[1] = 32;
    Settings {
        timeout: numbers::USUAL_TIMEOUT,
        join: 1,
        tags: 2,
        addr,
        width,
        sign: [0u16; numbers::MOST_TAGS],
        ttl: [0u16; numbers::MOST_TAGS],
        strict: [0u16; numbers::MOST_TAGS],
    }
}

// The k-th word of a call as a 32-bit number; the other one where there is none.
fn short_number(call: &[u8], k: usize, other: u32) -> u32
    ensures { result ≡ short_number call.now k other }
{
    (number(field(call, b' ', k), u64::from(other)) % 4294967296) as u32
}

// The k-th word of a call as a tag's sign or ttl, or whether it is strict; 0 where there is none.
fn tag_number(call: &[u8], k: usize) -> u16
    ensures { result ≡ tag_number call.now k }
{
    (short_number(call, k, 0) % 65536) as u16
}

// Document 01's settings with the numbers of a call.
pub fn value_in(call: &[u8]) -> Settings
    ensures { result ≡ settings_in call.now }
{
    let mut s = document_value();
    s.timeout = short_number(call, 2, s.timeout);
    s.join = short_number(call, 4, s.join);
    s.tags = short_number(call, 6, s.tags);
    s.sign[0] = tag_number(call, 8);
    s.sign[1] = tag_number(call, 9);
    s.ttl[0] = tag_number(call, 11);
    s.ttl[1] = tag_number(call, 12);
    s.strict[0] = tag_number(call, 14);
    s.strict[1] = tag_number(call, 15);
    s
}

// A length behind the comma, by a letter that no other word there has: o, l, z for out, list, size.
pub fn length_in(call: &[u8], letter: u8, usual: usize, most: usize) -> usize
    ensures { (result ≡ length_in call.now letter usual most) × (result ≤ most) }
{
    let word = field(rest(rest(call, b','), letter), b' ', 1);
    number(word, usual as u64).min(most as u64) as usize
}
