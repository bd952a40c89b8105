// Parts of byte strings, numbers in them, and what comes out held against what must come out, for the programs that run tables of examples.
#![tactic(auto)]

ghost use Rattle.std.specs.Prelude.{◌≡◌, ◌+◌, ◌≤◌, length, take, drop};
ghost use Rattle.parts.specs.Texts.{end_of, head_of, rest_of, field_of, longer as longerOf, number_of};

use std::num::wrapping_add_u64;

pub mod digits;
pub mod hex;
pub mod input;
pub mod output;
pub mod saying;
pub mod tally;

// A tenth of the largest number, and one more.
const TENTH: u64 = 1844674407370955162;

// Where this byte next stands; the end where it does not.
pub fn end_of(s: &[u8], at: usize, byte: u8) -> usize
    requires { at ≤ length s.now }
    ensures { (at ≤ result) × (result ≤ length s.now) × (result ≡ at + end_of byte (drop at s.now)) }
{
    let left = behind(s, at);
    at + left.iter().position(|x| *x == byte).unwrap_or(left.len())
}

// The bytes before a place, and those from it on; a place past the end counts as the end.
pub fn before(s: &[u8], place: usize) -> &[u8]
    ensures { result.now ≡ take place s.now }
{
    s.get(..place).unwrap_or(s)
}

pub fn behind(s: &[u8], place: usize) -> &[u8]
    ensures { result.now ≡ drop place s.now }
{
    s.get(place..).unwrap_or(&[])
}

// What stands before the first such byte, and what behind it.
pub fn head(s: &[u8], byte: u8) -> &[u8]
    ensures { result.now ≡ head_of byte s.now }
{
    before(s, end_of(s, 0, byte))
}

pub fn rest(s: &[u8], byte: u8) -> &[u8]
    ensures { result.now ≡ rest_of byte s.now }
{
    behind(behind(s, end_of(s, 0, byte)), 1)
}

// The k-th part of a text, counted from 0: each is ended by this byte.
pub fn field(s: &[u8], byte: u8, k: usize) -> &[u8]
    ensures { result.now ≡ field_of byte k s.now }
{
    s.split(|x| *x == byte).nth(k).unwrap_or(&[])
}

// A number with one digit more; a byte that is no digit leaves it.
fn longer(value: u64, byte: u8) -> u64
    ensures { result ≡ longerOf value byte }
{
    if byte.is_ascii_digit() {
        wrapping_add_u64(value % TENTH * 10, u64::from(byte - b'0'))
    } else {
        value
    }
}

// The number whose digits stand in a word; the other one where there is no word.
pub fn number(word: &[u8], other: u64) -> u64
    ensures { result ≡ number_of word.now other }
{
    if word.is_empty() {
        return other;
    }
    word.iter().fold(0, |value, byte| longer(value, *byte))
}
