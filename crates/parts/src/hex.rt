// Bytes to and from hexadecimal text.
ghost use Rattle.std.specs.Prelude.{◌≡◌, ◌%◌, ◌≤◌, length};
ghost use Rattle.laws.specs.Bytes.{over};
ghost use Rattle.parts.specs.Texts.{nibble as nibbleOf, bytes_of, digit as digitOf};

use crate::behind;

// The number that a hexadecimal digit is: 0 to 9, A to F. (Not `to_digit`, which takes lower case too and is none for another byte.)
fn nibble(digit: u8) -> u8
    ensures { (result ≡ nibbleOf digit) × (result ≤ 15) }
{
    let more = if digit < b'A' { 0 } else { 9 };
    (digit % 16 + more) % 16
}

// The bytes that a text of digits and single spaces is.
pub fn parse(s: &[u8], bytes: &mut [u8]) -> usize
    ensures { (result ≡ length (bytes_of (length bytes.old) s.now)) × (bytes.new ≡ over (bytes_of (length bytes.old) s.now) bytes.old) }
{
    let mut left = s;
    for k in 0..bytes.len() {
        let [high, low, ..] = *left else {
            return k;
        };
        bytes[k] = nibble(high) * 16 + nibble(low);
        left = behind(left, 3);
    }
    bytes.len()
}

// The digit of a byte's low half.
pub(crate) fn digit(n: u8) -> u8
    ensures { result ≡ digitOf (n % 16) }
{
    let low = n % 16;
    if low < 10 {
        b'0' + low
    } else {
        b'A' + (low - 10)
    }
}
