// One tag's registers between binary and binary coded decimal, by the tag's kind.
#![tactic(auto)]

ghost use Rattle.std.specs.Prelude.{◌≡◌, true, ◌*◌, ◌<◌};
ghost use Rattle.std.specs.Int.{w16};
ghost use Rattle.std.proofs.Common.{to_z, of_z};
ghost use Rattle.numbers.specs.Numbers.{digits_per_register, signed_digits};
ghost use Rattle.bcd.specs.Bcd.{packed, unpacked, decimal, encoded_digits, decoded_digits, encoded_signed, decoded_signed, registers, in_range, encoded, decoded};
ghost use Rattle.bcd.specs.Integers.{InThreeDigits, with_sign};

// How many values three digits have, how many four and eight, and how many words there are.
const THREE_DIGITS: u32 = 1000;

const FOUR_DIGITS: u32 = 10000;

const EIGHT_DIGITS: u32 = FOUR_DIGITS * FOUR_DIGITS;

const WORDS: u32 = 65536;

// A sign stands above three nibbles; this one is minus, and 0 is plus.
const THREE_NIBBLES: u32 = 4096;

const MINUS: u32 = 15;

// Where the quotients by 10, 100 and 1000 begin in their products.
const TENS: u32 = 32768;

const HUNDREDS: u32 = TENS * 16;

const THOUSANDS: u32 = HUNDREDS * 16;

// What a tag holds: four digits in one register, or eight in two, or a sign and three digits in one.
#[derive(Clone, Copy)]
pub enum Kind {
    Width16,
    Width32,
    Signed16,
}

// How many registers a tag of this kind has.
#[tactic(auto, unfolding(crate::specs::Bcd::registers))]
pub fn registers_of(kind: Kind) -> usize
    ensures { result ≡ registers kind }
{
    match kind {
        Kind::Width16 => 1,
        Kind::Width32 => 2,
        Kind::Signed16 => 1,
    }
}

// Four decimal digits as nibbles: a digit carries at 10 and a nibble at 16, so each carry weighs 6 more.
// Below 10000 a product divides by 10, 100 and 1000; the three quotients stand a nibble apart, so that one shift takes them all.
fn pack(n: u16) -> u16
    requires { n < 10000 }
    ensures { result ≡ packed 4 n }
{
    let v = u32::from(n);
    let tens = v * 3277;
    let hundreds = v * 5243 / HUNDREDS * HUNDREDS;
    let thousands = v * 8389 / THOUSANDS * THOUSANDS;
    (v + 6 * ((tens + hundreds + thousands) / TENS)) as u16
}

// Four nibbles as decimal digits: the upper nibble of each byte weighs 10 in place of 16, then the upper byte 100 in place of 256.
fn unpack(w: u16) -> u16
    ensures { result ≡ unpacked 4 w }
{
    let tens = w / 16 % 16;
    let thousands = w / 16 / 16 / 16;
    let bytes = w - 6 * (tens + 256 * thousands);
    bytes - 156 * (bytes / 256)
}

// No nibble of the word is above 9: with 6 added to each, none carries.
fn is_decimal(w: u16) -> bool
    ensures { result ≡ decimal 4 w }
{
    let n = u32::from(w);
    ((n + 0x6666) ^ n) & 0x11110 == 0
}

// The digits of one register.
fn encode_word(v: u32) -> Option<u32>
    ensures { result ≡ encoded_digits digits_per_register v }
{
    if v < FOUR_DIGITS {
        Some(u32::from(pack(v as u16)))
    } else {
        None
    }
}

// The digits of two registers: the low four in the low word. (One function for one register and for two, over a count, would need a loop and a power of the count: no plainer. So with their values below.)
fn encode_pair(v: u32) -> Option<u32>
    ensures { result ≡ encoded_digits (2 * digits_per_register) v }
{
    if v < EIGHT_DIGITS {
        let low = pack((v % FOUR_DIGITS) as u16);
        let high = pack((v / FOUR_DIGITS) as u16);
        Some(u32::from(low) + WORDS * u32::from(high))
    } else {
        None
    }
}

// The value of one register's digits; what lies above the word is not looked at.
fn decode_word(w: u32) -> Option<u32>
    ensures { result ≡ decoded_digits digits_per_register w }
{
    let word = (w % WORDS) as u16;
    if is_decimal(word) {
        Some(u32::from(unpack(word)))
    } else {
        None
    }
}

// The value of two registers' digits: the low four in the low word.
fn decode_pair(w: u32) -> Option<u32>
    ensures { result ≡ decoded_digits (2 * digits_per_register) w }
{
    let low = (w % WORDS) as u16;
    let high = (w / WORDS) as u16;
    if is_decimal(low) && is_decimal(high) {
        Some(u32::from(unpack(low)) + FOUR_DIGITS * u32::from(unpack(high)))
    } else {
        None
    }
}

// The value of a two's complement word in the range.
fn value_of(v: u32) -> i16
    requires { in_range Kind.Signed16 v ≡ true }
    ensures { result ≡ to_z w16 v }
{
    (v as u16).cast_signed()
}

// The two's complement word of a value.
fn word_of(value: i16) -> u32
    ensures { result ≡ of_z w16 value }
{
    u32::from(value.cast_unsigned())
}

// The sign's nibble of a value and its three digits.
fn digits_of(value: i16) -> u32
    requires { InThreeDigits value }
    ensures { result ≡ with_sign value }
{
    let digits = u32::from(pack(value.unsigned_abs()));
    if value < 0 {
        digits + MINUS * THREE_NIBBLES
    } else {
        digits
    }
}

// Whether a two's complement word is one from −999 to 999.
fn has_three_digits(v: u32) -> bool
    ensures { result ≡ in_range Kind.Signed16 v }
{
    v < THREE_DIGITS || (v < WORDS && WORDS - THREE_DIGITS < v)
}

// The sign and the digits of one register.
fn encode_signed(v: u32) -> Option<u32>
    ensures { result ≡ encoded_signed signed_digits v }
{
    if has_three_digits(v) {
        Some(digits_of(value_of(v)))
    } else {
        None
    }
}

// The value of one register's sign and digits, where minus 0 is no number; what lies above the word is not looked at.
fn decode_signed(w: u32) -> Option<u32>
    ensures { result ≡ decoded_signed signed_digits w }
{
    let sign = w / THREE_NIBBLES % 16;
    let digits = (w % THREE_NIBBLES) as u16;
    if !is_decimal(digits) {
        return None;
    }
    let size = unpack(digits) as i16;
    match sign {
        0 => Some(word_of(size)),
        MINUS if size != 0 => Some(word_of(-size)),
        _ => None,
    }
}

// Whether a value is in the kind's range.
#[tactic(auto, unfolding(crate::specs::Bcd::in_range))]
pub fn is_in_range(kind: Kind, v: u32) -> bool
    ensures { result ≡ in_range kind v }
{
    match kind {
        Kind::Width16 => v < FOUR_DIGITS,
        Kind::Width32 => v < EIGHT_DIGITS,
        Kind::Signed16 => has_three_digits(v),
    }
}

// A value as BCD, by the kind; none where the value is outside its range.
#[tactic(auto, unfolding(crate::specs::Bcd::encoded))]
pub fn encode(kind: Kind, v: u32) -> Option<u32>
    ensures { result ≡ encoded kind v }
{
    match kind {
        Kind::Width16 => encode_word(v),
        Kind::Width32 => encode_pair(v),
        Kind::Signed16 => encode_signed(v),
    }
}

// The value of a BCD number, by the kind; none where it is no number of the kind: a nibble is above 9, or the sign is none, or it is minus 0.
#[tactic(auto, unfolding(crate::specs::Bcd::decoded))]
pub fn decode(kind: Kind, w: u32) -> Option<u32>
    ensures { result ≡ decoded kind w }
{
    match kind {
        Kind::Width16 => decode_word(w),
        Kind::Width32 => decode_pair(w),
        Kind::Signed16 => decode_signed(w),
    }
}
