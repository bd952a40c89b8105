// What comes out is said piece by piece: each is printed, and held against what must stand at its place.
ghost use Rattle.std.specs.Prelude.{◌≡◌, min, max, None, Some};
ghost use Rattle.parts.specs.Texts.{hex_of};
ghost use Rattle.parts.specs.Said.{said, numeral, marked, formed};
ghost use Rattle.parts.specs.Saying.{place_of, Says};

use crate::behind;
use crate::digits::{decimal, hex};
use crate::hex::digit;
use crate::output::Output;

// The place behind a piece at a place; none where the piece differs from what stands there.
fn place_behind(right: &[u8], at: usize, piece: &[u8]) -> Option<usize>
    ensures { place_of result ≡ said right.now (place_of (Some at)) piece.now }
{
    if behind(right, at).starts_with(piece) {
        at.checked_add(piece.len())
    } else {
        None
    }
}

// What must come out, the place of the next piece in it, and where each piece is printed. Behind a piece that differs there is no place: nothing there is right.
#[derive(Drop)]
pub struct Saying<'a> {
    pub right: &'a [u8],
    pub at: Option<usize>,
    pub output: &'a mut Output,
}

impl<'a> Saying<'a> {
    // Nothing said yet.
    pub fn new(right: &'a [u8], output: &'a mut Output) -> Saying<'a>
        ensures right { result.right.now ≡ right.now }
        ensures at { result.at ≡ Some 0 }
    {
        Saying {
            right,
            at: Some(0),
            output,
        }
    }

    // Prints bytes, unless what they are held against is nothing: a call that is not the last of its row is made so.
    pub fn print_held(&mut self, bytes: &[u8])
        ensures right { self.new.right.now ≡ self.old.right.now }
        ensures at { self.new.at ≡ self.old.at }
    {
        if !self.right.is_empty() {
            self.output.print(bytes);
        }
    }

    // Says a piece: behind it stands the next.
    pub fn say(&mut self, piece: &[u8])
        ensures { Says self.old piece.now self.new }
    {
        self.print_held(piece);
        if let Some(at) = self.at {
            self.at = place_behind(self.right, at, piece);
        }
    }

    // Says a number in decimal digits, and in so many hexadecimal ones.
    fn say_decimal(&mut self, n: u64)
        ensures { Says self.old (numeral 10 1 n) self.new }
    {
        let mut digits = [0u8; 20];
        let size = decimal(n, &mut digits);
        self.say(&digits[..size]);
    }

    fn say_digits(&mut self, n: u64, width: usize)
        ensures { Says self.old (numeral 16 (min (max width 1) 16) n) self.new }
    {
        let mut digits = [0u8; 16];
        let size = hex(n, width, &mut digits);
        self.say(&digits[..size]);
    }

    // Says a number where a form has a mark for one: D for decimal digits; B, X, L for 2, 4, 8 hexadecimal ones.
    fn say_marked(&mut self, mark: u8, n: u64)
        ensures { Says self.old (marked mark n) self.new }
    {
        match mark {
            b'D' => self.say_decimal(n),
            b'B' => self.say_digits(n, 2),
            b'X' => self.say_digits(n, 4),
            b'L' => self.say_digits(n, 8),
            _ => self.say(&[mark]),
        }
    }

    // Says a form with three numbers, in the order of its marks.
    pub fn say_form(&mut self, form: &[u8], one: u64, two: u64, three: u64)
        ensures { Says self.old (formed form.now one two three) self.new }
    {
        let mut n = one;
        let mut then = two;
        for mark in form {
            self.say_marked(*mark, n);
            if mark.is_ascii_uppercase() {
                n = then;
                then = three;
            }
        }
    }

    // Says a blank and the digits of each byte.
    pub fn say_hex(&mut self, bytes: &[u8])
        ensures { Says self.old (hex_of bytes.now) self.new }
    {
        for byte in bytes {
            self.say(&[b' ', digit(byte / 16), digit(*byte)]);
        }
    }
}
