// The count of examples, and a printed line.
ghost use Rattle.std.specs.Prelude.{◌≡◌};
ghost use Rattle.parts.specs.Tallies.{is_row};

use crate::digits::decimal;
use crate::output::Output;
use crate::saying::Saying;
use std::num::wrapping_add_u64;

// How many examples were shown, and how many of them came out otherwise than is said beside them.
#[derive(Clone, Copy)]
pub struct Tally {
    pub shown: u64,
    pub differ: u64,
}

impl Tally {
    ghost use Rattle.parts.specs.Tallies.{started, counted as counted_of, ended as ended_of};
    ghost use Rattle.parts.specs.Saying.{place};

    // Nothing shown yet. A table that fills its buffer may have been cut: that is one difference.
    pub fn start(size: usize, buffer: &[u8]) -> Tally
        ensures { result ≡ started size buffer.now }
    {
        let differ = u64::from(size >= buffer.len());
        Tally { shown: 0, differ }
    }

    // One example more, and so many differences.
    pub fn counted(self, differ: u64) -> Tally
        ensures { result ≡ counted_of self differ }
    {
        Tally {
            shown: wrapping_add_u64(self.shown, 1),
            differ: wrapping_add_u64(self.differ, differ),
        }
    }

    // The end of the line in which an example was said; what must stand there is printed where they differ.
    pub fn ended(self, said: Saying) -> Tally
        ensures { result ≡ ended_of self said.entry.right.now (place said.entry) }
    {
        said.output.print(b"\n");
        if said.at == Some(said.right.len()) {
            return self.counted(0);
        }
        print_line(b"  DIFFERS ", said.right, said.output);
        self.counted(1)
    }

    // The last line of a program: its name, its tally, and the word for what it counts.
    pub fn print(self, name: &[u8], word: &[u8], output: &mut Output) {
        output.print(name);
        print_decimal(self.shown, output);
        output.print(word);
        print_decimal(self.differ, output);
        output.print(b" differ\n");
    }
}

// Whether a line of a table is a row: one with nothing in it and one that begins with '#' are there for the reader.
pub fn is_row(line: &[u8]) -> bool
    ensures { result ≡ is_row line.now }
{
    let first = wire::byte_at(line, 0);
    (first != 0) & (first != b'#')
}

pub fn print_line(label: &[u8], text: &[u8], output: &mut Output) {
    output.print(label);
    output.print(text);
    output.print(b"\n");
}

// Prints a number in decimal digits. (By `decimal`: for `write!` the output would need the trait Write, and the digits a second way.)
fn print_decimal(n: u64, output: &mut Output) {
    let mut digits = [0u8; 20];
    let size = decimal(n, &mut digits);
    output.print(&digits[..size]);
}
