// Settings texts, each with the line at which document 01 finds it wrong, or 0 where it is right: the table is in the file stdin.
// Its first line is the pieces that the rows name, each ended by '|'. A row is the wrong line, a blank, and the text as it is spelled: ';' is LF, '^' CR,
// '~' tab, '_' a blank, '$' NUL, and '@1' to '@9' and '@A' to '@K' the pieces. Behind a '|' stands the text that is written of the value, where it is another.
// In place of a line's number, v has the value looked at, s the same with a sign at its first tag, t that with a ttl of 500 there and of 60000 at the second, and m that with the first tag strict.
#![tactic(auto)]

mod spelling;
mod texts;

use parts::input::read_full;
use parts::output::Output;
use parts::tally::Tally;
use parts::{before, head, rest, tally};
use std::io;

fn row<'a>(t: Tally, pieces: &'a [u8], row: &'a [u8], output: &mut Output) -> Tally {
    if !tally::is_row(row) {
        return t;
    }
    let mut text = [0u8; 12288];
    let mut other = [0u8; 12288];
    let spelled = rest(row, b' ');
    let size = spelling::spell(pieces, head(spelled, b'|'), &mut text);
    let room = spelling::spell(pieces, rest(spelled, b'|'), &mut other);
    let word = head(row, b' ');
    texts::read(t, word, before(&text, size), before(&other, room), output)
}

// Every row of a table. (The programs have such a loop each, of two lines, over different states.)
fn rows<'a>(t: Tally, pieces: &'a [u8], table: &'a [u8], output: &mut Output) -> Tally {
    let mut tally = t;
    for line in table.split(|byte| *byte == b'\n') {
        tally = row(tally, pieces, line, output);
    }
    tally
}

fn main(rt: HostRuntime) -> io::Result<()> {
    let mut output = Output::new(rt.stdout());
    let mut buffer = [0u8; 131072];
    let size = read_full(&mut rt.stdin(), &mut buffer)?;
    let table = before(&buffer, size);
    let t = Tally::start(size, &buffer);
    let t = rows(t, head(table, b'\n'), rest(table, b'\n'), &mut output);
    t.print(b"texts: ", b" read, ", &mut output);
    output.end()
}
