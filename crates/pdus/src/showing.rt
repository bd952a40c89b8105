// An example run, printed and held against what it must give. A row of a table is its name, the request, the reply (nothing where the request itself is
// shown) and what comes of it, each ended by '|', and the row by LF. What comes of it is a refusal; or the tags raw for partial cover, those raw for value,
// and the frame. A line with nothing in it and one that begins with '#' are passed over.
use crate::driving::{Given, bring, send};
use machine::Refusal;
use parts::hex::parse;
use parts::output::Output;
use parts::saying::Saying;
use parts::tally::{Tally, is_row, print_line};
use parts::{before, field};

// Says what a call gave.
fn tell(said: &mut Saying, given: Result<Given, Refusal>, out: &[u8]) {
    match given {
        Err(refusal) => said.say_form(b"refusal D", refusal as u64, 0, 0),
        Ok(given) => {
            let raw = given.raw;
            said.say_form(b"D,D:", u64::from(raw.partial), u64::from(raw.value), 0);
            said.say_hex(before(out, given.size));
        }
    }
}

// What a request gives, or the reply to it if there is one.
fn give(request: &[u8], reply: &[u8], out: &mut [u8]) -> Result<Given, Refusal> {
    let mut answer = [0u8; numbers::MOST_FRAME];
    let size = parse(reply, &mut answer);
    if size == 0 {
        return send(request, out);
    }
    bring(request, before(&answer, size), out)
}

// Runs an example, and says what comes of it.
fn run(said: &mut Saying, request: &[u8], reply: &[u8]) {
    let mut asked = [0u8; numbers::MOST_FRAME];
    let mut out = [0u8; numbers::MOST_FRAME];
    let size = parse(request, &mut asked);
    let given = give(before(&asked, size), reply, &mut out);
    tell(said, given, &out);
}

// Prints an example up to where what comes of it is said.
fn print_example(name: &[u8], request: &[u8], reply: &[u8], output: &mut Output) {
    let labels = b"|  request      |  reply        |  gives   |";
    print_line(field(labels, b'|', 0), name, output);
    print_line(field(labels, b'|', 1), request, output);
    if !reply.is_empty() {
        print_line(field(labels, b'|', 2), reply, output);
    }
    output.print(field(labels, b'|', 3));
}

fn example(t: Tally, row: &[u8], output: &mut Output) -> Tally {
    if !is_row(row) {
        return t;
    }
    let request = field(row, b'|', 1);
    let reply = field(row, b'|', 2);
    print_example(field(row, b'|', 0), request, reply, output);
    let mut said = Saying::new(field(row, b'|', 3), output);
    run(&mut said, request, reply);
    t.ended(said)
}

// Every row of a table. (The programs have such a loop each, of two lines, over different states.)
pub fn examples(t: Tally, table: &[u8], output: &mut Output) -> Tally {
    let mut tally = t;
    for line in table.split(|byte| *byte == b'\n') {
        tally = example(tally, line, output);
    }
    tally
}
