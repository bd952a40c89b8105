// Document 01's examples of requests and replies, and MAP's own, as whole frames, each with what it must give beside it: the table is in the file stdin.
#![tactic(auto)]

mod driving;
mod showing;

use parts::input::read_full;
use parts::output::Output;
use parts::tally::Tally;
use std::io;

fn main(rt: HostRuntime) -> io::Result<()> {
    let mut output = Output::new(rt.stdout());
    let mut buffer = [0u8; 65536];
    let size = read_full(&mut rt.stdin(), &mut buffer)?;
    let t = Tally::start(size, &buffer);
    let t = showing::examples(t, parts::before(&buffer, size), &mut output);
    t.print(b"pdus: ", b" shown, ", &mut output);
    output.end()
}
