// Document 01's examples, and behind them every refusal of every call by several causes, as a script of calls on one state: the table is in the file stdin.
// Each call is printed with what came of it, and held against what must come of it.
// A row of a table is a name, a call, and what comes of it, each ended by '|', and the row by LF. A row with no name belongs to the one above it.
// A line with nothing in it and one that begins with '#' are passed over.
// The calls: see naming.rt of scripts. What comes of them: see telling.rt there.
#![tactic(auto)]

ghost use Rattle.state_by_value.specs.States.{MadeState};

use parts::input::read_full;
use parts::output::Output;
use parts::saying::Saying;
use parts::tally::Tally;
use parts::{before, field, head, number, rest, tally};
use running::run;
use state_by_value::State;
use std::io;

mod running;

// The state that the calls are made on, and the tally so far.
#[derive(Drop)]
struct Session {
    state: State,
    tally: Tally,
}

// A fresh state with document 01's settings, and nothing shown yet.
fn start(tally: Tally) -> Session
    ensures { MadeState result.state }
{
    let made = state_by_value::calls::fresh(scripts::naming::value_in(b""));
    let state = made.state;
    Session { state, tally }
}

// A call of which nothing is said.
fn unsaid(state: State, call: &[u8], output: &mut Output) -> State
    requires { MadeState state }
    ensures { MadeState result }
{
    let mut said = Saying::new(&[], output);
    run(state, call, &mut said)
}

// The calls of a row, the call of which "x62 " before it makes 62; of the last one alone it is said what came of it.
fn repeat(state: State, call: &[u8], said: &mut Saying) -> State
    requires { MadeState state }
    ensures { MadeState result }
{
    if wire::byte_at(call, 0) != b'x' {
        return run(state, call, said);
    }
    let once = rest(call, b' ');
    let mut made = state;
    for _ in 1..number(head(call, b' '), 1) {
        made = unsaid(made, once, said.output);
    }
    run(made, once, said)
}

fn row(s: Session, row: &[u8], output: &mut Output) -> Session
    requires { MadeState s.state }
    ensures { MadeState result.state }
{
    if !tally::is_row(row) {
        return s;
    }
    let call = field(row, b'|', 1);
    scripts::print_call(field(row, b'|', 0), call, output);
    let mut said = Saying::new(field(row, b'|', 2), output);
    let state = repeat(s.state, call, &mut said);
    let tally = s.tally.ended(said);
    Session { state, tally }
}

// Every row of a table.
fn play(s: Session, table: &[u8], output: &mut Output) -> Session
    requires { MadeState s.state }
    ensures { MadeState result.state }
{
    let mut session = s;
    for line in table.split(|byte| *byte == b'\n') {
        session = row(session, line, output);
    }
    session
}

// Plays the table, and says how many rows there were and how many of them differ.
fn main(rt: HostRuntime) -> io::Result<()> {
    let mut output = Output::new(rt.stdout());
    tally::print_line(
        b"",
        b"a call = its outcome, proxy id, tags raw for partial cover and for value: frame to client,id of each party",
        &mut output,
    );
    let mut buffer = [0u8; 65536];
    let size = read_full(&mut rt.stdin(), &mut buffer)?;
    let s = play(
        start(Tally::start(size, &buffer)),
        before(&buffer, size),
        &mut output,
    );
    s.tally.print(b"demo: ", b" shown, ", &mut output);
    output.end()
}
