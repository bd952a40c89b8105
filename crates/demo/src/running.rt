// A call made on a state, with buffers that are looked at as a whole afterwards.
ghost use Rattle.state_by_value.specs.States.{MadeState};

use parts::hex::parse;
use parts::saying::Saying;
use parts::{before, behind, field, head, number, rest};
use scripts::apart;
use scripts::naming::{Call, length_in, value_in};
use scripts::telling::{KEPT, KEPT_PLACE, tell};
use state_by_value::State;
use state_by_value::calls::Stepped;

// How many places the list has of which a call is lent the start: some more than it needs.
const LISTED: usize = numbers::LIST_BUFFER + 4;

// The number that is the k-th word of a call, counted from 0.
fn number_in(call: &[u8], k: usize) -> u64 {
    number(field(call, b' ', k), 0)
}

// A call on the state; those that need none leave it, and are not made here.
fn step(state: State, call: &[u8], frame: &[u8], out: &mut [u8], list: &mut [u16]) -> Stepped
    requires { MadeState state }
    ensures { MadeState result.state }
{
    let client = (number_in(call, 1) % 4294967296) as u32;
    let time = number_in(call, 2);
    match Call::named(call) {
        Call::Fresh => state_by_value::calls::fresh(value_in(call)),
        Call::Attach => state_by_value::calls::attach(state, client),
        Call::Detach => state_by_value::calls::detach(state, client),
        Call::Request => request_by_value::request(state, client, number_in(call, 3), frame, out),
        Call::Reply => reply_by_value::reply(state, time, frame, out, list),
        Call::Tick => tick_by_value::tick(state, time, out, list),
        _ => state_by_value::calls::link_lost(state),
    }
}

// Lends the start of each buffer to a call.
fn lend(state: State, call: &[u8], frame: &[u8], out: &mut [u8], list: &mut [u16]) -> Stepped
    requires { MadeState state }
    ensures { MadeState result.state }
{
    let lent = length_in(call, b'o', numbers::FRAME_BUFFER, out.len());
    let places = length_in(call, b'l', numbers::LIST_BUFFER, list.len());
    step(
        state,
        head(call, b','),
        frame,
        &mut out[0..lent],
        &mut list[0..places],
    )
}

// A call on the state, in buffers that are filled before it and looked at as a whole behind it.
fn run_call(state: State, call: &[u8], bytes: &[u8], said: &mut Saying) -> State
    requires { MadeState state }
    ensures { MadeState result }
{
    let mut frame = [0u8; 300];
    let parsed = parse(bytes, &mut frame);
    let size = length_in(call, b'z', parsed, 300);
    let mut out = [KEPT; 300];
    let mut list = [KEPT_PLACE; LISTED];
    let r = lend(state, call, before(&frame, size), &mut out, &mut list);
    tell(said, r.answer, &out, &list);
    r.state
}

// A call, with what came of it said.
pub fn run(state: State, row: &[u8], said: &mut Saying) -> State
    requires { MadeState state }
    ensures { MadeState result }
{
    let call = head(row, b':');
    let bytes = behind(rest(row, b':'), 1);
    if !apart::leaves(call) {
        return run_call(state, call, bytes, said);
    }
    let cursor = state.cursor.0;
    apart::run(said, call, bytes, cursor, state.clock, state.attached);
    state
}
