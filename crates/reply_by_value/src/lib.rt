// The reply over a state by value, for programs and tests.
#![tactic(auto)]

ghost use Rattle.machine.specs.Calls.Call.{reply as replies};
ghost use Rattle.state_by_value.specs.States.{MadeState};
ghost use Rattle.state_by_value.specs.Stepped.{ServedByValue};

use state_by_value::calls::Stepped;
use state_by_value::{State, gather, spread};

// The controller's reply.
pub fn reply(s: State, time: u64, frame: &[u8], out: &mut [u8], list: &mut [u16]) -> Stepped
    requires { MadeState s }
    ensures { ServedByValue s (replies time frame.now out.old list.old) result out.new list.new }
{
    let mut device = spread(s);
    let answer = answering::reply(&mut device, time, frame, out, list);
    Stepped {
        state: gather(device),
        answer,
    }
}
