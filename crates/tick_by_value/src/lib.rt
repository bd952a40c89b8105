// The tick over a state by value, for programs and tests.
#![tactic(auto)]

ghost use Rattle.machine.specs.Calls.Call.{tick as ticks};
ghost use Rattle.state_by_value.specs.States.{MadeState};
ghost use Rattle.state_by_value.specs.Stepped.{ServedByValue};

use state_by_value::calls::Stepped;
use state_by_value::{State, gather, spread};

// Time goes on.
pub fn tick(s: State, time: u64, out: &mut [u8], list: &mut [u16]) -> Stepped
    requires { MadeState s }
    ensures { ServedByValue s (ticks time out.old list.old) result out.new list.new }
{
    let mut device = spread(s);
    let answer = answering::tick(&mut device, time, out, list);
    Stepped {
        state: gather(device),
        answer,
    }
}
