// The request over a state by value, for programs and tests.
#![tactic(auto)]

ghost use Rattle.std.specs.Prelude.{[]};
ghost use Rattle.machine.specs.Calls.Call.{request as asks};
ghost use Rattle.state_by_value.specs.States.{MadeState};
ghost use Rattle.state_by_value.specs.Stepped.{ServedByValue};

use state_by_value::calls::Stepped;
use state_by_value::{State, gather, spread};

// A client's request.
pub fn request(s: State, client: u32, time: u64, frame: &[u8], out: &mut [u8]) -> Stepped
    requires { MadeState s }
    ensures { ServedByValue s (asks client time frame.now out.old) result out.new [] }
{
    let mut device = spread(s);
    let answer = requesting::request(&mut device, client, time, frame, out);
    Stepped {
        state: gather(device),
        answer,
    }
}
