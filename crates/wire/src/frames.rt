// The check of a frame's header, an id laid over a frame, and exception frames.
ghost use Rattle.std.specs.Prelude.{◌≡◌, ◌+◌, ◌%◌, ◌≤◌, length};
ghost use Rattle.numbers.specs.Numbers.{exception_bit, exception_frame};
ghost use Rattle.laws.specs.Bytes.{over};
ghost use Rattle.wire.specs.Frame.{misframed, laid, exception};

use crate::{pair_at, put_at};

// Refusal 4 of a request or a reply.
#[tactic(auto, unfolding(crate::specs::Frame::misframed))]
pub fn is_misframed(frame: &[u8]) -> bool
    ensures { result ≡ misframed frame.now }
{
    let n = frame.len();
    !(numbers::LEAST_FRAME..=numbers::MOST_FRAME).contains(&n)
        || pair_at(frame, 2) != 0
        || usize::from(pair_at(frame, 4)) + numbers::UNCOUNTED != n
}

// Lays an id over bytes 0 and 1.
pub fn lay_id(out: &mut [u8], id: u16)
    requires { 2 ≤ length out.old }
    ensures { out.new ≡ laid id out.old }
{
    put_at(out, 0, id);
}

// Writes the exception frame over the start of out.
#[tactic(auto, unfolding(crate::specs::Frame::exception))]
pub fn except(out: &mut [u8], id: u16, unit: u8, function: u8, code: u8)
    requires { exception_frame ≤ length out.old }
    ensures { out.new ≡ over (exception id unit function code) out.old }
{
    let [high, low] = id.to_be_bytes();
    let length = numbers::EXCEPTION_LENGTH;
    let frame = [high, low, 0, 0, 0, length, unit, flagged(function), code];
    out[..numbers::EXCEPTION_FRAME].copy_from_slice(&frame);
}

// A function's number in an exception, as a byte.
fn flagged(function: u8) -> u8
    ensures { result ≡ (function + exception_bit) % 256 }
{
    function.wrapping_add(numbers::EXCEPTION_BIT)
}
