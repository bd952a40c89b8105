// The exported calls on a stream that a host lends: bytes as they arrive.
ghost use Rattle.stream.specs.Lent.{MadeStream, Takes, Resets};

use stream::{LentStream, Taken};

// A stream for a new connection, whatever it was.
#[unsafe(no_mangle)]
pub extern "C" fn zb_stream_reset(st: &mut LentStream) -> Taken
    ensures { Resets result st.new }
{
    st.reset()
}

// Takes of a piece what belongs to the next frame, and writes that frame once it is whole.
#[unsafe(no_mangle)]
pub extern "C" fn zb_stream_take(st: &mut LentStream, piece: &[u8], out: &mut [u8]) -> Taken
    requires { MadeStream st.old }
    ensures { Takes st.old piece.now out.old result st.new out.new }
{
    st.take_piece(piece, out)
}
