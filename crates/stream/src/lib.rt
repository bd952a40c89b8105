// Bytes as they arrive: a stream keeps the bytes of an unfinished frame, takes pieces of any size, and yields frames one by one.
#![tactic(auto)]

ghost use Rattle.std.specs.Prelude.{◌≡◌, ◌≤◌, length};
ghost use Rattle.numbers.specs.Numbers.{most_frame, frame_buffer};
ghost use Rattle.machine.specs.RefusalNumbers.{number_of};
ghost use Rattle.stream.specs.Stream.{refused, framed, wanting};
ghost use Rattle.stream.specs.Lent.{MadeStream, Takes, Resets, Filled};

use machine::Refusal;
use reports::Outcome;
use wire::splitting::Split;

// The stream that a host lends, changed in place: C's struct zb_stream, with the count beside the bytes and the mark as a number.
#[repr(C)]
#[derive(Drop)]
pub struct LentStream {
    pub bytes: [u8; numbers::MOST_FRAME],
    pub count: u32,
    pub mark: u32,
}

// What a call on a stream answers: C's zb_taken.
#[repr(C)]
#[derive(Clone, Copy, Default)]
pub struct Taken {
    pub refusal: u32,
    pub outcome: u32,
    pub length: u32,
    pub taken: u32,
}

impl Taken {
    // A refusal, after which so many bytes of the piece are taken.
    fn refused(refusal: Refusal, taken: u32) -> Taken
        ensures { result ≡ refused (number_of refusal) taken }
    {
        Taken {
            refusal: refusal as u32,
            taken,
            ..Taken::default()
        }
    }

    // A frame of so many bytes.
    fn framed(length: u32, taken: u32) -> Taken
        ensures { result ≡ framed length taken }
    {
        Taken {
            outcome: Outcome::Frame as u32,
            length,
            taken,
            ..Taken::default()
        }
    }

    // More bytes are needed.
    fn wanting(taken: u32) -> Taken
        ensures { result ≡ wanting taken }
    {
        Taken {
            outcome: Outcome::More as u32,
            taken,
            ..Taken::default()
        }
    }
}

// Writes a piece behind the bytes kept, as far as there is room, and says where it ends.
fn fill(bytes: &mut [u8; numbers::MOST_FRAME], from: usize, piece: &[u8]) -> usize
    requires { from ≤ most_frame }
    ensures { Filled bytes.old from piece.now result bytes.new }
{
    let n = piece.len().min(numbers::MOST_FRAME - from);
    wire::copy(&mut bytes[from..from + n], &piece[..n]);
    from + n
}

impl LentStream {
    // A stream for a new connection, whatever it was.
    pub fn reset(&mut self) -> Taken
        ensures { Resets result self.new }
    {
        self.count = 0;
        self.mark = 0;
        Taken {
            outcome: Outcome::Done as u32,
            ..Taken::default()
        }
    }

    // Takes of a piece what belongs to the next frame, and writes that frame once it is whole. One that lies whole in the piece is copied from there.
    pub fn take_piece(&mut self, piece: &[u8], out: &mut [u8]) -> Taken
        requires { MadeStream self.old }
        ensures { Takes self.old piece.now out.old result self.new out.new }
    {
        if out.len() < numbers::FRAME_BUFFER {
            return Taken::refused(Refusal::Buffer, 0);
        }
        if self.mark != 0 {
            return Taken::refused(Refusal::Frame, 0);
        }
        if let Split::Frame(frame) = wire::splitting::standing(piece) {
            if self.count == 0 {
                wire::copy(out, frame);
                let length = frame.len() as u32;
                return Taken::framed(length, length);
            }
        }
        self.take_behind(piece, out)
    }

    // Takes a piece behind the bytes kept, of which no frame is whole, and writes the frame once it is.
    fn take_behind(&mut self, piece: &[u8], out: &mut [u8]) -> Taken
        requires { MadeStream self.old × (frame_buffer ≤ length out.old) × (self.old.mark ≡ 0) }
        ensures { Takes self.old piece.now out.old result self.new out.new }
    {
        let before = self.count;
        let end = fill(&mut self.bytes, before as usize, piece);
        match wire::splitting::standing(&self.bytes[..end]) {
            Split::Frame(frame) => {
                wire::copy(out, frame);
                let length = frame.len() as u32;
                self.count = 0;
                Taken::framed(length, length - before)
            }
            Split::MoreNeeded => {
                let length = end as u32;
                self.count = length;
                Taken::wanting(length - before)
            }
            Split::Refused => {
                let header = numbers::UNCOUNTED as u32;
                self.count = header;
                self.mark = 1;
                Taken::refused(Refusal::Frame, header - before)
            }
        }
    }
}
