// What more than one kind of call says: a frame behind a ':', and whether a buffer was changed beyond what was written.
ghost use Rattle.std.specs.Prelude.{◌≡◌, [], ◌∷◌, drop};
ghost use Rattle.parts.specs.Saying.{Says};
ghost use Rattle.scripts.specs.Pieces.{frame_text, kept_byte, all_are, touched as touchedText};

use crate::telling::KEPT;
use parts::behind;
use parts::saying::Saying;

// Where the bytes begin, behind the mark.
pub const COLUMN: usize = 28;

// Says the ':' behind which the bytes begin at the column.
pub fn say_colon(said: &mut Saying)
    ensures { Says said.old (58 ∷ []) said.new }
{
    let at = said.at.unwrap_or(COLUMN);
    said.say(b":");
    said.print_held(behind(&[b' '; COLUMN], at));
}

// Says a frame, if there is one.
pub fn say_frame(said: &mut Saying, frame: &[u8])
    ensures { Says said.old (frame_text frame.now) said.new }
{
    if !frame.is_empty() {
        say_colon(said);
        said.say_hex(frame);
    }
}

// Says so where a byte or a place changed beyond those that a call wrote.
pub fn say_touched(said: &mut Saying, kept: bool)
    ensures { Says said.old (touchedText kept) said.new }
{
    if !kept {
        said.say(b" touched");
    }
}

// Says so where a byte of a buffer from a place on is not as it was before the call.
pub fn say_kept(said: &mut Saying, buffer: &[u8], from: usize)
    ensures { Says said.old (touchedText (all_are kept_byte (drop from buffer.now))) said.new }
{
    let kept = behind(buffer, from).iter().all(|byte| *byte == KEPT);
    say_touched(said, kept);
}
