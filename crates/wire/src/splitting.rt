// Splitting a run of received bytes: what stands at its start, its first whole frame as a part of it.
ghost use Rattle.std.specs.Prelude.{◌≡◌};
ghost use Rattle.wire.specs.Splitting.{standing_of, first_frame};
ghost use Rattle.wire.specs.Told.{standing_in, frame_in};

use crate::pair_at;

// What stands at the start of a run of received bytes: its first whole frame, the start of one, or a header that is refused. (Three outcomes: a Result of an Option would name none of the three.)
#[derive(Clone, Copy)]
pub enum Split<'a> {
    Frame(&'a [u8]),
    MoreNeeded,
    Refused,
}

// Whether a frame stands at the start of a run, which is handed back as a part of it, more bytes are needed, or the header is refused.
#[tactic(auto, unfolding(crate::specs::Splitting::standing_of, crate::specs::Splitting::first_frame, crate::specs::Splitting::size_if))]
pub fn standing(run: &[u8]) -> Split<'_>
    ensures standing { standing_in result ≡ standing_of run.now }
    ensures frame { frame_in result ≡ first_frame run.now }
{
    if run.len() < numbers::UNCOUNTED {
        return Split::MoreNeeded;
    }
    let length = pair_at(run, 4);
    if pair_at(run, 2) != 0 || !(numbers::LEAST_LENGTH..=numbers::MOST_LENGTH).contains(&length) {
        return Split::Refused;
    }
    match run.get(..numbers::UNCOUNTED + usize::from(length)) {
        Some(frame) => Split::Frame(frame),
        None => Split::MoreNeeded,
    }
}
