// What the C host is told: of an answer, and of the calls that need no device: splitting a run, settings read and written.
#![tactic(auto)]

ghost use Rattle.std.specs.Prelude.{◌≡◌};
ghost use Rattle.machine.specs.Numbers.{numbers};
ghost use Rattle.reports.specs.Reports.{short_report, line_told, SplitPromised, ReadPromised, WritePromised};

use machine::{Answer, Refusal, Report};
use settings::Settings;
use settingstext::writing::WriteError;
use wire::splitting::Split;

// What came of a call, in C's numbers: ZB_DONE to ZB_HIT. Reading and writing settings are done too.
#[derive(Clone, Copy)]
pub enum Outcome {
    Done = 1,
    Issued = 2,
    Joined = 3,
    Exception = 4,
    Answered = 5,
    TimedOut = 6,
    NothingDue = 7,
    Frame = 8,
    More = 9,
    Hit = 10,
}

pub const EXCEPTION: u32 = Outcome::Exception as u32;

// The numbers of an answer. (A function and no `From`: docs/CLAIMS.md names it.)
#[tactic(auto, unfolding(machine::specs::Numbers::numbers))]
pub fn report_of(a: Answer) -> Report
    ensures { result ≡ numbers a }
{
    let exception = numbers::EXCEPTION_FRAME as u32;
    match a {
        Answer::Refused { number } => Report {
            refusal: number,
            ..Report::default()
        },
        Answer::Done => Report {
            outcome: Outcome::Done as u32,
            ..Report::default()
        },
        Answer::Issued {
            id,
            length,
            partial,
            value,
        } => Report {
            outcome: Outcome::Issued as u32,
            id: u32::from(id.0),
            length,
            partial,
            value,
            ..Report::default()
        },
        Answer::Joined { id } => Report {
            outcome: Outcome::Joined as u32,
            id: u32::from(id.0),
            ..Report::default()
        },
        Answer::Excepted { code } => Report {
            outcome: Outcome::Exception as u32,
            length: exception,
            code: u32::from(code),
            ..Report::default()
        },
        Answer::Answered {
            id,
            length,
            parties,
            partial,
            value,
        } => Report {
            outcome: Outcome::Answered as u32,
            id: u32::from(id.0),
            length,
            parties,
            partial,
            value,
            ..Report::default()
        },
        Answer::TimedOut { id, parties } => Report {
            outcome: Outcome::TimedOut as u32,
            id: u32::from(id.0),
            length: exception,
            parties,
            ..Report::default()
        },
        Answer::NothingDue => Report {
            outcome: Outcome::NothingDue as u32,
            ..Report::default()
        },
        Answer::Lost { set } => Report {
            outcome: Outcome::Done as u32,
            set,
            ..Report::default()
        },
        Answer::Hit {
            length,
            partial,
            value,
        } => Report {
            outcome: Outcome::Hit as u32,
            length,
            partial,
            value,
            ..Report::default()
        },
    }
}

// A report that speaks of a refusal, a line, an outcome or a length.
fn said(refusal: u32, line: u32, outcome: u32, length: u32) -> Report
    ensures { result ≡ short_report refusal line outcome length }
{
    Report {
        refusal,
        line,
        outcome,
        length,
        ..Report::default()
    }
}

// What reading a settings text gives: C's zb_read.
#[repr(C)]
#[derive(Drop)]
pub struct SettingsRead {
    pub answer: Report,
    pub settings: Settings,
}

// Splits a run: the first frame's length, more needed, or refusal 4.
pub fn split(run: &[u8]) -> Report
    ensures { SplitPromised run.now result }
{
    match wire::splitting::standing(run) {
        Split::Frame(frame) => said(0, 0, Outcome::Frame as u32, frame.len() as u32),
        Split::MoreNeeded => said(0, 0, Outcome::More as u32, 0),
        Split::Refused => said(Refusal::Frame as u32, 0, 0, 0),
    }
}

// A text with this first wrong line, or with none.
fn read_as(line: u32) -> Report
    ensures { result ≡ line_told line }
{
    if line == 0 {
        said(0, 0, Outcome::Done as u32, 0)
    } else {
        said(Refusal::Settings as u32, line, 0, 0)
    }
}

// Reads a settings text: the value, or refusal 10 with the first wrong line and the usual value.
pub fn read(text: &[u8]) -> SettingsRead
    ensures { ReadPromised text.now result }
{
    let read = settingstext::reading::read_text(text);
    let answer = read_as(read.line);
    let settings = read.settings;
    SettingsRead { answer, settings }
}

// Writes the text of a settings value that is lent: its length, refusal 10 for an invalid value, or refusal 1 for a short buffer.
pub fn write(from: &Settings, text: &mut [u8]) -> Report
    ensures { WritePromised from.now text.old result text.new }
{
    match settingstext::writing::write_text(from, text) {
        Ok(size) => said(0, 0, Outcome::Done as u32, size as u32),
        Err(WriteError::TooShort) => said(Refusal::Buffer as u32, 0, 0, 0),
        Err(WriteError::Invalid) => said(Refusal::Settings as u32, 0, 0, 0),
    }
}
