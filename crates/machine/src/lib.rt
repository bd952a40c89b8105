// What each call does, in document 01's words: definitions and the theorems on them. The only code is the types of what is answered.
#![tactic(auto)]

ghost use Rattle.std.specs.Prelude.{◌≡◌};
ghost use Rattle.machine.specs.declared.Answer.TheVariants.{Refused};
ghost use Rattle.machine.specs.RefusalNumbers.{number_of};

use pdu::ProxyId;

// The refusals, by document 01's numbers.
#[derive(Clone, Copy, PartialEq, Eq)]
pub enum Refusal {
    Buffer = 1,
    Client = 2,
    Time = 3,
    Frame = 4,
    Function = 5,
    Length = 6,
    Unknown = 7,
    Mismatch = 8,
    Attached = 9,
    Settings = 10,
}

// What a call answers. Each case's numbers for the C host are in specs/Numbers.antt. (A refusal is a number and an exception its code here, and the counts stand apart, as the theorems on answers have them.)
#[derive(Clone, Copy)]
pub enum Answer {
    // A number, not a Refusal, and below a code, which is a byte of the frame: the theorems on what is refused and excepted, as `refused_is`, conclude `Refused n` and `Excepted code`.
    Refused {
        number: u32,
    },
    Done,
    Issued {
        id: ProxyId,
        length: u32,
        partial: u32,
        value: u32,
    },
    Joined {
        id: ProxyId,
    },
    Excepted {
        code: u8,
    },
    Answered {
        id: ProxyId,
        length: u32,
        parties: u32,
        partial: u32,
        value: u32,
    },
    TimedOut {
        id: ProxyId,
        parties: u32,
    },
    NothingDue,
    Lost {
        set: u32,
    },
    Hit {
        length: u32,
        partial: u32,
        value: u32,
    },
}

impl From<Refusal> for Answer {
    ghost from_gives = { λ refusal answer. answer ≡ Refused (number_of refusal) };

    fn from(refusal: Refusal) -> Answer {
        Answer::Refused {
            number: refusal as u32,
        }
    }
}

// The C host's answer, numbers alone: a field that a call does not speak of is 0.
#[repr(C)]
#[derive(Clone, Copy, Default)]
pub struct Report {
    pub refusal: u32,
    pub line: u32,
    pub outcome: u32,
    pub length: u32,
    pub parties: u32,
    pub partial: u32,
    pub value: u32,
    pub set: u32,
    pub id: u32,
    pub code: u32,
}

// How many requests are live, and the earliest deadline of them, NO_DEADLINE where none is: C's struct zb_next has no place for "none".
#[repr(C)]
#[derive(Clone, Copy)]
pub struct NextDeadline {
    pub time: u64,
    pub live: u32,
}

pub const NO_DEADLINE: u64 = 18446744073709551615;
