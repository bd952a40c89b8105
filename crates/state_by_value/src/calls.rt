// The calls over a state by value, for programs and tests: each spreads the state into a device, calls the core that the device's entry points call, and gathers it. Here those without a time.
ghost use Rattle.std.specs.Prelude.{[]};
ghost use Rattle.machine.specs.Calls.Call.{attach as attaches, detach as detaches, link_lost};
ghost use Rattle.state_by_value.specs.States.{MadeState};
ghost use Rattle.state_by_value.specs.Stepped.{ServedByValue, FreshlyByValue};

use crate::{State, gather, spread};
use caching::ReplyCache;
use machine::Answer;
use proxy::{Device, KeptSettings};
use settings::Settings;
use table::LiveTable;

// What a call gives: the state afterwards and the answer.
#[derive(Drop)]
pub struct Stepped {
    pub state: State,
    pub answer: Answer,
}

// A device that is all zeros, to be made fresh.
fn zeros() -> Device {
    Device {
        table: LiveTable {
            ids: [0u32; numbers::PLACES],
            asked: [0u64; numbers::PLACES],
            callers: [0u8; numbers::PLACES],
            deadlines: [0u64; numbers::PLACES],
            counts: [0u8; numbers::PLACES],
            clients: [0u8; numbers::PARTY_PLACES],
            originals: [0u16; numbers::PARTY_PLACES],
            top: 0,
            cursor: 0,
        },
        attached: 0,
        clock: 0,
        settings: KeptSettings {
            timeout: 0,
            join: 0,
            tag_count: 0,
            tag_words: [0u64; numbers::MOST_TAGS],
        },
        cache: ReplyCache {
            numbers: [0u64; numbers::CACHE_NUMBERS],
            shown: [0u8; numbers::CACHE_BYTES],
        },
    }
}

// A fresh state from a settings value. An invalid value is refusal 10, and the state then has the usual one. (Each call spreads, lends and gathers in three lines; a function that takes the call in between would carry its contract in `F.post`, no plainer.)
pub fn fresh(from: Settings) -> Stepped
    ensures { FreshlyByValue from result }
{
    let mut device = zeros();
    let answer = proxy::making::fresh(&mut device, &from);
    Stepped {
        state: gather(device),
        answer,
    }
}

// Attaches a client: the set alone, without a device.
pub fn attach(s: State, client: u32) -> Stepped
    requires { MadeState s }
    ensures { ServedByValue s (attaches client) result [] [] }
{
    let mut state = s;
    let answer = proxy::attaching::attach_to(&mut state.attached, client);
    Stepped { state, answer }
}

// Detaches a client, and strikes its parties out.
pub fn detach(s: State, client: u32) -> Stepped
    requires { MadeState s }
    ensures { ServedByValue s (detaches client) result [] [] }
{
    let mut device = spread(s);
    let answer = proxy::attaching::detach(&mut device, client);
    Stepped {
        state: gather(device),
        answer,
    }
}

// The link is lost.
pub fn link_lost(s: State) -> Stepped
    requires { MadeState s }
    ensures { ServedByValue s link_lost result [] [] }
{
    let mut device = spread(s);
    let answer = proxy::attaching::link_lost(&mut device);
    Stepped {
        state: gather(device),
        answer,
    }
}
