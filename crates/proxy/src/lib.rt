// The device that a host lends, and what a state in columns is; a fresh one, and the calls on one that carry no time: attach, detach, link lost.
#![tactic(auto)]

pub mod attaching;
pub mod making;

ghost use Rattle.std.specs.Prelude.{◌≡◌, take};
ghost use Rattle.machine.specs.Refusals.{is_untimely_at};
ghost use Rattle.proxy.specs.State.{Settled};

use caching::ReplyCache;
use payloads::tags::Tags;
use table::LiveTable;

// The settings inside a device: timeout, join, and the tags as words, of which so many count. (`join` is 0 or 1, and the count stands beside the words, as in C's struct zb_state.)
#[repr(C)]
#[derive(Drop)]
pub struct KeptSettings {
    pub timeout: u32,
    pub join: u32,
    pub tag_count: u32,
    pub tag_words: [u64; numbers::MOST_TAGS],
}

impl KeptSettings {
    // The words of the tags that count.
    pub fn tags(&self) -> Tags<'_>
        requires { Settled self.now }
        ensures { result.words.now ≡ take self.now.tag_count self.now.tag_words }
    {
        Tags::of(&self.tag_words, self.tag_count as usize)
    }
}

// The device's state, changed in place: C's struct zb_state, whose fields lie in this order. A host lends whatever bytes it has to be made fresh, so that no fact is a part of the type.
#[repr(C)]
#[derive(Drop)]
pub struct Device {
    pub table: LiveTable,
    pub attached: u32,
    pub clock: u64,
    pub settings: KeptSettings,
    pub cache: ReplyCache,
}

// Whether a time is above the latest, or below the clock: refusal 3.
pub fn is_untimely(clock: u64, time: u64) -> bool
    ensures { result ≡ is_untimely_at clock time }
{
    (numbers::LATEST_TIME < time) | (time < clock)
}
