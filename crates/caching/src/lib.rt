// The cache of replies: which place a read hits, which place a reply takes, and a place filled, dropped and shown.
#![tactic(auto)]

pub mod lives;

ghost use Rattle.std.specs.Prelude.{◌≡◌, true, false, List, ℕ, ◌+◌, ◌*◌, ◌≤◌, ◌<◌, length, IfSome};
ghost use Rattle.std.proofs.Math.Option.{none, some};
ghost use Rattle.numbers.specs.Numbers.{frame_buffer, cache_places};
ghost use Rattle.laws.specs.Bytes.{over};
ghost use Rattle.laws.specs.Options.{place_or};
ghost use Rattle.laws.specs.Search.{best};
ghost use Rattle.wire.specs.Frame.{laid};
ghost use Rattle.pdu.specs.Words.{what_of};
ghost use Rattle.pdu.specs.declared.What.{What};
ghost use Rattle.cache.specs.Cache.{Cached, in_cache, emptied, hit_place, taken_place, filled_with, dropped_by};
ghost use Rattle.caching.specs.Kept.{bound_in, head_of, cached, cache_of, Word, Key, Fills, Bytes, Bounded, SoundCache, stored_at, has_word, lasts, is_spare, is_earlier, word_after, Drops};

use pdu::What;

// Three numbers a place: the word of what was asked, the time of filling, and life and count. Behind them stands the bound: no place from there on holds anything.
const BOUND: usize = 3 * numbers::CACHE_PLACES;

// And 256 bytes a place, of which the registers of a reply take the first.
const ROOM: usize = 256;

// A life is below this, and the count of tags raw for value stands above it.
const LIVES: u64 = 65536;

// The quantity of a read is the lowest field of its word, below this.
const FIELDS: u64 = 65536;

// The bytes of a reply to a read before its registers, and how many of them its length counts.
const HEAD: usize = 9;

const HEAD_COUNTED: u8 = 3;

// The cache of replies, as the host lends it. (Order and types are C's struct zb_state: its fields `cache` and `shown`. What holds of a cache stands in clauses, since a host lends whatever bytes it has to be made fresh.)
#[repr(C)]
#[derive(Drop)]
pub struct ReplyCache {
    pub numbers: [u64; numbers::CACHE_NUMBERS],
    pub shown: [u8; numbers::CACHE_BYTES],
}

// The word of a place once a request that asks `what` was issued: 0, where what was asked there is spoiled.
#[tactic(auto, using(crate::proofs::DropLaws::after_none))]
fn word_after(what: What, held: u64) -> u64
    ensures { (w : What) → w.unit ≡ what.unit → w.asked ≡ what.asked → result ≡ word_after w held }
{
    if held == 0 || checking::spoiling::spoils(what, held) {
        return 0;
    }
    held
}

// Writes the header of a reply to a read over the start of out, up to its byte count.
fn put_head(out: &mut [u8], high: u8, low: u8, word: u64, count: u8)
    requires { (9 ≤ length out.old) × (count ≤ 250) }
    ensures { out.new ≡ over (head_of high low (what_of word) count) out.old }
{
    let unit = checking::words::unit_in(word);
    let function = checking::words::function_in(word);
    let counted = HEAD_COUNTED + count;
    out[..HEAD].copy_from_slice(&[high, low, 0, 0, 0, counted, unit, function, count]);
}

impl ReplyCache {
    // The place that has the word: one number a place is looked at.
    fn own_place(&self, word: u64) -> Option<usize>
        requires { Bounded self.now.numbers }
        ensures own { place_or cache_places result ≡ best (has_word self.now.numbers word) (λ j k. false) cache_places (bound_in self.now.numbers) }
        ensures within { IfSome result (λ k. k < cache_places) }
    {
        // `position` was tried: a read beside a full cache took a sixth longer.
        for k in 0..self.numbers[BOUND] as usize {
            if self.numbers[k] == word {
                return Some(k);
            }
        }
        None
    }

    // Whether less than the life of what stands there has gone by; before its filling no time has.
    fn is_fresh(&self, place: usize, time: u64) -> bool
        requires { place < cache_places }
        ensures { result ≡ lasts self.now.numbers time place }
    {
        let filled = self.numbers[numbers::CACHE_PLACES + place];
        let life = self.numbers[2 * numbers::CACHE_PLACES + place] % LIVES;
        time.saturating_sub(filled) < life
    }

    // The place that a request hits.
    pub fn hit_place(&self, word: u64, time: u64) -> Option<usize>
        requires { Word word × Bounded self.now.numbers }
        ensures hit { (shown : List ℕ) → SoundCache self.now.numbers shown → place_or cache_places result ≡ hit_place time (what_of word) (cache_of self.now.numbers shown) }
        ensures within { IfSome result (λ k. k < cache_places) }
    {
        let own = self.own_place(word)?;
        self.is_fresh(own, time).then_some(own)
    }

    // The lowest place that is empty or expired. The search ends at the bound at the latest, which is empty.
    fn spare_place(&self, time: u64) -> Option<usize>
        ensures spare { place_or cache_places result ≡ best (is_spare self.now.numbers time) (λ j k. false) cache_places cache_places }
        ensures within { IfSome result (λ k. k < cache_places) }
    {
        for k in 0..numbers::CACHE_PLACES {
            if self.numbers[k] == 0 || !self.is_fresh(k, time) {
                return Some(k);
            }
        }
        None
    }

    // The place that was filled first, of several the lowest. (`min_by_key` answers an Option that is never none, so that it is no plainer.)
    fn oldest_place(&self) -> usize
        ensures { result ≡ best (λ k. true) (is_earlier self.now.numbers) cache_places cache_places }
    {
        let filled = &self.numbers[numbers::CACHE_PLACES..2 * numbers::CACHE_PLACES];
        let mut found: usize = 0;
        for k in 1..numbers::CACHE_PLACES {
            if filled[k] < filled[found] {
                found = k;
            }
        }
        found
    }

    // The place that a reply to a request takes: its own, else the lowest that is empty or expired, else the oldest.
    pub fn taken_place(&self, word: u64, time: u64) -> usize
        requires { Word word × Bounded self.now.numbers }
        ensures { (shown : List ℕ) → SoundCache self.now.numbers shown → result ≡ taken_place time (what_of word) (cache_of self.now.numbers shown) }
    {
        if let Some(own) = self.own_place(word) {
            return own;
        }
        if let Some(spare) = self.spare_place(time) {
            return spare;
        }
        self.oldest_place()
    }

    // Drops what the request spoils, place by place.
    fn drop_each(&mut self, what: What)
        requires { Bounded self.old.numbers }
        ensures drops { (w : What) → w.unit ≡ what.unit → w.asked ≡ what.asked → Drops w self.old.numbers self.new.numbers }
        ensures stays { self.new.shown ≡ self.old.shown }
    {
        let end = self.numbers[BOUND] as usize;
        for held in &mut self.numbers[..end] {
            *held = word_after(what, *held);
        }
    }

    // Drops what a request that asks `what` spoils; a read spoils nothing, and no place is looked at.
    pub fn drop_met(&mut self, what: What)
        requires { Bounded self.old.numbers }
        ensures drops { (w : What) → w.unit ≡ what.unit → w.asked ≡ what.asked → Drops w self.old.numbers self.new.numbers }
        ensures stays { self.new.shown ≡ self.old.shown }
    {
        if !pdu::is_read(what.asked) {
            self.drop_each(what);
        }
    }

    // Nothing is cached any more.
    pub fn empty(&mut self)
        ensures emptied { (shown : List ℕ) → Bytes shown → (cache_of self.new.numbers shown ≡ emptied) × SoundCache self.new.numbers shown }
        ensures stays { self.new.shown ≡ self.old.shown }
    {
        self.numbers = [0; numbers::CACHE_NUMBERS];
    }

    // Stores the numbers of a place, and raises the bound above it.
    fn store(&mut self, place: usize, word: u64, time: u64, counted: u64)
        requires { place < cache_places }
        ensures stored { self.new.numbers ≡ stored_at place word time counted self.old.numbers }
        ensures stays { self.new.shown ≡ self.old.shown }
    {
        self.numbers[BOUND] = self.numbers[BOUND].max(place as u64 + 1);
        self.numbers[place] = word;
        self.numbers[numbers::CACHE_PLACES + place] = time;
        self.numbers[2 * numbers::CACHE_PLACES + place] = counted;
    }

    // A reply is kept at the place that it takes: its registers as they are handed out.
    pub fn fill(&mut self, place: usize, word: u64, time: u64, life: u16, value: u32, frame: &[u8])
        requires sound_cache { SoundCache self.old.numbers self.old.shown × (place ≡ taken_place time (what_of word) (cache_of self.old.numbers self.old.shown)) }
        requires key { Key word × Fills (what_of word) frame.now }
        ensures shown_after { cache_of self.new.numbers self.new.shown ≡ filled_with (cached (what_of word) time life value (laid 0 frame.now)) (cache_of self.old.numbers self.old.shown) }
        ensures sound_cache_2 { SoundCache self.new.numbers self.new.shown }
    {
        let counted = u64::from(value) * LIVES + u64::from(life);
        self.store(place, word, time, counted);
        let registers = &frame[HEAD..];
        let at = ROOM * place;
        wire::copy(&mut self.shown[at..at + registers.len()], registers);
    }

    // Writes what stands at a place over the start of out, under the id of these two bytes, and says its length.
    pub fn show(&self, place: usize, high: u8, low: u8, out: &mut [u8]) -> u32
        requires sound_cache { SoundCache self.now.numbers self.now.shown × (place < cache_places) × (in_cache (cache_of self.now.numbers self.now.shown) place ≡ none → ⊥) }
        requires frame_buffer_in_bounds { frame_buffer ≤ length out.old }
        ensures { (e : Cached) → in_cache (cache_of self.now.numbers self.now.shown) place ≡ some e → (result ≡ length e.bytes) × (out.new ≡ over (laid (high * 256 + low) e.bytes) out.old) }
    {
        let word = self.numbers[place];
        let count = 2 * (word % FIELDS) as usize;
        put_head(out, high, low, word, count as u8);
        let at = ROOM * place;
        wire::copy(&mut out[HEAD..HEAD + count], &self.shown[at..at + count]);
        (HEAD + count) as u32
    }

    // How many tags were raw for value in what stands at a place.
    pub fn value_at(&self, place: usize) -> u32
        requires { ((shown : List ℕ) × SoundCache self.now.numbers shown) × (place < cache_places) }
        ensures { (shown : List ℕ) (e : Cached) → in_cache (cache_of self.now.numbers shown) place ≡ some e → result ≡ e.value }
    {
        (self.numbers[2 * numbers::CACHE_PLACES + place] / LIVES) as u32
    }
}
