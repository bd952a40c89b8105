// The request call over the lent device: the gate, the check of what is asked, and what a legal request comes to.
#![tactic(auto)]

ghost use Rattle.std.specs.Prelude.{◌≡◌, false, [], ◌-◌, ◌≤◌, ◌<◌, length, get_or, Ok};
ghost use Rattle.std.proofs.Math.Option.{none};
ghost use Rattle.numbers.specs.Numbers.{ids as idCount, places, room, exception_frame, least_frame, frame_buffer, cache_places};
ghost use Rattle.laws.specs.Search.{best};
ghost use Rattle.wire.specs.Frame.{id_of};
ghost use Rattle.settings.specs.Grammar.{Value};
ghost use Rattle.pdu.specs.Requests.{checked_of};
ghost use Rattle.pdu.specs.Words.{Proper};
ghost use Rattle.pdu.specs.declared.What.{What};
ghost use Rattle.rewrite.specs.Legal.{checked_under};
ghost use Rattle.rewrite.specs.inner.Lent.{tags_of};
ghost use Rattle.machine.specs.Machine.{Machine};
ghost use Rattle.machine.specs.Calls.{done};
ghost use Rattle.machine.specs.Calls.Call.{request as asks};
ghost use Rattle.machine.specs.RefusalNumbers.{refused_by};
ghost use Rattle.machine.specs.Requests.{alike, wanted, excepted, hit_on, issued_to, missed, served};
ghost use Rattle.cache.specs.Cache.{in_cache};
ghost use Rattle.caching.specs.Kept.{cache_of, SoundCache};
ghost use Rattle.table.specs.Columns.{party};
ghost use Rattle.table.specs.inner.Changes.{Runs, Joined};
ghost use Rattle.table.specs.inner.Places.{is_free};
ghost use Rattle.proxy.specs.State.{state_of, Settled, SoundState};
ghost use Rattle.proxy.specs.Calls.{Does};
ghost use Rattle.proxy.specs.Gates.{request_gate};
ghost use Rattle.requesting.specs.inner.Parts.{Admitted, Asks, Comes};

use caching::ReplyCache;
use machine::{Answer, Refusal};
use pdu::{Asked, Fault, What};
use proxy::{Device, KeptSettings};
use table::LiveTable;

// The refusals 1 to 4, the lowest that applies. (Client, time, frame and buffer are lent by C one by one, and each function takes those that it uses.)
fn gate(device: &Device, client: u32, time: u64, frame: &[u8], out: &[u8]) -> Result<(), Refusal>
    ensures { refused_by result ≡ request_gate (length out.now) client device.now.attached time device.now.clock frame.now }
{
    if out.len() < numbers::FRAME_BUFFER {
        return Err(Refusal::Buffer);
    }
    if proxy::attaching::is_stranger(device.attached, client) {
        return Err(Refusal::Client);
    }
    if proxy::is_untimely(device.clock, time) {
        return Err(Refusal::Time);
    }
    if wire::frames::is_misframed(frame) {
        return Err(Refusal::Frame);
    }
    Ok(())
}

// An exception for the caller, under its own id.
fn except_caller(out: &mut [u8], frame: &[u8], code: u8) -> Answer
    requires { exception_frame ≤ length out.old }
    ensures { (m : Machine) → done result m out.new [] ≡ excepted m code frame.now out.old }
{
    let id = pdu::original_of(frame);
    let unit = wire::unit_of(frame);
    let function = wire::function_of(frame);
    wire::frames::except(out, id.0, unit, function, code);
    Answer::Excepted { code }
}

// Whether a request may join its like: a read, when joining is on.
fn may_join(join: u32, asked: Asked) -> bool
    ensures { (v : Value) (w : What) → v.join ≡ join → w.asked ≡ asked → result ≡ alike v w w }
{
    (join == 1) & pdu::is_read(asked)
}

// What a legal request asks, of which unit, by which function.
fn what_asked(frame: &[u8], asked: Asked) -> What
    requires { (least_frame ≤ length frame.now) × (checked_of frame.now ≡ Ok asked) }
    ensures { (result ≡ wanted frame.now) × Proper (wanted frame.now) }
{
    What {
        unit: frame[numbers::UNIT_AT],
        function: frame[numbers::HEADER_SIZE],
        asked,
    }
}

// Joins a request to the live request at an open place; no frame is written.
fn join_request(table: &mut LiveTable, place: usize, client: u8, frame: &[u8]) -> Answer
    requires runs { Runs table.old.counts table.old.clients table.old.originals }
    requires place_lt_places { (place < places) × (get_or table.old.counts place 0 < room) }
    requires nonzero { (0 < get_or table.old.ids place 0) × (get_or table.old.ids place 0 ≤ idCount) }
    ensures joined { (result ≡ Answer.Joined (record { 0 = get_or table.old.ids place 0 - 1 }))
        × Joined place (party client (id_of frame.now)) table.old.counts table.old.clients table.old.originals table.new.counts table.new.clients table.new.originals }
    ensures stays { (table.new.ids ≡ table.old.ids) × (table.new.asked ≡ table.old.asked) × (table.new.callers ≡ table.old.callers)
        × (table.new.deadlines ≡ table.old.deadlines) × (table.new.top ≡ table.old.top) × (table.new.cursor ≡ table.old.cursor) }
{
    let original = pdu::original_of(frame);
    moves::changing::join(table, place, client, original);
    let id = table.id_at(place);
    Answer::Joined { id }
}

// Issues a legal request into the lowest free place, closes the reads that it spoils, drops what is cached of such, and sends its frame on. (The word stands beside `what`, made once: it is what the columns keep.)
fn issue_request(
    device: &mut Device,
    client: u8,
    frame: &[u8],
    out: &mut [u8],
    what: What,
    word: u64,
    place: usize,
) -> Answer
    requires sound { SoundState (state_of device.old) }
    requires admitted { Admitted client device.old.clock frame.now out.old what.asked }
    requires asks { Asks frame.now word × (what ≡ wanted frame.now) }
    requires free { (place ≡ best (is_free device.old.table.ids) (λ j k. false) places places) × (place < places) }
    ensures { Comes result device.old device.new out.new (λ m. issued_to m client frame.now out.old) }
{
    let id = finding::free_id(&device.table);
    let deadline = device.clock + device.settings.timeout as u64;
    let original = pdu::original_of(frame);
    moves::changing::issue(
        &mut device.table,
        place,
        id,
        word,
        deadline,
        client,
        original,
    );
    moves::closing::close(&mut device.table, what);
    device.cache.drop_met(what);
    device.table.cursor = id.next().0;
    let raw = payloads::forward(out, frame, id, what.asked, device.settings.tags());
    Answer::Issued {
        id,
        length: frame.len() as u32,
        partial: raw.partial,
        value: raw.value,
    }
}

// A legal request that hits nothing: it joins, else is issued, else gets exception 04.
fn miss(
    device: &mut Device,
    client: u8,
    frame: &[u8],
    out: &mut [u8],
    what: What,
    word: u64,
) -> Answer
    requires sound { SoundState (state_of device.old) }
    requires admitted { Admitted client device.old.clock frame.now out.old what.asked }
    requires asks { Asks frame.now word × (what ≡ wanted frame.now) }
    ensures { Comes result device.old device.new out.new (λ m. missed m client frame.now out.old) }
{
    let joining = may_join(device.settings.join, what.asked);
    let seats = finding::find_seats(&device.table, joining, word, device.clock);
    if let Some(place) = seats.open {
        return join_request(&mut device.table, place, client, frame);
    }
    if let Some(place) = seats.free {
        return issue_request(device, client, frame, out, what, word, place);
    }
    except_caller(out, frame, numbers::DEVICE_FAILURE)
}

// A hit: what is cached at the place goes out under the caller's id, with the count of the reply that filled it; of partial cover none is raw.
fn show_cached(cache: &ReplyCache, place: usize, frame: &[u8], out: &mut [u8]) -> Answer
    requires sound_cache { SoundCache cache.now.numbers cache.now.shown × (place < cache_places) × (in_cache (cache_of cache.now.numbers cache.now.shown) place ≡ none → ⊥) }
    requires frame_buffer_in_bounds { (frame_buffer ≤ length out.old) × (least_frame ≤ length frame.now) }
    ensures { (m : Machine) → done result m out.new [] ≡ hit_on m frame.now out.old (in_cache (cache_of cache.now.numbers cache.now.shown) place) }
{
    let length = cache.show(place, frame[0], frame[1], out);
    let value = cache.value_at(place);
    Answer::Hit {
        length,
        partial: 0,
        value,
    }
}

// A legal request: a hit, or what it comes to without one.
fn serve(device: &mut Device, client: u8, frame: &[u8], out: &mut [u8], asked: Asked) -> Answer
    requires sound { SoundState (state_of device.old) }
    requires admitted { Admitted client device.old.clock frame.now out.old asked }
    ensures { Comes result device.old device.new out.new (λ m. served m client frame.now out.old) }
{
    let what = what_asked(frame, asked);
    let word = checking::words::word_of(what);
    if let Some(place) = device.cache.hit_place(word, device.clock) {
        return show_cached(&device.cache, place, frame, out);
    }
    miss(device, client, frame, out, what, word)
}

// The check of a request: that of its bytes, and where these are in order exception 03 if a tag forbids what they write or mask.
fn check(frame: &[u8], settings: &KeptSettings) -> Result<Asked, Fault>
    requires { Settled settings.now }
    ensures { result ≡ checked_under (tags_of settings.now.tag_count settings.now.tag_words) frame.now }
{
    let asked = checking::check_request(frame)?;
    if payloads::strict::is_forbidden(frame, asked, settings.tags()) {
        return Err(Fault::Excepted(numbers::ILLEGAL_VALUE));
    }
    Ok(asked)
}

// A request of any client, at any time, of any bytes, over a buffer of any length.
pub fn request(device: &mut Device, client: u32, time: u64, frame: &[u8], out: &mut [u8]) -> Answer
    requires { SoundState (state_of device.old) }
    ensures { Does (state_of device.old) (asks client time frame.now out.old) result (state_of device.new) out.new [] }
{
    if let Err(refusal) = gate(device, client, time, frame, out) {
        return Answer::from(refusal);
    }
    match check(frame, &device.settings) {
        Err(Fault::BadFunction) => Answer::from(Refusal::Function),
        Err(Fault::BadLength) => Answer::from(Refusal::Length),
        Err(Fault::Excepted(code)) => {
            device.clock = time;
            except_caller(out, frame, code)
        }
        Ok(asked) => {
            device.clock = time;
            serve(device, client as u8, frame, out, asked)
        }
    }
}
