// The reply and the tick: an entry of the live table ends, its parties stand in the list, its frame in the buffer; a reply may fill a place of the cache.
#![tactic(auto)]

ghost use Rattle.std.specs.Prelude.{◌≡◌, cond, length, map};
ghost use Rattle.std.proofs.Math.Option.{some, none};
ghost use Rattle.laws.specs.Options.{maybe};
ghost use Rattle.wire.specs.Frame.{laid};
ghost use Rattle.pdu.specs.declared.What.{What};
ghost use Rattle.pdu.specs.Words.{what_of};
ghost use Rattle.settings.specs.TagWords.{tag_of};
ghost use Rattle.cache.specs.Cache.{filled_with};
ghost use Rattle.cache.specs.Life.{life_of};
ghost use Rattle.caching.specs.Kept.{cached, cache_of, Key, Fills, SoundCache};
ghost use Rattle.book.specs.Book.{Live};
ghost use Rattle.machine.specs.Machine.{Note};
ghost use Rattle.machine.specs.Replies.{fills};
ghost use Rattle.machine.specs.Calls.Call.{reply as replyCall, tick as tickCall};
ghost use Rattle.machine.specs.RefusalNumbers.{refused_by};
ghost use Rattle.table.specs.Columns.{columns_of, note_of, SoundTable};
ghost use Rattle.proxy.specs.State.{State, state, seated, state_of, Settled, SoundState};
ghost use Rattle.proxy.specs.Calls.{Does};
ghost use Rattle.proxy.specs.Gates.{reply_gate, tick_gate};

use caching::ReplyCache;
use machine::{Answer, Refusal};
use payloads::tags::Tags;
use pdu::{Asked, Table, What};
use proxy::Device;

// Refusals 1 and 3, of buffers and time, which need no frame. (Time, buffer and list are lent by C one by one.)
#[tactic(auto, unfolding(proxy::specs::Gates::tick_gate, machine::specs::Refusals::lowest))]
fn buffer_or_time_refusal(
    device: &Device,
    time: u64,
    out: &[u8],
    list: &[u16],
) -> Result<(), Refusal>
    ensures { refused_by result ≡ tick_gate (length out.now) (length list.now) time device.now.clock }
{
    if (out.len() < numbers::FRAME_BUFFER) | (list.len() < numbers::LIST_BUFFER) {
        return Err(Refusal::Buffer);
    }
    if proxy::is_untimely(device.clock, time) {
        return Err(Refusal::Time);
    }
    Ok(())
}

// Refusals 1, 3 and 4, which need no look at the table.
#[tactic(auto, unfolding(proxy::specs::Gates::tick_gate, proxy::specs::Gates::reply_gate, machine::specs::Refusals::lowest))]
fn reply_refusal(
    device: &Device,
    time: u64,
    frame: &[u8],
    out: &[u8],
    list: &[u16],
) -> Result<(), Refusal>
    ensures { refused_by result ≡ reply_gate (length out.now) (length list.now) time device.now.clock frame.now }
{
    buffer_or_time_refusal(device, time, out, list)?;
    if wire::frames::is_misframed(frame) {
        return Err(Refusal::Frame);
    }
    Ok(())
}

// For how long a reply to what the word says was asked is shown again; none for an exception, where that is closed, and where it is no cacheable read.
fn life_given(word: u64, what: What, frame: &[u8], tags: Tags) -> Option<u16>
    requires { what ≡ what_of word }
    ensures { (e : Live What Note) → e.what ≡ what → e.note ≡ note_of word → maybe result ≡ cond (fills (map tag_of tags.entry.words.now) e frame.now) (some (life_of (map tag_of tags.entry.words.now) e.what)) none }
{
    if checking::matching::is_exception(what.function, frame) | checking::words::is_closed(word) {
        return None;
    }
    let Asked::Read {
        table,
        start,
        quantity,
    } = what.asked
    else {
        return None;
    };
    // A nested pattern was tried: its default arm has no fact that the proof could cite.
    match table {
        Table::Bits => None,
        Table::Registers => caching::lives::life_of(tags, start, quantity),
    }
}

// Keeps a reply, as it is handed out, at the place that it takes.
fn keep(cache: &mut ReplyCache, word: u64, time: u64, life: u16, value: u32, frame: &[u8])
    requires sound { SoundCache cache.old.numbers cache.old.shown }
    requires key { Key word × Fills (what_of word) frame.now }
    ensures kept { cache_of cache.new.numbers cache.new.shown ≡ filled_with (cached (what_of word) time life value (laid 0 frame.now)) (cache_of cache.old.numbers cache.old.shown) }
    ensures sound { SoundCache cache.new.numbers cache.new.shown }
{
    let place = cache.taken_place(word, time);
    cache.fill(place, word, time, life, value, frame);
}

// The controller's reply: refused, or the entry that it answers ends with the rewritten frame, which may fill a place of the cache.
pub fn reply(
    device: &mut Device,
    time: u64,
    frame: &[u8],
    out: &mut [u8],
    list: &mut [u16],
) -> Answer
    requires { SoundTable (columns_of device.old.table) × Settled device.old.settings × SoundCache device.old.cache.numbers device.old.cache.shown }
    ensures does { (s : State) → SoundState (state (columns_of device.old.table) s.cursor s.attached device.old.clock device.old.settings device.old.cache.numbers device.old.cache.shown)
        → Does (state (columns_of device.old.table) s.cursor s.attached device.old.clock device.old.settings device.old.cache.numbers device.old.cache.shown) (replyCall time frame.now out.old list.old) result
        (state (columns_of device.new.table) s.cursor s.attached device.new.clock device.new.settings device.new.cache.numbers device.new.cache.shown) out.new list.new }
    ensures stays { (device.new.attached ≡ device.old.attached) × (device.new.table.cursor ≡ device.old.table.cursor) }
{
    if let Err(refusal) = reply_refusal(device, time, frame, out, list) {
        return Answer::from(refusal);
    }
    let Some(place) = finding::find(&device.table, pdu::proxy_of(frame)) else {
        return Answer::from(Refusal::Unknown);
    };
    let word = device.table.asked[place];
    let what = checking::words::what_of(word);
    if !checking::matching::answers(what, frame) {
        return Answer::from(Refusal::Mismatch);
    }
    device.clock = time;
    let id = device.table.id_at(place);
    let parties = moves::ending::end_at(&mut device.table, place, list);
    let tags = device.settings.tags();
    let raw = payloads::give_back(out, frame, what.function, what.asked, tags);
    let size = frame.len();
    if let Some(life) = life_given(word, what, frame, tags) {
        keep(&mut device.cache, word, time, life, raw.value, &out[..size]);
    }
    Answer::Answered {
        id,
        length: size as u32,
        parties,
        partial: raw.partial,
        value: raw.value,
    }
}

// Time goes on: of the entries that are due the earliest ends with exception 0B, or nothing is due.
pub fn tick(device: &mut Device, time: u64, out: &mut [u8], list: &mut [u16]) -> Answer
    requires { SoundTable (columns_of device.old.table) }
    ensures does { (s : State) → SoundState (seated s (columns_of device.old.table) s.attached device.old.clock) → Does (seated s (columns_of device.old.table) s.attached device.old.clock) (tickCall time out.old list.old) result (seated s (columns_of device.new.table) s.attached device.new.clock) out.new list.new }
    ensures stays { state_of device.new ≡ seated (state_of device.old) (columns_of device.new.table) device.old.attached device.new.clock }
{
    if let Err(refusal) = buffer_or_time_refusal(device, time, out, list) {
        return Answer::from(refusal);
    }
    device.clock = time;
    let Some(place) = finding::earliest(&device.table, time) else {
        return Answer::NothingDue;
    };
    let what = checking::words::what_of(device.table.asked[place]);
    let id = device.table.id_at(place);
    let parties = moves::ending::end_at(&mut device.table, place, list);
    wire::frames::except(out, 0, what.unit, what.function, numbers::NO_RESPONSE);
    Answer::TimedOut { id, parties }
}
