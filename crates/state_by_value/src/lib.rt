// The state by value: a struct a live entry, the flat party arrays, cursor, clock, attached set, settings and the cache; spread into a device's columns and gathered again.
#![tactic(auto)]

pub mod calls;

ghost use Rattle.std.specs.Prelude.{◌≡◌};
ghost use Rattle.proxy.specs.State.{state_of as columned};
ghost use Rattle.state_by_value.specs.Places.{place_of, number_of, word_in, caller_of, deadline_of, count_of, id_in};
ghost use Rattle.state_by_value.specs.States.{gathered, state_of};

use caching::ReplyCache;
use pdu::{Entry, ProxyId};
use proxy::{Device, KeptSettings};
use table::LiveTable;

// A live place of the table: its entry, whether that is closed, the client that it was issued for, how many parties wait.
#[derive(Clone, Copy)]
pub struct Place {
    pub entry: Entry,
    pub closed: bool,
    pub caller: u8,
    pub count: u8,
}

// One device's state. A place where nothing is live is None. The parties of place k stand from k times ROOM on; no place from `top` on is live. (The party arrays stay flat, as document 01 has them. That it was made is no part of it: `spread` takes any state, and `gather` makes one of any device.)
#[derive(Drop)]
pub struct State {
    pub entries: [Option<Place>; numbers::PLACES],
    pub clients: [u8; numbers::PARTY_PLACES],
    pub originals: [u16; numbers::PARTY_PLACES],
    pub top: u32,
    pub cursor: ProxyId,
    pub attached: u32,
    pub clock: u64,
    pub settings: KeptSettings,
    pub cache: ReplyCache,
}

// The number in the column of ids: 0 for a free place, else the proxy id + 1.
#[tactic(auto, unfolding(crate::specs::Places::number_of))]
fn number_of(place: Option<Place>) -> u32
    ensures { result ≡ number_of place }
{
    match place {
        Some(p) => u32::from(p.entry.id.0) + 1,
        None => 0,
    }
}

// The word in the column of what was asked, with its mark where that is closed; 0 for a free place.
#[tactic(auto, unfolding(crate::specs::Places::word_in, table::specs::Columns::place_word))]
fn word_in(place: Option<Place>) -> u64
    ensures { result ≡ word_in place }
{
    let Some(p) = place else {
        return 0;
    };
    let word = checking::words::word_of_entry(p.entry);
    if p.closed {
        checking::words::closed_word(word)
    } else {
        word
    }
}

// The client that it was issued for, its deadline, and how many parties wait; 0 for a free place.
fn caller_of(place: Option<Place>) -> u8
    ensures { result ≡ caller_of place }
{
    place.map_or(0, |p| p.caller)
}

fn deadline_of(place: Option<Place>) -> u64
    ensures { result ≡ deadline_of place }
{
    place.map_or(0, |p| p.entry.deadline)
}

fn count_of(place: Option<Place>) -> u8
    ensures { result ≡ count_of place }
{
    place.map_or(0, |p| p.count)
}

// The id that a number in the column of ids stands for; 0 for a free place.
#[tactic(auto, unfolding(crate::specs::Places::id_in))]
fn id_in(number: u32) -> ProxyId
    ensures { result ≡ id_in number }
{
    let numbers = numbers::LAST_ID as u32 + 1;
    ProxyId((number.saturating_sub(1) % numbers) as u16)
}

// A place from its numbers in the columns.
#[tactic(auto, unfolding(crate::specs::Places::place_of, table::specs::Columns::note_of))]
fn place_of(number: u32, word: u64, caller: u8, deadline: u64, count: u8) -> Option<Place>
    ensures { result ≡ place_of number word caller deadline count }
{
    if number == 0 {
        return None;
    }
    let entry = checking::words::entry_of(id_in(number), word, deadline);
    Some(Place {
        entry,
        closed: checking::words::is_closed(word),
        caller,
        count,
    })
}

// The device of a state: the columns of the entries one place after the other, the rest as it is. (One pass over the entries: `map` of an array copies them, for each of the five columns.)
pub fn spread(s: State) -> Device
    ensures { columned result ≡ state_of s }
{
    let entries = s.entries;
    let mut ids = [0u32; numbers::PLACES];
    let mut asked = [0u64; numbers::PLACES];
    let mut callers = [0u8; numbers::PLACES];
    let mut deadlines = [0u64; numbers::PLACES];
    let mut counts = [0u8; numbers::PLACES];
    for k in 0..numbers::PLACES {
        let place = entries[k];
        ids[k] = number_of(place);
        asked[k] = word_in(place);
        callers[k] = caller_of(place);
        deadlines[k] = deadline_of(place);
        counts[k] = count_of(place);
    }
    let clients = s.clients;
    let originals = s.originals;
    let table = LiveTable {
        ids,
        asked,
        callers,
        deadlines,
        counts,
        clients,
        originals,
        top: s.top,
        cursor: s.cursor.0,
    };
    Device {
        table,
        attached: s.attached,
        clock: s.clock,
        settings: s.settings,
        cache: s.cache,
    }
}

// The state that a device is.
pub fn gather(d: Device) -> State
    ensures { result ≡ gathered d }
{
    let table = d.table;
    let mut entries = [None; numbers::PLACES];
    for k in 0..numbers::PLACES {
        entries[k] = place_of(
            table.ids[k],
            table.asked[k],
            table.callers[k],
            table.deadlines[k],
            table.counts[k],
        );
    }
    State {
        entries,
        clients: table.clients,
        originals: table.originals,
        top: table.top,
        cursor: ProxyId(table.cursor),
        attached: d.attached,
        clock: d.clock,
        settings: d.settings,
        cache: d.cache,
    }
}
