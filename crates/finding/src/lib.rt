// Searches over the places: they stop at the last live place.
#![tactic(auto)]

ghost use Rattle.std.specs.Prelude.{◌≡◌, ℕ, ◌+◌, ◌<◌, ◌≤◌, cond, true, false, ◌&&◌, ◌||◌, get_or, eqb, ltb, leb, IfSome};
ghost use Rattle.numbers.specs.Numbers.{places};
ghost use Rattle.laws.specs.Search.{best, first, least, count};
ghost use Rattle.laws.specs.Options.{place_or};
ghost use Rattle.machine.specs.Waiting.{no_deadline};
ghost use Rattle.table.specs.inner.Places.{is_free, is_taken, holds, is_open, is_due, is_lower, is_sooner, free_id_from, Topped};

use machine::NextDeadline;
use pdu::ProxyId;
use table::LiveTable;

// The place that is live under that id.
pub fn find(table: &LiveTable, id: ProxyId) -> Option<usize>
    requires { table.now.top ≤ places }
    ensures found { place_or places result ≡ best (holds table.now.ids id.0) (λ j k. false) places table.now.top }
    ensures within { IfSome result (λ k. k < table.now.top) }
{
    let sought = id.0 as u32 + 1;
    table.ids[..table.top as usize]
        .iter()
        .position(|held| *held == sought)
}

// The deadline of a live place, and NO_DEADLINE of a free one, as the definition `least` and C's struct zb_next have it.
fn deadline_at(table: &LiveTable, k: usize) -> u64
    requires { k < places }
    ensures { result ≡ cond (is_taken table.now.ids k) (get_or table.now.deadlines k 0) no_deadline }
{
    if table.ids[k] == 0 {
        machine::NO_DEADLINE
    } else {
        table.deadlines[k]
    }
}

// The least deadline of the live places, and NO_DEADLINE where none is live.
fn least_deadline(table: &LiveTable) -> u64
    requires { table.now.top ≤ places }
    ensures { result ≡ least (is_taken table.now.ids) (λ k. get_or table.now.deadlines k 0) no_deadline table.now.top }
{
    let mut found = machine::NO_DEADLINE;
    for k in 0..table.top as usize {
        found = found.min(deadline_at(table, k));
    }
    found
}

// How many places are live. (`filter(..).count()` was tried: over 256 places it took four times as long.)
fn count_live(table: &LiveTable) -> u32
    requires { table.now.top ≤ places }
    ensures { result ≡ count (is_taken table.now.ids) table.now.top }
{
    let mut live: u32 = 0;
    for held in &table.ids[..table.top as usize] {
        if *held != 0 {
            live += 1;
        }
    }
    live
}

// When the host has to tick next: the least deadline of the live places, and how many they are.
pub fn next_deadline(table: &LiveTable) -> NextDeadline
    requires { table.now.top ≤ places }
    ensures { (result.time ≡ least (is_taken table.now.ids) (λ k. get_or table.now.deadlines k 0) no_deadline table.now.top) × (result.live ≡ count (is_taken table.now.ids) table.now.top) }
{
    let time = least_deadline(table);
    let live = count_live(table);
    NextDeadline { time, live }
}

fn is_due(table: &LiveTable, time: u64, k: usize) -> bool
    requires { k < places }
    ensures { result ≡ is_due table.now.ids table.now.deadlines time k }
{
    (table.ids[k] != 0) & (table.deadlines[k] <= time)
}

// A place from `from` on up to which every deadline is later: four a turn, and all that a tick with nothing due looks at.
fn skip_later(table: &LiveTable, from: usize, latest: u64) -> usize
    requires { (from ≤ table.now.top) × (table.now.top ≤ places) }
    ensures { (from ≤ result) × (result ≤ table.now.top) × ((j : ℕ) → from ≤ j → j < result → latest < get_or table.now.deadlines j 0) }
{
    let fours = (table.top as usize - from) / 4;
    for n in 0..fours {
        let k = from + 4 * n;
        if (table.deadlines[k] <= latest)
            | (table.deadlines[k + 1] <= latest)
            | (table.deadlines[k + 2] <= latest)
            | (table.deadlines[k + 3] <= latest)
        {
            return k;
        }
    }
    from + 4 * fours
}

// The first place that is due.
fn first_due(table: &LiveTable, time: u64) -> Option<usize>
    requires { table.now.top ≤ places }
    ensures found { place_or table.now.top result ≡ first (is_due table.now.ids table.now.deadlines time) table.now.top }
    ensures within { IfSome result (λ k. k < table.now.top) }
{
    let from = skip_later(table, 0, time);
    for k in from..table.top as usize {
        if is_due(table, time, k) {
            return Some(k);
        }
    }
    None
}

// Every place passes that is live with an earlier deadline, or with that one and an id up to the highest.
fn may_be_sooner(table: &LiveTable, latest: u64, highest: u32, k: usize) -> bool
    requires { k < places }
    ensures { result ≡ (ltb (get_or table.now.deadlines k 0) latest || (is_taken table.now.ids k && leb (get_or table.now.ids k 0) highest)) }
{
    (table.deadlines[k] < latest) | ((table.ids[k] != 0) & (table.ids[k] <= highest))
}

// A place from `from` on up to which none passes that: four a turn, for many that are due together. (Not one function with `skip_later` over a test that is passed in: the two read different columns, so that each would say as much as now.)
fn skip_higher(table: &LiveTable, from: usize, latest: u64, highest: u32) -> usize
    requires { (from ≤ table.now.top) × (table.now.top ≤ places) }
    ensures { (from ≤ result) × (result ≤ table.now.top)
        × ((j : ℕ) → from ≤ j → j < result → (ltb (get_or table.now.deadlines j 0) latest || (is_taken table.now.ids j && leb (get_or table.now.ids j 0) highest)) ≡ false) }
{
    let fours = (table.top as usize - from) / 4;
    for n in 0..fours {
        let k = from + 4 * n;
        if may_be_sooner(table, latest, highest, k)
            | may_be_sooner(table, latest, highest, k + 1)
            | may_be_sooner(table, latest, highest, k + 2)
            | may_be_sooner(table, latest, highest, k + 3)
        {
            return k;
        }
    }
    from + 4 * fours
}

// The place is live with an earlier deadline, or with that one and an id up to the highest.
fn is_sooner(table: &LiveTable, latest: u64, highest: u32, k: usize) -> bool
    requires { k < places }
    ensures { result ≡ (leb (get_or table.now.deadlines k 0) latest && (is_taken table.now.ids k && (ltb (get_or table.now.deadlines k 0) latest || leb (get_or table.now.ids k 0) highest))) }
{
    (table.deadlines[k] <= latest)
        & ((table.ids[k] != 0) & ((table.deadlines[k] < latest) | (table.ids[k] <= highest)))
}

// The next place that is live and sooner than the one that was found.
fn next_sooner(table: &LiveTable, found: usize) -> Option<usize>
    requires { (found < table.now.top) × (table.now.top ≤ places) × (is_taken table.now.ids found ≡ true) }
    ensures passed { (found < place_or table.now.top result) × (place_or table.now.top result ≤ table.now.top)
        × ((j : ℕ) → found < j → j < place_or table.now.top result → (is_taken table.now.ids j && is_sooner table.now.ids table.now.deadlines j found) ≡ false) }
    ensures sooner { IfSome result (λ k. (k < table.now.top) × ((is_taken table.now.ids k && is_sooner table.now.ids table.now.deadlines k found) ≡ true)) }
{
    let latest = table.deadlines[found];
    let highest = table.ids[found] - 1;
    let later = skip_later(table, found + 1, latest);
    let from = skip_higher(table, later, latest, highest);
    for k in from..table.top as usize {
        if is_sooner(table, latest, highest, k) {
            return Some(k);
        }
    }
    None
}

// Of the places that are due, the earliest, ties to the smallest id. (The loop counts nothing: it goes from a place to the next that is sooner.)
pub fn earliest(table: &LiveTable, time: u64) -> Option<usize>
    requires { table.now.top ≤ places }
    ensures found { place_or places result ≡ best (is_due table.now.ids table.now.deadlines time) (is_sooner table.now.ids table.now.deadlines) places table.now.top }
    ensures within { IfSome result (λ k. k < table.now.top) }
{
    let mut found = first_due(table, time)?;
    while let Some(next) = next_sooner(table, found) {
        found = next;
    }
    Some(found)
}

// What a request may take: the place that it joins, and the place that it would be issued into.
#[derive(Clone, Copy)]
pub struct Seats {
    pub open: Option<usize>,
    pub free: Option<usize>,
}

fn is_open(table: &LiveTable, word: u64, time: u64, k: usize) -> bool
    requires { k < places }
    ensures { result ≡ is_open table.now.ids table.now.asked table.now.deadlines table.now.counts word time k }
{
    (table.ids[k] != 0)
        & ((table.asked[k] == word)
            & ((table.counts[k] < numbers::ROOM as u8) & (time < table.deadlines[k])))
}

// The place may be joined, and has a smaller id than what was found so far.
fn is_lowest_open(table: &LiveTable, word: u64, time: u64, k: usize, found: Option<usize>) -> bool
    requires { (k < places) × IfSome found (λ j. j < places) }
    ensures { result ≡ (is_open table.now.ids table.now.asked table.now.deadlines table.now.counts word time k && (eqb (place_or places found) places || is_lower table.now.ids k (place_or places found))) }
{
    is_open(table, word, time, k)
        && match found {
            None => true,
            Some(lowest) => table.ids[k] < table.ids[lowest],
        }
}

// The place that may be joined, of those the one with the smallest id.
fn lowest_open(table: &LiveTable, word: u64, time: u64) -> Option<usize>
    requires { table.now.top ≤ places }
    ensures found { place_or places result ≡ best (is_open table.now.ids table.now.asked table.now.deadlines table.now.counts word time) (is_lower table.now.ids) places table.now.top }
    ensures within { IfSome result (λ k. k < table.now.top) }
{
    let mut found: Option<usize> = None;
    for k in 0..table.top as usize {
        if is_lowest_open(table, word, time, k, found) {
            found = Some(k);
        }
    }
    found
}

// The lowest free place.
fn lowest_free(table: &LiveTable) -> Option<usize>
    ensures found { place_or places result ≡ best (is_free table.now.ids) (λ j k. false) places places }
    ensures within { IfSome result (λ k. k < places) }
{
    table.ids.iter().position(|held| *held == 0)
}

// Where a request that asks `word` would be kept: a request that may not join looks for a free place only.
pub fn find_seats(table: &LiveTable, joining: bool, word: u64, time: u64) -> Seats
    requires { Topped table.now.ids table.now.top }
    ensures found { (place_or places result.open ≡ cond joining (best (is_open table.now.ids table.now.asked table.now.deadlines table.now.counts word time) (is_lower table.now.ids) places table.now.top) places)
        × (place_or places result.free ≡ best (is_free table.now.ids) (λ j k. false) places places) }
    ensures within { IfSome result.open (λ k. k < table.now.top) × IfSome result.free (λ k. k < places) }
{
    let open = if joining {
        lowest_open(table, word, time)
    } else {
        None
    };
    let free = lowest_free(table);
    Seats { open, free }
}

// The first id that is not live, from the cursor upward, past the last to 0. (The loop over ids, the scan left by its label and the id yielded by break are a form that the project keeps.)
pub fn free_id(table: &LiveTable) -> ProxyId
    requires { table.now.top ≤ places }
    ensures { result.0 ≡ free_id_from table.now.ids table.now.top table.now.cursor }
{
    let top = table.top as usize;
    let mut id = ProxyId(table.cursor);
    'search: loop {
        for k in 0..top {
            if table.ids[k] == id.0 as u32 + 1 {
                id = id.next();
                continue 'search;
            }
        }
        break id;
    }
}
