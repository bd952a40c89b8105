// An entry of the table ends, in place: its parties are handed out, and its place is free.
ghost use Rattle.std.specs.Prelude.{◌≡◌, ◌+◌, ◌≤◌, ◌<◌, length, get_or, set};
ghost use Rattle.numbers.specs.Numbers.{places, room, list_buffer};
ghost use Rattle.laws.specs.Bytes.{over};
ghost use Rattle.machine.specs.Replies.{pairs};
ghost use Rattle.table.specs.Columns.{parties_at};
ghost use Rattle.table.specs.inner.Changes.{reach};

use table::LiveTable;

// One past the last live place below top.
fn last_live(table: &LiveTable) -> u32
    requires { table.now.top ≤ places }
    ensures { result ≡ reach table.now.ids table.now.top }
{
    for n in (0..table.top).rev() {
        if table.ids[n as usize] != 0 {
            return n + 1;
        }
    }
    0
}

// Puts one party into the list: by two writes, since a copy from a slice of two takes several times as long.
fn put_pair(list: &mut [u16], at: usize, client: u16, original: u16)
    requires { at + 1 < length list.old }
    ensures { list.new ≡ set (set list.old at client) (at + 1) original }
{
    list[at] = client;
    list[at + 1] = original;
}

// Writes the parties of the place over the start of the list, in joining order; how many there are.
fn hand_out(table: &LiveTable, place: usize, list: &mut [u16]) -> u32
    requires { (place < places) × (get_or table.now.counts place 0 ≤ room) × (list_buffer ≤ length list.old) }
    ensures { (result ≡ length (parties_at table.now.counts table.now.clients table.now.originals place))
        × (list.new ≡ over (pairs (parties_at table.now.counts table.now.clients table.now.originals place)) list.old) }
{
    let count = usize::from(table.counts[place]);
    let base = place * numbers::ROOM;
    for j in 0..count {
        let at = base + j;
        let client = u16::from(table.clients[at]);
        let original = table.originals[at];
        put_pair(list, 2 * j, client, original);
    }
    count as u32
}

// Ends the entry of a place: its parties go into the list, then the place is free, and the scans stop at the last place that is still live; how many parties there were.
pub fn end_at(table: &mut LiveTable, place: usize, list: &mut [u16]) -> u32
    requires { (place < places) × (get_or table.old.counts place 0 ≤ room) × (list_buffer ≤ length list.old) × (table.old.top ≤ places) }
    ensures value { (result ≡ length (parties_at table.old.counts table.old.clients table.old.originals place))
        × (list.new ≡ over (pairs (parties_at table.old.counts table.old.clients table.old.originals place)) list.old) }
    ensures ids_after { (table.new.ids ≡ set table.old.ids place 0) × (table.new.top ≡ reach table.new.ids table.old.top) }
    ensures stays { (table.new.asked ≡ table.old.asked) × (table.new.callers ≡ table.old.callers) × (table.new.deadlines ≡ table.old.deadlines) × (table.new.counts ≡ table.old.counts)
        × (table.new.clients ≡ table.old.clients) × (table.new.originals ≡ table.old.originals) × (table.new.cursor ≡ table.old.cursor) }
{
    let parties = hand_out(table, place, list);
    table.ids[place] = 0;
    table.top = last_live(table);
    parties
}
