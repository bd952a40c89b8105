// A client's parties struck out of the table, in place.
ghost use Rattle.std.specs.Prelude.{◌≡◌, ◌+◌, ◌≤◌, length};
ghost use Rattle.numbers.specs.Numbers.{places, party_places};
ghost use Rattle.table.specs.inner.Changes.{Runs, StruckOut, Struck};

use table::LiveTable;

// Strikes the client out of a run of n parties that starts at base, and closes the gaps; how many stay.
fn strike_run(
    clients: &mut [u8; numbers::PARTY_PLACES],
    originals: &mut [u16; numbers::PARTY_PLACES],
    base: usize,
    n: usize,
    client: u8,
) -> usize
    requires { (base + n ≤ party_places) × (length clients.old ≡ party_places) × (length originals.old ≡ party_places) }
    ensures { StruckOut base n client result clients.old originals.old clients.new originals.new }
{
    let mut kept: usize = 0;
    for j in 0..n {
        let at = base + j;
        let owner = clients[at];
        if owner != client {
            let to = base + kept;
            let original = originals[at];
            clients[to] = owner;
            originals[to] = original;
            kept += 1;
        }
    }
    kept
}

// Strikes the client out of every place below top: its room is free again, the order of the rest stays.
pub fn strike(table: &mut LiveTable, client: u8)
    requires runs { Runs table.old.counts table.old.clients table.old.originals }
    requires top_le_places { table.old.top ≤ places }
    ensures struck { Struck table.old.top client table.old.counts table.old.clients table.old.originals table.new.counts table.new.clients table.new.originals }
    ensures stays { (table.new.ids ≡ table.old.ids) × (table.new.asked ≡ table.old.asked) × (table.new.callers ≡ table.old.callers)
        × (table.new.deadlines ≡ table.old.deadlines) × (table.new.top ≡ table.old.top) × (table.new.cursor ≡ table.old.cursor) }
{
    for k in 0..table.top as usize {
        let n = usize::from(table.counts[k]);
        let kept = strike_run(
            &mut table.clients,
            &mut table.originals,
            k * numbers::ROOM,
            n,
            client,
        );
        table.counts[k] = kept as u8;
    }
}
