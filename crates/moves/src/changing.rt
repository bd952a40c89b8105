// Changes of the table, in place: an entry issued, a party joined, every place made free.
ghost use Rattle.std.specs.Prelude.{◌≡◌, [], ◌∷◌, ◌+◌, ◌<◌, get_or, set};
ghost use Rattle.std.proofs.Math.Option.{some};
ghost use Rattle.numbers.specs.Numbers.{places, room};
ghost use Rattle.pdu.specs.Words.{word_of, what_of, Proper};
ghost use Rattle.book.specs.Book.{entry};
ghost use Rattle.machine.specs.Machine.{opened};
ghost use Rattle.table.specs.Columns.{columns_of, table_of, party, SoundTable};
ghost use Rattle.table.specs.inner.Changes.{Runs, Joined, blank};

use pdu::{OriginalId, ProxyId};
use table::LiveTable;

// Stores a new entry with its first party at a free place. (Client and original id are two columns, and the client is the caller too.)
pub fn issue(
    table: &mut LiveTable,
    place: usize,
    id: ProxyId,
    word: u64,
    deadline: u64,
    client: u8,
    original: OriginalId,
)
    requires sound_table { SoundTable (columns_of table.old) }
    requires place_lt_places { (place < places) × (get_or table.old.ids place 0 ≡ 0) }
    requires proper { Proper (what_of word) × (word_of (what_of word) ≡ word) }
    ensures top_after { table_of (columns_of table.new) ≡ set (table_of (columns_of table.old)) place (some (entry id.0 (what_of word) client opened deadline (party client original.0 ∷ []))) }
    ensures sound_table_2 { SoundTable (columns_of table.new) }
    ensures stays { table.new.cursor ≡ table.old.cursor }
{
    table.ids[place] = id.0 as u32 + 1;
    table.asked[place] = word;
    table.callers[place] = client;
    table.deadlines[place] = deadline;
    table.counts[place] = 1;
    let at = place * numbers::ROOM;
    table.clients[at] = client;
    table.originals[at] = original.0;
    table.top = table.top.max(place as u32 + 1);
}

// One more party for the place.
pub fn join(table: &mut LiveTable, place: usize, client: u8, original: OriginalId)
    requires runs { Runs table.old.counts table.old.clients table.old.originals }
    requires place_lt_places { (place < places) × (get_or table.old.counts place 0 < room) }
    ensures joined { Joined place (party client original.0) table.old.counts table.old.clients table.old.originals table.new.counts table.new.clients table.new.originals }
    ensures stays { (table.new.ids ≡ table.old.ids) × (table.new.asked ≡ table.old.asked) × (table.new.callers ≡ table.old.callers)
        × (table.new.deadlines ≡ table.old.deadlines) × (table.new.top ≡ table.old.top) × (table.new.cursor ≡ table.old.cursor) }
{
    let n = table.counts[place];
    let at = place * numbers::ROOM + usize::from(n);
    table.clients[at] = client;
    table.originals[at] = original.0;
    table.counts[place] = n + 1;
}

// Makes every place free.
pub fn clear(table: &mut LiveTable)
    ensures cleared { columns_of table.new ≡ blank }
    ensures stays { table.new.cursor ≡ table.old.cursor }
{
    table.ids = [0u32; numbers::PLACES];
    table.asked = [0u64; numbers::PLACES];
    table.callers = [0u8; numbers::PLACES];
    table.deadlines = [0u64; numbers::PLACES];
    table.counts = [0u8; numbers::PLACES];
    table.clients = [0u8; numbers::PARTY_PLACES];
    table.originals = [0u16; numbers::PARTY_PLACES];
    table.top = 0;
}
