// The live reads closed that an issued request spoils, in place.
ghost use Rattle.std.specs.Prelude.{◌≡◌, ℕ, ◌≤◌};
ghost use Rattle.numbers.specs.Numbers.{places};
ghost use Rattle.pdu.specs.Words.{what_of};
ghost use Rattle.table.specs.inner.Changes.{word_after, Closes};

use pdu::What;
use table::LiveTable;

// The word of a place once a request that asks `what` was issued: closed, where the place is live and what is asked there is spoiled.
fn word_after(what: What, id: u32, held: u64) -> u64
    ensures { (word : ℕ) → (what_of word).unit ≡ what.unit → (what_of word).asked ≡ what.asked → result ≡ word_after word id held }
{
    if id != 0 && checking::spoiling::spoils(what, held) {
        return checking::words::closed_word(held);
    }
    held
}

// Closes what the request spoils at the places below top. (The cache has such a loop, which empties what this one closes.)
fn close_met(
    ids: &[u32; numbers::PLACES],
    asked: &mut [u64; numbers::PLACES],
    top: usize,
    what: What,
)
    requires { top ≤ places }
    ensures { (word : ℕ) → (what_of word).unit ≡ what.unit → (what_of word).asked ≡ what.asked → Closes word top ids.now asked.old asked.new }
{
    for k in 0..top {
        asked[k] = word_after(what, ids[k], asked[k]);
    }
}

// Closes what a request that asks `what` spoils; a read spoils nothing, and no place is looked at.
pub fn close(table: &mut LiveTable, what: What)
    requires { table.old.top ≤ places }
    ensures closed { (word : ℕ) → (what_of word).unit ≡ what.unit → (what_of word).asked ≡ what.asked → Closes word table.old.top table.old.ids table.old.asked table.new.asked }
    ensures stays { (table.new.ids ≡ table.old.ids) × (table.new.callers ≡ table.old.callers) × (table.new.deadlines ≡ table.old.deadlines) × (table.new.counts ≡ table.old.counts)
        × (table.new.clients ≡ table.old.clients) × (table.new.originals ≡ table.old.originals) × (table.new.top ≡ table.old.top) × (table.new.cursor ≡ table.old.cursor) }
{
    if !pdu::is_read(what.asked) {
        close_met(&table.ids, &mut table.asked, table.top as usize, what);
    }
}
