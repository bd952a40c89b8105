// Which live read a request spoils once it is issued, by what it asks and the word of that.
#![tactic(auto, unfolding(pdu::specs::Spoiling::same_table, pdu::specs::Spoiling::meets, pdu::specs::Spoiling::spoils))]

ghost use Rattle.std.specs.Prelude.{◌≡◌};
ghost use Rattle.pdu.specs.declared.What.{What};
ghost use Rattle.pdu.specs.Words.{what_of};
ghost use Rattle.pdu.specs.Spoiling.{overlap as overlapping, meets as meeting, spoils as spoiling};

use crate::words::what_of;
use pdu::{Asked, Table, What};

// Whether two ranges have an address in common.
fn overlap(start: u16, quantity: u16, other: u16, count: u16) -> bool
    ensures { result ≡ overlapping start quantity other count }
{
    ((start as u32) < other as u32 + count as u32)
        & ((other as u32) < start as u32 + quantity as u32)
}

// Whether what is asked meets the read of a range.
fn meets_range(asked: Asked, table: Table, start: u16, quantity: u16) -> bool
    ensures { result ≡ meeting asked (Asked.Read table start quantity) }
{
    match asked {
        Asked::Read { .. } => false,
        Asked::SingleWrite {
            table: own,
            address,
            ..
        } => own == table && overlap(address, 1, start, quantity),
        Asked::MultipleWrite {
            table: own,
            start: first,
            quantity: count,
        } => own == table && overlap(first, count, start, quantity),
        Asked::MaskWrite { address, .. } => {
            table == Table::Registers && overlap(address, 1, start, quantity)
        }
        Asked::ReadWrite {
            write_start: first,
            write_quantity: count,
            ..
        } => table == Table::Registers && overlap(first, count, start, quantity),
        Asked::Other => true,
    }
}

// Whether what is asked meets a live request: a read whose range it meets.
fn meets(asked: Asked, held: Asked) -> bool
    ensures { result ≡ meeting asked held }
{
    match held {
        Asked::Read {
            table,
            start,
            quantity,
        } => meets_range(asked, table, start, quantity),
        _ => false,
    }
}

// Whether a request that asks `what` spoils the live request of the word `held`: the unit is equal, and it meets that.
pub fn spoils(what: What, held: u64) -> bool
    ensures { (w : What) → w.unit ≡ what.unit → w.asked ≡ what.asked → result ≡ spoiling w (what_of held) }
{
    let live = what_of(held);
    what.unit == live.unit && meets(what.asked, live.asked)
}
