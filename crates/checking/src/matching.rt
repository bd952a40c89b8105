// The check of a reply: whether it answers what was asked.
#![tactic(auto, unfolding(pdu::specs::Replies::shaped, pdu::specs::Replies::answering))]

ghost use Rattle.std.specs.Prelude.{◌≡◌, ◌+◌, ◌&&◌, eqb};
ghost use Rattle.numbers.specs.Numbers.{short_pdu};
ghost use Rattle.wire.specs.Frame.{pdu_size};
ghost use Rattle.pdu.specs.Requests.{start_of, quantity_of, bytes_for};
ghost use Rattle.pdu.specs.Replies.{reply_count_of, shaped, excepts, answering};

use pdu::{Asked, Table, What};

// Where the byte count stands in a reply to 01 to 04 and to 23.
const REPLY_COUNT_AT: usize = 8;

// Whether a PDU has 5 bytes and these two numbers in it.
fn is_short(frame: &[u8], first: u16, second: u16) -> bool
    ensures { result ≡ (eqb (pdu_size frame.now) short_pdu && (eqb (start_of frame.now) first && eqb (quantity_of frame.now) second)) }
{
    wire::pdu_size(frame) == numbers::SHORT_PDU
        && wire::pair_at(frame, pdu::START_AT) == first
        && wire::pair_at(frame, pdu::QUANTITY_AT) == second
}

// Whether a PDU has the byte count of so many bits or registers, and as many bytes behind it.
fn is_counted(frame: &[u8], table: Table, quantity: u16) -> bool
    ensures { result ≡ (eqb (reply_count_of frame.now) (bytes_for table quantity) && eqb (pdu_size frame.now) (2 + bytes_for table quantity)) }
{
    let bytes = table.bytes_for(quantity);
    usize::from(wire::byte_at(frame, REPLY_COUNT_AT)) == bytes && wire::pdu_size(frame) == 2 + bytes
}

// Whether a PDU has 7 bytes and these three numbers in it, as the reply to 22 has.
fn is_mask(frame: &[u8], first: u16, second: u16, third: u16) -> bool
    ensures { result ≡ shaped (Asked.MaskWrite first second third) frame.now }
{
    wire::pdu_size(frame) == numbers::MASK_PDU
        && wire::pair_at(frame, pdu::START_AT) == first
        && wire::pair_at(frame, pdu::AND_MASK_AT) == second
        && wire::pair_at(frame, pdu::OR_MASK_AT) == third
}

// Whether a reply of the same function has the shape that what was asked calls for.
fn is_shaped(asked: Asked, frame: &[u8]) -> bool
    ensures { result ≡ shaped asked frame.now }
{
    match asked {
        Asked::Read {
            table,
            quantity,
            ..
        } => is_counted(frame, table, quantity),
        Asked::SingleWrite {
            table: Table::Bits,
            address,
            value,
        } => is_short(frame, address, value),
        Asked::SingleWrite { address, .. } => {
            wire::pdu_size(frame) == numbers::SHORT_PDU
                && wire::pair_at(frame, pdu::START_AT) == address
        }
        Asked::MultipleWrite {
            start,
            quantity,
            ..
        } => is_short(frame, start, quantity),
        Asked::MaskWrite {
            address,
            and_mask,
            or_mask,
        } => is_mask(frame, address, and_mask, or_mask),
        Asked::ReadWrite { quantity, .. } => is_counted(frame, Table::Registers, quantity),
        Asked::Other => true,
    }
}

// Whether a frame is an exception reply to that function.
pub fn is_exception(function: u8, frame: &[u8]) -> bool
    ensures { result ≡ excepts function frame.now }
{
    let told = u16::from(wire::function_of(frame));
    told == u16::from(function) + u16::from(numbers::EXCEPTION_BIT)
        && wire::pdu_size(frame) == numbers::EXCEPTION_PDU
}

// Whether a reply answers a request that asked `what`.
pub fn answers(what: What, frame: &[u8]) -> bool
    ensures { result ≡ answering what frame.now }
{
    wire::unit_of(frame) == what.unit
        && (is_exception(what.function, frame)
            || (wire::function_of(frame) == what.function && is_shaped(what.asked, frame)))
}
