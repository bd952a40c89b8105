// The check of a request: what it may ask; what was asked as one word; which live read it spoils; the check of a reply.
#![tactic(auto, unfolding(pdu::specs::Requests::bad_function, pdu::specs::Requests::bad_length, pdu::specs::Requests::bad_value, pdu::specs::Requests::bad_address, pdu::specs::Requests::asked_by, pdu::specs::Requests::checked_by, pdu::specs::Requests::checked_of))]

pub mod matching;
pub mod spoiling;
pub mod words;

ghost use Rattle.std.specs.Prelude.{◌≡◌, ◌+◌, cond, ltb, Ok, Err};
ghost use Rattle.numbers.specs.Numbers.{addresses, illegal_address, illegal_value};
ghost use Rattle.pdu.specs.Requests.{checked_by, checked_of};

use pdu::{Asked, Class, Fault, Table};

// Where the byte count stands in a request 15 or 16.
const BYTE_COUNT_AT: usize = 12;

// Where the start, the quantity and the byte count of what is written stand in a request 23.
const WRITE_START_AT: usize = 12;

const WRITE_QUANTITY_AT: usize = 14;

const WRITE_COUNT_AT: usize = 16;

// Whether a range ends past the last address.
fn ends_past(start: u16, quantity: u16) -> bool
    ensures { result ≡ ltb addresses (start + quantity) }
{
    numbers::ADDRESSES < start as u32 + quantity as u32
}

// Behind refusal 6: exception 03, exception 02, legal.
fn judge(misvalued: bool, misranged: bool, asked: Asked) -> Result<Asked, Fault>
    ensures { result ≡ cond misvalued (Err (Fault.Excepted illegal_value)) (cond misranged (Err (Fault.Excepted illegal_address)) (Ok asked)) }
{
    if misvalued {
        return Err(Fault::Excepted(numbers::ILLEGAL_VALUE));
    }
    if misranged {
        return Err(Fault::Excepted(numbers::ILLEGAL_ADDRESS));
    }
    Ok(asked)
}

// Requests 01 to 04.
fn check_read(table: Table, frame: &[u8]) -> Result<Asked, Fault>
    ensures { result ≡ checked_by (Class.Reads table) frame.now }
{
    if wire::pdu_size(frame) != numbers::SHORT_PDU {
        return Err(Fault::BadLength);
    }
    let start = wire::pair_at(frame, pdu::START_AT);
    let quantity = wire::pair_at(frame, pdu::QUANTITY_AT);
    judge(
        quantity == 0 || table.most_read() < quantity,
        ends_past(start, quantity),
        Asked::Read {
            table,
            start,
            quantity,
        },
    )
}

// Requests 05 and 06: any address is legal; a coil is written with 0x0000 or 0xFF00, a register with any value.
fn check_single_write(table: Table, frame: &[u8]) -> Result<Asked, Fault>
    ensures { result ≡ checked_by (Class.WritesOne table) frame.now }
{
    if wire::pdu_size(frame) != numbers::SHORT_PDU {
        return Err(Fault::BadLength);
    }
    let address = wire::pair_at(frame, pdu::START_AT);
    let value = wire::pair_at(frame, pdu::VALUE_AT);
    judge(
        table == Table::Bits && value != numbers::COIL_OFF && value != numbers::COIL_ON,
        false,
        Asked::SingleWrite {
            table,
            address,
            value,
        },
    )
}

// Requests 15 and 16: the byte count is held against the PDU's size for refusal 6, and against the quantity for exception 03.
fn check_multiple_write(table: Table, frame: &[u8]) -> Result<Asked, Fault>
    ensures { result ≡ checked_by (Class.WritesMany table) frame.now }
{
    let size = wire::pdu_size(frame);
    let count = usize::from(wire::byte_at(frame, BYTE_COUNT_AT));
    if size < numbers::MULTIPLE_PDU || size != numbers::MULTIPLE_PDU + count {
        return Err(Fault::BadLength);
    }
    let start = wire::pair_at(frame, pdu::START_AT);
    let quantity = wire::pair_at(frame, pdu::QUANTITY_AT);
    let bytes = table.bytes_for(quantity);
    judge(
        quantity == 0 || table.most_written() < quantity || count != bytes,
        ends_past(start, quantity),
        Asked::MultipleWrite {
            table,
            start,
            quantity,
        },
    )
}

// Request 22: any address and any masks are legal.
fn check_mask_write(frame: &[u8]) -> Result<Asked, Fault>
    ensures { result ≡ checked_by Class.Masks frame.now }
{
    if wire::pdu_size(frame) != numbers::MASK_PDU {
        return Err(Fault::BadLength);
    }
    Ok(Asked::MaskWrite {
        address: wire::pair_at(frame, pdu::START_AT),
        and_mask: wire::pair_at(frame, pdu::AND_MASK_AT),
        or_mask: wire::pair_at(frame, pdu::OR_MASK_AT),
    })
}

// Request 23: what it reads is judged as of 03, what it writes as of 16 with a lower most, and either range is looked at.
fn check_read_write(frame: &[u8]) -> Result<Asked, Fault>
    ensures { result ≡ checked_by Class.ReadsWrites frame.now }
{
    let size = wire::pdu_size(frame);
    let count = usize::from(wire::byte_at(frame, WRITE_COUNT_AT));
    if size < numbers::READ_WRITE_PDU || size != numbers::READ_WRITE_PDU + count {
        return Err(Fault::BadLength);
    }
    let start = wire::pair_at(frame, pdu::START_AT);
    let quantity = wire::pair_at(frame, pdu::QUANTITY_AT);
    let write_start = wire::pair_at(frame, WRITE_START_AT);
    let write_quantity = wire::pair_at(frame, WRITE_QUANTITY_AT);
    let bytes = Table::Registers.bytes_for(write_quantity);
    judge(
        quantity == 0
            || numbers::MOST_READ < quantity
            || write_quantity == 0
            || numbers::MOST_READ_WRITTEN < write_quantity
            || count != bytes,
        ends_past(start, quantity) || ends_past(write_start, write_quantity),
        Asked::ReadWrite {
            start,
            quantity,
            write_start,
            write_quantity,
        },
    )
}

// A request of any bytes: refusal 5, refusal 6, exception 03, exception 02, or what it legally asks.
pub fn check_request(frame: &[u8]) -> Result<Asked, Fault>
    ensures { result ≡ checked_of frame.now }
{
    let function = wire::function_of(frame);
    if function == 0 || numbers::LAST_FUNCTION < function {
        return Err(Fault::BadFunction);
    }
    match pdu::class_of(function) {
        Class::Reads(table) => check_read(table, frame),
        Class::WritesOne(table) => check_single_write(table, frame),
        Class::WritesMany(table) => check_multiple_write(table, frame),
        Class::Masks => check_mask_write(frame),
        Class::ReadsWrites => check_read_write(frame),
        Class::Others => Ok(Asked::Other),
    }
}
