// What a request asks, what it may ask and what answers it: the definitions with their laws; proxy ids and clients' ids as two types.
#![tactic(auto)]

ghost use Rattle.std.specs.Prelude.{◌≡◌, ◌+◌, ◌<◌};
ghost use Rattle.numbers.specs.Numbers.{ids};
ghost use Rattle.laws.specs.Circle.{turn};
ghost use Rattle.wire.specs.Frame.{id_of};
ghost use Rattle.pdu.specs.Requests.{class_of, bytes_for, most_read_of, most_written_of};
ghost use Rattle.pdu.specs.Reads.{is_read};

// Where the fields stand that requests and replies share: behind the function the start (05, 06, 22: the address) and the quantity (05, 06: the value; 22: the masks).
pub const START_AT: usize = 8;

pub const QUANTITY_AT: usize = 10;

pub const VALUE_AT: usize = 10;

pub const AND_MASK_AT: usize = 10;

pub const OR_MASK_AT: usize = 12;

// An id that the proxy issued, and an id that a client gave: two types that cannot be mixed.
#[derive(Clone, Copy)]
pub struct ProxyId(pub u16);

#[derive(Clone, Copy)]
pub struct OriginalId(pub u16);

// What a function reads or writes: coils and discrete inputs are single bits, holding and input registers words of 16 bits.
#[derive(Clone, Copy, PartialEq, Eq)]
pub enum Table {
    Bits,
    Registers,
}

// The classes of functions: 01 to 04, 05 and 06, 15 and 16, 22, 23, and every other.
#[derive(Clone, Copy, PartialEq, Eq)]
pub enum Class {
    Reads(Table),
    WritesOne(Table),
    WritesMany(Table),
    Masks,
    ReadsWrites,
    Others,
}

// What was asked, kept with the live entry; of a single write also the value, as the client wrote it; of 22 both masks, of 23 both ranges.
#[derive(Clone, Copy, PartialEq, Eq)]
pub enum Asked {
    Read {
        table: Table,
        start: u16,
        quantity: u16,
    },
    SingleWrite {
        table: Table,
        address: u16,
        value: u16,
    },
    MultipleWrite {
        table: Table,
        start: u16,
        quantity: u16,
    },
    MaskWrite {
        address: u16,
        and_mask: u16,
        or_mask: u16,
    },
    ReadWrite {
        start: u16,
        quantity: u16,
        write_start: u16,
        write_quantity: u16,
    },
    Other,
}

// Why a request is not forwarded: refusal 5, refusal 6, or an exception with its code, the byte that goes into the frame, as the definitions have it.
#[derive(Clone, Copy, PartialEq, Eq)]
pub enum Fault {
    BadFunction,
    BadLength,
    Excepted(u8),
}

// What a live entry keeps of its request: to which unit, of which function, and what it asks.
#[derive(Clone, Copy, PartialEq, Eq)]
pub struct What {
    pub unit: u8,
    pub function: u8,
    pub asked: Asked,
}

// A live entry, without its parties.
#[derive(Clone, Copy)]
pub struct Entry {
    pub id: ProxyId,
    pub what: What,
    pub deadline: u64,
}

impl ProxyId {
    // The id behind this one, past the last to 0.
    pub fn next(self) -> ProxyId
        ensures { result.0 ≡ turn ids (self.0 + 1) }
    {
        if self.0 == numbers::LAST_ID {
            return ProxyId(0);
        }
        ProxyId(self.0 + 1)
    }
}

// The id that the client gave its request. (Beside `proxy_of` a function of its own, since the two ids are two types that may not be mixed.)
pub fn original_of(frame: &[u8]) -> OriginalId
    ensures { result.0 ≡ id_of frame.now }
{
    OriginalId(wire::pair_at(frame, 0))
}

// The proxy id that a reply came under.
pub fn proxy_of(frame: &[u8]) -> ProxyId
    ensures { result.0 ≡ id_of frame.now }
{
    ProxyId(wire::pair_at(frame, 0))
}

// The class that a function belongs to. (A function and no `From<u8>`: docs/CLAIMS.md names it.)
#[tactic(auto, unfolding(crate::specs::Requests::class_of))]
pub fn class_of(function: u8) -> Class
    ensures { result ≡ class_of function }
{
    match function {
        numbers::READ_COILS | numbers::READ_DISCRETE => Class::Reads(Table::Bits),
        numbers::READ_HOLDING | numbers::READ_INPUT => Class::Reads(Table::Registers),
        numbers::WRITE_COIL => Class::WritesOne(Table::Bits),
        numbers::WRITE_SINGLE => Class::WritesOne(Table::Registers),
        numbers::WRITE_COILS => Class::WritesMany(Table::Bits),
        numbers::WRITE_MULTIPLE => Class::WritesMany(Table::Registers),
        numbers::MASK_WRITE => Class::Masks,
        numbers::READ_WRITE => Class::ReadsWrites,
        _ => Class::Others,
    }
}

// Whether a read is asked.
#[tactic(auto, unfolding(crate::specs::Reads::is_read))]
pub fn is_read(asked: Asked) -> bool
    ensures { result ≡ is_read asked }
{
    matches!(asked, Asked::Read { .. })
}

impl Table {
    // The bytes that so many bits or registers take.
    pub fn bytes_for(self, quantity: u16) -> usize
        ensures { (result ≡ bytes_for self quantity) × (result < 131072) }
    {
        match self {
            Table::Bits => (quantity as usize + 7) / 8,
            Table::Registers => 2 * quantity as usize,
        }
    }

    // The most that one request may read, and the most that one may write. (Two functions, as document 02 has two limits: one over a flag would be no plainer.)
    pub fn most_read(self) -> u16
        ensures { result ≡ most_read_of self }
    {
        match self {
            Table::Bits => numbers::MOST_BITS_READ,
            Table::Registers => numbers::MOST_READ,
        }
    }

    pub fn most_written(self) -> u16
        ensures { result ≡ most_written_of self }
    {
        match self {
            Table::Bits => numbers::MOST_BITS_WRITTEN,
            Table::Registers => numbers::MOST_WRITTEN,
        }
    }
}
