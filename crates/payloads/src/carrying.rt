// Which registers a request carries or masks: what its rewriting and its check by the tags both go by.
ghost use Rattle.std.specs.Prelude.{◌≡◌, ◌+◌};
ghost use Rattle.payloads.specs.inner.Carrying.{run_of, carried_by};

use pdu::{Asked, Table};

// The bytes at which the registers of a request begin, that of 06 in its echo too: specs/Frames.antt of rewrite has each under the same name.
pub const SINGLE_BASE: usize = 10;

const MULTIPLE_BASE: usize = 13;

const READ_WRITE_BASE: usize = 17;

// A run of registers in a buffer: from byte base on, of the addresses from start on.
#[derive(Clone, Copy)]
pub struct Run {
    pub base: usize,
    pub start: u16,
    pub quantity: u16,
}

impl Run {
    // The address behind the last.
    pub fn end(self) -> usize
        ensures { result ≡ self.start + self.quantity }
    {
        self.start as usize + self.quantity as usize
    }
}

// What a request has for registers: nothing, masks for the one at an address, or a run of them. (Three cases, two with a value: no Option.)
#[derive(Clone, Copy)]
pub enum Carried {
    Nothing,
    Mask(u16),
    Run(Run),
}

// A write of registers carries them; one of bits has nothing for registers.
fn run_of(table: Table, base: usize, start: u16, quantity: u16) -> Carried
    ensures { result ≡ run_of table base start quantity }
{
    match table {
        Table::Bits => Carried::Nothing,
        Table::Registers => Carried::Run(Run {
            base,
            start,
            quantity,
        }),
    }
}

// What was asked, taken apart by what it has for registers.
pub fn carried_by(asked: Asked) -> Carried
    ensures { result ≡ carried_by asked }
{
    match asked {
        Asked::SingleWrite { table, address, .. } => run_of(table, SINGLE_BASE, address, 1),
        Asked::MultipleWrite {
            table,
            start,
            quantity,
        } => run_of(table, MULTIPLE_BASE, start, quantity),
        Asked::MaskWrite { address, .. } => Carried::Mask(address),
        Asked::ReadWrite {
            write_start,
            write_quantity,
            ..
        } => Carried::Run(Run {
            base: READ_WRITE_BASE,
            start: write_start,
            quantity: write_quantity,
        }),
        Asked::Read { .. } | Asked::Other => Carried::Nothing,
    }
}
