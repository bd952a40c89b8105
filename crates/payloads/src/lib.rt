// What a frame's payload becomes: a request's on its way to the controller, a reply's on its way back.
#![tactic(auto)]

pub mod carrying;
pub mod registers;
pub mod strict;
pub mod tags;

ghost use Rattle.std.specs.Prelude.{◌≡◌, false, ℕ, map};
ghost use Rattle.pdu.specs.Replies.{what, excepts};
ghost use Rattle.settings.specs.TagWords.{tag_of};
ghost use Rattle.rewrite.specs.Rewriting.{with_counts};
ghost use Rattle.rewrite.specs.declared.Way.TheVariants.{ToBinary};
ghost use Rattle.rewrite.specs.Frames.{read_base, single_base, passing, forwarded, returned_by, returned, under};
ghost use Rattle.rewrite.specs.inner.Lent.{Run as InBuffer, RunOf, Sent, Brought, Framed};

use crate::carrying::{Carried, Run, SINGLE_BASE, carried_by};
use crate::tags::Tags;
use pdu::{Asked, ProxyId, Table};
use rewrite::{Raw, Way};

// The byte at which the registers of a reply to 03, 04 and 23 begin: specs/Frames.antt of rewrite has it under the same name.
const READ_BASE: usize = 9;

// A request's registers to BCD, in its own frame. (That the registers lie in the frame is said of both, and stays a clause: a struct of a lent frame and a run would be made again for each call.)
fn send(frame: &mut [u8], asked: Asked, tags: Tags) -> Raw
    requires sent { Sent asked frame.old }
    ensures { with_counts result.partial result.value frame.new ≡ forwarded (map tag_of tags.entry.words.now) asked frame.old }
{
    match carried_by(asked) {
        Carried::Nothing | Carried::Mask(_) => Raw::default(),
        Carried::Run(run) => registers::rewrite(frame, run, Way::ToBcd, tags),
    }
}

// The registers that a reply brings from byte 9 on, to binary, in its own frame; bits pass as they are.
fn bring_read(frame: &mut [u8], table: Table, start: u16, quantity: u16, tags: Tags) -> Raw
    requires { RunOf table read_base start quantity frame.old }
    ensures { with_counts result.partial result.value frame.new ≡ passing table ToBinary read_base start quantity (map tag_of tags.entry.words.now) frame.old }
{
    let run = Run {
        base: READ_BASE,
        start,
        quantity,
    };
    match table {
        Table::Bits => Raw::default(),
        Table::Registers => registers::rewrite(frame, run, Way::ToBinary, tags),
    }
}

// The echo of a request 06 that wrote the value to the address: to binary where the request was re-encoded, else as it came.
fn bring_echo(frame: &mut [u8], address: u16, value: u16, tags: Tags) -> Raw
    requires { InBuffer single_base address 1 frame.old }
    ensures { with_counts result.partial result.value frame.new ≡ returned_by (map tag_of tags.entry.words.now) (Asked.SingleWrite Table.Registers address value) frame.old }
{
    if registers::is_reencoded(tags, address, value) {
        let run = Run {
            base: SINGLE_BASE,
            start: address,
            quantity: 1,
        };
        return registers::rewrite(frame, run, Way::ToBinary, tags);
    }
    Raw::default()
}

// A reply's registers to binary, in its own frame; an exception has none.
fn bring(frame: &mut [u8], function: u8, asked: Asked, tags: Tags) -> Raw
    requires brought { excepts function frame.old ≡ false → Brought asked frame.old }
    ensures { (unit : ℕ) → with_counts result.partial result.value frame.new ≡ returned (map tag_of tags.entry.words.now) (what unit function asked) frame.old }
{
    if checking::matching::is_exception(function, frame) {
        return Raw::default();
    }
    match asked {
        Asked::Read {
            table,
            start,
            quantity,
        } => bring_read(frame, table, start, quantity, tags),
        // A nested pattern was tried: the check gives no name to the fact that these are registers.
        Asked::SingleWrite {
            table,
            address,
            value,
        } => match table {
            Table::Bits => Raw::default(),
            Table::Registers => bring_echo(frame, address, value, tags),
        },
        Asked::ReadWrite {
            start,
            quantity,
            // Named, since the wrong program reply-23-by-its-write-start reads it.
            write_start: _,
            write_quantity: _,
        } => bring_read(frame, Table::Registers, start, quantity, tags),
        Asked::MultipleWrite { .. } | Asked::MaskWrite { .. } | Asked::Other => Raw::default(),
    }
}

// Writes a request's frame over the start of out, under the proxy's id, its registers rewritten.
pub fn forward(out: &mut [u8], frame: &[u8], id: ProxyId, asked: Asked, tags: Tags) -> Raw
    requires framed { Framed frame.now out.old }
    requires sent { Sent asked frame.now }
    ensures { with_counts result.partial result.value out.new ≡ under id.0 out.old (forwarded (map tag_of tags.entry.words.now) asked frame.now) }
{
    let n = frame.len();
    wire::copy(out, frame);
    let raw = send(&mut out[..n], asked, tags);
    wire::frames::lay_id(out, id.0);
    raw
}

// Writes a reply's frame over the start of out, with id 0, its registers rewritten. (Function and what was asked are two, since the promise is for every unit; `forward` has other registers and another id in the same four steps.)
pub fn give_back(out: &mut [u8], frame: &[u8], function: u8, asked: Asked, tags: Tags) -> Raw
    requires framed { Framed frame.now out.old }
    requires brought { excepts function frame.now ≡ false → Brought asked frame.now }
    ensures { (unit : ℕ) → with_counts result.partial result.value out.new ≡ under 0 out.old (returned (map tag_of tags.entry.words.now) (what unit function asked) frame.now) }
{
    let n = frame.len();
    wire::copy(out, frame);
    let raw = bring(&mut out[..n], function, asked, tags);
    wire::frames::lay_id(out, 0);
    raw
}
