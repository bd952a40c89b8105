// Attach, detach and link lost: the set of attached clients is one number, by shift and mask.
ghost use Rattle.std.specs.Prelude.{◌≡◌, [], ◌<◌, ◌≤◌};
ghost use Rattle.numbers.specs.Numbers.{clients as clientCount, places};
ghost use Rattle.laws.specs.Bits.{has};
ghost use Rattle.machine.specs.Calls.Call.{attach as attaches, detach as detaches, link_lost};
ghost use Rattle.machine.specs.Refusals.{is_strange_to};
ghost use Rattle.table.specs.inner.Changes.{Runs};
ghost use Rattle.proxy.specs.State.{State, lent_set, lent_parties, lent_ids, state_of, SoundState};
ghost use Rattle.proxy.specs.Calls.{Does};

use crate::Device;
use machine::{Answer, Refusal};

// Whether a client is in a set.
pub fn is_member(set: u32, client: u32) -> bool
    requires { client < clientCount }
    ensures { result ≡ has set client }
{
    (set >> client) & 1 == 1
}

// Whether a client number is above the last, or not attached: refusal 2.
pub fn is_stranger(attached: u32, client: u32) -> bool
    ensures { result ≡ is_strange_to attached client }
{
    if client < numbers::CLIENTS {
        !is_member(attached, client)
    } else {
        true
    }
}

// Attaches a client to a set, whatever the rest of the state is: refusal 2 above 31, refusal 9 where it is attached.
pub fn attach_to(attached: &mut u32, client: u32) -> Answer
    ensures { (s : State) → SoundState (lent_set s attached.old) → Does (lent_set s attached.old) (attaches client) result (lent_set s attached.new) [] [] }
{
    if numbers::CLIENTS <= client {
        return Answer::from(Refusal::Client);
    }
    if is_member(*attached, client) {
        return Answer::from(Refusal::Attached);
    }
    *attached |= 1 << client;
    Answer::Done
}

// Attaches a client to the device's set. Whatever the rest of the state is, it stays.
pub fn attach(device: &mut Device, client: u32) -> Answer
    ensures does { (s : State) → SoundState (lent_set s device.old.attached) → Does (lent_set s device.old.attached) (attaches client) result (lent_set s device.new.attached) [] [] }
    ensures stays { state_of device.new ≡ lent_set (state_of device.old) device.new.attached }
{
    attach_to(&mut device.attached, client)
}

// Detaches a client and strikes its parties out of every entry: refusal 2 for a stranger. Whatever the rest of the state is, it stays.
pub fn detach(device: &mut Device, client: u32) -> Answer
    requires { Runs device.old.table.counts device.old.table.clients device.old.table.originals × (device.old.table.top ≤ places) }
    ensures does { (s : State) → SoundState (lent_parties s device.old.table.counts device.old.table.clients device.old.table.originals device.old.table.top device.old.attached)
        → Does (lent_parties s device.old.table.counts device.old.table.clients device.old.table.originals device.old.table.top device.old.attached) (detaches client) result (lent_parties s device.new.table.counts device.new.table.clients device.new.table.originals device.new.table.top device.new.attached) [] [] }
    ensures stays { state_of device.new ≡ lent_parties (state_of device.old) device.new.table.counts device.new.table.clients device.new.table.originals device.new.table.top device.new.attached }
{
    if is_stranger(device.attached, client) {
        return Answer::from(Refusal::Client);
    }
    moves::striking::strike(&mut device.table, client as u8);
    device.attached &= !(1 << client);
    Answer::Done
}

// The link is lost: nothing is live, nobody is attached, nothing is cached; the former set is told. Whatever the rest of the state is, it stays.
pub fn link_lost(device: &mut Device) -> Answer
    ensures does { (s : State) → SoundState (lent_ids s device.old.table.ids device.old.table.top device.old.attached device.old.cache.numbers) → Does (lent_ids s device.old.table.ids device.old.table.top device.old.attached device.old.cache.numbers) link_lost result (lent_ids s device.new.table.ids device.new.table.top device.new.attached device.new.cache.numbers) [] [] }
    ensures stays { state_of device.new ≡ lent_ids (state_of device.old) device.new.table.ids device.new.table.top device.new.attached device.new.cache.numbers }
{
    let former = device.attached;
    device.table.ids = [0u32; numbers::PLACES];
    device.table.top = 0;
    device.attached = 0;
    device.cache.empty();
    Answer::Lost { set: former }
}
