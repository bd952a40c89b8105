// The live table in columns: the book that they are and what every call keeps of them. The code has the columns as one value, and reads a place's id.
#![tactic(auto)]

ghost use Rattle.std.specs.Prelude.{◌≡◌, ◌-◌, ◌≤◌, ◌<◌, get_or};
ghost use Rattle.numbers.specs.Numbers.{ids as idCount, places};

use pdu::ProxyId;

// The live table, as the host lends it, and the next proxy id to try. (The order and the types are those of C's struct zb_state: they may not change, and the cursor stands here since it stands so there. No fact is a part of the type, since a host lends whatever bytes it has to be made fresh: what holds of a table stands in the clauses of what works on it.)
#[repr(C)]
#[derive(Drop)]
pub struct LiveTable {
    pub ids: [u32; numbers::PLACES],
    pub asked: [u64; numbers::PLACES],
    pub callers: [u8; numbers::PLACES],
    pub deadlines: [u64; numbers::PLACES],
    pub counts: [u8; numbers::PLACES],
    pub clients: [u8; numbers::PARTY_PLACES],
    pub originals: [u16; numbers::PARTY_PLACES],
    pub top: u32,
    pub cursor: u16,
}

impl LiveTable {
    // The proxy id of a live place.
    pub fn id_at(&self, place: usize) -> ProxyId
        requires { (place < places) × (0 < get_or self.now.ids place 0) × (get_or self.now.ids place 0 ≤ idCount) }
        ensures { result.0 ≡ get_or self.now.ids place 0 - 1 }
    {
        let held = self.ids[place] - 1;
        ProxyId(held as u16)
    }
}
