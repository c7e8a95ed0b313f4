// A slot of a store: free, or with one entry. Slots are looked through from the first to the last.
ghost use Rattle.std.specs.Prelude.{◌≡◌};
ghost use Rattle.net.specs.Prefix.{row_of};
ghost use Rattle.store.specs.Slots.{at, holds as holding, spot, told_by, Frees};

use net::Prefix;

// A prefix that is held, and its hop.
#[derive(Clone, Copy, Debug)]
pub struct Entry {
    pub prefix: Prefix,
    pub hop: u16,
}

pub type Slot = Option<Entry>;

// Whether the slot has the prefix.
pub fn holds(slot: &Slot, prefix: &Prefix) -> bool
    ensures { result ≡ holding (row_of prefix.now) slot.now }
{
    match slot {
        Some(entry) => *prefix == entry.prefix,
        None => false,
    }
}

// The hop in a slot, or none where the slot is free or not there.
pub fn hop_at(slots: &[Slot], i: usize) -> Option<u16>
    ensures { result ≡ told_by (at slots.now i) }
{
    let slot = slots.get(i)?;
    slot.map(|entry| entry.hop)
}

// The first slot that holds the prefix. The project asks for a loop with an index here.
pub fn find(slots: &[Slot], prefix: &Prefix) -> Option<usize>
    ensures { result ≡ spot slots.now (row_of prefix.now) }
{
    for (i, slot) in slots.iter().enumerate() {
        if holds(slot, prefix) {
            return Some(i);
        }
    }
    None
}

// The first free slot.
pub fn find_free(slots: &[Slot]) -> Option<usize>
    ensures { Frees slots.now result }
{
    slots.iter().position(|slot| slot.is_none())
}
