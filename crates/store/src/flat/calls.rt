// The calls on a flat row. Each looks through the slots from the first to the last.
ghost use Rattle.std.specs.Prelude.{◌≡◌, min, length};
ghost use Rattle.net.specs.Prefix.{row_of};
ghost use Rattle.store.specs.Content.{Empty};
ghost use Rattle.store.specs.Slots.{row_content, spot, Frees};

use super::FlatRow;
use crate::slot::{Entry, Slot, find, find_free, hop_at};
use crate::store::Store;
use net::Prefix;
use refusal::Refusal;

// No row has a higher limit, however many slots it has.
pub const MOST: usize = 1_048_576;

impl<'a> FlatRow<'a> {
    // Empties the slots.
    pub fn new(slots: &'a mut [Slot]) -> FlatRow<'a>
        ensures empties { Empty (row_content result.slots.now) }
        ensures limits { (row_content result.slots.now).limit ≡ min (length slots.old) 1048576 }
    {
        slots.fill(None);
        FlatRow { slots, held: 0 }
    }

    // The two searches read through `&self`: of slots that a `&mut self` method lends itself, a proof keeps the length alone.
    fn find(&self, prefix: &Prefix) -> Option<usize>
        ensures { result ≡ spot self.now.slots.now (row_of prefix.now) }
    {
        find(self.slots, prefix)
    }

    fn find_free(&self) -> Option<usize>
        ensures { Frees self.now.slots.now result }
    {
        find_free(self.slots)
    }
}

impl Store for FlatRow<'_> {
    ghost use Rattle.store.specs.Numbers.{row_sound};

    ghost content = { λ s. row_content s.slots.now };

    ghost sound = { λ s. row_sound s.slots.now s.held s.apart s.counted s.most };

    fn get(&self, prefix: &Prefix) -> Option<u16> {
        let i = self.find(prefix)?;
        hop_at(self.slots, i)
    }

    fn held(&self) -> u64 {
        self.held
    }

    fn limit(&self) -> u64 {
        self.slots.len().min(MOST) as u64
    }

    fn put(&mut self, prefix: &Prefix, hop: u64) -> Result<(), Refusal> {
        let hop = refusal::hop(hop)?;
        let entry = Entry {
            prefix: *prefix,
            hop,
        };
        if let Some(i) = self.find(prefix) {
            self.slots[i] = Some(entry);
            return Ok(());
        }
        if self.held == self.limit() {
            return Err(Refusal::StoreFull);
        }
        // Below its limit a row has a free slot.
        let i = self.find_free().ok_or(Refusal::StoreFull)?;
        self.slots[i] = Some(entry);
        self.held += 1;
        Ok(())
    }

    fn remove(&mut self, prefix: &Prefix) -> Option<u16> {
        let i = self.find(prefix)?;
        // The borrow checker does not cover a `take` of the slot here.
        let slot = self.slots[i];
        self.slots[i] = None;
        self.held -= 1;
        slot.map(|entry| entry.hop)
    }

    fn clear(&mut self) {
        self.slots.fill(None);
        self.held = 0;
    }
}
