// The buckets of a layer. Bucket b is the three slots from 3 × b on.
ghost use Rattle.std.specs.Prelude.{◌≡◌, ◌≤◌, ◌<◌, None, length, replicate, slice_set};
ghost use Rattle.net.specs.Prefix.{row_of};
ghost use Rattle.store.specs.Slots.{at, spot, told_by, used, Frees};
ghost use Rattle.layer.specs.Buckets.{bucket as bucket_of, fill as fill_of, FindsIn, FreesIn};

use net::Prefix;
use store::{Slot, slot};

// How many slots a layer has.
pub const SLOTS: usize = 768;

// `own` is no length: entries lie anywhere among the slots. It is kept, and tied to them, so that a store tells it at once.
#[derive(Drop)]
pub struct Buckets {
    slots: [Slot; SLOTS],
    own: u64,
    ghost long: { length slots ≡ 768 },
    ghost counted: { own ≡ used slots },
}

impl Buckets {
    pub fn empty() -> Buckets
        ensures { result.slots ≡ replicate 768 None }
    {
        Buckets {
            slots: [None; SLOTS],
            own: 0,
        }
    }

    // How many entries all buckets have.
    pub fn used(&self) -> u64
        ensures { result ≡ used self.now.slots }
    {
        self.own
    }

    fn bucket(&self, bucket: u8) -> &[Slot]
        ensures { result.now ≡ bucket_of self.now.slots bucket }
    {
        let first = 3 * usize::from(bucket);
        &self.slots[first..first + 3]
    }

    // The slot of the bucket that holds the prefix.
    pub fn find_in(&self, bucket: u8, prefix: &Prefix) -> Option<usize>
        ensures { FindsIn self.now.slots bucket (row_of prefix.now) result }
    {
        let i = slot::find(self.bucket(bucket), prefix)?;
        Some(3 * usize::from(bucket) + i)
    }

    // The first free slot of the bucket.
    pub fn free_in(&self, bucket: u8) -> Option<usize>
        ensures { FreesIn self.now.slots bucket result }
    {
        let i = slot::find_free(self.bucket(bucket))?;
        Some(3 * usize::from(bucket) + i)
    }

    // How many entries the bucket has.
    pub fn fill(&self, bucket: u8) -> usize
        ensures { result ≡ fill_of self.now.slots bucket }
    {
        self.bucket(bucket)
            .iter()
            .filter(|slot| slot.is_some())
            .count()
    }

    // The slot that holds the prefix, in whichever bucket.
    pub fn find(&self, prefix: &Prefix) -> Option<usize>
        ensures { result ≡ spot self.now.slots (row_of prefix.now) }
    {
        slot::find(&self.slots, prefix)
    }

    pub fn find_free(&self) -> Option<usize>
        ensures { Frees self.now.slots result }
    {
        slot::find_free(&self.slots)
    }

    pub fn hop_at(&self, i: usize) -> Option<u16>
        ensures { result ≡ told_by (at self.now.slots i) }
    {
        slot::hop_at(&self.slots, i)
    }

    // Writes a slot; nothing past the last.
    pub fn write(&mut self, i: usize, slot: Slot)
        ensures { self.new.slots ≡ slice_set self.old.slots i slot }
    {
        if i >= SLOTS {
            return;
        }
        let before = self.slots[i];
        self.slots[i] = slot;
        self.own = self.own - u64::from(before.is_some()) + u64::from(slot.is_some());
    }
}
