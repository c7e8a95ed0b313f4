// A layer of buckets over a store.
ghost use Rattle.std.specs.Prelude.{◌≡◌, ◌+◌, ◌≤◌, true};
ghost use Rattle.bits.specs.Rows.{Bits};
ghost use Rattle.store.specs.Content.{absent, present};
ghost use Rattle.store.specs.Slots.{told_in, used, Apart};
ghost use Rattle.layer.specs.Buckets.{strays_in};

use crate::bucket::Buckets;
use chooser::Chooser;
use store::Store;

pub mod calls;
pub mod search;

#[derive(Drop)]
pub struct Layer<C: Chooser, S: Store> {
    chooser: C,
    below: S,
    buckets: Buckets,
    strays: u16,
    // no prefix is in two slots
    ghost apart: { Apart buckets.slots },
    // no prefix is in a slot and below
    ghost separate: { (q : Bits) → present (told_in buckets.slots q) ≡ true → (S.content below).map q ≡ absent },
    // the entries that lie in none of their four buckets
    ghost counted: { strays ≡ strays_in C.bucket buckets.slots },
    ghost most: { used buckets.slots + (S.content below).held ≤ 16777216 },
}
