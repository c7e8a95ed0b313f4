// The flat row: a store on slots that the caller lends.
ghost use Rattle.std.specs.Prelude.{◌≡◌, ◌≤◌};
ghost use Rattle.store.specs.Slots.{used, Apart};

use crate::slot::Slot;

pub mod calls;

// `held` is no length: entries lie anywhere among the slots. It is kept, and tied to them, so that a store tells it at once.
#[derive(Drop)]
pub struct FlatRow<'a> {
    slots: &'a mut [Slot],
    held: u64,
    // no prefix is in two slots
    ghost apart: { Apart slots.now },
    ghost counted: { held ≡ used slots.now },
    ghost most: { held ≤ 1048576 },
}
