// The slots of a table by number, from 1 on, and the numbers of the slots; 0, the image's number of the end, is no slot's.
ghost use Rattle.std.specs.Prelude.{◌≡◌, length};

use arrayvec::ArrayVec;
use graph::SLOTS;

#[derive(Drop)]
pub(crate) struct Numbering {
    pub(crate) slots: ArrayVec<u16, SLOTS>,
    pub(crate) numbers: [u16; SLOTS],
    ghost each: { length numbers ≡ 2048 },
}
