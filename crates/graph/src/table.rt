ghost use Rattle.std.specs.Prelude.{◌≡◌, length};
ghost use Rattle.graph.specs.Slots.{Sound, in_use};

use super::vertex::Vertex;

// How many vertices a table has room for.
pub const SLOTS: usize = 2048;

// The table of vertices. What is true of it alone stands in its type: `used` counts the slots in use, their edges lead to slots in use
// or to the end, each of them unfolds to a shape, and no two to the same. Its vertices lie in slots and not in boxes: many edges lead
// to one vertex, and the memory is fixed. `used` is no length: the slots in use lie anywhere. It is kept, and tied to them, so that a
// count is told at once.
#[derive(Drop)]
pub struct Table {
    pub(super) slots: [Vertex; SLOTS],
    pub(super) used: usize,
    ghost long: { length slots ≡ 2048 },
    ghost counted: { used ≡ length (in_use slots) },
    ghost sound: { ∥ Sound slots ∥₁ },
}
