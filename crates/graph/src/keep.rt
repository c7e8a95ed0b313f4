// Frees the vertices that an edge does not reach.
ghost use Rattle.std.specs.Prelude.{◌≡◌, length};
ghost use Rattle.graph.specs.Keep.{Marked, Swept, KeptFrom};
ghost use Rattle.graph.specs.Slots.{in_use};

use super::edge::Edge;
use super::table::{SLOTS, Table};
use super::vertex::Vertex;

// Frees the slots that are not marked, and says how many stay in use, in one pass. A proof follows slots that are lent through
// `enumerate`, and loses them through a `zip`.
fn sweep(slots: &mut [Vertex; SLOTS], marks: &[bool; SLOTS]) -> usize
    ensures swept { Swept slots.old marks.now slots.new }
    ensures counted { result ≡ length (in_use slots.new) }
    ensures long { length slots.new ≡ 2048 }
{
    let mut used = 0;
    for (n, slot) in slots.iter_mut().enumerate() {
        if !marks[n] {
            slot.release();
        } else if slot.is_used() {
            used += 1;
        }
    }
    used
}

impl Table {
    // Marks the slots that the edge reaches, where its shape is no deeper than the budget. A slot is marked after what lies below it,
    // so that the edges of a marked slot always lead to marked slots. Each slot is entered once, so it costs as much as there is to mark.
    fn mark(&self, marks: &mut [bool; SLOTS], edge: Edge, budget: usize)
        ensures { Marked self.now.slots marks.old marks.new edge budget }
    {
        let Edge::To(n) = edge else {
            return;
        };
        let Some(sides) = self.vertex(n).edges else {
            return;
        };
        if budget == 0 || marks[n as usize] {
            return;
        }
        self.mark(marks, sides.zero, budget - 1);
        self.mark(marks, sides.one, budget - 1);
        marks[n as usize] = true;
    }

    // Frees what the start does not reach. The budget is never used up: no shape is deeper than the table has slots.
    pub fn keep_only(&mut self, start: Edge)
        ensures { KeptFrom self.old.slots self.new.slots start }
    {
        let start = self.lead(start);
        let mut marks = [false; SLOTS];
        self.mark(&mut marks, start, SLOTS);
        let used = sweep(&mut self.slots, &marks);
        self.used = used;
    }
}
