// Numbering the vertices of a table.
ghost use Rattle.std.specs.Prelude.{◌≡◌, ◌+◌, ◌<◌, [], ◌∷◌, ◌++◌, length, slice_set};
ghost use Rattle.graph.specs.Slots.{led};
ghost use Rattle.graph.specs.View.{way};
ghost use Rattle.imaging.specs.Vertices.{Numbers, number_of};

use crate::numbering::Numbering;
use arrayvec::ArrayVec;
use graph::{Edge, SLOTS, Table};

impl Numbering {
    // Gives a slot the next number.
    fn add(&mut self, slot: u16)
        requires room { length self.old.slots.items < 2048 }
        requires there { slot < 2048 }
        ensures slots { self.new.slots.items ≡ self.old.slots.items ++ slot ∷ [] }
        ensures numbers { self.new.numbers ≡ slice_set self.old.numbers slot (length self.old.slots.items + 1) }
    {
        self.slots.push(slot);
        self.numbers[slot as usize] = self.slots.len() as u16;
    }

    // The start's slot first, then the other slots in use, in their order. It goes over the slots' numbers: the slots are the table's own.
    pub(crate) fn of(table: &Table, start: Edge) -> Numbering
        ensures { Numbers table.now.slots (led table.now.slots start) result }
    {
        let mut numbering = Numbering {
            slots: ArrayVec::new(),
            numbers: [0; SLOTS],
        };
        let first = table.lead(start);
        if let Edge::To(slot) = first {
            numbering.add(slot);
        }
        for slot in 0..SLOTS as u16 {
            let edge = Edge::To(slot);
            if edge != first && table.lead(edge) == edge {
                numbering.add(slot);
            }
        }
        numbering
    }

    // The number of the vertex that an edge leads to, and 0 for the end.
    pub(crate) fn number(&self, edge: Edge) -> u16
        ensures { result ≡ number_of self.now.numbers (way edge) }
    {
        match edge {
            Edge::To(slot) => self.numbers.get(slot as usize).copied().unwrap_or(0),
            Edge::End => 0,
        }
    }
}
