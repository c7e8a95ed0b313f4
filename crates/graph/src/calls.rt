// An empty table, the number of vertices, and where an edge leads.
ghost use Rattle.std.specs.Prelude.{◌≡◌, List, [], length};
ghost use Rattle.bits.specs.Lists.{different};
ghost use Rattle.tree.specs.Tree.{Shape, alike};
ghost use Rattle.graph.specs.View.{Holds};
ghost use Rattle.graph.specs.Slots.{at, in_use, led};

use super::edge::Edge;
use super::table::{SLOTS, Table};
use super::vertex::Vertex;

impl Table {
    pub fn empty() -> Table
        ensures used { in_use result.slots ≡ [] }
        ensures holds { Holds result.slots [] }
    {
        Table {
            slots: [Vertex::FREE; SLOTS],
            used: 0,
        }
    }

    // How many vertices are in use: as many as the table holds different shapes.
    pub fn count(&self) -> usize
        ensures used { result ≡ length (in_use self.now.slots) }
        ensures shapes { (ss : List Shape) → Holds self.now.slots ss → result ≡ different alike ss }
    {
        self.used
    }

    // The vertex in a slot; past the table, a free one.
    pub(super) fn vertex(&self, n: u16) -> Vertex
        ensures { result ≡ at self.now.slots n }
    {
        self.slots.get(n as usize).copied().unwrap_or(Vertex::FREE)
    }

    // The edge itself where it leads to a vertex in use, else the end.
    pub fn lead(&self, edge: Edge) -> Edge
        ensures { result ≡ led self.now.slots edge }
    {
        match edge {
            Edge::To(n) if self.vertex(n).is_used() => edge,
            _ => Edge::End,
        }
    }
}
