// Following edges: down a prefix's path, and the walk of an address.
ghost use Rattle.std.specs.Prelude.{◌≡◌};
ghost use Rattle.net.specs.Prefix.{row_of};
ghost use Rattle.tree.specs.Graph.{walk as walked};
ghost use Rattle.graph.specs.Descend.{Descends};
ghost use Rattle.graph.specs.Slots.{led, next};
ghost use Rattle.graph.specs.View.{way, out};

use super::edge::Edge;
use super::spot::Spot;
use super::table::Table;
use net::{Family, Prefix};

impl Table {
    // The 0-edge or the 1-edge of the vertex that the edge leads to; from the end, the end.
    pub fn follow(&self, edge: Edge, one: bool) -> Edge
        ensures { result ≡ next self.now.slots (led self.now.slots edge) one }
    {
        match edge {
            Edge::To(n) => self.vertex(n).side(one),
            Edge::End => Edge::End,
        }
    }

    // From the start down by the bits of the prefix: to the prefix's node, or to the leaf above it. The loop counts, since the number of
    // the bit to read is the depth that is answered.
    pub fn descend(&self, start: Edge, prefix: &Prefix) -> Spot
        ensures { Descends self.now.slots start (row_of prefix.now) result }
    {
        let len = prefix.len() as usize;
        let mut edge = self.lead(start);
        for depth in 0..len {
            if let Edge::End = edge {
                return Spot { edge, depth };
            }
            edge = self.follow(edge, prefix.bit(depth));
        }
        Spot { edge, depth: len }
    }

    // How many bits of the address lead from the start to the end; none where all of them don't.
    pub fn walk<F: Family>(&self, start: Edge, address: &F) -> Option<usize>
        ensures { result ≡ walked (out self.now.slots) (way (led self.now.slots start)) (F.Family.row address.now) }
    {
        let spot = self.descend(start, &address.front(F::W));
        match spot.edge {
            Edge::End => Some(spot.depth),
            Edge::To(_) => None,
        }
    }
}
