// The edges and the marks of one vertex of an image.
ghost use Rattle.std.specs.Prelude.{◌≡◌, ◌<◌, length};
ghost use Rattle.graph.specs.View.{out};
ghost use Rattle.image.specs.Image.{edges_each};
ghost use Rattle.image.specs.Picture.{Marked};
ghost use Rattle.imaging.specs.Vertices.{Goes, Drawn};

use crate::drawing::Drawing;
use crate::numbering::Numbering;
use bits::Halves;
use graph::Edge;
use net::Prefix;

impl Drawing<'_> {
    // Where the bits of an edge lead, and how many of them are left there.
    fn down(&self, edge: u64) -> (Edge, u64)
        requires { edge < edges_each self.now.stride.bits }
        ensures { Goes self.now.table.now.slots self.now.stride.bits self.now.slot edge result.0 result.1 }
    {
        let bits = self.stride.bits();
        let halves = Halves {
            first: edge << (64 - bits),
            second: 0,
        };
        let path = Prefix::front_of(halves, bits as usize);
        let spot = self.table.descend(Edge::To(self.slot), &path);
        (spot.edge, bits - spot.depth as u64)
    }

    // The marks: the first group of edges has 0, each next group the other bit. An edge whose bits end early is one of a block of
    // edges that lead to the same leaf; the next edge is of another group where a block begins with it. It goes over the edges' numbers:
    // no row holds the edges yet.
    pub(crate) fn marks(&self) -> u64
        ensures { Marked (out self.now.table.now.slots) self.now.stride.bits self.now.slot result }
    {
        let mut marks = 0;
        let mut one = false;
        for edge in 1..self.stride.edges() {
            let (_, left) = self.down(edge - 1);
            if edge % (1 << left) == 0 {
                one = !one;
            }
            if one {
                marks += 1 << edge;
            }
        }
        marks
    }

    // The edges, by the numbers of the vertices.
    pub(crate) fn draw(&self, numbering: &Numbering, edges: &mut [u16])
        requires { length edges.old ≡ edges_each self.now.stride.bits }
        ensures { Drawn self.now.table.now.slots numbering.now.numbers self.now.stride.bits self.now.slot edges.new }
    {
        for (edge, number) in edges.iter_mut().enumerate() {
            let (to, _) = self.down(edge as u64);
            *number = numbering.number(to);
        }
    }
}
