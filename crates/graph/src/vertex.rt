// A vertex record: a slot of the table, free or with the two edges of a vertex.
ghost use Rattle.std.specs.Prelude.{◌≡◌, true, false, ◌↔◌, ◌⊎◌, is_some};
ghost use Rattle.graph.specs.Slots.{blank, linked, used, side_of};

use super::edge::Edge;

// The 0-edge and the 1-edge of a vertex.
#[derive(Clone, Copy, PartialEq, Eq, Debug)]
pub struct Sides {
    pub(crate) zero: Edge,
    pub(crate) one: Edge,
}

#[derive(Clone, Copy, PartialEq, Eq, Debug)]
pub struct Vertex {
    pub(crate) edges: Option<Sides>,
}

impl Vertex {
    pub(crate) const FREE: Vertex = Vertex { edges: None };

    pub(crate) fn link(&mut self, zero: Edge, one: Edge)
        ensures { self.new ≡ linked zero one }
    {
        self.edges = Some(Sides { zero, one });
    }

    pub(crate) fn release(&mut self)
        ensures { self.new ≡ blank }
    {
        *self = Vertex::FREE;
    }

    pub(crate) fn is_used(&self) -> bool
        ensures { result ≡ used self.now }
    {
        self.edges.is_some()
    }

    pub(crate) fn joins(&self, zero: Edge, one: Edge) -> bool
        ensures { (result ≡ true) ↔ (self.now ≡ linked zero one) }
    {
        self.edges == Some(Sides { zero, one })
    }

    // Free, or with these edges.
    pub(crate) fn suits(&self, zero: Edge, one: Edge) -> bool
        ensures { (result ≡ true) ↔ ((used self.now ≡ false) ⊎ (self.now ≡ linked zero one)) }
    {
        self.edges.is_none_or(|sides| sides == Sides { zero, one })
    }

    // The 0-edge or the 1-edge; of a free slot, the end.
    pub(crate) fn side(&self, one: bool) -> Edge
        ensures { result ≡ side_of self.now one }
    {
        match self.edges {
            Some(sides) if one => sides.one,
            Some(sides) => sides.zero,
            None => Edge::End,
        }
    }
}
