use super::edge::Edge;

// A node of a tree on a prefix's path: the edge to it, and how many bits it has.
#[derive(Clone, Copy, PartialEq, Eq, Debug)]
pub struct Spot {
    pub edge: Edge,
    pub depth: usize,
}
