// A census of routes: the graph of their tree, and how much of the tree it stores once.
use graph::{Edge, Table};

// `forks` counts the branching nodes of the tree. Numbers that do not fit their type stay at the greatest.
#[derive(Drop)]
pub struct Census {
    pub(super) table: Table,
    pub(super) start: Edge,
    pub(super) routes: u64,
    pub(super) forks: u64,
}

#[derive(Clone, Copy, PartialEq, Eq, Debug)]
pub struct Summary {
    pub routes: u64,
    pub nodes: u64,
    pub leaves: u64,
    pub vertices: usize,
}
