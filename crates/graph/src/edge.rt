// Where an edge leads: to the end, or to the vertex in a slot of the table. It is no Option: the end is a leaf of the tree, and not
// the lack of an edge.
#[derive(Clone, Copy, PartialEq, Eq, Debug)]
pub enum Edge {
    End,
    To(u16),
}
