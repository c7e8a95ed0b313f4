// A table of the vertices of a graph: one slot for each different shape.
#![tactic(auto)]

ghost use Rattle.graph.specs.View.{ViewLaws, ForkLaws, KeepLaws};

mod calls;
mod edge;
mod fork;
mod grow;
mod keep;
mod spot;
mod table;
mod vertex;
mod walk;

pub use edge::Edge;
pub use spot::Spot;
pub use table::{SLOTS, Table};
pub use vertex::{Sides, Vertex};

// The laws of a table as a graph and as a set of shapes, as contracts, so that a check asks for their proofs.
pub fn view_laws_stand()
    ensures { ViewLaws }
{}

pub fn change_laws_stand()
    ensures forks { ForkLaws }
    ensures keeps { KeepLaws }
{}
