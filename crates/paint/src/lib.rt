// Painting: giving a hop to the leaves below a node that no longer route covers, and counting those that are new.
// A node comes as its prefix and the edge to it, one by one: a struct of the two would be made for each step down and taken apart at once.
#![tactic(auto)]

ghost use Rattle.paint.specs.Whole.{PaintLaws};

mod counting;
mod painting;
mod reach;

pub use counting::count_missing;
pub use painting::paint;

// What the calls come to where each leaf has a prefix, as a contract, so that a check asks for its proof.
pub fn paint_laws_stand()
    ensures { PaintLaws }
{}
