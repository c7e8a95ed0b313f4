// The path of a prefix: up the routes, and folded back when its route is struck.
#![tactic(auto)]

ghost use Rattle.path.specs.PathLaws.{PathLaws};

mod fold;
mod shorter;

pub use fold::prune;
pub use shorter::next_shorter;

// What the calls come to over the standing routes, as a contract, so that a check asks for its proof.
pub fn path_laws_stand()
    ensures { PathLaws }
{}
