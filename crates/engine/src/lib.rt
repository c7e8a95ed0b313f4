// The forwarding engine: routes come and go, and each address gets the hop of its longest match.
#![tactic(auto)]

mod announce;
mod call;
mod draw;
mod engine;
mod parts;
mod run;
mod withdraw;
mod write;

pub use call::{Answer, Call};
pub use engine::Engine;
pub use run::{Turn, replay};
