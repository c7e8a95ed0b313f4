// Making images of an engine's graph, and looking addresses up by them.
#![tactic(auto)]

mod draw;
mod drawing;
mod look;
mod making;
mod number;
mod numbering;

pub use look::lookup_by_image;
pub use making::make;
