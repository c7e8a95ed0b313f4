// The bucket layer: a store of 256 buckets with three slots each, on any other store.
#![tactic(auto)]

mod bucket;
pub mod layer;
pub mod place;

ghost use Rattle.layer.specs.Buckets.{ChoiceLaw};

pub use layer::Layer;
pub use place::Place;

// The law of the choice among buckets, as a contract, so that a check asks for its proof.
pub fn choice_law_stands()
    ensures { ChoiceLaw }
{}
