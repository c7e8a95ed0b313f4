// Stores: finite maps from prefixes to hops, with a limit.
#![tactic(auto)]

pub mod flat;
pub mod lent;
pub mod slot;
pub mod store;

pub use flat::FlatRow;
pub use lent::Lent;
pub use slot::{Entry, Slot};
pub use store::Store;
