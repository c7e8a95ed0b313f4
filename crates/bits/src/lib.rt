// Rows of bits, and 128 of them in two words. The theory of rows and of lists as sets: definitions in specs/, their laws in proofs/.
#![tactic(auto)]

pub mod halves;

pub use halves::Halves;
