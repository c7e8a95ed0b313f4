// Text lines: what a line asks of an engine, and how the answer is written.
#![tactic(auto)]

mod buffer;
mod read;
mod tell;
mod write;

pub use buffer::Buffer;
pub use read::read_call;
pub use tell::{LEAST_ROW, answer_line};
