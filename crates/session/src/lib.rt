// Sessions: a stream of text lines, in pieces cut anywhere, and the replies to its lines.
#![tactic(auto)]

mod feed;
mod session;

pub use feed::Fed;
pub use session::Session;
