// An engine at the end of a stream of text.
use engine::Engine;
use line::Buffer;

// The engine, and the beginning of the line that has not ended yet. What it has heard is no fact of its type: each promise is for every
// input and output.
#[derive(Drop)]
pub struct Session<F, R, L> {
    pub(super) engine: Engine<F, R, L>,
    pub(super) line: Buffer,
}
