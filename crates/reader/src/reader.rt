// A reader holds an image, whatever its rows contain: it borrows them for reading.
ghost use Rattle.std.specs.Prelude.{◌*◌, ◌^◌, ◌≤◌, length};

use crate::stride::Stride;

// Edges and marks stand in two rows, since a caller lends them as two slices; they come one by one, as a maker is lent the same to write.
#[derive(Drop)]
pub struct Reader<'a> {
    pub(crate) edges: &'a [u16],
    pub(crate) marks: &'a [u64],
    pub(crate) stride: Stride,
    pub(crate) vertices: u64,
}
