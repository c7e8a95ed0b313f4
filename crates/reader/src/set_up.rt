// Setting a reader up.
ghost use Rattle.std.specs.Prelude.{◌≡◌};
ghost use Rattle.reader.specs.Reader.{image_of, no_image, SetsUp};

use crate::reader::Reader;
use crate::rows::check_rows;
use crate::stride::Stride;
use refusal::Refusal;

impl<'a> Reader<'a> {
    // A reader of an image with no vertex.
    pub fn empty() -> Reader<'a>
        ensures { image_of result ≡ no_image }
    {
        Reader {
            edges: &[],
            marks: &[],
            stride: Stride { bits: 1 },
            vertices: 0,
        }
    }

    // Takes the rows, the stride and the number of vertices. Where they are refused, the reader stays as it was.
    pub fn set_up(
        &mut self,
        edges: &'a [u16],
        marks: &'a [u64],
        stride: u64,
        vertices: u64,
    ) -> Result<(), Refusal>
        ensures { SetsUp edges.now marks.now stride vertices (image_of self.old) (image_of self.new) result }
    {
        let stride = check_rows(edges, marks, stride, vertices)?;
        *self = Reader {
            edges,
            marks,
            stride,
            vertices,
        };
        Ok(())
    }
}
