// The checks on the rows of an image.
ghost use Rattle.reader.specs.Rows.{RowsChecked};

use crate::stride::Stride;
use refusal::Refusal;

// Refused: a stride that is not 1 to 6, then rows that are too short for so many vertices.
pub fn check_rows(
    edges: &[u16],
    marks: &[u64],
    stride: u64,
    vertices: u64,
) -> Result<Stride, Refusal>
    ensures { RowsChecked edges.now marks.now stride vertices result }
{
    let stride = Stride::try_from(stride)?;
    if vertices > edges.len() as u64 >> stride.bits || vertices > marks.len() as u64 {
        return Err(Refusal::ImageRows);
    }
    Ok(stride)
}
