// Making an image.
ghost use Rattle.std.specs.Prelude.{◌*◌, ◌≤◌, length, IfOk};
ghost use Rattle.graph.specs.Slots.{in_use};
ghost use Rattle.image.specs.Image.{edges_each};
ghost use Rattle.tree.specs.Ledger.{Given};
ghost use Rattle.tree.specs.Tree.{Routes};
ghost use Rattle.engine.specs.Seen.{state};
ghost use Rattle.engine.specs.Serves.{Serves};
ghost use Rattle.imaging.specs.Make.{Images, Makes, Shows, picture};

use crate::drawing::Drawing;
use crate::numbering::Numbering;
use engine::Engine;
use graph::{Edge, Table};
use net::Family;
use reader::{Stride, check_rows};
use refusal::Refusal;
use store::Store;

// Draws all vertices of a table.
fn draw_all(table: &Table, start: Edge, stride: Stride, edges: &mut [u16], marks: &mut [u64])
    requires edges { length (in_use table.now.slots) * edges_each stride.bits ≤ length edges.old }
    requires marks { length (in_use table.now.slots) ≤ length marks.old }
    ensures { Images table.now.slots start stride.bits edges.old edges.new marks.old marks.new (length (in_use table.now.slots)) }
{
    let numbering = &Numbering::of(table, start);
    let each = stride.edges() as usize;
    // A proof knows only the length of a row whose chunks were lent for writing, so each vertex's part is taken by its place.
    for (x, slot) in numbering.slots.iter().enumerate() {
        let vertex = Drawing {
            table,
            slot: *slot,
            stride,
        };
        let place = x * each;
        vertex.draw(numbering, &mut edges[place..place + each]);
        marks[x] = vertex.marks();
    }
}

// Writes an image of the engine's graph into the rows, and answers how many vertices it has. Refused: a stride that is not 1 to 6, then
// rows that are too short for as many vertices as the engine counts; nothing is written then. Entries behind the image stay.
pub fn make<F: Family, R: Store, L: Store>(
    engine: &Engine<F, R, L>,
    stride: u64,
    edges: &mut [u16],
    marks: &mut [u64],
) -> Result<u64, Refusal>
    ensures makes { Makes (state F.W R.content L.content engine.now) stride edges.old edges.new marks.old marks.new result }
    ensures shows { IfOk result (λ V. (g : Given) (rs : Routes) → Serves g rs (state F.W R.content L.content engine.now) →
        Shows rs (state F.W R.content L.content engine.now) (picture edges.new marks.new stride V)) }
{
    let table = engine.table();
    let vertices = table.count() as u64;
    let stride = check_rows(edges, marks, stride, vertices)?;
    draw_all(table, engine.start(), stride, edges, marks);
    Ok(vertices)
}
