// Looking an address up by an image.
ghost use Rattle.tree.specs.Ledger.{Given};
ghost use Rattle.tree.specs.Tree.{Routes};
ghost use Rattle.engine.specs.Seen.{state};
ghost use Rattle.engine.specs.Serves.{Serves};
ghost use Rattle.imaging.specs.Look.{Looked};

use crate::making::make;
use engine::Engine;
use net::Family;
use reader::Reader;
use refusal::Refusal;
use store::Store;

// Makes an image of the engine's graph, sets a reader up with it and walks the address: the leaf's length and the hop or none, the same as a lookup answers.
pub fn lookup_by_image<F: Family, R: Store, L: Store>(
    engine: &Engine<F, R, L>,
    stride: u64,
    edges: &mut [u16],
    marks: &mut [u64],
    address: &F,
) -> Result<(usize, Option<u16>), Refusal>
    ensures { (g : Given) (rs : Routes) → Serves g rs (state F.W R.content L.content engine.now) →
        Looked g rs (state F.W R.content L.content engine.now) (F.Family.row address.now) stride edges.old edges.new marks.old marks.new result }
{
    let vertices = make(engine, stride, edges, marks)?;
    let mut reader = Reader::empty();
    reader.set_up(edges, marks, stride, vertices)?;
    reader.walk(address, engine.leaves())
}
