// Painting the leaves that a node decides.
ghost use Rattle.std.specs.Prelude.{◌≡◌};
ghost use Rattle.net.specs.Prefix.{row_of};
ghost use Rattle.graph.specs.Slots.{led};
ghost use Rattle.paint.specs.Paint.{Marks, Paints};

use crate::reach::Reach;
use graph::{Edge, Table};
use net::Prefix;
use refusal::Refusal;
use store::Store;

// Gives the leaf `at` the hop, or takes its entry out.
#[tactic(auto, using(crate::proofs::Lengths::nameable_row))]
fn mark<L: Store>(leaves: &mut L, at: &Prefix, hop: Option<u16>) -> Result<(), Refusal>
    ensures { Marks hop (L.content leaves.old) (row_of at.now) result (L.content leaves.new) }
{
    match hop {
        Some(hop) => leaves.put(at, u64::from(hop)),
        None => {
            leaves.remove(at);
            Ok(())
        }
    }
}

// Gives the hop to every leaf below the node `at`, which the edge leads to, that no longer route covers, or takes their entries out.
// It goes from the 0 side to the 1 side. The first leaf that the store refuses ends it, with the store's refusal: those before it are
// painted. A child of a node of 128 bits has no prefix, and ends it the same way, refused for its length.
pub fn paint<R: Store, L: Store>(
    routes: &R,
    leaves: &mut L,
    table: &Table,
    at: &Prefix,
    edge: Edge,
    hop: Option<u16>,
) -> Result<(), Refusal>
    ensures limits { (L.content leaves.new).limit ≡ (L.content leaves.old).limit }
    ensures paints { Paints (R.content routes.now).map table.now.slots (led table.now.slots edge) (row_of at.now) hop
        (L.content leaves.old) (L.content leaves.new) result }
{
    let reach = Reach { routes, table };
    let paint_one = |leaves: &mut L, leaf: Option<&Prefix>| match leaf {
        Some(leaf) => mark(leaves, leaf, hop),
        None => Err(Refusal::Length),
    };
    reach.each_leaf(at, table.lead(edge), leaves, &paint_one)
}
