// Counting the leaves that painting would give a new entry.
ghost use Rattle.std.specs.Prelude.{◌≡◌};
ghost use Rattle.net.specs.Prefix.{row_of};
ghost use Rattle.graph.specs.Slots.{led};
ghost use Rattle.paint.specs.Paint.{Counts};

use crate::reach::Reach;
use graph::{Edge, Table};
use net::Prefix;
use std::convert::Infallible;
use store::Store;

// How many of the leaves that painting from `at` reaches have no entry yet. A number over the greatest stays at it. A child of a node of
// 128 bits has no prefix, and is passed over.
pub fn count_missing<R: Store, L: Store>(
    routes: &R,
    leaves: &L,
    table: &Table,
    at: &Prefix,
    edge: Edge,
) -> u64
    ensures { Counts (R.content routes.now).map (L.content leaves.now).map table.now.slots (led table.now.slots edge) (row_of at.now) result }
{
    let reach = Reach { routes, table };
    let count_one = |missing: &mut u64, leaf: Option<&Prefix>| -> Result<(), Infallible> {
        if let Some(leaf) = leaf {
            *missing = missing.saturating_add(u64::from(leaves.get(leaf).is_none()));
        }
        Ok(())
    };
    let mut missing = 0;
    let Ok(()) = reach.each_leaf(at, table.lead(edge), &mut missing, &count_one);
    missing
}
