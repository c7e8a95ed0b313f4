// The leaves that a node decides: those below it that no longer route covers.
ghost use Rattle.net.specs.Prefix.{row_of};
ghost use Rattle.paint.specs.Reach.{VisitsAt, Reaches};

use graph::{Edge, Table};
use net::Prefix;
use store::Store;

// The standing routes, and the table of the graph that has their tree.
#[derive(Drop)]
pub(crate) struct Reach<'a, R> {
    pub(crate) routes: &'a R,
    pub(crate) table: &'a Table,
}

impl<R: Store> Reach<'_, R> {
    // Visits the leaves below the node `at`, which the edge leads to, that no longer route covers, from the 0 side to the 1 side, until a visit fails.
    // The edge leads to a vertex in use or to the end. A child of a node of 128 bits has no prefix: it is visited as none in its turn, with a route
    // or not, in place of all that is below it.
    pub(crate) fn each_leaf<S, E, F: Fn(&mut S, Option<&Prefix>) -> Result<(), E>>(
        &self,
        at: &Prefix,
        edge: Edge,
        state: &mut S,
        visit: &F,
    ) -> Result<(), E>
        requires { F.IsAlwaysCallable visit.now }
        ensures { Reaches (R.content self.now.routes.now).map self.now.table.now.slots edge (row_of at.now) (VisitsAt F.Fn visit.now) state.old result state.new }
    {
        if let Edge::End = edge {
            return visit(state, Some(at));
        }
        for one in [false, true] {
            let Some(below) = at.child(one) else {
                visit(state, None)?;
                continue;
            };
            if self.routes.get(&below).is_some() {
                continue;
            }
            self.each_leaf(&below, self.table.follow(edge, one), state, visit)?;
        }
        Ok(())
    }
}
