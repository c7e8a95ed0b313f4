// Withdrawing a route.
ghost use Rattle.std.specs.Prelude.{◌≡◌};
ghost use Rattle.net.specs.Prefix.{row_of};
ghost use Rattle.tree.specs.Ledger.{Given, turn, withdraw as withdrawing};
ghost use Rattle.tree.specs.Tree.{Routes};
ghost use Rattle.engine.specs.State.{rewritten};
ghost use Rattle.engine.specs.Seen.{state};
ghost use Rattle.engine.specs.Changes.{Strikes};
ghost use Rattle.engine.specs.Serves.{Serves, Settles};
ghost use Rattle.engine.specs.Writes.{Clears};

use crate::engine::Engine;
use graph::Edge;
use net::family::network;
use net::{Family, Prefix};
use path::next_shorter;
use refusal::Refusal;
use store::Store;

impl<F: Family, R: Store, L: Store> Engine<F, R, L> {
    // Strikes a route; answers how many branching shapes are there now that were not there before.
    // Refused in this order: a length over the width, a bit past the length, no such route, and no room for the branching shapes
    // before and after as one set.
    pub fn withdraw(&mut self, address: &F, len: u64) -> Result<u64, Refusal>
        ensures { (g : Given) (rs : Routes) → Serves g rs (state F.W R.content L.content self.old) →
            Settles g (turn g rs (withdrawing (F.Family.row address.now) len)) (state F.W R.content L.content self.old)
            (state F.W R.content L.content self.new) result }
    {
        let at = network(address, len)?;
        if self.routes.get(&at).is_none() {
            return Err(Refusal::Unknown);
        }
        self.strike(&at)
    }

    // A route that stands.
    fn strike(&mut self, at: &Prefix) -> Result<u64, Refusal>
        ensures { Strikes (row_of at.now) (state F.W R.content L.content self.old) (state F.W R.content L.content self.new) result }
    {
        let next = next_shorter(&self.routes, at);
        let drawn = self.fold(at)?;
        self.clear(at, drawn.start, next);
        self.redraw(drawn.start);
        Ok(drawn.made)
    }

    // Its leaves, in the graph from the new start on.
    fn clear(&mut self, at: &Prefix, start: Edge, next: Option<u16>)
        ensures rest { state F.W R.content L.content self.new ≡ rewritten (state F.W R.content L.content self.old) (R.content self.new.routes) (L.content self.new.leaves) }
        ensures clears { Clears (row_of at.now) start next (state F.W R.content L.content self.old) (state F.W R.content L.content self.new) }
    {
        let spot = self.table.descend(start, at);
        if spot.depth == at.len() as usize {
            return self.clear_at(at, spot.edge, next);
        }
        let leaf = at.front(spot.depth);
        self.clear_below(&leaf, at, next)
    }
}
