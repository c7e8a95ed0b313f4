// Announcing a route.
ghost use Rattle.std.specs.Prelude.{◌≡◌, ◌-◌, length, if◌then◌else◌};
ghost use Rattle.net.specs.Prefix.{row_of};
ghost use Rattle.store.specs.Content.{present};
ghost use Rattle.tree.specs.Ledger.{Given, turn, announce as announcing};
ghost use Rattle.tree.specs.Tree.{Routes};
ghost use Rattle.engine.specs.Seen.{state};
ghost use Rattle.engine.specs.Changes.{RoomFor, Enters, EntersAt, EntersBelow};
ghost use Rattle.engine.specs.Serves.{Serves, Settles};

use crate::engine::Engine;
use graph::Edge;
use net::family::network;
use net::{Family, Prefix};
use paint::count_missing;
use refusal::Refusal;
use store::Store;

impl<F: Family, R: Store, L: Store> Engine<F, R, L> {
    // Enters a route, or gives a standing one the new hop; answers how many branching shapes are there now that were not there before.
    // Refused in this order: a length over the width, a bit past the length, a number that is no hop; and for a new route no room for it,
    // for the matched leaves afterwards, for the branching shapes before and after as one set.
    pub fn announce(&mut self, address: &F, len: u64, hop: u64) -> Result<u64, Refusal>
        ensures { (g : Given) (rs : Routes) → Serves g rs (state F.W R.content L.content self.old) →
            Settles g (turn g rs (announcing (F.Family.row address.now) len hop)) (state F.W R.content L.content self.old)
            (state F.W R.content L.content self.new) result }
    {
        let at = network(address, len)?;
        let hop = refusal::hop(hop)?;
        if self.routes.get(&at).is_none() {
            return self.enter(&at, hop);
        }
        let spot = self.table.descend(self.start, &at);
        self.set_at(&at, spot.edge, hop);
        Ok(0)
    }

    // A route that does not stand yet.
    fn enter(&mut self, at: &Prefix, hop: u16) -> Result<u64, Refusal>
        ensures { Enters (row_of at.now) hop (state F.W R.content L.content self.old) (state F.W R.content L.content self.new) result }
    {
        if self.routes.held() == self.routes.limit() {
            return Err(Refusal::RoutesFull);
        }
        let spot = self.table.descend(self.start, at);
        if spot.depth == at.len() as usize {
            return self.enter_at(at, spot.edge, hop);
        }
        let leaf = at.front(spot.depth);
        self.enter_below(&leaf, at, hop)
    }

    // At a node of the tree, which the edge leads to: the graph stays.
    fn enter_at(&mut self, at: &Prefix, edge: Edge, hop: u16) -> Result<u64, Refusal>
        ensures { EntersAt (row_of at.now) edge hop (state F.W R.content L.content self.old) (state F.W R.content L.content self.new) result }
    {
        let added = count_missing(&self.routes, &self.leaves, &self.table, at, edge);
        self.check_room(added)?;
        self.set_at(at, edge, hop);
        Ok(0)
    }

    // Below a leaf, which gives way to one leaf for each bit between them, and to the route's own.
    fn enter_below(&mut self, leaf: &Prefix, at: &Prefix, hop: u16) -> Result<u64, Refusal>
        ensures { EntersBelow (row_of leaf.now) (row_of at.now) hop (state F.W R.content L.content self.old) (state F.W R.content L.content self.new) result }
    {
        let added = self.added_below(leaf, at);
        self.check_room(added)?;
        let drawn = self.grow(at)?;
        self.set_below(leaf, at, drawn.start, hop);
        self.redraw(drawn.start);
        Ok(drawn.made)
    }

    // How many matched leaves more there are once a leaf gives way: one for each bit between, or the route's own alone.
    fn added_below(&self, leaf: &Prefix, at: &Prefix) -> u64
        ensures { result ≡ (if present ((L.content self.now.leaves).map (row_of leaf.now)) then length (row_of at.now) - length (row_of leaf.now) else 1) }
    {
        if self.leaves.get(leaf).is_none() {
            return 1;
        }
        u64::from(at.len().saturating_sub(leaf.len()))
    }

    // Refused where the store of the leaves has no room for so many more.
    fn check_room(&self, added: u64) -> Result<(), Refusal>
        ensures { RoomFor (L.content self.now.leaves) added result }
    {
        let room = self.leaves.limit().saturating_sub(self.leaves.held());
        if added > room {
            return Err(Refusal::LeavesFull);
        }
        Ok(())
    }
}
