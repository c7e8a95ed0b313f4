// Writing a change into the two stores, once it is granted.
ghost use Rattle.std.specs.Prelude.{◌≡◌};
ghost use Rattle.net.specs.Prefix.{row_of};
ghost use Rattle.engine.specs.State.{rewritten};
ghost use Rattle.engine.specs.Seen.{state};
ghost use Rattle.engine.specs.Writes.{PaintsFrom, SetsAt, SetsBelow, ClearsAt, ClearsBelow};

use crate::engine::Engine;
use graph::Edge;
use net::{Family, Prefix};
use paint::paint;
use refusal::Refusal;
use store::Store;

impl<F: Family, R: Store, L: Store> Engine<F, R, L> {
    // The leaves below a node, which the edge leads to, that no longer route covers get the hop, or none. Node, edge and hop come one by
    // one: a struct of them would be made for one call and taken apart in the next.
    fn paint_from(&mut self, at: &Prefix, edge: Edge, hop: Option<u16>) -> Result<(), Refusal>
        ensures { PaintsFrom (row_of at.now) edge hop (state F.W R.content L.content self.old) (state F.W R.content L.content self.new) result }
    {
        paint(&self.routes, &mut self.leaves, &self.table, at, edge, hop)
    }

    // The route of a node of the tree, which the edge leads to: the leaves that it decides get its hop.
    pub(super) fn set_at(&mut self, at: &Prefix, edge: Edge, hop: u16)
        ensures rest { state F.W R.content L.content self.new ≡ rewritten (state F.W R.content L.content self.old) (R.content self.new.routes) (L.content self.new.leaves) }
        ensures sets { SetsAt (row_of at.now) edge hop (state F.W R.content L.content self.old) (state F.W R.content L.content self.new) }
    {
        let _ = self.paint_from(at, edge, Some(hop));
        let _ = self.routes.put(at, u64::from(hop));
    }

    // A route below a leaf, in the graph from the new start on: the leaves beside the way get the hop that the leaf had.
    pub(super) fn set_below(&mut self, leaf: &Prefix, at: &Prefix, start: Edge, hop: u16)
        ensures rest { state F.W R.content L.content self.new ≡ rewritten (state F.W R.content L.content self.old) (R.content self.new.routes) (L.content self.new.leaves) }
        ensures sets { SetsBelow (row_of leaf.now) (row_of at.now) start hop (state F.W R.content L.content self.old) (state F.W R.content L.content self.new) }
    {
        let had = self.leaves.remove(leaf);
        let spot = self.table.descend(start, leaf);
        let _ = self.paint_from(leaf, spot.edge, had);
        let _ = self.leaves.put(at, u64::from(hop));
        let _ = self.routes.put(at, u64::from(hop));
    }

    // No route any more at a node that stays: the leaves that it decided get the next shorter route's hop, or none.
    pub(super) fn clear_at(&mut self, at: &Prefix, edge: Edge, next: Option<u16>)
        ensures rest { state F.W R.content L.content self.new ≡ rewritten (state F.W R.content L.content self.old) (R.content self.new.routes) (L.content self.new.leaves) }
        ensures clears { ClearsAt (row_of at.now) edge next (state F.W R.content L.content self.old) (state F.W R.content L.content self.new) }
    {
        let _ = self.paint_from(at, edge, next);
        self.routes.remove(at);
    }

    // No route any more below what is a leaf again: it takes the place of the leaves below it.
    pub(super) fn clear_below(&mut self, leaf: &Prefix, at: &Prefix, next: Option<u16>)
        ensures rest { state F.W R.content L.content self.new ≡ rewritten (state F.W R.content L.content self.old) (R.content self.new.routes) (L.content self.new.leaves) }
        ensures clears { ClearsBelow (row_of leaf.now) (row_of at.now) next (state F.W R.content L.content self.old) (state F.W R.content L.content self.new) }
    {
        self.routes.remove(at);
        let spot = self.table.descend(self.start, leaf);
        let _ = self.paint_from(leaf, spot.edge, None);
        let _ = self.paint_from(leaf, Edge::End, next);
    }
}
