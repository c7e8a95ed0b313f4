// An engine for addresses of the family F, over a store of the routes and a store of the leaves.
use graph::{Edge, Table};
use net::Family;
use std::marker::PhantomData;
use store::Store;

// That it serves a list of routes is no fact of its type: each promise is for every list that it serves.
#[derive(Drop)]
pub struct Engine<F, R, L> {
    pub(super) routes: R,
    pub(super) leaves: L,
    pub(super) table: Table,
    pub(super) start: Edge,
    pub(super) family: PhantomData<F>,
}

impl<F: Family, R: Store, L: Store> Engine<F, R, L> {
    ghost use Rattle.std.specs.Prelude.{◌≡◌, [], length};
    ghost use Rattle.graph.specs.Slots.{in_use};
    ghost use Rattle.tree.specs.Ledger.{Given, lookup as looking, looked, count as counting};
    ghost use Rattle.tree.specs.Tree.{Routes};
    ghost use Rattle.engine.specs.Seen.{state};
    ghost use Rattle.engine.specs.Serves.{Numbered, Serves, Ran};
    ghost use Rattle.engine.specs.Calls.{Answers, counts_answer, given_by};

    // Sets an engine up over two stores, and empties both. The law over runs holds of it, with no calls yet.
    pub fn new(mut routes: R, mut leaves: L) -> Engine<F, R, L>
        ensures serves { Serves (given_by F.W (R.content routes) (L.content leaves)) [] (state F.W R.content L.content result) }
        ensures ran { Ran (given_by F.W (R.content routes) (L.content leaves)) [] [] (state F.W R.content L.content result) }
    {
        routes.clear();
        leaves.clear();
        Engine {
            routes,
            leaves,
            table: Table::empty(),
            start: Edge::End,
            family: PhantomData,
        }
    }

    // The hop of the address's leaf, or none.
    pub fn lookup(&self, address: &F) -> Option<u16>
        ensures { (g : Given) (rs : Routes) → Serves g rs (state F.W R.content L.content self.now) →
            Answers g rs (looking (F.Family.row address.now)) (looked result) }
    {
        let depth = self.table.walk(self.start, address)?;
        let leaf = address.front(depth);
        // Taken apart, and not handed on as it is: a leaf without an entry has no hop.
        let Some(hop) = self.leaves.get(&leaf) else {
            return None;
        };
        Some(hop)
    }

    // Standing routes, matched leaves, vertices.
    pub fn count(&self) -> (u64, u64, u64)
        ensures numbers { let s = state F.W R.content L.content self.now in result ≡ (s.routes.held, s.leaves.held, length (in_use s.slots)) }
        ensures ledger { (g : Given) (rs : Routes) → Numbered rs (state F.W R.content L.content self.now) → Answers g rs counting (counts_answer result) }
    {
        (
            self.routes.held(),
            self.leaves.held(),
            self.table.count() as u64,
        )
    }
}
