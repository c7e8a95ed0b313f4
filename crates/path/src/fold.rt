// Folding the graph back along a prefix's path: made bottom up, beside what the table has.
ghost use Rattle.std.specs.Prelude.{◌≡◌, ◌<◌, [], ◌∷◌, ◌++◌, length, drop};
ghost use Rattle.net.specs.Prefix.{row_of};
ghost use Rattle.graph.specs.Calls.{Kept};
ghost use Rattle.path.specs.Prune.{others, others_from, owning, folding, Prunes, PrunesBelow};

use graph::{Edge, Table};
use net::Prefix;
use refusal::Refusal;
use store::Store;

// What a fold goes by: the standing routes, and the prefix whose own route is struck.
#[derive(Drop)]
struct Fold<'a, R> {
    routes: &'a R,
    struck: &'a Prefix,
}

impl<R: Store> Fold<'_, R> {
    // Whether the node's child on this side has a route, other than the struck one.
    fn stands(&self, node: &Prefix, one: bool) -> bool
        ensures { length (row_of node.now) < 128
            → result ≡ others (R.content self.now.routes.now).map (row_of self.now.struck.now) (row_of node.now ++ (one ∷ [])) }
    {
        let routed = |child: Prefix| child != *self.struck && self.routes.get(&child).is_some();
        node.child(one).is_some_and(routed)
    }

    // Whether a child of the node `depth` bits down the path has such a route.
    fn owns(&self, depth: usize) -> bool
        ensures { depth < length (row_of self.now.struck.now)
            → result ≡ owning (others_from (R.content self.now.routes.now).map (row_of self.now.struck.now) depth) }
    {
        let node = self.struck.front(depth);
        self.stands(&node, false) || self.stands(&node, true)
    }

    // Whether that node is a leaf: neither side branches, and no child has a route of its own.
    fn ends(&self, depth: usize, below: Edge, beside: Edge) -> bool
        ensures { depth < length (row_of self.now.struck.now)
            → result ≡ folding (others_from (R.content self.now.routes.now).map (row_of self.now.struck.now) depth) below beside }
    {
        below == Edge::End && beside == Edge::End && !self.owns(depth)
    }

    // From a node of the path, `depth` bits down.
    fn prune_below(&self, table: &mut Table, node: Edge, depth: usize) -> Result<Edge, Refusal>
        ensures kept { Kept table.old.slots table.new.slots }
        ensures path { PrunesBelow table.old.slots table.new.slots node (others_from (R.content self.now.routes.now).map (row_of self.now.struck.now) depth)
            (drop depth (row_of self.now.struck.now)) result }
    {
        if depth >= self.struck.len() as usize {
            return Ok(node);
        }
        if let Edge::End = node {
            return Ok(Edge::End);
        }
        let bit = self.struck.bit(depth);
        let below = table.follow(node, bit);
        let beside = table.follow(node, !bit);
        let below = self.prune_below(table, below, depth + 1)?;
        if self.ends(depth, below, beside) {
            return Ok(Edge::End);
        }
        table.fork_beside(bit, below, beside)
    }
}

// The edge to the start's tree, in which a node above the prefix branches only where a child of its branches,
// or has a route in the store that is not the prefix's own.
pub fn prune<R: Store>(
    table: &mut Table,
    routes: &R,
    start: Edge,
    prefix: &Prefix,
) -> Result<Edge, Refusal>
    ensures kept { Kept table.old.slots table.new.slots }
    ensures pruned { Prunes table.old.slots table.new.slots start (others (R.content routes.now).map (row_of prefix.now)) (row_of prefix.now) result }
{
    let fold = Fold {
        routes,
        struck: prefix,
    };
    let start = table.lead(start);
    fold.prune_below(table, start, 0)
}
