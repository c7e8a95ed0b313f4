// Entering routes into a census, and what it tells.
ghost use Rattle.std.specs.Prelude.{◌≡◌, []};
ghost use Rattle.listing.specs.Listing.{read_prefix};
ghost use Rattle.net.specs.Prefix.{row_of};
ghost use Rattle.tree.specs.Tree.{Routes, Shape};
ghost use Rattle.graph.specs.Slots.{Unfolds};
ghost use Rattle.sizing.specs.Census.{added, Counts, Entered, Took, Tells};

use super::census::{Census, Summary};
use graph::{Edge, Table};
use net::Prefix;
use refusal::Refusal;

// How many nodes above the prefix's own do not branch yet.
fn missing(table: &Table, start: Edge, prefix: &Prefix) -> u64
    ensures { (t : Shape) → Unfolds table.now.slots start t → result ≡ added (row_of prefix.now) t }
{
    let spot = table.descend(start, prefix);
    (prefix.len() as usize - spot.depth) as u64
}

impl Census {
    pub fn new() -> Census
        ensures { Counts result [] }
    {
        Census {
            table: Table::empty(),
            start: Edge::End,
            routes: 0,
            forks: 0,
        }
    }

    // One route more. Where the vertices don't suffice for the tree before and after, nothing is entered.
    pub fn enter(&mut self, prefix: &Prefix) -> Result<(), Refusal>
        ensures { Entered self.old self.new (row_of prefix.now) result }
    {
        let more = missing(&self.table, self.start, prefix);
        let grown = self.table.grow(self.start, prefix);
        self.start = grown.unwrap_or(self.start);
        self.table.keep_only(self.start);
        grown?;
        self.routes = self.routes.saturating_add(1);
        self.forks = self.forks.saturating_add(more);
        Ok(())
    }

    // The route of a line of a listing, unless the line is refused.
    pub fn enter_line(&mut self, line: &[u8]) -> Result<(), Refusal>
        ensures { Took self.old self.new (read_prefix line.now) result }
    {
        let prefix = listing::prefix(line)?;
        self.enter(&prefix)
    }

    pub fn summary(&self) -> Summary
        ensures { (rs : Routes) → Counts self.now rs → Tells rs result }
    {
        let leaves = self.forks.saturating_add(1);
        Summary {
            routes: self.routes,
            nodes: leaves.saturating_add(self.forks),
            leaves,
            vertices: self.table.count(),
        }
    }
}
