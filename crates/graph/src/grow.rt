// Growing the graph by a prefix: the path to its node is made bottom up, beside what the table has.
ghost use Rattle.std.specs.Prelude.{drop};
ghost use Rattle.net.specs.Prefix.{row_of};
ghost use Rattle.graph.specs.Calls.{Kept};
ghost use Rattle.graph.specs.Grow.{Paths, Grows};

use super::edge::Edge;
use super::table::Table;
use net::Prefix;
use refusal::Refusal;

impl Table {
    // From a node of the prefix's path, `depth` bits down.
    fn grow_below(&mut self, node: Edge, prefix: &Prefix, depth: usize) -> Result<Edge, Refusal>
        ensures kept { Kept self.old.slots self.new.slots }
        ensures path { Paths self.old.slots self.new.slots node (drop depth (row_of prefix.now)) result }
    {
        if depth >= prefix.len() as usize {
            return Ok(self.lead(node));
        }
        let bit = prefix.bit(depth);
        let below = self.follow(node, bit);
        let beside = self.follow(node, !bit);
        let below = self.grow_below(below, prefix, depth + 1)?;
        self.fork_beside(bit, below, beside)
    }

    // The edge to the start's tree in which every node above the prefix branches too.
    pub fn grow(&mut self, start: Edge, prefix: &Prefix) -> Result<Edge, Refusal>
        ensures kept { Kept self.old.slots self.new.slots }
        ensures grown { Grows self.old.slots self.new.slots start (row_of prefix.now) result }
    {
        self.grow_below(start, prefix, 0)
    }
}
