// Drawing the graph anew: the new path is made beside the old graph, and what is not needed any more is freed.
ghost use Rattle.std.specs.Prelude.{◌≡◌, List};
ghost use Rattle.net.specs.Prefix.{row_of};
ghost use Rattle.tree.specs.Tree.{Shape};
ghost use Rattle.graph.specs.declared.vertex.Vertex.{Vertex};
ghost use Rattle.engine.specs.State.{redrawn};
ghost use Rattle.engine.specs.Seen.{state};
ghost use Rattle.engine.specs.Draws.{Draft, Draws, Grows, Folds, Moves};

use crate::engine::Engine;
use graph::Edge;
use net::{Family, Prefix};
use path::prune;
use refusal::Refusal;
use store::Store;

// The start of the new graph, and how many vertices were made for it.
#[derive(Clone, Copy)]
pub(super) struct Drawn {
    pub(super) start: Edge,
    pub(super) made: u64,
}

impl<F: Family, R: Store, L: Store> Engine<F, R, L> {
    // The graph in which every node above the prefix branches too, beside the old one. Refused, the old one is left.
    pub(super) fn grow(&mut self, at: &Prefix) -> Result<Drawn, Refusal>
        ensures { Grows (state F.W R.content L.content self.old) (state F.W R.content L.content self.new) (row_of at.now) result }
    {
        let before = self.table.count();
        let start = self.table.grow(self.start, at);
        self.drawn(before, start)
    }

    // The graph folded back along the prefix's path, as if its route were gone, beside the old one. Refused, the old one is left.
    pub(super) fn fold(&mut self, at: &Prefix) -> Result<Drawn, Refusal>
        ensures { Folds (state F.W R.content L.content self.old) (state F.W R.content L.content self.new) (row_of at.now) result }
    {
        let before = self.table.count();
        let start = prune(&mut self.table, &self.routes, self.start, at);
        self.drawn(before, start)
    }

    // What came of drawing: the new start with the number of vertices made, or, refused, the old graph alone.
    fn drawn(&mut self, before: usize, start: Result<Edge, Refusal>) -> Result<Drawn, Refusal>
        ensures { (xs : List Vertex) (a b : Shape) → Draft xs self.old.table.slots self.old.start before a b start →
            Draws (redrawn (state F.W R.content L.content self.old) xs self.old.start) (state F.W R.content L.content self.new) a b result }
    {
        match start {
            Ok(start) => {
                let made = self.table.count().saturating_sub(before) as u64;
                Ok(Drawn { start, made })
            }
            Err(refusal) => {
                self.table.keep_only(self.start);
                Err(refusal)
            }
        }
    }

    // The start moves, and the vertices that it does not reach are freed.
    pub(super) fn redraw(&mut self, start: Edge)
        ensures { Moves (state F.W R.content L.content self.old) (state F.W R.content L.content self.new) start }
    {
        self.start = start;
        self.table.keep_only(start);
    }
}
