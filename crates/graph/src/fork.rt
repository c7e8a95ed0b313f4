// The vertex of two edges: found, or made.
ghost use Rattle.std.specs.Prelude.{MatchOption, cond};
ghost use Rattle.graph.specs.Calls.{Kept, Forked};
ghost use Rattle.graph.specs.Find.{Has, Lacks, FirstFit, Placed};

use super::edge::Edge;
use super::table::Table;
use super::vertex::Vertex;
use refusal::Refusal;

// The first of these slots that has the edges.
fn find(slots: &[Vertex], zero: Edge, one: Edge) -> Option<usize>
    ensures { MatchOption result (Lacks slots.now zero one) (λ n. Has slots.now n zero one) }
{
    slots.iter().position(|vertex| vertex.joins(zero, one))
}

impl Table {
    // The first slot that is free or has these edges.
    fn first_fit(&self, zero: Edge, one: Edge) -> Option<usize>
        ensures { FirstFit self.now.slots zero one result }
    {
        self.slots.iter().position(|vertex| vertex.suits(zero, one))
    }

    // The slot of the vertex with these edges; where there is none, the first free slot, if one is free. In one pass: behind the first
    // free slot only the vertex itself is looked for.
    fn place(&self, zero: Edge, one: Edge) -> Result<usize, Option<usize>>
        ensures { Placed self.now.slots zero one result }
    {
        let Some(first) = self.first_fit(zero, one) else {
            return Err(None);
        };
        if self.slots[first].is_used() {
            return Ok(first);
        }
        match find(&self.slots[first + 1..], zero, one) {
            Some(further) => Ok(first + 1 + further),
            None => Err(Some(first)),
        }
    }

    // The edge to the vertex with these edges, which is made where there is none.
    pub fn fork(&mut self, zero: Edge, one: Edge) -> Result<Edge, Refusal>
        ensures kept { Kept self.old.slots self.new.slots }
        ensures forked { Forked self.old.slots self.new.slots zero one result }
    {
        let zero = self.lead(zero);
        let one = self.lead(one);
        match self.place(zero, one) {
            Ok(n) => Ok(Edge::To(n as u16)),
            Err(Some(n)) => {
                self.slots[n].link(zero, one);
                self.used += 1;
                Ok(Edge::To(n as u16))
            }
            Err(None) => Err(Refusal::VerticesFull),
        }
    }

    // The same, where one edge goes on below, to the 1 side or the 0 side, and the other leads beside it.
    pub fn fork_beside(&mut self, one: bool, below: Edge, beside: Edge) -> Result<Edge, Refusal>
        ensures kept { Kept self.old.slots self.new.slots }
        ensures forked { Forked self.old.slots self.new.slots (cond one beside below) (cond one below beside) result }
    {
        if one {
            self.fork(beside, below)
        } else {
            self.fork(below, beside)
        }
    }
}
