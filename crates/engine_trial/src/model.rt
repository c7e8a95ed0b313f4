// A plain model: the routes in a list, and everything else found from them anew at each call.
use crate::census::{Seen, see};
use crate::row::Row;
use engine::{Answer, Call};
use refusal::Refusal;
use std::alloc::{AllocError, Global};
use std::iter::once;

#[derive(Clone, Copy)]
pub struct Route {
    pub row: Row,
    pub hop: u16,
}

#[derive(Drop)]
pub struct Model {
    heap: Global,
    routes: Vec<Route>,
    width: u64,
    route_limit: u64,
    leaf_limit: u64,
}

// Why the model makes no change: the call is refused, or the trial itself is out of memory.
#[derive(Debug, Drop)]
enum Failure {
    Refused(Refusal),
    Memory(AllocError),
}

impl From<Refusal> for Failure {
    fn from(refusal: Refusal) -> Failure {
        Failure::Refused(refusal)
    }
}

impl From<AllocError> for Failure {
    fn from(error: AllocError) -> Failure {
        Failure::Memory(error)
    }
}

// How many vertices there are for the shapes before and after a change.
const MOST_SHAPES: u64 = 2_048;

// The hop of the longest route that a row begins with.
pub fn longest(routes: &[Route], row: &Row) -> Option<u16> {
    routes
        .iter()
        .filter(|r| r.row.begins(row))
        .max_by_key(|r| r.row.len())
        .map(|r| r.hop)
}

// The rule once more, as the other trial has it: a model leans on nothing that it tries.
fn hop_of(number: u64) -> Result<u16, Refusal> {
    match u16::try_from(number) {
        Ok(hop) if hop != 0 => Ok(hop),
        _ => Err(Refusal::Hop),
    }
}

impl Model {
    pub fn new(heap: Global, width: u64, route_limit: u64, leaf_limit: u64) -> Model {
        Model {
            heap,
            routes: Vec::new(heap),
            width,
            route_limit,
            leaf_limit,
        }
    }

    // What an engine should answer.
    pub fn step(&mut self, call: Call<Row>) -> Result<Answer, AllocError> {
        match self.answer(call) {
            Ok(answer) => Ok(answer),
            Err(Failure::Refused(refusal)) => Ok(Answer::Refused(refusal)),
            Err(Failure::Memory(error)) => Err(error),
        }
    }

    fn answer(&mut self, call: Call<Row>) -> Result<Answer, Failure> {
        match call {
            Call::Announce(row, len, hop) => Ok(Answer::Changed(self.announce(&row, len, hop)?)),
            Call::Withdraw(row, len) => Ok(Answer::Changed(self.withdraw(&row, len)?)),
            Call::Lookup(row) => match longest(self.routes.as_slice(), &row) {
                Some(hop) => Ok(Answer::Hop(hop)),
                None => Ok(Answer::NoRoute),
            },
            Call::Count => {
                let seen = see(self.heap, self.routes.as_slice(), self.routes.as_slice())?;
                Ok(Answer::Counts(
                    self.routes.len() as u64,
                    seen.matched_after,
                    seen.shapes_both,
                ))
            }
        }
    }

    // The row of a prefix.
    fn network(&self, row: &Row, len: u64) -> Result<Row, Refusal> {
        if len > self.width {
            return Err(Refusal::Length);
        }
        let front = row.front(len);
        if front.front(row.len()) != *row {
            return Err(Refusal::HostBits);
        }
        Ok(front)
    }

    fn announce(&mut self, row: &Row, len: u64, hop: u64) -> Result<u64, Failure> {
        let row = self.network(row, len)?;
        let hop = hop_of(hop)?;
        if let Some(i) = self.routes.iter().position(|r| r.row == row) {
            self.routes[i].hop = hop;
            return Ok(0);
        }
        if self.routes.len() as u64 == self.route_limit {
            return Err(Failure::Refused(Refusal::RoutesFull));
        }
        let after: Vec<Route> = self
            .routes
            .iter()
            .copied()
            .chain(once(Route { row, hop }))
            .collect(self.heap)?;
        let seen = see(self.heap, self.routes.as_slice(), after.as_slice())?;
        if seen.matched_after > self.leaf_limit {
            return Err(Failure::Refused(Refusal::LeavesFull));
        }
        self.settle(after, seen)
    }

    fn withdraw(&mut self, row: &Row, len: u64) -> Result<u64, Failure> {
        let row = self.network(row, len)?;
        let after: Vec<Route> = self
            .routes
            .iter()
            .copied()
            .filter(|r| r.row != row)
            .collect(self.heap)?;
        if after.len() == self.routes.len() {
            return Err(Failure::Refused(Refusal::Unknown));
        }
        let seen = see(self.heap, self.routes.as_slice(), after.as_slice())?;
        self.settle(after, seen)
    }

    // Takes new routes, if there is room for their shapes; answers how many shapes are new.
    fn settle(&mut self, after: Vec<Route>, seen: Seen) -> Result<u64, Failure> {
        if seen.shapes_both > MOST_SHAPES {
            return Err(Failure::Refused(Refusal::VerticesFull));
        }
        self.routes = after;
        Ok(seen.shapes_both.saturating_sub(seen.shapes_before))
    }
}
