// The shapes of a tree of routes, found from the routes alone.
use crate::model::{Route, longest};
use crate::row::Row;
use std::alloc::{AllocError, Global};
use std::collections::BTreeMap;
use tally::Count;

// The shapes seen so far, each with a number, by the numbers of their sides; 0 is the leaf. And how many leaves are matched.
#[derive(Drop)]
struct Census {
    forks: BTreeMap<(usize, usize), usize>,
    matched: Count,
}

// What is seen of two lists of routes, before and after a change.
#[derive(Clone, Copy)]
pub struct Seen {
    pub shapes_before: u64,
    pub shapes_both: u64,
    pub matched_after: u64,
}

impl Census {
    // The number of the shape with these sides.
    fn number(&mut self, zero: usize, one: usize) -> Result<usize, AllocError> {
        let next = self.forks.len().saturating_add(1);
        Ok(*self.forks.entry((zero, one))?.or_insert(next))
    }

    // The number of the shape of a node, and all that lies below it into the census. No node is more than `deepest` bits further down.
    fn visit(&mut self, routes: &[Route], node: &Row, deepest: usize) -> Result<usize, AllocError> {
        if deepest == 0 || !branches(routes, node) {
            if longest(routes, node).is_some() {
                self.matched.more();
            }
            return Ok(0);
        }
        let zero = self.visit(routes, &node.child(false), deepest - 1)?;
        let one = self.visit(routes, &node.child(true), deepest - 1)?;
        self.number(zero, one)
    }
}

fn branches(routes: &[Route], node: &Row) -> bool {
    routes
        .iter()
        .any(|r| r.row.len() > node.len() && node.begins(&r.row))
}

pub fn see(heap: Global, before: &[Route], after: &[Route]) -> Result<Seen, AllocError> {
    let mut census = Census {
        forks: BTreeMap::new(heap),
        matched: Count::default(),
    };
    census.visit(before, &Row::empty(), 128)?;
    let shapes_before = census.forks.len() as u64;
    census.matched = Count::default();
    census.visit(after, &Row::empty(), 128)?;
    Ok(Seen {
        shapes_before,
        shapes_both: census.forks.len() as u64,
        matched_after: census.matched.number(),
    })
}
