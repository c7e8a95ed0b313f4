// Drives a flat row, a layer over a row and a pile of two layers with one long pseudo-random list of calls, each beside a plain map
// of the standard library, and counts the calls by kind and outcome. An answer that differs from the map's is counted as wrong.
#![tactic(auto)]

use bits::Halves;
use chooser::{Fnv, Fold};
use layer::Layer;
use net::Prefix;
use random::Generator;
use refusal::Refusal;
use std::alloc::{AllocError, Global};
use std::collections::BTreeMap;
use std::{fmt, io};
use store::{FlatRow, Lent, Store};
use tally::Count;

// A call on the prefix of a number.
#[derive(Clone, Copy)]
enum Call {
    Get(u64),
    Put(u64, u64),
    Remove(u64),
    Clear,
}

// What a store should hold: the hop of the prefix of each number.
#[derive(Drop)]
struct Model {
    hops: BTreeMap<u64, u16>,
    limit: u64,
}

#[derive(Clone, Copy, Default)]
struct Tally {
    got: Count,
    got_none: Count,
    put_new: Count,
    replaced: Count,
    bad_hop: Count,
    full: Count,
    removed: Count,
    removed_none: Count,
    cleared: Count,
    wrong: Count,
}

// A store beside its model, and what came of the calls so far.
#[derive(Drop)]
struct Trial<S> {
    store: S,
    model: Model,
    tally: Tally,
}

// The prefix of a number: 24 bits that differ early and late.
fn prefix_of(number: u64) -> Prefix {
    let bits = Halves {
        first: number.wrapping_mul(0x9e37_79b9_7f4a_7c15),
        second: number,
    };
    Prefix::front_of(bits, 8 + (number % 100) as usize)
}

fn draw_call(random: &mut Generator, prefixes: u64) -> Call {
    let number = random.below(prefixes);
    match random.below(100) {
        0..=24 => Call::Get(number),
        25..=27 => Call::Put(number, 0),
        28..=29 => Call::Put(number, 65_536 + random.below(1000)),
        30..=79 => Call::Put(number, 1 + random.below(65_535)),
        80..=98 => Call::Remove(number),
        _ if random.below(20) == 0 => Call::Clear,
        _ => Call::Remove(number),
    }
}

impl Model {
    // What a store should answer, and beside it the hop that was replaced.
    fn put(&mut self, number: u64, hop: u64) -> Result<Result<Option<u16>, Refusal>, AllocError> {
        let hop = match u16::try_from(hop) {
            Ok(hop) if hop != 0 => hop,
            _ => return Ok(Err(Refusal::Hop)),
        };
        if !self.hops.contains_key(&number) && self.held() == self.limit {
            return Ok(Err(Refusal::StoreFull));
        }
        Ok(Ok(self.hops.insert(number, hop)?))
    }

    fn held(&self) -> u64 {
        self.hops.len() as u64
    }
}

impl<S: Store> Trial<S> {
    fn new(heap: Global, mut store: S) -> Trial<S> {
        store.clear();
        let limit = store.limit();
        Trial {
            store,
            model: Model {
                hops: BTreeMap::new(heap),
                limit,
            },
            tally: Tally::default(),
        }
    }

    fn get(&mut self, number: u64) {
        let answer = self.store.get(&prefix_of(number));
        let expected = self.model.hops.get(&number).copied();
        if answer != expected {
            self.tally.wrong.more();
        } else if answer.is_some() {
            self.tally.got.more();
        } else {
            self.tally.got_none.more();
        }
    }

    fn put(&mut self, number: u64, hop: u64) -> Result<(), AllocError> {
        let answer = self.store.put(&prefix_of(number), hop);
        let expected = self.model.put(number, hop)?;
        match (answer, expected) {
            (Ok(()), Ok(None)) => self.tally.put_new.more(),
            (Ok(()), Ok(Some(_))) => self.tally.replaced.more(),
            (Err(Refusal::Hop), Err(Refusal::Hop)) => self.tally.bad_hop.more(),
            (Err(Refusal::StoreFull), Err(Refusal::StoreFull)) => self.tally.full.more(),
            _ => self.tally.wrong.more(),
        }
        Ok(())
    }

    // As `get`, with counts of its own: to pass the two counts would be no shorter.
    fn remove(&mut self, number: u64) {
        let answer = self.store.remove(&prefix_of(number));
        let expected = self.model.hops.remove(&number);
        if answer != expected {
            self.tally.wrong.more();
        } else if answer.is_some() {
            self.tally.removed.more();
        } else {
            self.tally.removed_none.more();
        }
    }

    fn clear(&mut self) {
        self.store.clear();
        self.model.hops.clear();
        self.tally.cleared.more();
    }

    fn call(&mut self, call: Call) -> Result<(), AllocError> {
        match call {
            Call::Get(number) => self.get(number),
            Call::Put(number, hop) => self.put(number, hop)?,
            Call::Remove(number) => self.remove(number),
            Call::Clear => self.clear(),
        }
        if self.store.held() != self.model.held() || self.store.limit() != self.model.limit {
            self.tally.wrong.more();
        }
        Ok(())
    }

    // Makes the same calls as any other trial of the same seed, number of prefixes and number of calls.
    fn calls(&mut self, seed: u64, prefixes: u64, calls: u64) -> Result<(), AllocError> {
        let mut random = Generator::new(seed);
        for _ in 0..calls {
            self.call(draw_call(&mut random, prefixes))?;
        }
        Ok(())
    }
}

impl fmt::Display for Tally {
    fn fmt<W: fmt::Write>(&self, f: &mut fmt::Formatter<W>) -> fmt::Result {
        let Tally {
            got,
            got_none,
            put_new,
            replaced,
            bad_hop,
            full,
            removed,
            removed_none,
            cleared,
            wrong,
        } = *self;
        writeln!(f, "  get: {got} found, {got_none} none")?;
        writeln!(
            f,
            "  put: {put_new} new, {replaced} replaced, {bad_hop} refused for the hop, {full} refused as full"
        )?;
        writeln!(
            f,
            "  remove: {removed} removed, {removed_none} none; clear: {cleared}"
        )?;
        // The other trial ends alike: a type for these two lines would be longer.
        match wrong.number() {
            0 => write!(f, "  all answers agreed"),
            _ => write!(f, "  {wrong} answers differed"),
        }
    }
}

// Any pile of stores serves, since it is lent.
fn show<S: Store>(
    rt: &HostRuntime,
    name: &str,
    store: &mut S,
    prefixes: u64,
    calls: u64,
) -> io::Result<()> {
    let mut trial = Trial::new(rt.alloc(), Lent::new(store));
    trial.calls(1_804_289_383, prefixes, calls)?;
    let limit = trial.model.limit;
    let tally = trial.tally;
    println!(rt; "{name}, limit {limit}: {calls} calls on {prefixes} prefixes")?;
    println!(rt; "{tally}")
}

fn try_row(rt: &HostRuntime) -> io::Result<()> {
    let mut slots = [None; 24];
    let mut row = FlatRow::new(&mut slots);
    show(rt, "row", &mut row, 40, 20_000)
}

fn try_layer(rt: &HostRuntime) -> io::Result<()> {
    let mut slots = [None; 24];
    let mut one = Layer::new(Fnv, FlatRow::new(&mut slots));
    show(rt, "layer", &mut one, 40, 20_000)?;
    show(rt, "layer", &mut one, 1_300, 20_000)
}

// A second layer on whatever store is lent: the borrow checker takes no layer by value on a layer on a row.
fn try_above<S: Store>(rt: &HostRuntime, lower: &mut S) -> io::Result<()> {
    let mut two = Layer::new(Fold, Lent::new(lower));
    show(rt, "pile", &mut two, 40, 20_000)?;
    show(rt, "pile", &mut two, 2_600, 40_000)
}

fn try_pile(rt: &HostRuntime) -> io::Result<()> {
    let mut slots = [None; 24];
    let mut lower = Layer::new(Fnv, FlatRow::new(&mut slots));
    try_above(rt, &mut lower)
}

fn main(rt: HostRuntime) -> io::Result<()> {
    try_row(&rt)?;
    try_layer(&rt)?;
    try_pile(&rt)
}
