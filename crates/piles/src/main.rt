// Fills two piles with the entries of a listing and tells where they went: buckets over a row, and buckets over buckets over a row.
// A line is an address, a length and a hop. Then every third entry is removed, and all are looked up again.
#![tactic(auto)]

use chooser::{Chooser, Fnv, Fold};
use layer::{Layer, Place};
use net::Prefix;
use std::io::Read;
use std::{fmt, io};
use store::{FlatRow, Lent, Store};
use tally::Count;
use text::Lines;

#[derive(Clone, Copy)]
struct Entry {
    prefix: Prefix,
    hop: u64,
}

// Where the new entries went.
#[derive(Clone, Copy, Default)]
struct Went {
    bucket: Count,
    below: Count,
    last_resort: Count,
    refused: Count,
}

// What was found of the entries that were looked up.
#[derive(Clone, Copy, Default)]
struct Seen {
    found: Count,
    none: Count,
    wrong: Count,
}

impl fmt::Display for Went {
    fn fmt<W: fmt::Write>(&self, f: &mut fmt::Formatter<W>) -> fmt::Result {
        let Went {
            bucket,
            below,
            last_resort,
            refused,
        } = *self;
        write!(
            f,
            "{bucket} in a bucket, {below} below, {last_resort} in the last resort, {refused} refused"
        )
    }
}

impl fmt::Display for Seen {
    fn fmt<W: fmt::Write>(&self, f: &mut fmt::Formatter<W>) -> fmt::Result {
        let Seen { found, none, wrong } = *self;
        write!(f, "found {found}, none {none}, wrong {wrong}")
    }
}

// The entry of a line, or none where the line is ill written: a listing's line, and a hop behind its last comma.
fn read_entry(line: &[u8]) -> Option<Entry> {
    let comma = line.iter().rposition(|b| *b == b',')?;
    let prefix = listing::prefix(&line[..comma]).ok()?;
    let hop = text::decimal(&line[comma + 1..])?;
    Some(Entry {
        prefix,
        hop: u64::from(hop),
    })
}

// `replays` reads alike: with what a line gives as a parameter, each would be as long.
fn read_entries(rt: &HostRuntime) -> io::Result<Vec<Entry>> {
    let mut input = Vec::new(rt.alloc());
    rt.stdin().read_to_end(&mut input)?;
    let mut entries = Vec::new(rt.alloc());
    for line in Lines::new(input.as_slice()) {
        if let Some(entry) = read_entry(line) {
            entries.push(entry)?;
        }
    }
    Ok(entries)
}

// Puts all entries, and counts where each new one went. It is the last resort if it made one stray more.
fn fill<C: Chooser, S: Store>(pile: &mut Layer<C, S>, all: &[Entry]) -> Went {
    let mut went = Went::default();
    for e in all {
        let strays = pile.strays();
        if pile.put(&e.prefix, e.hop).is_err() {
            went.refused.more();
        } else if pile.strays() > strays {
            went.last_resort.more();
        } else if let Some(Place::Below) = pile.place(&e.prefix) {
            went.below.more();
        } else {
            went.bucket.more();
        }
    }
    went
}

// Removes every third entry, and counts those that were there.
fn thin<S: Store>(pile: &mut S, all: &[Entry]) -> Count {
    let mut removed = Count::default();
    for e in all.iter().step_by(3) {
        if pile.remove(&e.prefix).is_some() {
            removed.more();
        }
    }
    removed
}

fn look_up<S: Store>(pile: &S, all: &[Entry]) -> Seen {
    let mut seen = Seen::default();
    for e in all {
        match pile.get(&e.prefix) {
            None => seen.none.more(),
            Some(hop) if u64::from(hop) == e.hop => seen.found.more(),
            Some(_) => seen.wrong.more(),
        }
    }
    seen
}

fn show<C: Chooser, S: Store>(
    rt: &HostRuntime,
    name: &str,
    pile: &mut Layer<C, S>,
    all: &[Entry],
) -> io::Result<()> {
    let went = fill(pile, all);
    println!(rt; "{name}: {went}")?;
    let held = pile.held();
    let limit = pile.limit();
    let removed = thin(pile, all);
    let left = pile.held();
    println!(rt; "{name}: held {held} of {limit}, removed {removed}, held {left}")?;
    let seen = look_up(pile, all);
    println!(rt; "{name}: {seen}")
}

fn show_one(rt: &HostRuntime, all: &[Entry]) -> io::Result<()> {
    let mut slots = [None; 16];
    let mut one = Layer::new(Fnv, FlatRow::new(&mut slots));
    show(rt, "fnv over row", &mut one, all)
}

// A second layer on whatever store is lent: the borrow checker takes no layer by value on a layer on a row.
fn show_above<S: Store>(rt: &HostRuntime, lower: &mut S, all: &[Entry]) -> io::Result<()> {
    let mut two = Layer::new(Fold, Lent::new(lower));
    show(rt, "fold over fnv over row", &mut two, all)
}

fn show_two(rt: &HostRuntime, all: &[Entry]) -> io::Result<()> {
    let mut slots = [None; 16];
    let mut lower = Layer::new(Fnv, FlatRow::new(&mut slots));
    show_above(rt, &mut lower, all)
}

fn main(rt: HostRuntime) -> io::Result<()> {
    let all = read_entries(&rt)?;
    let count = all.len();
    println!(rt; "{count} entries")?;
    show_one(&rt, all.as_slice())?;
    show_two(&rt, all.as_slice())
}
