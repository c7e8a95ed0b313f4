// Drives engines with long pseudo-random lists of calls beside a plain model, compares all answers, and counts them by kind.
#![tactic(auto)]

mod census;
mod model;
mod outcome;
mod row;
mod trial;

use chooser::{Fnv, Fold};
use layer::Layer;
use narrow::Narrow;
use net::{Family, Ipv4, Ipv6};
use std::io;
use store::{FlatRow, Lent, Store};
use trial::{Plan, Trial};

// Stores are lent, so that any pile of them serves.
fn run<F: Family + Copy, R: Store, L: Store>(
    rt: &HostRuntime,
    name: &str,
    routes: &mut R,
    leaves: &mut L,
    plan: Plan,
) -> io::Result<()> {
    let mut trial = Trial::<F, Lent<R>, Lent<L>>::new(
        rt.alloc(),
        Lent::new(routes),
        Lent::new(leaves),
        plan,
    );
    trial.calls()?;
    let tally = trial.tally();
    println!(rt; "{name}: {tally}")
}

fn try_narrow(rt: &HostRuntime) -> io::Result<()> {
    let mut route_slots = [None; 9];
    let mut leaf_slots = [None; 13];
    let mut routes = FlatRow::new(&mut route_slots);
    let mut leaves = FlatRow::new(&mut leaf_slots);
    let plan = Plan {
        calls: 20_000,
        prefixes: 60,
        shortest: 0,
        all_addresses: true,
    };
    run::<Narrow, _, _>(rt, "narrow", &mut routes, &mut leaves, plan)
}

fn try_ipv4(rt: &HostRuntime) -> io::Result<()> {
    let mut route_slots = [None; 40];
    let mut leaf_slots = [None; 40];
    let mut routes = FlatRow::new(&mut route_slots);
    let mut leaves = Layer::new(Fnv, FlatRow::new(&mut leaf_slots));
    let plan = Plan {
        calls: 2_000,
        prefixes: 90,
        shortest: 3,
        all_addresses: false,
    };
    run::<Ipv4, _, _>(rt, "ipv4", &mut routes, &mut leaves, plan)
}

// Long prefixes, so that vertices are full before routes and leaves are. The lower layer is lent: the borrow checker takes no layer by
// value on a layer on a row.
fn try_above<S: Store>(rt: &HostRuntime, lower: &mut S) -> io::Result<()> {
    let mut route_slots = [None; 64];
    let mut routes = FlatRow::new(&mut route_slots);
    let mut leaves = Layer::new(Fold, Lent::new(lower));
    let plan = Plan {
        calls: 300,
        prefixes: 60,
        shortest: 100,
        all_addresses: false,
    };
    run::<Ipv6, _, _>(rt, "ipv6", &mut routes, &mut leaves, plan)
}

fn try_ipv6(rt: &HostRuntime) -> io::Result<()> {
    let mut slots = [None; 900];
    let mut lower = Layer::new(Fnv, FlatRow::new(&mut slots));
    try_above(rt, &mut lower)
}

fn main(rt: HostRuntime) -> io::Result<()> {
    try_narrow(&rt)?;
    try_ipv4(&rt)?;
    try_ipv6(&rt)
}
