// Replays a list of calls: each line of the standard input is a call to an IPv4 engine over a row of 512 routes and buckets over
// another such row for the leaves, and each line of the output what it answered. A line that is no call is left out.
//   A,ADDRESS,LENGTH,HOP announces    W,ADDRESS,LENGTH withdraws    L,ADDRESS looks up    Q counts
#![tactic(auto)]

use chooser::Fnv;
use engine::{Answer, Turn, replay};
use layer::Layer;
use line::read_call;
use net::Ipv4;
use std::io::Read;
use std::{fmt, io};
use store::{FlatRow, Lent, Store};
use text::Lines;

// An answer as a line of the output. A refusal is told by its word.
#[derive(Clone, Copy)]
struct Shown(Answer);

impl fmt::Display for Shown {
    fn fmt<W: fmt::Write>(&self, f: &mut fmt::Formatter<W>) -> fmt::Result {
        match self.0 {
            Answer::Changed(new) => write!(f, "ok,{new}"),
            Answer::Hop(hop) => write!(f, "hop,{hop}"),
            Answer::NoRoute => write!(f, "none"),
            Answer::Counts(routes, leaves, vertices) => {
                write!(f, "count,{routes},{leaves},{vertices}")
            }
            Answer::Refused(refusal) => {
                let number = refusal.number();
                write!(f, "no,{number},{refusal}")
            }
        }
    }
}

// The calls of all lines, each with no answer yet.
fn read_turns(rt: &HostRuntime) -> io::Result<Vec<Turn<Ipv4>>> {
    let mut input = Vec::new(rt.alloc());
    rt.stdin().read_to_end(&mut input)?;
    let mut turns = Vec::new(rt.alloc());
    for line in Lines::new(input.as_slice()) {
        if let Ok(call) = read_call(line) {
            turns.push(Turn {
                call,
                answer: Answer::NoRoute,
            })?;
        }
    }
    Ok(turns)
}

fn answer_all<R: Store, L: Store>(routes: &mut R, leaves: &mut L, turns: &mut [Turn<Ipv4>]) {
    let _engine = replay(Lent::new(routes), Lent::new(leaves), turns);
}

fn main(rt: HostRuntime) -> io::Result<()> {
    let mut turns = read_turns(&rt)?;
    let mut route_slots = [None; 512];
    let mut leaf_slots = [None; 512];
    let mut routes = FlatRow::new(&mut route_slots);
    let mut leaves = Layer::new(Fnv, FlatRow::new(&mut leaf_slots));
    answer_all(&mut routes, &mut leaves, turns.as_mut_slice());
    for turn in &turns {
        rt.println(Shown(turn.answer))?;
    }
    Ok(())
}
