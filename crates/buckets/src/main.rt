// The buckets of listed prefixes, for whoever lays out a line card's memory: for each line of the standard input the four
// buckets of each chooser, or why the line is refused, and at the end how full the fullest bucket would be.
#![tactic(auto)]

use chooser::{Fnv, Fold, Load, buckets};
use net::Prefix;
use refusal::Refusal;
use std::io::Read;
use std::{fmt, io};
use tally::Count;
use text::Lines;

// What was seen of the lines so far.
#[derive(Drop)]
struct Report {
    lines: Count,
    taken: Count,
    fnv: Load,
    fold: Load,
}

// What a line is told: the buckets of its prefix at the four tries, by each chooser, or why it is refused.
#[derive(Clone, Copy)]
struct Told(Result<([u8; 4], [u8; 4]), Refusal>);

impl fmt::Display for Told {
    fn fmt<W: fmt::Write>(&self, f: &mut fmt::Formatter<W>) -> fmt::Result {
        match self.0 {
            Ok(both) => {
                let [a, b, c, d] = both.0;
                let [p, q, r, s] = both.1;
                write!(f, "fnv {a} {b} {c} {d} fold {p} {q} {r} {s}")
            }
            Err(refusal) => {
                let number = refusal.number();
                write!(f, "no {number} {refusal}")?;
                match refusal {
                    Refusal::Field { column } => write!(f, " at column {column}"),
                    _ => Ok(()),
                }
            }
        }
    }
}

impl Report {
    fn new() -> Report {
        Report {
            lines: Count::default(),
            taken: Count::default(),
            fnv: Load::empty(),
            fold: Load::empty(),
        }
    }

    fn line(&mut self, line: &[u8]) -> Told {
        self.lines.more();
        Told(listing::prefix(line).map(|prefix| self.take(&prefix)))
    }

    fn take(&mut self, prefix: &Prefix) -> ([u8; 4], [u8; 4]) {
        let by_fnv = buckets(&Fnv, prefix);
        let by_fold = buckets(&Fold, prefix);
        self.taken.more();
        self.fnv.note(by_fnv[0]);
        self.fold.note(by_fold[0]);
        (by_fnv, by_fold)
    }
}

impl fmt::Display for Report {
    fn fmt<W: fmt::Write>(&self, f: &mut fmt::Formatter<W>) -> fmt::Result {
        let lines = self.lines;
        let taken = self.taken;
        let fnv = self.fnv.fullest();
        let fold = self.fold.fullest();
        write!(
            f,
            "{taken} of {lines} lines taken, fullest first bucket: fnv {fnv}, fold {fold}"
        )
    }
}

fn main(rt: HostRuntime) -> io::Result<()> {
    let mut input = Vec::new(rt.alloc());
    rt.stdin().read_to_end(&mut input)?;
    let mut report = Report::new();
    for line in Lines::new(input.as_slice()) {
        rt.println(report.line(line))?;
    }
    rt.println(report)
}
