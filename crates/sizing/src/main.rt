// How much vertex memory a list of routes takes. It reads a prefix a line, as hexadecimal digits of the address, a comma and a decimal
// length; an empty line ends a list and begins the next. For each list it writes the numbers of routes, of tree nodes and leaves, and of
// vertices. It stops at a line that is refused, or that the vertices do not suffice for, and says which.
#![tactic(auto)]

mod census;
mod count;
mod show;

use census::Census;
use std::io;
use std::io::{BufRead, BufReader};

fn main(rt: HostRuntime) -> io::Result<()> {
    let mut census = Census::new();
    let lines = BufReader::new(rt.alloc(), rt.stdin())?.lines(rt.alloc());
    for (number, line) in (1_u64..).zip(lines) {
        let line = line?;
        if line.is_empty() {
            rt.println(census.summary())?;
            census = Census::new();
        } else if let Err(why) = census.enter_line(line.as_bytes()) {
            rt.println(census.summary())?;
            return println!(rt; "line {number}: {why}");
        }
    }
    rt.println(census.summary())
}
