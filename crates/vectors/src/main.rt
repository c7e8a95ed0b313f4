// The FNV-1a hash of each line of the standard input, in hexadecimal, to be compared with the published list.
#![tactic(auto)]

use std::io;
use std::io::Read;
use text::Lines;

fn main(rt: HostRuntime) -> io::Result<()> {
    let mut input = Vec::new(rt.alloc());
    rt.stdin().read_to_end(&mut input)?;
    for line in Lines::new(input.as_slice()) {
        let hash = chooser::fnv::fnv1a(line);
        println!(rt; "{hash:016x}")?;
    }
    Ok(())
}
