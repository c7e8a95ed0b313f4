// Answers text lines on the standard input by an engine for IPv4 addresses.
// A program is a crate of its own here, so one program for both families would be no plainer than these few lines.
#![tactic(auto)]

use net::Ipv4;
use server::serve;
use std::io;

fn main(rt: HostRuntime) -> io::Result<()> {
    serve::<Ipv4, _, _>(&mut rt.stdin(), &mut rt.stdout())
}
