// The IPv4 forwarder once more, on lines that are ill written: a program has one input here that its run is compared on.
#![tactic(auto)]

use net::Ipv4;
use server::serve;
use std::io;

fn main(rt: HostRuntime) -> io::Result<()> {
    serve::<Ipv4, _, _>(&mut rt.stdin(), &mut rt.stdout())
}
