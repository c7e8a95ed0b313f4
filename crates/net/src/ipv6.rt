// IPv6 addresses: 128 bits (RFC 4291).
ghost use Rattle.bits.specs.Rows.{halves as bits_of};
ghost use Rattle.bits.proofs.Pairs.{length_halves};
ghost use Rattle.std.proofs.Common.{rules};

use crate::Family;
use bits::Halves;

#[derive(Clone, Copy, PartialEq, Eq, Debug)]
pub struct Ipv6(pub Halves);

impl Family for Ipv6 {
    const W: usize = 128;

    ghost W = { 128 };

    ghost row = { λ a. bits_of a.0.first a.0.second };

    ghost least = { Prim.search rules };

    ghost most = { Prim.search rules };

    ghost rows = { λ a. length_halves a.0.first a.0.second };

    fn halves(&self) -> Halves {
        self.0
    }

    fn from_halves(halves: Halves) -> Ipv6 {
        Ipv6(halves)
    }
}
