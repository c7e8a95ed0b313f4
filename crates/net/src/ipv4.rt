// IPv4 addresses: one number of 32 bits (RFC 791).
ghost use Rattle.bits.specs.Rows.{word};
ghost use Rattle.bits.proofs.Words.{length_word};
ghost use Rattle.std.proofs.Common.{rules};

use crate::Family;
use bits::Halves;

#[derive(Clone, Copy, PartialEq, Eq, Debug)]
pub struct Ipv4(pub u32);

impl Family for Ipv4 {
    const W: usize = 32;

    ghost W = { 32 };

    ghost row = { λ a. word 32 a.0 };

    ghost least = { Prim.search rules };

    ghost most = { Prim.search rules };

    ghost rows = { λ a. length_word 32 a.0 };

    fn halves(&self) -> Halves {
        Halves {
            first: u64::from(self.0) << 32,
            second: 0,
        }
    }

    fn from_halves(halves: Halves) -> Ipv4 {
        Ipv4((halves.first >> 32) as u32)
    }
}
