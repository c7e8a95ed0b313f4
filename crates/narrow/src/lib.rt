// A family of five bits, for trials: all its addresses can be looked at.
#![tactic(auto)]

ghost use Rattle.std.specs.Prelude.{◌<◌};
ghost use Rattle.bits.specs.Rows.{word};
ghost use Rattle.bits.proofs.Words.{length_word};
ghost use Rattle.std.proofs.Common.{rules};

use bits::Halves;
use net::Family;

#[derive(Clone, Copy, Debug)]
pub struct Narrow {
    number: u8,
    ghost small: { number < 32 },
}

impl Family for Narrow {
    const W: usize = 5;

    ghost W = { 5 };

    ghost row = { λ a. word 5 a.number };

    ghost least = { Prim.search rules };

    ghost most = { Prim.search rules };

    ghost rows = { λ a. length_word 5 a.number };

    fn halves(&self) -> Halves {
        Halves {
            first: u64::from(self.number) << 59,
            second: 0,
        }
    }

    fn from_halves(halves: Halves) -> Narrow {
        Narrow {
            number: (halves.first >> 59) as u8,
        }
    }
}

#[cfg(test)]
mod tests {
    use super::*;

    // Every address, every bit and every front, against the number's own digits.
    #[test]
    fn all_addresses(rt: HostRuntime) {
        for n in 0..32u64 {
            let address = Narrow::from_halves(Halves {
                first: n << 59,
                second: 0,
            });
            for i in 0..8usize {
                let expected = i < 5 && (n >> (4 - i.min(4))) % 2 == 1;
                assert_eq!(rt; address.bit(i), expected);
            }
            for d in 0..8usize {
                let front = address.front(d);
                assert_eq!(rt; front.len() as usize, d.min(5));
                assert!(rt; address.front(5).bit(d) == address.bit(d));
                assert!(rt; front.begins(&address.front(5)));
            }
        }
    }
}
