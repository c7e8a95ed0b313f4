// A chooser that folds a prefix into one number and multiplies it (Fibonacci hashing).
ghost use Rattle.chooser.specs.Fold.{fold_bucket, rotated, multiplier};
ghost use native.Mathlib.Omega.{arith};
ghost use Rattle.std.proofs.Common.{sym};
ghost use Rattle.std.proofs.Math.Path.{ap};
ghost use Rattle.std.specs.Prelude.{◌+◌, ◌*◌, ◌/◌, ◌%◌, ◌^◌, bit_xor};
ghost use Rattle.std.proofs.Math.Nat.{mod-mod};

use crate::Chooser;
use bits::Halves;
use net::Prefix;

const MULTIPLIER: u64 = 11400714819323198485;

#[derive(Clone, Copy, Debug)]
pub struct Fold;

impl Chooser for Fold {
    ghost bucket = { fold_bucket };

    ghost within = { unfold fold_bucket in λ p j. omega arith };

    ghost tries = { unfold fold_bucket in λ p j. ap (λ k. ((rotated (16 * k) (bit_xor p.halves.first p.halves.second) + p.len) * multiplier) % 2 ^ 64 / 2 ^ 56) (sym (mod-mod j 4)) };

    fn choose(&self, prefix: &Prefix, attempt: u64) -> u8 {
        let Halves { first, second } = prefix.halves();
        let turned = (first ^ second).rotate_left(16 * (attempt % 4) as u32);
        let product = turned
            .wrapping_add(u64::from(prefix.len()))
            .wrapping_mul(MULTIPLIER);
        (product >> 56) as u8
    }
}
