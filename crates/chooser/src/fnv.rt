// A chooser by FNV-1a of 64 bits (RFC 9923).
ghost use Rattle.std.specs.Prelude.{◌≡◌, ◌%◌};
ghost use Rattle.std.proofs.Common.{sym};
ghost use Rattle.std.proofs.Math.Path.{ap};
ghost use Rattle.chooser.specs.Fnv.{fnv_bucket, fnv1a as hash_of, hashed as hash_after, text_of};
ghost use native.Mathlib.Omega.{arith};
ghost use Rattle.std.proofs.Math.Nat.{mod-mod};
ghost use Rattle.chooser.specs.Fnv as SpecsFnv;

use crate::Chooser;
use bits::Halves;
use net::Prefix;

const BASIS: u64 = 14695981039346656037;

const PRIME: u64 = 1099511628211;

// The FNV-1a hash of the bytes.
pub fn fnv1a(bytes: &[u8]) -> u64
    ensures { result ≡ hash_of bytes.now }
{
    hashed(BASIS, bytes)
}

// The hash after these bytes more.
fn hashed(hash: u64, bytes: &[u8]) -> u64
    ensures { result ≡ hash_after hash bytes.now }
{
    bytes.iter().fold(hash, |hash, byte| {
        (hash ^ u64::from(*byte)).wrapping_mul(PRIME)
    })
}

#[derive(Clone, Copy, Debug)]
pub struct Fnv;

impl Chooser for Fnv {
    ghost bucket = { fnv_bucket };

    ghost within = { unfold fnv_bucket in λ p j. omega arith };

    ghost tries = { unfold fnv_bucket in λ p j. ap (λ k. SpecsFnv.fnv1a (text_of p k) % 256) (sym (mod-mod j 4)) };

    // The try is hashed, then both halves with the most significant byte first, and the length.
    fn choose(&self, prefix: &Prefix, attempt: u64) -> u8 {
        let Halves { first, second } = prefix.halves();
        let hash = hashed(BASIS, &[(attempt % 4) as u8]);
        let hash = hashed(hash, &first.to_be_bytes());
        let hash = hashed(hash, &second.to_be_bytes());
        let hash = hashed(hash, &[prefix.len()]);
        (hash % 256) as u8
    }
}
