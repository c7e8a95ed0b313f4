// Bucket choosers: which of 256 buckets a prefix goes to at each of four tries.
#![tactic(auto)]

pub mod fnv;
pub mod fold;
pub mod load;

ghost use Rattle.std.specs.Prelude.{◌≡◌, ℕ, ◌%◌, ◌<◌, [], ◌∷◌};
ghost use Rattle.net.specs.declared.prefix.Prefix.{Prefix};

pub use fnv::Fnv;
pub use fold::Fold;
pub use load::Load;
use net::Prefix;

// A chooser means a fixed function of a prefix and a try, and of nothing else.
pub trait Chooser {
    ghost bucket: { Prefix → ℕ → ℕ };

    fn choose(&self, prefix: &Prefix, attempt: u64) -> u8
        ensures { result ≡ bucket prefix.now attempt };

    ghost within: { (p : Prefix) (j : ℕ) → bucket p j < 256 };

    // a try over 3 counts as its remainder by 4
    ghost tries: { (p : Prefix) (j : ℕ) → bucket p j ≡ bucket p (j % 4) };
}

// The buckets of a prefix at its four tries.
pub fn buckets<C: Chooser>(chooser: &C, prefix: &Prefix) -> [u8; 4]
    ensures { result ≡ C.bucket prefix.now 0 ∷ C.bucket prefix.now 1 ∷ C.bucket prefix.now 2 ∷ C.bucket prefix.now 3 ∷ [] }
{
    [0, 1, 2, 3].map(|attempt| chooser.choose(prefix, attempt))
}
