// Address families: what an address of any width is, and what it answers.
ghost use Rattle.std.specs.Prelude.{◌≡◌, ℕ, ◌≤◌, false, length, take, slice_index_or};
ghost use Rattle.bits.specs.Rows.{Bits, halves as bits_of, padded};
ghost use Rattle.net.specs.Prefix.{row_of, Makes};

use crate::Prefix;
use bits::Halves;
use refusal::Refusal;

// An address means a row of exactly `W` bits, the most significant first.
pub trait Family: Sized {
    // The width in bits, 1 to 128; clauses name it too.
    const W: usize;

    ghost W: { ℕ };

    ghost row: { Self → Bits };

    // Its bits, and zeros behind them.
    fn halves(&self) -> Halves
        ensures { bits_of result.first result.second ≡ padded 128 (row self.now) };

    // The address of the first bits of two halves.
    fn from_halves(halves: Halves) -> Self
        ensures { row result ≡ take W (bits_of halves.first halves.second) };

    // Bit i, counted from 0; it is 0 from the width on.
    fn bit(&self, i: usize) -> bool
        ensures { result ≡ slice_index_or (row self.now) i false }
    {
        self.halves().bit(i)
    }

    // The first d bits; a d over the width counts as the width.
    fn front(&self, d: usize) -> Prefix
        ensures { row_of result ≡ take d (row self.now) }
    {
        Prefix::front_of(self.halves(), d.min(Self::W))
    }

    ghost least: { 1 ≤ W };

    ghost most: { W ≤ 128 };

    ghost rows: { (a : Self) → length (row a) ≡ W };
}

// The prefix of the first `len` bits of an address; refused where the length is over the width, then where a bit past it is 1.
pub fn network<F: Family>(address: &F, len: u64) -> Result<Prefix, Refusal>
    ensures { Makes F.W (F.Family.row address.now) len result }
{
    if len > F::W as u64 {
        return Err(Refusal::Length);
    }
    Prefix::new(address.halves(), len)
}
