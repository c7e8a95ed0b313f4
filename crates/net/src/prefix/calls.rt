// What a prefix answers, in terms of the row of its bits.
ghost use Rattle.std.specs.Prelude.{◌≡◌, false, [], ◌∷◌, ◌++◌, length, take, MatchOption, slice_index_or};
ghost use Rattle.std.specs.Cmp.{IsEquivalence};
ghost use Rattle.bits.specs.Rows.{begins as beginning, halves as bits_of, padded, same};
ghost use Rattle.net.specs.Prefix.{row_of, Makes, PrefixLaws};

use super::Prefix;
use bits::Halves;
use refusal::Refusal;

// The longest prefix has a whole address of the widest family.
const LONGEST: u64 = 128;

impl Prefix {
    // The prefix of these halves and this length; refused where the length is over 128, then where a bit past it is 1.
    pub fn new(halves: Halves, len: u64) -> Result<Prefix, Refusal>
        ensures { Makes 128 (bits_of halves.first halves.second) len result }
    {
        if len > LONGEST {
            return Err(Refusal::Length);
        }
        let made = Prefix::front_of(halves, len as usize);
        if made.halves != halves {
            return Err(Refusal::HostBits);
        }
        Ok(made)
    }

    // The first d bits of two halves; a d over 128 counts as 128.
    pub fn front_of(halves: Halves, d: usize) -> Prefix
        ensures { row_of result ≡ take d (bits_of halves.first halves.second) }
    {
        let d = d.min(128);
        Prefix {
            halves: halves.front(d),
            len: d as u8,
        }
    }

    pub fn len(&self) -> u8
        ensures { result ≡ length (row_of self.now) }
    {
        self.len
    }

    // The bits of the prefix, and zeros behind them.
    pub fn halves(&self) -> Halves
        ensures { bits_of result.first result.second ≡ padded 128 (row_of self.now) }
    {
        self.halves
    }

    // Bit i, counted from 0; it is 0 from the length on.
    pub fn bit(&self, i: usize) -> bool
        ensures { result ≡ slice_index_or (row_of self.now) i false }
    {
        self.halves.bit(i)
    }

    // The first d bits; a d over the length counts as the length.
    pub fn front(&self, d: usize) -> Prefix
        ensures { row_of result ≡ take d (row_of self.now) }
    {
        Prefix::front_of(self.halves, d.min(self.len as usize))
    }

    // The prefix with one bit more, on the 1 side or the 0 side; none where it has 128 bits already.
    pub fn child(&self, one: bool) -> Option<Prefix>
        ensures { MatchOption result (length (row_of self.now) ≡ 128) (λ c. row_of c ≡ row_of self.now ++ (one ∷ [])) }
    {
        if self.len == 128 {
            return None;
        }
        Some(Prefix {
            halves: self.halves.extended(self.len as usize, one),
            len: self.len + 1,
        })
    }

    // Whether the other prefix begins with this one.
    pub fn begins(&self, other: &Prefix) -> bool
        ensures { result ≡ beginning (row_of self.now) (row_of other.now) }
    {
        if other.len < self.len {
            return false;
        }
        let front = other.front(self.len as usize);
        *self == front
    }
}

// By hand, since the halves tell most prefixes apart: the derived `==` is built so that it begins with the length, and a search through
// slots that mix lengths takes twice the time.
impl PartialEq for Prefix {
    ghost use Rattle.net.specs.Equality.{same_row_partial_equiv};

    ghost eq = { λ p q. same (row_of p) (row_of q) };

    ghost laws = { same_row_partial_equiv };

    fn eq(&self, other: &Prefix) -> bool {
        if self.halves != other.halves {
            return false;
        }
        other.len == self.len
    }
}

impl Eq for Prefix {
    ghost use Rattle.net.specs.Equality.{same_row_equiv};

    ghost laws = { same_row_equiv };
}

// A prefix is as long as its row, there is one prefix for a row, and two prefixes are equal where their rows are the same.
pub fn prefix_laws_stand()
    ensures laws { PrefixLaws }
    ensures equal { (p q : Prefix) → ⟦<Prefix as PartialEq>⟧.eq p q ≡ same (row_of p) (row_of q) }
    ensures equivalence { IsEquivalence (λ (p q : Prefix). same (row_of p) (row_of q)) }
{}
