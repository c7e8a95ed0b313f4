// A row of 128 bits in two words of 64, counted from 0 at the most significant bit of the first. With one u128 in place of the two
// a prefix would take 32 bytes and not 24, and so each slot of a store would grow. Clauses write `halves x.first x.second`: a model would
// hide the words, and choosers are defined on them.
ghost use Rattle.std.specs.Prelude.{◌≡◌, ◌-◌, ◌<◌, ◌≤◌, true, false, [], ◌∷◌, ◌++◌, take, replicate, slice_index_or};
ghost use Rattle.bits.specs.Rows.{halves, padded, word};

#[derive(Clone, Copy, PartialEq, Eq, Debug)]
pub struct Halves {
    pub first: u64,
    pub second: u64,
}

impl Halves {
    // Bit i, and 0 from 128 on.
    pub fn bit(self, i: usize) -> bool
        ensures { result ≡ slice_index_or (halves self.first self.second) i false }
    {
        if i < 64 {
            word_bit(self.first, i)
        } else if i < 128 {
            word_bit(self.second, i - 64)
        } else {
            false
        }
    }

    // The first d bits, and zeros behind them.
    pub fn front(self, d: usize) -> Halves
        ensures { halves result.first result.second ≡ padded 128 (take d (halves self.first self.second)) }
    {
        Halves {
            first: kept(self.first, d),
            second: kept(self.second, d.saturating_sub(64)),
        }
    }

    // The first i bits, one bit more where there is room for it, and zeros behind.
    pub fn extended(self, i: usize, one: bool) -> Halves
        ensures room { i < 128 → halves result.first result.second ≡ padded 128 (take i (halves self.first self.second) ++ (one ∷ [])) }
        ensures full { 128 ≤ i → halves result.first result.second ≡ halves self.first self.second }
    {
        if !one || i >= 128 {
            return self.front(i);
        }
        if i < 64 {
            return Halves {
                first: marked(self.first, i),
                second: 0,
            };
        }
        Halves {
            first: self.first,
            second: marked(self.second, i - 64),
        }
    }
}

fn word_bit(x: u64, i: usize) -> bool
    requires { i < 64 }
    ensures { result ≡ slice_index_or (word 64 x) i false }
{
    (x >> (63 - i)) % 2 == 1
}

// The first d bits of x, and zeros behind them.
fn kept(x: u64, d: usize) -> u64
    ensures { word 64 result ≡ padded 64 (take d (word 64 x)) }
{
    if d >= 64 {
        x
    } else if d == 0 {
        0
    } else {
        (x >> (64 - d)) << (64 - d)
    }
}

// The first i bits of x, a 1, and zeros behind it.
fn marked(x: u64, i: usize) -> u64
    requires { i < 64 }
    ensures { word 64 result ≡ take i (word 64 x) ++ (true ∷ replicate (63 - i) false) }
{
    ((x >> (63 - i)) | 1) << (63 - i)
}
