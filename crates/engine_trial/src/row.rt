// Rows of bits, for the model alone.
#[derive(Clone, Copy, PartialEq, Eq, Debug)]
pub struct Row {
    // The first bits of the number; all behind them are zero.
    bits: u128,
    len: u64,
}

// The most bits that a row has.
const MOST: u64 = 128;

// Ones for the first bits, and zeros behind them.
fn first_bits(len: u64) -> u128 {
    u128::MAX.unbounded_shl(MOST.saturating_sub(len) as u32)
}

impl Row {
    pub fn empty() -> Row {
        Row { bits: 0, len: 0 }
    }

    pub fn from_halves(first: u64, second: u64) -> Row {
        Row {
            bits: u128::from(first) << 64 | u128::from(second),
            len: MOST,
        }
    }

    pub fn halves(&self) -> (u64, u64) {
        let low = u128::from(u64::MAX);
        ((self.bits >> 64) as u64, (self.bits & low) as u64)
    }

    pub fn len(&self) -> u64 {
        self.len
    }

    // The first bits, with zeros up to the length where the row has fewer.
    pub fn front(&self, len: u64) -> Row {
        Row {
            bits: self.bits & first_bits(len),
            len,
        }
    }

    // Whether another row begins with this one.
    pub fn begins(&self, other: &Row) -> bool {
        self.len <= other.len && other.bits & first_bits(self.len) == self.bits
    }

    // The row with one bit more.
    pub fn child(&self, one: bool) -> Row {
        let bit = match u32::try_from(self.len) {
            Ok(at) if one => (1u128 << 127).unbounded_shr(at),
            _ => 0,
        };
        Row {
            bits: self.bits | bit,
            len: self.len.saturating_add(1),
        }
    }
}
