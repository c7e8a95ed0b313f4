// A short text, in fixed memory.
ghost use Rattle.std.specs.Prelude.{◌≡◌, ◌+◌, ◌≤◌, min, [], ◌∷◌, ◌++◌, length, take, drop};
ghost use Rattle.line.specs.Reply.{most_held};

use std::marker::Model;

// How many bytes a buffer holds: more than any answer wants, and enough to tell that a line is too long to be a command.
const MOST_HELD: usize = 81;

// The first `len` bytes are held, and zeros lie behind them: so what is held gives the fields back, and a buffer is `Copy`. (The kit's
// `ArrayVec` is not.)
#[derive(Clone, Copy)]
pub struct Buffer {
    bytes: [u8; MOST_HELD],
    len: usize,
}

impl Model for Buffer {
    ghost use Rattle.std.specs.Prelude.{ℕ, List, take};
    ghost use Rattle.line.specs.Held.{Blank, fields_of, given_back};

    ghost Value = { List ℕ };

    ghost invariant = { Blank };

    ghost view = { λ b. take b.len b.bytes };

    ghost inverse = { fields_of };

    ghost inverse_ok = { given_back };
}

impl Buffer {
    pub fn empty() -> Buffer
        ensures { result ≡ [] }
    {
        Buffer {
            bytes: [0; MOST_HELD],
            len: 0,
        }
    }

    // What is held.
    pub fn bytes(&self) -> &[u8]
        ensures { result.now ≡ self.now }
    {
        &self.bytes[..self.len]
    }

    // One byte more; past 81 it is let go.
    pub fn push(&mut self, b: u8)
        ensures { self.new ≡ take most_held (self.old ++ (b ∷ [])) }
    {
        if self.len < MOST_HELD {
            self.bytes[self.len] = b;
            self.len += 1;
        }
    }

    // A text more.
    pub(crate) fn text(&mut self, text: &[u8])
        requires { length self.old + length text.now ≤ most_held }
        ensures { self.new ≡ self.old ++ text.now }
    {
        let end = self.len + text.len();
        self.bytes[self.len..end].copy_from_slice(text);
        self.len = end;
    }

    // Writes as much of what is held as the row has room for to its front, and says how much that is.
    pub fn copy_to(&self, row: &mut [u8]) -> usize
        ensures number { result ≡ min (length self.now) (length row.old) }
        ensures bytes { row.new ≡ take result self.now ++ drop result row.old }
    {
        let n = self.len.min(row.len());
        row[..n].copy_from_slice(&self.bytes[..n]);
        n
    }
}
