// The lines of an input, one after the other.
ghost use Rattle.std.specs.Prelude.{◌≡◌, [], ◌∷◌, length, MatchOption};
ghost use Rattle.text.specs.Lines.{lines as in_lines};
ghost use Rattle.std.specs.Iterator.{at_most};

use crate::first;

// What is left of the input.
#[derive(Drop)]
pub struct Lines<'a> {
    rest: &'a [u8],
}

impl<'a> Lines<'a> {
    pub fn new(input: &'a [u8]) -> Lines<'a>
        ensures { result.rest.now ≡ input.now }
    {
        Lines { rest: input }
    }
}

impl<'a> Iterator for Lines<'a> {
    type Item = &'a [u8];

    // The next line, and the lines of what is left behind it; none comes where none is left.
    ghost next_gives = { λ s r t. MatchOption r ((in_lines s.rest.now ≡ []) × (t.rest.now ≡ s.rest.now)) (λ line. in_lines s.rest.now ≡ line.now ∷ in_lines t.rest.now) };

    ghost remaining = { λ s. at_most (length s.rest.now) };

    fn next(&mut self) -> Option<&'a [u8]> {
        let rest = self.rest;
        if rest.is_empty() {
            return None;
        }
        let Some(end) = first(rest, b'\n') else {
            self.rest = &rest[rest.len()..];
            return Some(rest);
        };
        self.rest = &rest[end + 1..];
        Some(&rest[..end])
    }
}
