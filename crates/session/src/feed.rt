// Feeding a session the pieces of its input as they come.
ghost use Rattle.std.specs.Prelude.{◌≡◌, ℕ, ◌+◌, ◌<◌, ◌≤◌, ◌⊎◌, List, [], ◌∷◌, ◌++◌, length, take, drop, IfOk, Err};
ghost use Rattle.refusal.specs.declared.Refusal.TheVariants.{AnswerRow};
ghost use Rattle.tree.specs.Ledger.{Given};
ghost use Rattle.engine.specs.Calls.{given_by};
ghost use Rattle.line.specs.Told.{least_row, RowKept};
ghost use Rattle.session.specs.Session.{Heard, Over};
ghost use Rattle.session.specs.Seen.{hearing};

use crate::session::Session;
use engine::Engine;
use line::{Buffer, LEAST_ROW, answer_line};
use net::Family;
use refusal::Refusal;
use std::mem;
use store::Store;

// How much of a piece was taken, and how many bytes of replies were written.
#[derive(Clone, Copy)]
pub struct Fed {
    pub taken: usize,
    pub written: usize,
}

// What ends a line.
const LINE_FEED: u8 = b'\n';

impl<F: Family + Copy, R: Store, L: Store> Session<F, R, L> {
    // Sets an engine up over two stores, whatever they hold. Nothing was fed, and nothing given out.
    pub fn new(routes: R, leaves: L) -> Session<F, R, L>
        ensures { Heard (given_by F.W (R.content routes) (L.content leaves)) [] [] (hearing F.W R.content L.content result) }
    {
        let line = Buffer::empty();
        Session {
            engine: Engine::new(routes, leaves),
            line,
        }
    }

    // Takes a piece of the input, and writes the replies to the lines that it ends to the front of the row. It stops before a line
    // feed where the row has under 40 bytes left; the rest of the piece is to be fed again. A row of 40 bytes or more gets it on.
    pub fn feed(&mut self, piece: &[u8], row: &mut [u8]) -> Fed
        ensures within { (result.taken ≤ length piece.now) × (result.written ≤ length row.old) }
        ensures rest { drop result.written row.new ≡ drop result.written row.old }
        ensures all { ∥ ((result.taken ≡ length piece.now) ⊎ (length row.old < result.written + least_row)) ∥₁ }
        ensures onward { 0 < length piece.now → least_row ≤ length row.old → 0 < result.taken }
        ensures heard { (g : Given) (input output : List ℕ) → Heard g input output (hearing F.W R.content L.content self.old) →
            Heard g (input ++ take result.taken piece.now) (output ++ take result.written row.new) (hearing F.W R.content L.content self.new) }
    {
        let mut written = 0;
        for (i, b) in piece.iter().enumerate() {
            if *b != LINE_FEED {
                self.line.push(*b);
            } else if row.len() - written < LEAST_ROW {
                return Fed { taken: i, written };
            } else {
                written += self.end_line(&mut row[written..]);
            }
        }
        Fed {
            taken: piece.len(),
            written,
        }
    }

    // The input has come to its end: writes the reply to the line that no line feed has ended, if there is one.
    // Refused, with nothing done: a row of under 40 bytes.
    pub fn finish(&mut self, row: &mut [u8]) -> Result<usize, Refusal>
        ensures row { RowKept row.old row.new result }
        ensures short { length row.old < least_row → self.new ≡ self.old }
        ensures over { (g : Given) (input output : List ℕ) → Heard g input output (hearing F.W R.content L.content self.old) →
            IfOk result (λ n. Over g input (output ++ take n row.new) (hearing F.W R.content L.content self.new)) }
    {
        if row.len() < LEAST_ROW {
            return Err(Refusal::AnswerRow);
        }
        if self.line.bytes().is_empty() {
            return Ok(0);
        }
        Ok(self.end_line(row))
    }

    // A line feed: writes the reply to the line that it ends, and begins the next.
    fn end_line(&mut self, row: &mut [u8]) -> usize
        ensures within { result ≤ length row.old }
        ensures rest { drop result row.new ≡ drop result row.old }
        ensures heard { (g : Given) (input output : List ℕ) → least_row ≤ length row.old → Heard g input output (hearing F.W R.content L.content self.old) →
            Heard g (input ++ (10 ∷ [])) (output ++ take result row.new) (hearing F.W R.content L.content self.new) }
    {
        let line = mem::replace(&mut self.line, Buffer::empty());
        answer_line(&mut self.engine, line.bytes(), row).unwrap_or(0)
    }
}
