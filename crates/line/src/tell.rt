// A line told to an engine, and the engine's answer.
ghost use Rattle.std.specs.Prelude.{◌≡◌, ℕ, ◌<◌, ◌≤◌, List, [], ◌∷◌, ◌++◌, length};
ghost use Rattle.refusal.specs.declared.Refusal as refusals;
ghost use Rattle.tree.specs.Ledger.{Given, after_calls};
ghost use Rattle.engine.specs.Seen.{state};
ghost use Rattle.engine.specs.Calls.{answer_of};
ghost use Rattle.line.specs.Line.{read_line, bad};
ghost use Rattle.line.specs.Told.{least_row, line_calls, line_turn, reply_to, Replied, RowKept, Told};

use crate::buffer::Buffer;
use crate::read::read_call;
use engine::{Answer, Engine};
use net::Family;
use refusal::Refusal;
use store::Store;

// The shortest row that an answer may be written to.
pub const LEAST_ROW: usize = 40;

// Lets the engine answer a line, writes the answer to the front of the row, and says how many bytes that took. The row's later bytes
// stay as they are. Refused, with nothing done: a row of under 40 bytes. Every other refusal is an answer, and is written.
pub fn answer_line<F: Family + Copy, R: Store, L: Store>(
    engine: &mut Engine<F, R, L>,
    line: &[u8],
    row: &mut [u8],
) -> Result<usize, Refusal>
    ensures row { RowKept row.old row.new result }
    ensures short { length row.old < least_row → engine.new ≡ engine.old }
    ensures ill { (why : refusals.Refusal) → read_line F.W line.now ≡ bad why → engine.new ≡ engine.old }
    ensures told { (g : Given) (ls : List (List ℕ)) → least_row ≤ length row.old → Told g ls (state F.W R.content L.content engine.old) →
        Told g (ls ++ (line.now ∷ [])) (state F.W R.content L.content engine.new) × Replied (reply_to g ls line.now) row.old row.new result }
{
    if row.len() < LEAST_ROW {
        return Err(Refusal::AnswerRow);
    }
    let reply = Buffer::reply(tell(engine, line));
    Ok(reply.copy_to(row))
}

// The engine's answer to a line: to the call that it stands for, or the line's own refusal.
fn tell<F: Family + Copy, R: Store, L: Store>(engine: &mut Engine<F, R, L>, line: &[u8]) -> Answer
    ensures ill { (why : refusals.Refusal) → read_line F.W line.now ≡ bad why → engine.new ≡ engine.old }
    ensures told { (g : Given) (ls : List (List ℕ)) → Told g ls (state F.W R.content L.content engine.old) →
        Told g (ls ++ (line.now ∷ [])) (state F.W R.content L.content engine.new)
        × ((line_turn g (after_calls g [] (line_calls g.width ls)) line.now).1 ≡ answer_of result) }
{
    match read_call::<F>(line) {
        Ok(call) => engine.step(call),
        Err(refusal) => Answer::Refused(refusal),
    }
}
