// One call after the other.
ghost use Rattle.std.specs.Prelude.{◌≡◌, List, [], ◌∷◌, ◌++◌};
ghost use Rattle.tree.specs.Ledger as ledger;
ghost use Rattle.engine.specs.Seen.{state};
ghost use Rattle.engine.specs.Calls.{call_of, answer_of, given_by, calls_of, answers_of};
ghost use Rattle.engine.specs.Serves.{Ran};

use crate::call::{Answer, Call};
use crate::engine::Engine;
use net::Family;
use store::Store;

// A call, and the answer that it got.
#[derive(Clone, Copy, Debug, PartialEq, Eq)]
pub struct Turn<F> {
    pub call: Call<F>,
    pub answer: Answer,
}

impl<F: Family + Copy, R: Store, L: Store> Engine<F, R, L> {
    // One call more: what held of all calls so far holds with this one too.
    pub fn step(&mut self, call: Call<F>) -> Answer
        ensures { (g : ledger.Given) (calls : List ledger.Call) (given : List ledger.Answer) → Ran g calls given (state F.W R.content L.content self.old) →
            Ran g (calls ++ (call_of F.Family.row call ∷ [])) (given ++ (answer_of result ∷ [])) (state F.W R.content L.content self.new) }
    {
        match call {
            Call::Announce(address, len, hop) => Answer::from(self.announce(&address, len, hop)),
            Call::Withdraw(address, len) => Answer::from(self.withdraw(&address, len)),
            Call::Lookup(address) => Answer::from(self.lookup(&address)),
            Call::Count => Answer::from(self.count()),
        }
    }
}

// Sets an engine up over two stores, whatever they hold, lets it answer all calls, one after the other, and hands it back.
pub fn replay<F: Family + Copy, R: Store, L: Store>(
    routes: R,
    leaves: L,
    turns: &mut [Turn<F>],
) -> Engine<F, R, L>
    ensures calls { calls_of F.Family.row turns.new ≡ calls_of F.Family.row turns.old }
    ensures ran { Ran (given_by F.W (R.content routes) (L.content leaves)) (calls_of F.Family.row turns.old) (answers_of turns.new) (state F.W R.content L.content result) }
{
    let mut engine = Engine::new(routes, leaves);
    for turn in turns.iter_mut() {
        turn.answer = engine.step(turn.call);
    }
    engine
}
