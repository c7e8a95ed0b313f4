// A call to an engine, and what it answers, as values.
ghost use Rattle.std.specs.Prelude.{◌≡◌};
ghost use Rattle.tree.specs.Ledger.{looked};
ghost use Rattle.engine.specs.Calls.{answer_of, change_answer, counts_answer};

use refusal::Refusal;

#[derive(Clone, Copy, Debug, PartialEq, Eq)]
pub enum Call<F> {
    // An address, a length and a hop.
    Announce(F, u64, u64),
    // An address and a length.
    Withdraw(F, u64),
    Lookup(F),
    Count,
}

#[derive(Clone, Copy, Debug, PartialEq, Eq)]
pub enum Answer {
    // How many branching shapes are there now that were not there before.
    Changed(u64),
    Hop(u16),
    NoRoute,
    // Standing routes, matched leaves, vertices.
    Counts(u64, u64, u64),
    Refused(Refusal),
}

// What an announcement or a withdrawal answers.
impl From<Result<u64, Refusal>> for Answer {
    ghost from_gives = { λ r x. answer_of x ≡ change_answer r };

    fn from(changed: Result<u64, Refusal>) -> Answer {
        match changed {
            Ok(new) => Answer::Changed(new),
            Err(refusal) => Answer::Refused(refusal),
        }
    }
}

// What a lookup answers.
impl From<Option<u16>> for Answer {
    ghost from_gives = { λ o x. answer_of x ≡ looked o };

    fn from(hop: Option<u16>) -> Answer {
        match hop {
            Some(hop) => Answer::Hop(hop),
            None => Answer::NoRoute,
        }
    }
}

// What a count answers.
impl From<(u64, u64, u64)> for Answer {
    ghost from_gives = { λ t x. answer_of x ≡ counts_answer t };

    fn from((routes, leaves, vertices): (u64, u64, u64)) -> Answer {
        Answer::Counts(routes, leaves, vertices)
    }
}
