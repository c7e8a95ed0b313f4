// What came of the calls of a trial, by kind.
use engine::Answer;
use std::fmt;
use tally::Count;

// `refused` is by the refusal's number, from 0 to 7.
#[derive(Clone, Copy, Default)]
pub struct Tally {
    changed: Count,
    new_shapes: Count,
    hops: Count,
    nothing: Count,
    counts: Count,
    refused: [Count; 8],
    wrong: Count,
}

impl Tally {
    // One call more, by what was expected and what the engine answered.
    pub fn note(&mut self, expected: Answer, answer: Answer) {
        if expected != answer {
            self.wrong.more();
            return;
        }
        match answer {
            Answer::Changed(new) => {
                self.changed.more();
                self.new_shapes.add(new);
            }
            Answer::Hop(_) => self.hops.more(),
            Answer::NoRoute => self.nothing.more(),
            Answer::Counts(_, _, _) => self.counts.more(),
            Answer::Refused(refusal) => {
                if let Some(count) = self.refused.get_mut(refusal.number() as usize) {
                    count.more();
                }
            }
        }
    }
}

impl fmt::Display for Tally {
    fn fmt<W: fmt::Write>(&self, f: &mut fmt::Formatter<W>) -> fmt::Result {
        let Tally {
            changed,
            new_shapes,
            hops,
            nothing,
            counts,
            refused,
            wrong,
        } = *self;
        let [_, one, two, three, four, five, six, seven] = refused;
        writeln!(
            f,
            "{changed} changes with {new_shapes} new shapes, {hops} hops, {nothing} none, {counts} counts"
        )?;
        writeln!(
            f,
            "  refused 1: {one}, 2: {two}, 3: {three}, 4: {four}, 5: {five}, 6: {six}, 7: {seven}"
        )?;
        // The other trial ends alike: a type for these two lines would be longer.
        match wrong.number() {
            0 => write!(f, "  all answers agreed"),
            _ => write!(f, "  {wrong} answers differed"),
        }
    }
}
