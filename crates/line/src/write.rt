// How an answer is written.
ghost use Rattle.std.specs.Prelude.{◌≡◌, ◌+◌, ◌<◌, ◌≤◌, ◌++◌, length, take, decimal};
ghost use Rattle.engine.specs.Calls.{answer_of};
ghost use Rattle.line.specs.Reply.{column_of, labelled, said, short_number, written, Few, most_held};

use crate::buffer::Buffer;
use engine::Answer;
use refusal::Refusal;

// No `write!`: its clauses say nothing of where it may fail, and an answer is always owed.
impl Buffer {
    // The line that says an answer.
    pub fn reply(answer: Answer) -> Buffer
        ensures line { result ≡ written (answer_of answer) }
        ensures few { Few (answer_of answer) }
    {
        let mut reply = Buffer::words(answer);
        reply.text(b"\n");
        reply
    }

    // The words and numbers that say an answer.
    fn words(answer: Answer) -> Buffer
        ensures says { result ≡ said (answer_of answer) }
        ensures few { Few (answer_of answer) }
        ensures room { length result < most_held }
    {
        let mut words = Buffer::empty();
        match answer {
            Answer::Changed(new) => words.label(b"ok,", new),
            Answer::Hop(hop) => words.label(b"hop,", u64::from(hop)),
            Answer::NoRoute => words.text(b"none"),
            Answer::Counts(routes, leaves, vertices) => {
                words.label(b"count,", routes);
                words.label(b",", leaves);
                words.label(b",", vertices);
            }
            Answer::Refused(refusal) => {
                words.label(b"no,", u64::from(refusal.number()));
                words.label(b",", column(refusal));
            }
        }
        words
    }

    // A word or a mark, and a number behind it, which has 20 digits at most.
    fn label(&mut self, word: &[u8], n: u64)
        requires { length self.old + length word.now + 20 ≤ most_held }
        ensures says { self.new ≡ self.old ++ labelled word.now n }
        ensures few { short_number n }
    {
        self.text(word);
        self.number(n);
    }

    // A number, in decimal digits; what has no room is let go.
    fn number(&mut self, n: u64)
        ensures { self.new ≡ take most_held (self.old ++ decimal n) }
    {
        if n >= 10 {
            self.number(n / 10);
        }
        self.push(b'0' + (n % 10) as u8);
    }
}

fn column(refusal: Refusal) -> u64
    ensures { result ≡ column_of refusal }
{
    match refusal {
        Refusal::Field { column } => column,
        _ => 1,
    }
}
