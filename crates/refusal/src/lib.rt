// Grounds for saying no. Every refusal of the product is one of these, with a number and a word that users see.
#![tactic(auto)]

mod hops;

ghost use Rattle.std.specs.Prelude.{◌≡◌, Some};
ghost use Rattle.refusal.specs.Numbers.{number_of, word_of};

pub use hops::hop;
use std::error::Error;
use std::fmt;

#[derive(Clone, Copy, PartialEq, Eq, Debug)]
pub enum Refusal {
    Length,
    HostBits,
    Hop,
    Unknown,
    RoutesFull,
    LeavesFull,
    VerticesFull,
    StoreFull,
    Stride,
    ImageRows,
    ImageBroken,
    Line,
    // The column is that of the bad field's first byte, counted from 1.
    Field { column: u64 },
    AnswerRow,
}

impl Refusal {
    // The table of numbers, and below that of words: other forms would call them.
    pub fn number(self) -> u8
        ensures { result ≡ number_of self }
    {
        match self {
            Refusal::Length => 1,
            Refusal::HostBits => 2,
            Refusal::Hop => 3,
            Refusal::Unknown => 4,
            Refusal::RoutesFull => 5,
            Refusal::LeavesFull => 6,
            Refusal::VerticesFull => 7,
            Refusal::StoreFull => 8,
            Refusal::Stride => 9,
            Refusal::ImageRows => 10,
            Refusal::ImageBroken => 11,
            Refusal::Line => 12,
            Refusal::Field { .. } => 13,
            Refusal::AnswerRow => 14,
        }
    }

    pub fn word(self) -> &'static str
        ensures { result.now ≡ word_of self }
    {
        match self {
            Refusal::Length => "length",
            Refusal::HostBits => "host bits",
            Refusal::Hop => "hop",
            Refusal::Unknown => "unknown",
            Refusal::RoutesFull => "routes full",
            Refusal::LeavesFull => "leaves full",
            Refusal::VerticesFull => "vertices full",
            Refusal::StoreFull => "store full",
            Refusal::Stride => "stride",
            Refusal::ImageRows => "image rows",
            Refusal::ImageBroken => "image broken",
            Refusal::Line => "line",
            Refusal::Field { .. } => "field",
            Refusal::AnswerRow => "answer row",
        }
    }
}

// It is printed as its word.
impl fmt::Display for Refusal {
    ghost output = { λ r. Some (word_of r) };

    fn fmt<W: fmt::Write>(&self, f: &mut fmt::Formatter<W>) -> fmt::Result {
        f.write_str(self.word())
    }
}

impl Error for Refusal {}
