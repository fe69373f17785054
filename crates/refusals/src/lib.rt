// Refusals: why an operation refuses, each with its number. Assumes nothing.
#![tactic(auto)]

ghost use Rattle.std.specs.Prelude.{◌≡◌};
ghost use Rattle.refusals.specs.Numbers.{number_of, place_of};

use std::fmt;

// Why an operation refuses, in the order of the numbers from 1 to 10.
#[derive(Clone, Copy, Debug, PartialEq, Eq)]
pub enum Refusal {
    // k, or the length of a text to pack or of a word to unpack, is 0 or above 31.
    K,
    // m is 0 or above k.
    M,
    // The key is 4^m or more.
    Key,
    // A word or a k-mer is too large for its length.
    Word,
    // A sequence has more than 65,536 letters.
    Sequence,
    // A byte is no letter; the place of the first such byte.
    Letter { place: u64 },
    // The lent room is smaller than what must be written.
    Room,
    // A page starts above the size.
    Start,
    // The plain counter is asked with k - m above 10.
    Counter,
    // The line of the shelf printer is malformed.
    Line,
}

impl Refusal {
    // The number of a refusal.
    // By hand: document 01 numbers the refusals.
    pub fn number(self) -> u64
        ensures { result ≡ number_of self }
    {
        match self {
            Refusal::K => 1,
            Refusal::M => 2,
            Refusal::Key => 3,
            Refusal::Word => 4,
            Refusal::Sequence => 5,
            Refusal::Letter { place: _ } => 6,
            Refusal::Room => 7,
            Refusal::Start => 8,
            Refusal::Counter => 9,
            Refusal::Line => 10,
        }
    }

    // The place of a bad letter; 0 beside any other refusal.
    // By hand: where document 01 has no place it has a zero.
    pub fn place(self) -> u64
        ensures { result ≡ place_of self }
    {
        match self {
            Refusal::Letter { place } => place,
            _ => 0,
        }
    }
}

// The words of a refusal: its number.
impl fmt::Display for Refusal {
    fn fmt<W: fmt::Write>(&self, f: &mut fmt::Formatter<W>) -> fmt::Result {
        write!(f, "refusal {}", self.number())
    }
}
