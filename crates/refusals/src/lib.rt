// What can be refused, each refusal by its name; its number is the one of the headers (RULES R3, N13, J12).
#![tactic(auto)]

ghost use Rattle.std.specs.Prelude.{◌≡◌};
ghost use Rattle.refusals.specs.Numbers.{number_of};

use std::error::Error;
use std::fmt;

// A refusal, in the order of the numbers, from 1 on.
#[derive(Clone, Copy, Debug, PartialEq, Eq, Hash)]
pub enum Refusal {
    // the text is longer than its limit
    TextTooLong,
    // the line words have no room for all lines
    LinesFull,
    NestedTooDeep,
    TooManySections,
    HeadingTooLong,
    EventsFull,
    // a fault of the parser: it is proved never to come
    Fault,
    BytesFull,
    CutShort,
    NotListed,
    OutOfRange,
    BadNesting,
    ElementsFull,
    NotASet,
    // the events given with a text are not those of its parse
    Stray,
}

// What was refused, and where.
#[derive(Clone, Copy, Debug, PartialEq, Eq)]
pub struct Refused {
    pub why: Refusal,
    pub at: u64,
}

impl From<Refusal> for u64 {
    ghost from_gives = { λ x n. n ≡ number_of x };

    fn from(x: Refusal) -> u64 {
        match x {
            Refusal::TextTooLong => 1,
            Refusal::LinesFull => 2,
            Refusal::NestedTooDeep => 3,
            Refusal::TooManySections => 4,
            Refusal::HeadingTooLong => 5,
            Refusal::EventsFull => 6,
            Refusal::Fault => 7,
            Refusal::BytesFull => 8,
            Refusal::CutShort => 9,
            Refusal::NotListed => 10,
            Refusal::OutOfRange => 11,
            Refusal::BadNesting => 12,
            Refusal::ElementsFull => 13,
            Refusal::NotASet => 14,
            Refusal::Stray => 15,
        }
    }
}

impl fmt::Display for Refusal {
    fn fmt<W: fmt::Write>(&self, f: &mut fmt::Formatter<W>) -> fmt::Result {
        f.write_str(match self {
            Refusal::TextTooLong => "the text is too long",
            Refusal::LinesFull => "the line words are full",
            Refusal::NestedTooDeep => "containers are nested too deep",
            Refusal::TooManySections => "too many sections would be open",
            Refusal::HeadingTooLong => "a heading has too many marks",
            Refusal::EventsFull => "the event words are full",
            Refusal::Fault => "a fault of the parser",
            Refusal::BytesFull => "the bytes lent are full",
            Refusal::CutShort => "events or records are cut short",
            Refusal::NotListed => "an event or a record is of no listed kind",
            Refusal::OutOfRange => "a field is out of its range",
            Refusal::BadNesting => "events are badly nested",
            Refusal::ElementsFull => "elements or pieces are full",
            Refusal::NotASet => "the bytes are no set of attributes",
            Refusal::Stray => "an event is not the next one of its text",
        })
    }
}

impl fmt::Display for Refused {
    fn fmt<W: fmt::Write>(&self, f: &mut fmt::Formatter<W>) -> fmt::Result {
        write!(f, "{}, at {}", self.why, self.at)
    }
}

impl Error for Refused {}
