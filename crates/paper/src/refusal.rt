// Why a call is refused. Document 01 and the requests number the refusals, and tell beside each number a place: the first row, entry, byte or
// pair at fault, and 0 where the refusal has none.
ghost use Rattle.std.specs.Prelude.{◌≡◌};
ghost use Rattle.paper.specs.Refusals.{refusal_number, refusal_place};

use std::error::Error;
use std::fmt;

#[derive(Clone, Copy, Debug, PartialEq, Eq)]
pub enum Refusal {
    TooManyRows, // 1
    HalfRow, // 2
    BadRow(usize), // 3
    TooManyTypes(usize), // 4: the first row of the 65th type
    NoShape, // 5: no entry, more than 16, or half of one
    BadEntry(usize), // 6
    TypeMissing(usize), // 7: the first entry whose type has no row
    TooManyLines, // 8
    TooFewSummaries, // 10
    NoSuchRow(usize), // 11
    NoTree(usize), // 12: the byte at which the text stops being a tree
    NoOneType(usize), // 13: the first entry whose name matches no type, or several
    IndexTooShort, // 14
    WrongIndex(usize), // 15: the first row at which a list is not this table's
    NoSuchEntry, // 16
    ValueOutOfRange(usize), // 17
    NoTotal, // 18
    TooDeep(usize), // 24: the first row or entry with more levels than the other width has
    BadPair(usize), // 25
    Unlisted(usize), // 26: the first row, else the first entry, with a label above 99 that is in no pair
    NoRoom, // 29
}

impl Refusal {
    // Its number in the documents.
    pub fn number(self) -> usize
        ensures { result ≡ refusal_number self }
    {
        match self {
            Refusal::TooManyRows => 1,
            Refusal::HalfRow => 2,
            Refusal::BadRow(_) => 3,
            Refusal::TooManyTypes(_) => 4,
            Refusal::NoShape => 5,
            Refusal::BadEntry(_) => 6,
            Refusal::TypeMissing(_) => 7,
            Refusal::TooManyLines => 8,
            Refusal::TooFewSummaries => 10,
            Refusal::NoSuchRow(_) => 11,
            Refusal::NoTree(_) => 12,
            Refusal::NoOneType(_) => 13,
            Refusal::IndexTooShort => 14,
            Refusal::WrongIndex(_) => 15,
            Refusal::NoSuchEntry => 16,
            Refusal::ValueOutOfRange(_) => 17,
            Refusal::NoTotal => 18,
            Refusal::TooDeep(_) => 24,
            Refusal::BadPair(_) => 25,
            Refusal::Unlisted(_) => 26,
            Refusal::NoRoom => 29,
        }
    }

    // The place that it names.
    pub fn place(self) -> usize
        ensures { result ≡ refusal_place self }
    {
        match self {
            Refusal::BadRow(at)
            | Refusal::TooManyTypes(at)
            | Refusal::BadEntry(at)
            | Refusal::TypeMissing(at)
            | Refusal::NoSuchRow(at)
            | Refusal::NoTree(at)
            | Refusal::NoOneType(at)
            | Refusal::WrongIndex(at)
            | Refusal::ValueOutOfRange(at)
            | Refusal::TooDeep(at)
            | Refusal::BadPair(at)
            | Refusal::Unlisted(at) => at,
            _ => 0,
        }
    }
}

impl fmt::Display for Refusal {
    fn fmt<W: fmt::Write>(&self, f: &mut fmt::Formatter<W>) -> fmt::Result {
        write!(f, "refused {} {}", self.number(), self.place())
    }
}

impl Error for Refusal {}
