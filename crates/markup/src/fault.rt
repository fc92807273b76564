// Why an input or a call is refused, and where.
ghost use Rattle.std.specs.Prelude.{◌≡◌, ◌++◌, Some, codes, decimal};
ghost use Rattle.markup.specs.Faults.{fault};
ghost use Rattle.markup.specs.Number.{number_of};
ghost use Rattle.markup.specs.declared.fault.Error.TheVariants.{Refused, Memory};

use std::alloc::AllocError;
use std::{alloc, fmt};

// The refusals of the whole product, each with the number that it is reported under. `docs/REFUSALS.md` says when each
// comes, and at which place.
#[derive(Clone, Copy, Debug, PartialEq, Eq)]
pub enum Refusal {
    // Book texts.
    BookTooLong = 1,
    Stray = 2,
    WrongEndTag = 3,
    Unclosed = 4,
    TopElement = 5,
    TooDeep = 6,
    TooMany = 7,
    BookNameTooLong = 8,
    // Sheets.
    SheetWontFit = 9,
    SheetLength = 10,
    HeaderField = 11,
    ElementRecord = 12,
    NameRecord = 13,
    // Patterns.
    PatternTooLong = 14,
    Misfit = 15,
    TooManySteps = 16,
    PatternNameTooLong = 17,
    SpellingWontFit = 18,
    // Searches.
    FewRows = 19,
    Gathered = 20,
    Ungathered = 21,
    NoPlace = 22,
    ListedOut = 23,
    // The finder program.
    InputTooLong = 24,
}

impl Refusal {
    // The number that a refusal is reported under. A method by name: `u8::from(refusal)` is no plainer.
    pub fn number(self) -> u8
        ensures { result ≡ number_of self }
    {
        self as u8
    }

    // The refusal at its place.
    pub fn at(self, place: usize) -> Fault
        ensures { result ≡ fault self place }
    {
        Fault {
            refusal: self,
            place,
        }
    }
}

// A refusal with its place: a byte offset from 0, or the number that the rule of the refusal names.
#[derive(Clone, Copy, Debug, PartialEq, Eq)]
pub struct Fault {
    pub refusal: Refusal,
    pub place: usize,
}

// As the programs print it: `refused 3 at 6`.
impl fmt::Display for Fault {
    ghost output = { λ f. Some (codes "refused " ++ decimal (number_of f.refusal) ++ codes " at " ++ decimal f.place) };

    fn fmt<W: fmt::Write>(&self, f: &mut fmt::Formatter<W>) -> fmt::Result {
        let number = self.refusal.number();
        let place = self.place;
        write!(f, "refused {number} at {place}")
    }
}

// What ends a call that allocates: a refusal, or want of memory, which has no number and no place.
#[derive(Clone, Copy, Debug, PartialEq, Eq)]
pub enum Error {
    Refused(Fault),
    Memory,
}

// The conversions for `?` are written out, since a derived one does not say in a contract what it gives.
impl From<Fault> for Error {
    ghost from_gives = { λ f r. r ≡ Refused f };

    fn from(f: Fault) -> Error {
        Error::Refused(f)
    }
}

// One for each of std's two errors of want of memory: `From` goes by type.
impl From<AllocError> for Error {
    ghost from_gives = { λ _ r. r ≡ Memory };

    fn from(_e: AllocError) -> Error {
        Error::Memory
    }
}

impl<T: Drop> From<alloc::AllocFailed<T>> for Error {
    ghost from_gives = { λ _ r. r ≡ Memory };

    fn from(_e: alloc::AllocFailed<T>) -> Error {
        Error::Memory
    }
}
