// A place in a pattern text, and what is read there byte by byte.
ghost use Rattle.std.specs.Prelude.{◌≡◌, Ok};
ghost use Rattle.pattern.specs.Reading.{bracket, slash};
ghost use Rattle.pattern.specs.Moves.{begins_name, Accepted, Passed, Opened, Led, Edged, Named, Ended};

use super::name::Name;
use super::node::{Edge, Mark};
use markup::scan::NameBytes;
use markup::{Fault, Refusal, name, scan};
use std::marker::Model;

// The most brackets that are open at once.
const MOST_BRACKETS: usize = 8;

// What is left of a text, and the place of its first byte.
#[derive(Drop)]
pub(crate) struct Cursor<'a> {
    rest: &'a [u8],
    place: usize,
}

impl<'a> Model for Cursor<'a> {
    ghost use Rattle.std.specs.Prelude.{◌+◌, ◌<◌, ◌^◌, length};
    ghost use Rattle.pattern.specs.Spot.{Spot};

    ghost Value = { Spot };

    ghost view = { λ a. record { place = a.place; rest = a.rest.now } };

    ghost invariant = { λ a. a.place + length a.rest.now < 2 ^ 63 };
}

impl<'a> Cursor<'a> {
    // At the start of the text.
    pub(crate) fn new(text: &'a [u8]) -> Cursor<'a>
        ensures rest { result.rest ≡ text.now }
        ensures place { result.place ≡ 0 }
    {
        Cursor {
            rest: text,
            place: 0,
        }
    }

    // Passes over `b` if it comes next; whether it does.
    pub(crate) fn accept(&mut self, b: u8) -> bool
        ensures { Accepted b self.old self.new result }
    {
        match self.rest.split_first() {
            Some((first, rest)) if *first == b => {
                self.rest = rest;
                self.place += 1;
                true
            }
            _ => false,
        }
    }

    // Passes over `b`.
    pub(crate) fn expect(&mut self, b: u8) -> Result<(), Fault>
        ensures { Passed b self.old self.new result }
    {
        if !self.accept(b) {
            return Err(Refusal::Misfit.at(self.place));
        }
        Ok(())
    }

    // The lead: `/` or `//`.
    pub(crate) fn lead(&mut self) -> Result<Mark, Fault>
        ensures { Led self.old self.new result }
    {
        self.expect(b'/')?;
        if self.accept(b'/') {
            return Ok(Mark::Any);
        }
        Ok(Mark::Top)
    }

    // The edge after a step, behind its first `/`: a second one, or nothing.
    pub(crate) fn edge(&mut self) -> Edge
        ensures { Edged slash self.old self.new (Ok result) }
    {
        if self.accept(b'/') {
            return Edge::Descendant;
        }
        Edge::Child
    }

    // The edge that a branch begins with: `.//`, or nothing for a child.
    pub(crate) fn inner_edge(&mut self) -> Result<Edge, Fault>
        ensures { Edged bracket self.old self.new result }
    {
        if !self.accept(b'.') {
            return Ok(Edge::Child);
        }
        self.expect(b'/')?;
        self.expect(b'/')?;
        Ok(Edge::Descendant)
    }

    // Passes over `[` if it comes next, where `depth` brackets are open; whether it does.
    pub(crate) fn open(&mut self, depth: usize) -> Result<bool, Fault>
        ensures { Opened depth self.old self.new result }
    {
        let place = self.place;
        if !self.accept(b'[') {
            return Ok(false);
        }
        if depth >= MOST_BRACKETS {
            return Err(Refusal::TooManySteps.at(place));
        }
        Ok(true)
    }

    // Whether a name begins here.
    fn begins_name(&self) -> bool
        ensures { result ≡ begins_name self.now.rest }
    {
        self.rest.first().is_some_and(|b| name::starts_name(*b))
    }

    // A name, where there may be no room for one: that is asked here, since a byte that begins no name is refused first. The lexer of
    // books has the like of its own: a call for both could not ask that the place of the 33rd byte fits.
    pub(crate) fn name(&mut self, is_full: bool) -> Result<Name, Fault>
        ensures { Named is_full self.old self.new result }
    {
        if !self.begins_name() {
            return Err(Refusal::Misfit.at(self.place));
        }
        if is_full {
            return Err(Refusal::TooManySteps.at(self.place));
        }
        // Counted within one byte more than a name may have.
        let most = self.rest.len().min(name::MOST_BYTES + 1);
        let len = 1 + scan::run::<NameBytes>(&self.rest[1..most]);
        if len > name::MOST_BYTES {
            return Err(Refusal::PatternNameTooLong.at(self.place + name::MOST_BYTES));
        }
        let (name, rest) = self.rest.split_at(len);
        self.rest = rest;
        self.place += len;
        Ok(Name::new(name))
    }

    // The end of the text, where no edge and no bracket follows.
    pub(crate) fn end(&self) -> Result<(), Fault>
        ensures { Ended self.now result }
    {
        if !self.rest.is_empty() {
            return Err(Refusal::Misfit.at(self.place));
        }
        Ok(())
    }
}
