// The rules of the two layers.
ghost use Rattle.std.specs.Prelude.{◌≡◌};
ghost use Rattle.stream.specs.Rules.{in_range, within, inside};

use crate::layer::{Keep, Narrowed};
use crate::region::Region;
use crate::set::POSITIONS;

// From the lowest level to the highest. Where the lowest is above the highest, no level is between them.
#[derive(Clone, Copy, Drop)]
pub struct LevelRange {
    pub lowest: u32,
    pub highest: u32,
}

impl LevelRange {
    // Whether the level is between the lowest and the highest, or one of them.
    pub fn contains(self, level: u32) -> bool
        ensures { result ≡ in_range self level }
    {
        (self.lowest..=self.highest).contains(&level)
    }
}

// At each position the levels that are kept.
#[derive(Clone, Copy, Drop)]
pub struct Levels {
    pub ranges: [LevelRange; POSITIONS],
}

impl Keep for Levels {
    ghost keeps = { within };

    fn keep(&self, i: usize, r: Region) -> bool {
        self.ranges
            .get(i)
            .is_some_and(|range| range.contains(r.level))
    }
}

// From `start` on, and ending before `end`.
#[derive(Clone, Copy, Drop)]
pub struct Span {
    pub start: u32,
    pub end: u32,
}

impl Keep for Span {
    ghost keeps = { λ w _ r. inside w r };

    fn keep(&self, _i: usize, r: Region) -> bool {
        self.start <= r.start && r.end < self.end
    }
}

// A layer that keeps the regions within its levels.
pub type Band<S> = Narrowed<S, Levels>;

// A layer that keeps the regions inside its span.
pub type Window<S> = Narrowed<S, Span>;
