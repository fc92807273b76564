// A region of a book.
ghost use Rattle.std.specs.Prelude.{◌≡◌};
ghost use Rattle.stream.specs.Lists.{around};
ghost use Rattle.stream.specs.Regions.{region_of};

use tree::Element;

// Where an element stands in the book's text, and how many elements are around it.
#[derive(Clone, Copy, Debug, PartialEq, Eq)]
pub struct Region {
    pub start: u32,
    pub end: u32,
    pub level: u32,
}

impl Region {
    // Whether it starts before s and ends beyond it.
    pub(crate) fn is_around(self, s: u32) -> bool
        ensures { result ≡ around s self }
    {
        self.start < s && s < self.end
    }
}

impl From<Element> for Region {
    ghost from_gives = { λ e r. r ≡ region_of e };

    fn from(e: Element) -> Region {
        Region {
            start: e.start,
            end: e.end,
            level: u32::from(e.level),
        }
    }
}
