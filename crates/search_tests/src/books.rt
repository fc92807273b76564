// Books for tests: from texts, and at random.
use std::alloc::{AllocError, Global};
use std::array;
use stream::{POSITIONS, Region};
use test_sets::Member;

// Pseudo-random numbers.
#[derive(Clone, Copy, Drop)]
pub(crate) struct Random {
    state: u64,
}

impl Random {
    pub(crate) fn new(seed: u64) -> Self {
        Random { state: seed }
    }

    // A number below n, and 0 if n is 0.
    pub(crate) fn below(&mut self, n: usize) -> usize {
        self.state = self
            .state
            .wrapping_mul(6_364_136_223_846_793_005)
            .wrapping_add(1_442_695_040_888_963_407);
        let high = (self.state >> 33) as usize;
        high.checked_rem(n).unwrap_or(0)
    }
}

// A book that is built from its tags, in their order.
#[derive(Drop)]
pub(crate) struct Builder {
    members: Vec<Member>,
    // The numbers of the open regions, outermost first.
    open: Vec<usize>,
    // Where the next tag stands.
    at: u32,
}

impl Builder {
    pub(crate) fn new(heap: Global) -> Self {
        Builder {
            members: Vec::new(heap),
            open: Vec::new(heap),
            at: 0,
        }
    }

    pub(crate) fn depth(&self) -> usize {
        self.open.len()
    }

    // Opens a region that is in these lists.
    pub(crate) fn open(&mut self, lists: [bool; POSITIONS]) -> Result<(), AllocError> {
        let region = Region {
            start: self.at,
            end: self.at,
            level: u32::try_from(self.open.len()).unwrap_or(u32::MAX),
        };
        self.open.push(self.members.len())?;
        self.members.push(Member { region, lists })?;
        self.step(1);
        Ok(())
    }

    // Closes the innermost open region.
    pub(crate) fn close(&mut self) {
        if let Some(k) = self.open.pop()
            && let Some(member) = self.members.get_mut(k)
        {
            member.region.end = self.at;
        }
        self.step(1);
    }

    // Leaves out this many places.
    pub(crate) fn step(&mut self, places: u32) {
        self.at = self.at.wrapping_add(places);
    }

    // The book, once all regions are closed.
    pub(crate) fn finish(mut self) -> Vec<Member> {
        for _ in 0..self.open.len() {
            self.close();
        }
        self.members
    }
}

// A book from a text: a letter opens a region with this name, and `)` closes the innermost. Numbers are places in the text. A region is
// in list i if its name is byte i of `names`.
pub(crate) fn book_of(heap: Global, text: &[u8], names: &[u8]) -> Result<Vec<Member>, AllocError> {
    let mut builder = Builder::new(heap);
    for b in text {
        if *b == b')' {
            builder.close();
        } else {
            builder.open(array::from_fn(|i| names.get(i) == Some(b)))?;
        }
    }
    Ok(builder.finish())
}

// A book of n regions at random. Each is in each list with a chance of `part` in 4. Before each, fewer than `closed` regions are closed,
// so with a small number the book is deep.
pub(crate) fn random_book(
    heap: Global,
    random: &mut Random,
    n: usize,
    part: usize,
    closed: usize,
) -> Result<Vec<Member>, AllocError> {
    let mut builder = Builder::new(heap);
    for _ in 0..n {
        // The first stays open.
        for _ in 0..random.below(builder.depth().min(closed)) {
            builder.close();
        }
        if random.below(2) == 1 {
            builder.step(1);
        }
        let mut lists = [false; POSITIONS];
        for is_in in lists.iter_mut() {
            *is_in = random.below(4) < part;
        }
        builder.open(lists)?;
    }
    Ok(builder.finish())
}
