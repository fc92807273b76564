// A stream set over a book in memory.
ghost use Rattle.std.specs.Prelude.{◌≡◌, ℕ, ◌<◌, length, map, is_some, IfSome, Decides, slice_index_or};
ghost use Rattle.tree.specs.Region.{LawfulBook};
ghost use Rattle.stream.specs.Sets.{region_of};
ghost use Rattle.test_sets.specs.Members.{regions, EachFits, IsFirst, lists_of, lists_from};
ghost use Rattle.test_sets.specs.Laws.{listed_laws};

use crate::member::{Member, fits};
use stream::{POSITIONS, Region, SkippingSet, StreamSet};
use tree::limits::MOST_ELEMENTS;

// The members of a lawful book. For each position `heads` has a number, and the list there goes on from the member with this number.
#[derive(Clone, Copy)]
pub struct Listed<'b> {
    members: &'b [Member],
    heads: [usize; POSITIONS],
    ghost lawful: { EachFits members.now },
}

impl<'b> Listed<'b> {
    // The set whose lists have the regions of these members, if they are a lawful book.
    pub fn new(members: &'b [Member]) -> Option<Self>
        ensures lawful { Decides (is_some result) (LawfulBook (map region_of (regions members.now))) }
        ensures book { IfSome result (λ s. ⟦<Listed<'b> as StreamSet>⟧.book s ≡ regions members.now) }
        ensures lists { IfSome result (λ s. ⟦<Listed<'b> as StreamSet>⟧.lists s ≡ lists_of members.now) }
    {
        if members.is_empty() || members.len() > MOST_ELEMENTS {
            return None;
        }
        for k in 0..members.len() {
            if !fits(members, k) {
                return None;
            }
        }
        Some(Listed {
            members,
            heads: [0; POSITIONS],
        })
    }

    // The number of the first member that is left of list i.
    fn first(&self, i: usize) -> Option<usize>
        ensures { IsFirst self.now.members.now self.now.heads i result }
    {
        let from = self.heads.get(i).copied()?;
        for k in from..self.members.len() {
            if self.members[k].is_in(i) {
                return Some(k);
            }
        }
        None
    }
}

impl<'b> StreamSet for Listed<'b> {
    ghost book = { λ s. regions s.members.now };

    ghost lists = { λ s. lists_from s.members.now s.heads };

    ghost laws = { listed_laws (λ s. s.members.now) (λ s. s.heads) (λ s. s.lawful) };

    fn tell(&mut self, i: usize) -> Option<Region> {
        let k = self.first(i)?;
        Some(self.members[k].region)
    }

    fn advance(&mut self, i: usize) {
        if let Some(taken) = self.first(i) {
            self.heads[i] = taken + 1;
        }
    }
}

impl<'b> SkippingSet for Listed<'b> {}
