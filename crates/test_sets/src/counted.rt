// A skipping set that counts the calls on it.
ghost use Rattle.std.specs.Prelude.{◌≡◌};
ghost use Rattle.stream.specs.Lists.{update, first, rest, drop_until, first_passes, past, around, halts};
ghost use Rattle.test_sets.specs.Counting.{one_more};
ghost use Rattle.test_sets.specs.Laws.{same_laws};

use stream::{Region, SkippingSet, StreamSet};

// The set below, and how many calls were passed on to it.
#[derive(Drop)]
pub struct Counted<S> {
    pub below: S,
    pub calls: usize,
}

impl<S: StreamSet> Counted<S> {
    // The set with no calls so far.
    pub fn new(below: S) -> Self
        ensures below { result.below ≡ below }
        ensures calls { result.calls ≡ 0 }
    {
        Counted { below, calls: 0 }
    }

    // One more call.
    fn count(&mut self)
        ensures below { self.new.below ≡ self.old.below }
        ensures calls { self.new.calls ≡ one_more self.old.calls }
    {
        self.calls = self.calls.saturating_add(1);
    }
}

impl<S: StreamSet> StreamSet for Counted<S> {
    ghost book = { λ c. S.StreamSet.book c.below };

    ghost lists = { λ c. S.StreamSet.lists c.below };

    ghost laws = { same_laws S.StreamSet.book S.StreamSet.lists (λ c. c.below) S.StreamSet.laws };

    fn tell(&mut self, i: usize) -> Option<Region>
        ensures told { result ≡ first (S.StreamSet.lists self.old.below i) }
        ensures same { S.StreamSet.lists self.new.below ≡ S.StreamSet.lists self.old.below }
        ensures book { S.StreamSet.book self.new.below ≡ S.StreamSet.book self.old.below }
        ensures calls { self.new.calls ≡ one_more self.old.calls }
    {
        self.count();
        self.below.tell(i)
    }

    fn advance(&mut self, i: usize)
        ensures less { S.StreamSet.lists self.new.below ≡ update i rest (S.StreamSet.lists self.old.below) }
        ensures book { S.StreamSet.book self.new.below ≡ S.StreamSet.book self.old.below }
        ensures calls { self.new.calls ≡ one_more self.old.calls }
    {
        self.count();
        self.below.advance(i);
    }
}

impl<S: SkippingSet> SkippingSet for Counted<S> {
    fn skip_beyond(&mut self, i: usize, s: u32)
        ensures less { S.StreamSet.lists self.new.below ≡ update i (drop_until (past s)) (S.StreamSet.lists self.old.below) }
        ensures book { S.StreamSet.book self.new.below ≡ S.StreamSet.book self.old.below }
        ensures calls { self.new.calls ≡ one_more self.old.calls }
    {
        self.count();
        self.below.skip_beyond(i, s);
    }

    fn skip_to_ancestor(&mut self, i: usize, s: u32) -> bool
        ensures told { result ≡ first_passes (around s) (drop_until (halts s) (S.StreamSet.lists self.old.below i)) }
        ensures less { S.StreamSet.lists self.new.below ≡ update i (drop_until (halts s)) (S.StreamSet.lists self.old.below) }
        ensures book { S.StreamSet.book self.new.below ≡ S.StreamSet.book self.old.below }
        ensures calls { self.new.calls ≡ one_more self.old.calls }
    {
        self.count();
        self.below.skip_to_ancestor(i, s)
    }
}
