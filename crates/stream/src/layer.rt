// Layers: a skipping set, narrowed to the regions that a rule keeps.
ghost use Rattle.std.specs.Prelude.{◌≡◌, ℕ, Bool};
ghost use Rattle.stream.specs.declared.region.Region.{Region};
ghost use Rattle.stream.specs.Lists.{first, NoneOrPasses};
ghost use Rattle.stream.specs.Narrowing.{narrowed, narrowed_laws};

use crate::region::Region;
use crate::set::{SkippingSet, StreamSet};

// Which regions a layer keeps at each position.
pub trait Keep {
    ghost keeps: { Self → ℕ → Region → Bool };

    fn keep(&self, i: usize, r: Region) -> bool
        ensures { result ≡ keeps self.now i r };
}

// The set below, with only what the rule keeps.
#[derive(Drop)]
pub struct Narrowed<S, K> {
    pub below: S,
    pub rule: K,
}

impl<S: StreamSet, K: Keep> Narrowed<S, K> {
    // The first region of list i that the rule keeps. Those before it are taken away below.
    fn first_kept(&mut self, i: usize) -> Option<Region>
        ensures told { result ≡ first (S.StreamSet.lists self.new.below i) }
        ensures passes { NoneOrPasses (K.Keep.keeps self.new.rule i) (S.StreamSet.lists self.new.below i) }
        ensures same { narrowed (K.Keep.keeps self.new.rule) (S.StreamSet.lists self.new.below) ≡ narrowed (K.Keep.keeps self.old.rule) (S.StreamSet.lists self.old.below) }
        ensures rule { self.new.rule ≡ self.old.rule }
        ensures book { S.StreamSet.book self.new.below ≡ S.StreamSet.book self.old.below }
    {
        // A loop, since `find` of an iterator would take the region that it finds away.
        while let Some(r) = self.below.tell(i) {
            if self.rule.keep(i, r) {
                return Some(r);
            }
            self.below.advance(i);
        }
        None
    }
}

impl<S: StreamSet, K: Keep> StreamSet for Narrowed<S, K> {
    ghost book = { λ n. S.StreamSet.book n.below };

    ghost lists = { λ n. narrowed (K.Keep.keeps n.rule) (S.StreamSet.lists n.below) };

    ghost laws = { narrowed_laws S.StreamSet.book S.StreamSet.lists (λ n. n.below) (λ n. K.Keep.keeps n.rule) S.StreamSet.laws };

    fn tell(&mut self, i: usize) -> Option<Region> {
        self.first_kept(i)
    }

    fn advance(&mut self, i: usize) {
        self.first_kept(i);
        self.below.advance(i);
    }
}

impl<S: SkippingSet, K: Keep> SkippingSet for Narrowed<S, K> {
    // By rising starts, what is left below starts beyond s, kept or not.
    fn skip_beyond(&mut self, i: usize, s: u32) {
        self.below.skip_beyond(i, s);
    }

    fn skip_to_ancestor(&mut self, i: usize, s: u32) -> bool {
        while self.below.skip_to_ancestor(i, s) {
            if self.below.tell(i).is_some_and(|r| self.rule.keep(i, r)) {
                return true;
            }
            self.below.advance(i);
        }
        false
    }
}
