// What can be done with any skipping set.
ghost use Rattle.std.specs.Prelude.{◌≡◌, [], length};
ghost use Rattle.stream.specs.Lists.{update};

use crate::set::{SkippingSet, StreamSet};

// How many regions list i has; they are taken away.
pub fn count<S: SkippingSet>(set: &mut S, i: usize) -> usize
    ensures count { result ≡ length (S.StreamSet.lists set.old i) }
    ensures empty { S.StreamSet.lists set.new ≡ update i (λ _. []) (S.StreamSet.lists set.old) }
    ensures book { S.StreamSet.book set.new ≡ S.StreamSet.book set.old }
{
    // Counted by hand: an iterator's `count` asks that it is known to end, and nothing says so of one by `iter::from_fn`.
    let mut n = 0;
    while set.tell(i).is_some() {
        set.advance(i);
        n += 1;
    }
    n
}
