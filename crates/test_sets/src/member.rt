// The regions of a book, with the lists that each is in.
ghost use Rattle.std.specs.Prelude.{◌≡◌, ◌<◌, length, MatchBool};
ghost use Rattle.tree.specs.Region.{Fits};
ghost use Rattle.stream.specs.Sets.{region_of};
ghost use Rattle.test_sets.specs.Members.{is_in, region_at};

use stream::{POSITIONS, Region};
use tree::limits::{LAST_END, MOST_LEVELS};

// A region, and at which positions it is in the list.
#[derive(Clone, Copy, Debug, PartialEq, Eq)]
pub struct Member {
    pub region: Region,
    pub lists: [bool; POSITIONS],
}

impl Member {
    // Whether it is in list i.
    pub fn is_in(&self, i: usize) -> bool
        ensures { result ≡ is_in i self.now }
    {
        self.lists.get(i).copied().unwrap_or(false)
    }
}

// Region k.
fn region(members: &[Member], k: usize) -> Region
    requires { k < length members.now }
    ensures { region_of result ≡ region_at members.now k }
{
    members[k].region
}

// Whether region k is right with those before it.
pub(crate) fn fits(members: &[Member], k: usize) -> bool
    requires { k < length members.now }
    ensures { MatchBool result (Fits (region_at members.now) k) (Fits (region_at members.now) k → ⊥) }
{
    let r = region(members, k);
    if r.start >= r.end || r.end > LAST_END || r.level as usize >= MOST_LEVELS {
        return false;
    }
    let first = region(members, 0);
    if k > 0 && (first.start >= r.start || first.end <= r.end) {
        return false;
    }
    let mut around = 0;
    // By numbers, as the law is.
    for j in 0..k {
        let earlier = region(members, j);
        if earlier.start >= r.start || (r.start <= earlier.end && earlier.end <= r.end) {
            return false;
        }
        if r.end < earlier.end {
            around += 1;
        }
    }
    around == r.level as usize
}
