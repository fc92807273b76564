// The nodes of a twig.
ghost use Rattle.std.specs.Prelude.{◌≡◌, ◌≤◌, length, take};
ghost use Rattle.pattern.specs.Nodes.{Hung, Hung-prop};

use super::name::Name;
use super::node::Node;

// The most nodes that a twig has.
const MOST_NODES: usize = 16;

// The first `len` nodes of the table, in the order of their names in the text.
// Not an `ArrayVec`, which is not `Copy`, as a twig is; and not one type with `Name`, since a generic struct may hold no array of a type parameter.
#[derive(Clone, Copy)]
pub(crate) struct Nodes {
    table: [Node; MOST_NODES],
    len: usize,
    ghost few: { len ≤ 16 },
    ghost room: { length table ≡ 16 },
    ghost hung: { Hung (take len table) } by { Hung-prop _ },
}

impl Nodes {
    ghost use Rattle.std.specs.Prelude.{◌<◌, [], ◌∷◌, ◌++◌, nat_le, None};
    ghost use Rattle.pattern.specs.Nodes.{Hangs};
    ghost use Rattle.pattern.specs.Table.{items};

    // No node.
    pub(crate) fn new() -> Nodes
        ensures { items result ≡ [] }
    {
        // Fills the unused places.
        let blank = Node {
            name: Name::new(b"a"),
            hook: None,
        };
        Nodes {
            table: [blank; MOST_NODES],
            len: 0,
        }
    }

    // The root alone.
    pub(crate) fn root(name: Name) -> Nodes
        ensures { items result ≡ record { name = name; hook = None } ∷ [] }
    {
        // Fills the unused places too.
        let root = Node { name, hook: None };
        Nodes {
            table: [root; MOST_NODES],
            len: 1,
        }
    }

    // Whether there is no room for a further node.
    pub(crate) fn is_full(&self) -> bool
        ensures { result ≡ nat_le 16 (length (items self.now)) }
    {
        self.len >= MOST_NODES
    }

    // One node more; its number. That its hook is one of these is asked, being a fact of the two together.
    #[tactic(auto, using(crate::proofs::Hooks::hung_more))]
    pub(crate) fn push(&mut self, node: Node) -> usize
        requires room { length (items self.old) < 16 }
        requires hung { Hangs node.hook (items self.old) }
        ensures items { items self.new ≡ items self.old ++ node ∷ [] }
        ensures number { result ≡ length (items self.old) }
    {
        let number = self.len;
        self.table[number] = node;
        self.len = number + 1;
        number
    }

    // The nodes by their numbers.
    pub(crate) fn as_slice(&self) -> &[Node]
        ensures value { result.now ≡ items self.now }
        ensures few { length result.now ≤ 16 }
        ensures hung { Hung (items self.now) }
    {
        &self.table[..self.len]
    }
}
