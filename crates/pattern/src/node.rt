// The parts of a twig.
use super::name::Name;

// How a node hangs on its parent: as a child, or anywhere below it.
#[derive(Clone, Copy, Debug, PartialEq, Eq)]
pub enum Edge {
    Child,
    Descendant,
}

// Where the root may stand: at the top of the book only, or anywhere.
#[derive(Clone, Copy, Debug, PartialEq, Eq)]
pub enum Mark {
    Top,
    Any,
}

// What a node hangs on: the number of its parent, and the edge to it.
#[derive(Clone, Copy)]
pub(crate) struct Hook {
    pub(crate) parent: usize,
    pub(crate) edge: Edge,
}

// A node. The root hangs on nothing.
#[derive(Clone, Copy)]
pub(crate) struct Node {
    pub(crate) name: Name,
    pub(crate) hook: Option<Hook>,
}
