// Questions about a node of a twig. Each takes any number.
ghost use Rattle.std.specs.Slice.{IsItemAt};
ghost use Rattle.pattern.specs.Nodes.{Hung};
ghost use Rattle.pattern.specs.Table.{items};
ghost use Rattle.pattern.specs.Twig.{shape_of, NameOf, ParentOf, EdgeOf, NextChild};

use super::node::{Edge, Node};
use super::twig::Twig;

impl Twig {
    // Node i; none past the last node.
    fn node(&self, i: usize) -> Option<&Node>
        ensures item { IsItemAt (items self.now.nodes) i result }
        ensures hung { Hung (items self.now.nodes) }
    {
        self.nodes.as_slice().get(i)
    }

    // The name of node i; none past the last node.
    pub fn name(&self, i: usize) -> Option<&[u8]>
        ensures { NameOf (shape_of self.now).nodes i result }
    {
        Some(self.node(i)?.name.as_bytes())
    }

    // The parent of node i, which has a lower number; none for the root and past the last node.
    pub fn parent(&self, i: usize) -> Option<usize>
        ensures { ParentOf (shape_of self.now).nodes i result }
    {
        Some(self.node(i)?.hook?.parent)
    }

    // The edge from node i to its parent; none for the root and past the last node.
    pub fn edge(&self, i: usize) -> Option<Edge>
        ensures { EdgeOf (shape_of self.now).nodes i result }
    {
        Some(self.node(i)?.hook?.edge)
    }

    // The first child of node i with a number above `after`, by either edge. With `after` first i and then each answer, this goes over
    // all of its children. A node's children follow it, and the first that follows and hangs on a node before it ends them.
    pub fn next_child(&self, i: usize, after: usize) -> Option<usize>
        ensures { NextChild (shape_of self.now).nodes i after result }
    {
        for c in after.max(i).saturating_add(1)..self.len() {
            let parent = self.parent(c)?;
            if parent == i {
                return Some(c);
            }
            if parent < i {
                return None;
            }
        }
        None
    }
}
