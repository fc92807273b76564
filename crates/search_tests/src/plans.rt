// All twigs of up to five nodes, made without the reader of pattern texts.
use pattern::{Edge, Mark, Twig};
use std::alloc::{AllocError, Global};
use std::process::Abort;
use std::test::Fail;

pub(crate) const MOST_NODES: usize = 5;

// A node: how many nodes are above it, the number of its parent, and the edge to it. The root is its own parent.
#[derive(Clone, Copy, Debug, PartialEq, Eq, Drop)]
pub(crate) struct Node {
    pub(crate) depth: usize,
    pub(crate) parent: usize,
    pub(crate) edge: Edge,
}

// A twig: the mark of its root, and its nodes in the order of their names in the text.
#[derive(Drop)]
pub(crate) struct Plan {
    pub(crate) mark: Mark,
    pub(crate) nodes: Vec<Node>,
}

// Plans have numbers below this. Not every number has a plan.
pub(crate) const NUMBERS: usize = 2 * 5 * 16 * 24;

impl Plan {
    // Plan number k: its mark, how many nodes it has, their edges and their depths.
    pub(crate) fn numbered(heap: Global, k: usize) -> Result<Option<Self>, AllocError> {
        let mark = if k % 2 == 0 { Mark::Any } else { Mark::Top };
        let len = k / 2 % 5 + 1;
        let mut edges = k / 10 % 16;
        let mut depths = k / 160;
        let mut nodes = Vec::new(heap);
        let mut last = 0;
        nodes.push(Node {
            depth: 0,
            parent: 0,
            edge: Edge::Descendant,
        })?;
        for c in 1..len {
            let depth = depths % c;
            // The parent is the last node so far with this depth.
            let Some(parent) = nodes.iter().rposition(|node: &Node| node.depth == depth) else {
                return Ok(None);
            };
            if depth > last {
                return Ok(None);
            }
            let edge = if edges % 2 == 0 {
                Edge::Descendant
            } else {
                Edge::Child
            };
            last = depth.wrapping_add(1);
            nodes.push(Node {
                depth: last,
                parent,
                edge,
            })?;
            depths /= c;
            edges /= 2;
        }
        // Each plan has one number: what is not needed is 0.
        if depths > 0 || edges > 0 {
            return Ok(None);
        }
        Ok(Some(Plan { mark, nodes }))
    }

    // A text of the plan, with each child in brackets. All names are the same.
    fn text(&self, heap: Global) -> Result<Vec<u8>, AllocError> {
        let mut text = Vec::new(heap);
        let lead: &[u8] = match self.mark {
            Mark::Any => b"//a",
            Mark::Top => b"/a",
        };
        text.extend_from_slice(lead)?;
        let mut open = 0usize;
        for node in self.nodes.iter().skip(1) {
            for _ in node.depth..open.wrapping_add(1) {
                text.push(b']')?;
            }
            let edge: &[u8] = match node.edge {
                Edge::Child => b"[a",
                Edge::Descendant => b"[.//a",
            };
            text.extend_from_slice(edge)?;
            open = node.depth;
        }
        for _ in 0..open {
            text.push(b']')?;
        }
        Ok(text)
    }

    // The twig, as the reader reads it.
    pub(crate) fn twig(&self, rt: &impl Abort, heap: Global) -> Result<Twig, Fail> {
        let mut twig = Twig::new();
        twig.read(self.text(heap)?.as_slice())?;
        assert!(rt; twig.mark() == self.mark);
        assert_eq!(rt; twig.len(), self.nodes.len());
        for (c, node) in self.nodes.iter().enumerate().skip(1) {
            assert_eq!(rt; twig.parent(c), Some(node.parent));
            assert_eq!(rt; twig.edge(c), Some(node.edge));
        }
        Ok(twig)
    }
}

#[test]
fn all_plans(rt: HostRuntime) -> Result<(), Fail> {
    let mut count = 0usize;
    for k in 0..NUMBERS {
        if let Some(plan) = Plan::numbered(rt.alloc(), k)? {
            plan.twig(&rt, rt.alloc())?;
            count = count.wrapping_add(1);
        }
    }
    // Of trees with 1 to 5 nodes whose children are in order there are 1, 1, 2, 5 and 14.
    assert_eq!(rt; count, 2 * (1 + 2 + 2 * 4 + 5 * 8 + 14 * 16));
    Ok(())
}
