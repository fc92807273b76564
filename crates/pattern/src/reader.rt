// The steps and branches of a pattern text. A step holds branches and a branch is made of steps, so `step` and `branch` call each other;
// the bytes left are fewer each time.
ghost use Rattle.std.specs.Prelude.{◌≡◌, [], OnOk};
ghost use Rattle.pattern.specs.Nodes.{Hangs};
ghost use Rattle.pattern.specs.Table.{items};
ghost use Rattle.pattern.specs.Moves.{Next, Stepped};

use super::cursor::Cursor;
use super::node::{Hook, Node};
use super::nodes::Nodes;
use markup::Fault;

// The place in the text, and the nodes so far.
#[derive(Drop)]
pub(crate) struct Reader<'a> {
    pub(crate) cursor: Cursor<'a>,
    pub(crate) nodes: Nodes,
}

impl<'a> Reader<'a> {
    // At the start of the text, with no node.
    pub(crate) fn new(text: &'a [u8]) -> Reader<'a>
        ensures rest { result.cursor.rest ≡ text.now }
        ensures place { result.cursor.place ≡ 0 }
        ensures nodes { items result.nodes ≡ [] }
    {
        Reader {
            cursor: Cursor::new(text),
            nodes: Nodes::new(),
        }
    }

    // A name and its branches; the new node's number.
    #[cycle(branch_step)]
    fn step(&mut self, hook: Option<Hook>, depth: usize) -> Result<usize, Fault>
        requires { Hangs hook (items self.old.nodes) }
        ensures told { Stepped hook depth self.old self.new result }
        ensures stops { OnOk result (Next self.new.cursor 91 → ⊥) }
    {
        let name = self.cursor.name(self.nodes.is_full())?;
        let node = self.nodes.push(Node { name, hook });
        while self.cursor.open(depth)? {
            let edge = self.cursor.inner_edge()?;
            self.branch(Some(Hook { parent: node, edge }), depth + 1)?;
            self.cursor.expect(b']')?;
        }
        Ok(node)
    }

    // A step, then edges and steps, each on the one before; the last node's number.
    #[cycle(branch_step)]
    #[inline(always)]
    pub(crate) fn branch(&mut self, hook: Option<Hook>, depth: usize) -> Result<usize, Fault>
        requires { Hangs hook (items self.old.nodes) }
        ensures told { Stepped hook depth self.old self.new result }
        ensures stops { OnOk result ((Next self.new.cursor 91 → ⊥) × (Next self.new.cursor 47 → ⊥)) }
    {
        let mut last = self.step(hook, depth)?;
        while self.cursor.accept(b'/') {
            let edge = self.cursor.edge();
            last = self.step(Some(Hook { parent: last, edge }), depth)?;
        }
        Ok(last)
    }
}
