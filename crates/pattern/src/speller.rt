// The standard spelling: each node's last child follows by its edge, and the others stand in brackets before it.
ghost use Rattle.std.specs.Prelude.{◌≡◌, ◌≤◌, [], length, Ok};
ghost use Rattle.pattern.specs.Grammar.{Spells};
ghost use Rattle.pattern.specs.Reading.{up_to, read_pattern};
ghost use Rattle.pattern.specs.Spelling.{spelling, close_text, open_text, lead_text};
ghost use Rattle.pattern.specs.Twig.{shape_of, Written};

use super::node::{Edge, Mark};
use super::twig::Twig;
use arrayvec::ArrayVec;
use markup::{Fault, Refusal};

// The longest standard spelling: the root has 2 bytes and a name of 32, and each of 15 other nodes has 5 and a name of 32.
pub const LONGEST_SPELLING: usize = 589;

// `]`, unless the node is a child of the node before it.
fn close_text(parent: usize, before: usize) -> &'static [u8]
    ensures text { result.now ≡ close_text parent before }
    ensures short { length result.now ≤ 1 }
{
    if parent == before { b"" } else { b"]" }
}

// What stands before a node's name: its edge, or `[` and its edge where its parent has a later child.
fn open_text(later: bool, edge: Edge) -> &'static [u8]
    ensures text { result.now ≡ open_text later edge }
    ensures short { length result.now ≤ 4 }
{
    match (later, edge) {
        (false, Edge::Child) => b"/",
        (false, Edge::Descendant) => b"//",
        (true, Edge::Child) => b"[",
        (true, Edge::Descendant) => b"[.//",
    }
}

// The lead.
fn lead_text(mark: Mark) -> &'static [u8]
    ensures text { result.now ≡ lead_text mark }
    ensures short { length result.now ≤ 2 }
{
    match mark {
        Mark::Top => b"/",
        Mark::Any => b"//",
    }
}

impl Twig {
    // Writes the standard spelling into an empty text.
    fn spelled(&self, out: &mut ArrayVec<u8, LONGEST_SPELLING>)
        requires { out.old.items ≡ [] }
        ensures { out.new.items ≡ spelling (shape_of self.now) }
    {
        for (number, node) in self.nodes.as_slice().iter().enumerate() {
            match node.hook {
                None => out.try_extend_from_slice(lead_text(self.mark)).unwrap(),
                Some(hook) => {
                    let later = self.next_child(hook.parent, number).is_some();
                    out.try_extend_from_slice(close_text(hook.parent, number - 1))
                        .unwrap();
                    out.try_extend_from_slice(open_text(later, hook.edge))
                        .unwrap();
                }
            }
            out.try_extend_from_slice(node.name.as_bytes()).unwrap();
        }
    }

    // Writes the standard spelling from byte 0 on; how many bytes that is. Where it does not fit, nothing is written.
    #[tactic(auto, using(crate::proofs::Props::standard, crate::proofs::Props::reads_back))]
    pub fn spell(&self, out: &mut [u8]) -> Result<usize, Fault>
        ensures written { Written (spelling (shape_of self.now)) out.old out.new result }
        ensures standard { Spells (up_to 7) (spelling (shape_of self.now)) (shape_of self.now) }
        ensures back { read_pattern (spelling (shape_of self.now)) ≡ Ok (shape_of self.now) }
        ensures short { length (spelling (shape_of self.now)) ≤ 589 }
    {
        let mut text = ArrayVec::new();
        self.spelled(&mut text);
        let len = text.len();
        if len > out.len() {
            return Err(Refusal::SpellingWontFit.at(len));
        }
        out[..len].copy_from_slice(&text);
        Ok(len)
    }
}
