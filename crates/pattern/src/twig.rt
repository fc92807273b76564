// Patterns as trees of named nodes.
ghost use Rattle.pattern.specs.Shape.{LawfulTwig};
ghost use Rattle.pattern.specs.Table.{items, vertices};

use super::node::Mark;
use super::nodes::Nodes;

// A twig: its mark, and its nodes in the order of their names in the text.
// No model as a shape: a `Copy` type's view has to give all fields back, also the unused room of the tables.
#[derive(Clone, Copy)]
pub struct Twig {
    pub(crate) mark: Mark,
    pub(crate) nodes: Nodes,
    ghost lawful: { ∥ LawfulTwig (vertices (items nodes)) ∥₁ },
}
