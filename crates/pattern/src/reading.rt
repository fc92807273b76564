// Twigs from pattern texts.
ghost use Rattle.std.specs.Prelude.{◌≡◌, [], ◌∷◌, Ok, codes};
ghost use Rattle.pattern.specs.declared.node.Mark.TheVariants.{Any};
ghost use Rattle.pattern.specs.Shape.{shape, root_a};
ghost use Rattle.pattern.specs.Reading.{read_pattern};
ghost use Rattle.pattern.specs.Twig.{shape_of, Parsed, TurnedTo, Grammatical};

use super::name::Name;
use super::node::Mark;
use super::nodes::Nodes;
use super::reader::Reader;
use super::twig::Twig;
use markup::{Fault, Refusal};

// The most bytes that a pattern text has.
const MOST_BYTES: usize = 1024;

// The twig of a text, whatever its length.
fn parse(text: &[u8]) -> Result<Twig, Fault>
    ensures { Parsed text.now result }
{
    let mut reader = Reader::new(text);
    let mark = reader.cursor.lead()?;
    reader.branch(None, 0)?;
    reader.cursor.end()?;
    Ok(Twig {
        mark,
        nodes: reader.nodes,
    })
}

impl Twig {
    // The twig of `//a`.
    pub fn new() -> Twig
        ensures read { read_pattern (codes "//a") ≡ Ok (shape_of result) }
        ensures twig { shape_of result ≡ shape Any (root_a ∷ []) }
    {
        Twig {
            mark: Mark::Any,
            nodes: Nodes::root(Name::new(b"a")),
        }
    }

    // Turns the twig to that of the text. A text that is refused leaves it as it is.
    pub fn read(&mut self, text: &[u8]) -> Result<(), Fault>
        ensures turned { TurnedTo text.now self.old self.new result }
        ensures grammar { Grammatical text.now self.new result }
    {
        if text.len() > MOST_BYTES {
            return Err(Refusal::PatternTooLong.at(MOST_BYTES));
        }
        *self = parse(text)?;
        Ok(())
    }
}
