// What a token hands out.
ghost use Rattle.std.specs.Prelude.{◌≡◌};
ghost use Rattle.lexer.specs.Token.{whole_of};

use crate::token::{Part, Token};

impl<'t> Token<'t> {
    // The whole item.
    pub fn whole(&self) -> Part<'t>
        ensures { result ≡ whole_of self.now }
    {
        match self {
            Token::Start(tag) | Token::End(tag) | Token::Empty(tag) => tag.whole,
            Token::Text(run) => *run,
        }
    }
}
