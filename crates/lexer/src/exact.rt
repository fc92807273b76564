// What the lexer's definition means, as the contract of a function.
ghost use Rattle.lexer.specs.Exact.{LexingIsExact};

// The lexer gives an item exactly if the text begins with it, nothing exactly at the end, and a refusal exactly where a tag's bytes go wrong.
pub fn lexing_is_exact()
    ensures { LexingIsExact }
{}
