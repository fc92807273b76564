// What is promised of reading, each statement on the contract of a function.
ghost use Rattle.book.specs.Promises.{GrantedExactly, RefusedExactly, TreesAreLawful, NamesAreNumbered, EveryTextHasOneAnswer};

// A text is granted exactly if the grammar derives it within the limits, and then with the elements of the derivation.
pub fn granted_exactly()
    ensures { GrantedExactly }
{}

// A text is refused exactly by the first item that is not allowed, with its number and place.
pub fn refused_exactly()
    ensures { RefusedExactly }
{}

// The elements of a granted text are a lawful book, and its names are lawful, different and numbered by first use.
pub fn trees_are_lawful()
    ensures { TreesAreLawful }
{}

// Numbering the names loses nothing: an element's number leads to the bytes of its name.
pub fn names_are_numbered()
    ensures { NamesAreNumbered }
{}

// Each text has one answer, a tree or a refusal: what `read` promises leaves no choice.
pub fn every_text_has_one_answer()
    ensures { EveryTextHasOneAnswer }
{}
