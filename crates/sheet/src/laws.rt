// The laws of writing, opening and viewing sheets, each on the contract of a function.
ghost use Rattle.sheet.specs.Laws.{LawfulTreesAreEncoded, EncodingsOpen, OpeningHasOneAnswer, ChainsFollowNames};

// Encoding a lawful tree is granted exactly where the buffer is long enough for its sheet.
pub fn lawful_trees_are_encoded()
    ensures { LawfulTreesAreEncoded }
{}

// Opening the sheet of a lawful tree is granted.
pub fn encodings_open()
    ensures { EncodingsOpen }
{}

// Opening has one answer: the bytes say whether they are refused, as what, and where.
pub fn opening_has_one_answer()
    ensures { OpeningHasOneAnswer }
{}

// On a lawful sheet, `next` is the nearest later element of the same name, if there is one, and `first` is the first element of a name.
pub fn chains_follow_names()
    ensures { ChainsFollowNames }
{}
