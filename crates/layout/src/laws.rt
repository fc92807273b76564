// The laws of sheets, each on the contract of a function.
ghost use Rattle.layout.specs.Laws.{SheetReadsBack, SheetShowsATree, SheetOfItsTree, OneSheetForATree, SheetsOfLawfulTrees};

// The sheet of a lawful tree is lawful and shows that tree.
pub fn sheet_reads_back()
    ensures { SheetReadsBack }
{}

// What a lawful sheet shows is a lawful tree.
pub fn sheet_shows_a_tree()
    ensures { SheetShowsATree }
{}

// A lawful sheet is the sheet of the tree that it shows.
pub fn sheet_of_its_tree()
    ensures { SheetOfItsTree }
{}

// Two lawful sheets that show the same tree are the same bytes.
pub fn one_sheet_for_a_tree()
    ensures { OneSheetForATree }
{}

// The lawful sheets are exactly the sheets of lawful trees.
pub fn sheets_of_lawful_trees()
    ensures { SheetsOfLawfulTrees }
{}
