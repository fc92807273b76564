// The laws of lawful books, each on the contract of a function.
ghost use Rattle.tree.specs.Laws.{StartsTellContainment, PartsRise, LawfulOneByOne, OneMoreRegion};

// Of two regions of a lawful book, the one that starts later lies inside the other where it starts before that ends.
pub fn starts_tell_containment()
    ensures { StartsTellContainment }
{}

// A part of a lawful book, in its order, has rising starts and none but the book's regions.
pub fn parts_rise()
    ensures { PartsRise }
{}

// Regions are a lawful book exactly if each is right with those before it.
pub fn lawful_one_by_one()
    ensures { LawfulOneByOne }
{}

// One more region at the end keeps a book lawful exactly if it is right with those before it.
pub fn one_more_region()
    ensures { OneMoreRegion }
{}
