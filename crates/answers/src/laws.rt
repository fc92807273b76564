// The laws of answers in the tree of a text, each on the contract of a function.
ghost use Rattle.answers.specs.Laws.{ListsHaveTreeEmbeddings, ListsHaveTheTreeListing, JustOneTreeListing, PlacesTellElements, ChildEdgesGoToTheNextAround, BandsAndWindowsAreListed, RunsListTheTree};

// Where lists stand for the elements let through, the embeddings in the lists are the embeddings in the tree.
pub fn lists_have_tree_embeddings()
    ensures { ListsHaveTreeEmbeddings }
{}

// Where lists stand for the elements let through, the listing over the lists is the listing in the tree.
pub fn lists_have_the_tree_listing()
    ensures { ListsHaveTheTreeListing }
{}

// There is just one listing of a lawful twig in a lawful tree.
pub fn just_one_tree_listing()
    ensures { JustOneTreeListing }
{}

// Two embeddings with one place give each node the same element.
pub fn places_tell_elements()
    ensures { PlacesTellElements }
{}

// Across a child edge the upper element is the one next around the lower.
pub fn child_edges_go_to_the_next_around()
    ensures { ChildEdgesGoToTheNextAround }
{}

// A window on a band on the elements with the nodes' names lists what is embedded in elements within the levels and inside the span.
pub fn bands_and_windows_are_listed()
    ensures { BandsAndWindowsAreListed }
{}

// Where the granted gather of a run met lists that stand for the elements let through, the run pages the listing in the tree.
pub fn runs_list_the_tree()
    ensures { RunsListTheTree }
{}
