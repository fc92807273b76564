// What is promised of all pattern texts and twigs.
ghost use Rattle.pattern.specs.Promises.{GrantedIsWhatTheGrammarDerives, GrantedIsLawful, EveryTwigIsLawful, SubtreesAreRunsOfNumbers, SpellingsReadBack, OneStandardSpelling, SameSpellingSameTwig};
ghost use Rattle.pattern.specs.Places.{MisfitIsWhereNoPatternGoesOn, TooManyIsWhereMoreWouldFit, NameTooLongIsWhereLongerWouldFit};

// Reading and spelling keep to the grammar and to each other.
pub fn promises()
    ensures grammar { GrantedIsWhatTheGrammarDerives }
    ensures granted { GrantedIsLawful }
    ensures lawful { EveryTwigIsLawful }
    ensures runs { SubtreesAreRunsOfNumbers }
    ensures back { SpellingsReadBack }
    ensures standard { OneStandardSpelling }
    ensures same { SameSpellingSameTwig }
{}

// A text is refused where it ceases to be a pattern, or one within the limits.
pub fn places()
    ensures misfit { MisfitIsWhereNoPatternGoesOn }
    ensures many { TooManyIsWhereMoreWouldFit }
    ensures name { NameTooLongIsWhereLongerWouldFit }
{}
