// The examples, each group on the contract of a function.
ghost use Rattle.examples.specs.Reading.{ReadingExamples};
ghost use Rattle.examples.specs.Finding.{ListingExamples, PrintingExamples};

// The sample book, and what other texts and patterns are read as.
pub fn reading_examples()
    ensures { ReadingExamples }
{}

// What patterns list in the sample's tree, which of its elements are useful, and which rows do.
pub fn listing_examples()
    ensures { ListingExamples }
{}

// What the finder prints for inputs.
pub fn printing_examples()
    ensures { PrintingExamples }
{}
