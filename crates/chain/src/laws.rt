// What layers do to what a set stands for, on the contract of a function.
ghost use Rattle.chain.specs.Standing.{LayersAddACondition};

// Where a set stands for the elements let through, a layer on it stands for those of them that its rule keeps.
pub fn layers_add_a_condition()
    ensures { LayersAddACondition }
{}
