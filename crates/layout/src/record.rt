// The record of a name.

// Where a name stands among the name bytes, and who has it first.
#[derive(Clone, Copy, Debug, PartialEq, Eq)]
pub struct NameRecord {
    // The offset among the name bytes.
    pub offset: u32,
    pub length: u32,
    // The number of the first element with this name.
    pub first: u32,
}
