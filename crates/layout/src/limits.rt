// How long a sheet may be.

use markup::name;
use tree::limits::{MOST_ELEMENTS, MOST_NAMES};

// The length of a sheet with the most elements and names, each name of the most bytes: 1,093,648.
pub const LONGEST_SHEET: usize = 32
    + 16 * MOST_ELEMENTS
    + 12 * MOST_NAMES
    + name::MOST_BYTES * MOST_NAMES;
