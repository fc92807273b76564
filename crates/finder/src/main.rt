// Prints where a pattern occurs in a book text. Standard input has the pattern up to the first LF, and then the book text. For each embedding
// there is a line with the starts of its elements, and then `end`; or, where the input is refused, only the refusal's line.
#![tactic(auto)]

use finding::find;
use finding::input::MOST_BYTES;
use input::read_up_to;
use rows::BLANK;

// The bytes of the sheet, and the rows of the search.
const SHEET: usize = 65_536;

const ROWS: usize = 4_096;

fn main(rt: HostRuntime) -> anyhow::Result<()> {
    let input = read_up_to(&rt, MOST_BYTES + 1)?;
    let mut sheet = [0; SHEET];
    let mut rows = [BLANK; ROWS];
    find(
        rt.alloc(),
        input.as_slice(),
        &mut sheet,
        &mut rows,
        &mut rt.stdout(),
    )?;
    Ok(())
}
