// Prints the outline of the book text on standard input: for each element its start, end, level and name, a line each, and then `end`; or,
// where the text is no book text, only the refusal's line.
#![tactic(auto)]

use input::read_up_to;
use report::outline;
use std::io::Write;

fn main(rt: HostRuntime) -> anyhow::Result<()> {
    let text = read_up_to(&rt, book::reader::MOST_BYTES + 1)?;
    let lines = outline::outline(rt.alloc(), text.as_slice())?;
    let mut out = rt.stdout();
    out.write_all(lines.as_slice())?;
    Ok(())
}
