// From an input to its lines.
ghost use Rattle.std.specs.Prelude.{◌≡◌, [], length, IsOk};
ghost use Rattle.pattern.specs.Twig.{shape_of};
ghost use Rattle.search.specs.Kept.{Kept};
ghost use Rattle.finding.specs.Writing.{Gathered, Listed, LinesWritten};

use crate::ending::Ending;
use crate::input::{MOST_BYTES, split};
use crate::pages::write_pages;
use chain::ChainSet;
use index::index;
use markup::Refusal;
use pattern::Twig;
use report::line::{end_line, refusal_line};
use rows::Row;
use search::Search;
use sheet::SheetView;
use std::alloc::Global;
use std::io;
use std::io::Write;
use stream::{SkippingSet, StreamSet};

// Gathers from a set, and writes a line for each embedding, in order.
fn write_listing<S: SkippingSet, W: Write>(
    heap: Global,
    search: &mut Search<'_, '_>,
    set: &mut S,
    nodes: usize,
    out: &mut W,
) -> Result<(), Ending>
    requires { Kept search.now [] }
    ensures length { length search.new.rows.now ≡ length search.old.rows.now }
    ensures gathered { Gathered (shape_of search.old.twig.now) (S.StreamSet.lists set.old) search.new.rows.now nodes (W.Write.contents out.old) (W.Write.contents out.new) result }
{
    search.gather(set)?;
    write_pages(heap, search, nodes, out)?;
    Ok(())
}

// Writes the lines of an input that is not refused.
fn list<W: Write>(
    heap: Global,
    input: &[u8],
    sheet: &mut [u8],
    rows: &mut [Row],
    out: &mut W,
) -> Result<(), Ending>
    ensures { Listed input.now (length sheet.old) (length rows.old) (W.Write.contents out.old) (W.Write.contents out.new) result }
{
    if input.len() > MOST_BYTES {
        return Err(Ending::Refused(Refusal::InputTooLong.at(MOST_BYTES)));
    }
    let (pattern, text) = split(input);
    let mut twig = Twig::new();
    twig.read(pattern)?;
    let len = index(heap, text, sheet)?;
    let mut view = SheetView::new();
    view.open(&sheet[..len])?;
    let mut set = ChainSet::new(view, &twig);
    let mut search = Search::begin(&twig, rows);
    let written = write_listing(heap, &mut search, &mut set, twig.len(), out);
    search.close();
    written?;
    let end = end_line(heap)?;
    out.write_all(end.as_slice())?;
    Ok(())
}

// Writes the lines of an input: for each embedding of its pattern in the tree of its text the starts of its elements, and then `end`; or
// only the line of its refusal. The sheet and the rows are room to work in.
pub fn find<W: Write>(
    heap: Global,
    input: &[u8],
    sheet: &mut [u8],
    rows: &mut [Row],
    out: &mut W,
) -> io::Result<()>
    ensures { IsOk result → LinesWritten input.now (length sheet.old) (length rows.old) (W.Write.contents out.old) (W.Write.contents out.new) }
{
    match list(heap, input, sheet, rows, out) {
        Ok(()) => Ok(()),
        Err(Ending::Refused(fault)) => {
            let line = refusal_line(heap, fault)?;
            out.write_all(line.as_slice())
        }
        Err(Ending::Failed(e)) => Err(e),
    }
}
