// The lines of all embeddings, page by page.
ghost use Rattle.std.specs.Prelude.{◌≡◌, IsOk};
ghost use Rattle.pattern.specs.Twig.{shape_of};
ghost use Rattle.search.specs.Runs.{Lists};
ghost use Rattle.finding.specs.Pages.{Ready, ListingWritten};

use listing::Place;
use report::line::page_lines;
use search::Search;
use std::alloc::Global;
use std::io;
use std::io::Write;
use stream::POSITIONS;

// How many places a page has.
const PAGE: usize = 64;

// Writes a line for each embedding, in order. Nothing was paged yet.
pub(crate) fn write_pages<W: Write>(
    heap: Global,
    search: &mut Search<'_, '_>,
    nodes: usize,
    out: &mut W,
) -> io::Result<()>
    requires { (lists : Lists) × Ready lists search.now }
    ensures rows { search.new.rows.now ≡ search.old.rows.now }
    ensures written { (lists : Lists) → Ready lists search.old → IsOk result → ListingWritten (shape_of search.old.twig.now) lists nodes (W.Write.contents out.old) (W.Write.contents out.new) }
{
    let mut table = [Place {
        starts: [0; POSITIONS],
    }; PAGE];
    while let Ok(count) = search.page(&mut table) {
        let lines = page_lines(heap, nodes, count, &table)?;
        out.write_all(lines.as_slice())?;
    }
    Ok(())
}
