// Times searches over books: how long a gather takes for each region in the lists, and a page for each embedding. Prints how many embeddings each
// pattern has; the times go to standard error.
#![tactic(auto)]

mod books;

use anyhow::anyhow;
use chain::ChainSet;
use layout::LONGEST_SHEET;
use listing::Place;
use pattern::Twig;
use rows::BLANK;
use search::Search;
use sheet::SheetView;
use std::time::Instant;
use stream::POSITIONS;

// The rows of the search, and the places of a page.
const ROWS: usize = 1_000_000;

const PLACES: usize = 1_000;

// How often each search is timed; the least counts.
const RUNS: u32 = 5;

// The most pages that are asked for.
const PAGES: u32 = 1_000;

// How many embeddings the pages of a gathered search have.
fn page_all(search: &mut Search<'_, '_>, table: &mut [Place]) -> usize {
    let mut total = 0usize;
    for _ in 0..PAGES {
        let Ok(count) = search.page(table) else {
            break;
        };
        total = total.wrapping_add(count);
    }
    total
}

// Searches a book for a pattern; an error where either is refused.
fn time_pattern(rt: &HostRuntime, kind: &str, text: &[u8], pattern: &str) -> anyhow::Result<()> {
    let heap = rt.alloc();
    let mut twig = Twig::new();
    twig.read(pattern.as_bytes())
        .map_err(|fault| anyhow!("{fault}"))?;
    let mut buffer = vec![in heap; 0u8; LONGEST_SHEET]?;
    let len = index::index(heap, text, buffer.as_mut_slice()).map_err(|_| anyhow!("refused"))?;
    let bytes = buffer
        .as_slice()
        .get(..len)
        .ok_or_else(|| anyhow!("refused"))?;
    let mut view = SheetView::new();
    view.open(bytes).map_err(|fault| anyhow!("{fault}"))?;
    let mut rows = vec![in heap; BLANK; ROWS]?;
    let mut table = vec![in heap; Place {
        starts: [0; POSITIONS]
    }; PLACES]?;
    let mut gathering = u128::MAX;
    let mut paging = u128::MAX;
    let mut total = 0;
    for _ in 0..RUNS {
        let mut set = ChainSet::new(view, &twig);
        let mut search = Search::begin(&twig, rows.as_mut_slice());
        // A search is never dropped, so no error ends the function before the close.
        let begun = Instant::now(rt);
        let gathered = search.gather(&mut set);
        let between = Instant::now(rt);
        total = page_all(&mut search, table.as_mut_slice());
        let ended = Instant::now(rt);
        search.close();
        let between = between?;
        gathering = gathering.min(between.duration_since(begun?).as_micros());
        paging = paging.min(ended?.duration_since(between).as_micros());
        gathered.map_err(|fault| anyhow!("{fault}"))?;
    }
    println!(rt; "{kind}, {pattern}: {total}")?;
    eprintln!(rt;
        "{kind}, {pattern}: gather {gathering} us, pages {paging} us for {total} embeddings"
    )?;
    Ok(())
}

fn main(rt: HostRuntime) -> anyhow::Result<()> {
    let heap = rt.alloc();
    let wide = books::plain(heap, 100, 60, 9)?;
    for pattern in [
        "//w",
        "//p/w",
        "//c//w",
        "//c/p/w",
        "//c[p]/p",
        "/b/c/p[w]/w",
    ] {
        time_pattern(&rt, "plain", wide.as_slice(), pattern)?;
    }
    let single = books::plain(heap, 20_000, 1, 1)?;
    for pattern in ["//c/p", "//c/p/w"] {
        time_pattern(&rt, "one of each", single.as_slice(), pattern)?;
    }
    let deep = books::nested(heap, 61)?;
    time_pattern(
        &rt,
        "nested",
        deep.as_slice(),
        "//a//a//a//a//a//a//a//a//a//a//a//a//a//a/b",
    )?;
    Ok(())
}
