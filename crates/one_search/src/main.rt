// One search of a small book from its begin to its close, and then a write to the rows. Prints the places of the embeddings, and how many rows
// have a region after the write. The wrong programs in tools/wrong-programs are this one with one line changed.
#![tactic(auto)]

use anyhow::anyhow;
use listing::Place;
use pattern::Twig;
use rows::BLANK;
use search::Search;
use std::array;
use stream::{POSITIONS, Region};
use test_sets::{Listed, Member};

// A region that is in list i alone.
fn member(i: usize, start: u32, end: u32, level: u32) -> Member {
    Member {
        region: Region { start, end, level },
        lists: array::from_fn(|k| k == i),
    }
}

fn main(rt: HostRuntime) -> anyhow::Result<()> {
    let mut twig = Twig::new();
    twig.read(b"//a//b").map_err(|fault| anyhow!("{fault}"))?;
    let members = [member(0, 0, 5, 0), member(1, 1, 2, 1), member(1, 3, 4, 1)];
    let mut set = Listed::new(&members).ok_or_else(|| anyhow!("no lawful book"))?;
    let mut rows = [BLANK; 4];
    let mut table = [Place {
        starts: [0; POSITIONS],
    }; 4];
    let mut search = Search::begin(&twig, &mut rows);
    // A search is never dropped, so no refusal ends the program before the close.
    let gathered = search.gather(&mut set);
    let paged = search.page(&mut table);
    search.close();
    rows[0] = BLANK;
    gathered.map_err(|fault| anyhow!("{fault}"))?;
    let count = paged.map_err(|fault| anyhow!("{fault}"))?;
    for place in table.iter().take(count) {
        let [a, b, ..] = place.starts;
        println!(rt; "{a} {b}")?;
    }
    let left = rows.iter().filter(|row| row.region().is_some()).count();
    println!(rt; "{left} rows")?;
    Ok(())
}
