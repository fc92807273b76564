// Times indexing and opening at the limits: 65,535 elements and 1,024 names of 32 bytes. The times go to standard error.
#![tactic(auto)]

mod books;

use anyhow::anyhow;
use layout::LONGEST_SHEET;
use sheet::SheetView;
use std::time::Instant;

// How often each call is timed; the least counts.
const RUNS: u32 = 20;

// What a call gives, and its time in microseconds.
fn timed<T: Drop, F: FnOnce() -> T>(rt: &HostRuntime, call: F) -> anyhow::Result<(T, u128)>
    requires { F.IsAlwaysCallable call }
{
    let start = Instant::now(rt)?;
    let result = call();
    Ok((result, start.elapsed(rt)?.as_micros()))
}

// Indexes the book and opens its sheet, and reports the least time of each; an error where either is refused.
fn time_book(rt: &HostRuntime, kind: &str, text: &[u8]) -> anyhow::Result<()> {
    let mut buffer = vec![in rt.alloc(); 0u8; LONGEST_SHEET]?;
    // A running least and no `min()` of the runs: each run can end the function.
    let mut index_least = u128::MAX;
    let mut open_least = u128::MAX;
    for _ in 0..RUNS {
        let out = buffer.as_mut_slice();
        let (indexed, time) = timed(rt, || index::index(rt.alloc(), text, out))?;
        index_least = index_least.min(time);
        let len = indexed.map_err(|_| anyhow!("refused"))?;
        let bytes = buffer
            .as_slice()
            .get(..len)
            .ok_or_else(|| anyhow!("refused"))?;
        let mut view = SheetView::new();
        let (opened, time) = timed(rt, || view.open(bytes))?;
        open_least = open_least.min(time);
        opened.map_err(|_| anyhow!("refused"))?;
    }
    eprintln!(rt; "{kind}: index {index_least} us, open {open_least} us")?;
    Ok(())
}

fn main(rt: HostRuntime) -> anyhow::Result<()> {
    let heap = rt.alloc();
    let spread = books::largest(heap, 0)?;
    let alike = books::largest(heap, 3)?;
    time_book(
        &rt,
        "names that differ in their first bytes",
        spread.as_slice(),
    )?;
    time_book(
        &rt,
        "names alike at both ends and in the middle",
        alike.as_slice(),
    )?;
    println!(rt; "indexed and opened")?;
    Ok(())
}
