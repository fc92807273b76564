// The exported functions.
ghost use Rattle.index.specs.Indexing.{Indexed};
ghost use Rattle.twigfinder.specs.Answers.{Answers};
ghost use Rattle.twigfinder.specs.Calls.{Checked, Spelled, Found, Counted};

use crate::answer::{Answer, Starts};
use crate::pages;
use markup::Error;
use pattern::Twig;
use sheet::SheetView;
use std::alloc::Global;

// Checks a sheet.
fn check(bytes: &[u8]) -> Result<usize, Error>
    ensures { Checked bytes.now result }
{
    SheetView::new().open(bytes)?;
    Ok(bytes.len())
}

// Writes the standard spelling of a pattern.
fn spell(pattern: &[u8], out: &mut [u8]) -> Result<usize, Error>
    ensures { Spelled pattern.now out.old out.new result }
{
    let mut twig = Twig::new();
    twig.read(pattern)?;
    let len = twig.spell(out)?;
    Ok(len)
}

// Writes the sheet of a book text from byte 0 on; its length.
#[unsafe(no_mangle)]
pub extern "C" fn twigfinder_index(heap: Global, text: &[u8], sheet: &mut [u8]) -> Answer
    ensures { Answers (Indexed text.now sheet.old sheet.new) result }
{
    Answer::from(index::index(heap, text, sheet))
}

// Whether the bytes are a lawful sheet; their length.
#[unsafe(no_mangle)]
pub extern "C" fn twigfinder_check(sheet: &[u8]) -> Answer
    ensures { Answers (Checked sheet.now) result }
{
    Answer::from(check(sheet))
}

// Writes the standard spelling of a pattern from byte 0 on; its length.
#[unsafe(no_mangle)]
pub extern "C" fn twigfinder_spell(pattern: &[u8], out: &mut [u8]) -> Answer
    ensures { Answers (Spelled pattern.now out.old out.new) result }
{
    Answer::from(spell(pattern, out))
}

// Writes the places of the embeddings after the first `skip`, as many as fit; how many.
#[unsafe(no_mangle)]
pub extern "C" fn twigfinder_find(
    heap: Global,
    sheet: &[u8],
    pattern: &[u8],
    rows: usize,
    skip: usize,
    out: &mut [Starts],
) -> Answer
    ensures { Answers (Found sheet.now pattern.now rows skip out.old out.new) result }
{
    Answer::from(pages::find(heap, sheet, pattern, rows, skip, out))
}

// Counts the embeddings.
#[unsafe(no_mangle)]
pub extern "C" fn twigfinder_count(
    heap: Global,
    sheet: &[u8],
    pattern: &[u8],
    rows: usize,
) -> Answer
    ensures { Answers (Counted sheet.now pattern.now rows) result }
{
    Answer::from(pages::count(heap, sheet, pattern, rows))
}
