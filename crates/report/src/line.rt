// One line each, with the LF that ends it.
ghost use Rattle.std.specs.Prelude.{◌≡◌, ◌++◌, IfOk};
ghost use Rattle.report.specs.Lines.{element_line, end_line, refusal_line, place_line, page_lines};

use itoa::Buffer;
use listing::Place;
use markup::Fault;
use std::alloc::{AllocError, Global};
use tree::Element;

// The most bytes of a line beside its name: three numbers, three spaces and the LF.
const ROOM: usize = 29;

// An element: its start, end and level in decimal, and its name, with one space between.
pub fn element_line(heap: Global, element: Element, name: &[u8]) -> Result<Vec<u8>, AllocError>
    ensures { IfOk result (λ v. v.items ≡ element_line element name.now) }
{
    let mut line = Vec::with_capacity(heap, name.len().saturating_add(ROOM))?;
    // Not by `format!`, which takes three quarters of the time of an outline full of tags.
    let mut digits = Buffer::new();
    for n in [element.start, element.end, u32::from(element.level)] {
        line.extend_from_slice(digits.format(n).as_bytes())?;
        line.push(b' ')?;
    }
    line.extend_from_slice(name)?;
    line.push(b'\n')?;
    Ok(line)
}

// The last line of an answer that is not a refusal.
pub fn end_line(heap: Global) -> Result<Vec<u8>, AllocError>
    ensures { IfOk result (λ v. v.items ≡ end_line) }
{
    Vec::from_slice(heap, b"end\n")
}

// A refusal: its number and its place.
pub fn refusal_line(heap: Global, fault: Fault) -> Result<Vec<u8>, AllocError>
    ensures { IfOk result (λ v. v.items ≡ refusal_line fault) }
{
    Ok(format!(in heap; "{fault}\n")?.into_bytes())
}

// Appends a place: the starts of its first nodes in decimal, with one space between.
fn append_place(lines: &mut Vec<u8>, nodes: usize, place: &Place) -> Result<(), AllocError>
    ensures { IfOk result (λ _. lines.new.items ≡ lines.old.items ++ place_line nodes place.now) }
{
    let mut digits = Buffer::new();
    let starts = &place.starts[..nodes.min(place.starts.len())];
    if let Some((first, rest)) = starts.split_first() {
        lines.extend_from_slice(digits.format(*first).as_bytes())?;
        for start in rest {
            lines.push(b' ')?;
            lines.extend_from_slice(digits.format(*start).as_bytes())?;
        }
    }
    lines.push(b'\n')?;
    Ok(())
}

// The place of an embedding: the starts of the first nodes.
pub fn place_line(heap: Global, nodes: usize, place: &Place) -> Result<Vec<u8>, AllocError>
    ensures { IfOk result (λ v. v.items ≡ place_line nodes place.now) }
{
    let mut line = Vec::new(heap);
    append_place(&mut line, nodes, place)?;
    Ok(line)
}

// The first places of a table, a line each.
pub fn page_lines(
    heap: Global,
    nodes: usize,
    count: usize,
    table: &[Place],
) -> Result<Vec<u8>, AllocError>
    ensures { IfOk result (λ v. v.items ≡ page_lines nodes count table.now) }
{
    let mut lines = Vec::new(heap);
    for place in &table[..count.min(table.len())] {
        append_place(&mut lines, nodes, place)?;
    }
    Ok(lines)
}
