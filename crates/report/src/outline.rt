// The outline of a book text.
ghost use Rattle.std.specs.Prelude.{◌≡◌, ◌≤◌, length, IfOk};
ghost use Rattle.layout.specs.Layout.{tree_of};
ghost use Rattle.layout.specs.Lawful.{LawfulSheet};
ghost use Rattle.report.specs.Outline.{tree_lines, Tells, Outlined};

use crate::line;
use layout::LONGEST_SHEET;
use markup::Error;
use sheet::SheetView;
use std::alloc::{AllocError, Global};

// The lines of the elements that a view shows, and then `end`.
fn view_lines(heap: Global, view: &SheetView<'_>) -> Result<Vec<u8>, AllocError>
    ensures { IfOk result (λ v. v.items ≡ tree_lines (tree_of view.now.bytes.now)) }
{
    let mut lines = Vec::new(heap);
    // By number: a view has no iterator of its elements.
    for k in 0..view.element_count() {
        let element = view.element(k).unwrap();
        let name = view.name(u32::from(element.name)).unwrap();
        let line = line::element_line(heap, element, name)?;
        lines.extend_from_slice(line.as_slice())?;
    }
    let end = line::end_line(heap)?;
    lines.extend_from_slice(end.as_slice())?;
    Ok(lines)
}

// The lines of a lawful sheet.
fn sheet_lines(heap: Global, bytes: &[u8]) -> Result<Vec<u8>, AllocError>
    requires { LawfulSheet bytes.now }
    ensures { IfOk result (λ v. v.items ≡ tree_lines (tree_of bytes.now)) }
{
    let mut view = SheetView::new();
    view.open(bytes).unwrap();
    view_lines(heap, &view)
}

// The line of a refusal; want of memory has none, and is passed on.
fn error_line(heap: Global, error: Error) -> Result<Vec<u8>, AllocError>
    ensures { IfOk result (λ v. Tells error v.items) }
{
    match error {
        Error::Refused(fault) => line::refusal_line(heap, fault),
        // By hand: a conversion of `Error` for `?` would be these two arms, for this call alone.
        Error::Memory => Err(AllocError),
    }
}

// The outline of a book text, by way of its sheet, which is written to the buffer.
fn outline_in(heap: Global, text: &[u8], buffer: &mut [u8]) -> Result<Vec<u8>, AllocError>
    requires { LONGEST_SHEET ≤ length buffer.old }
    ensures { IfOk result (λ v. Outlined text.now v.items) }
{
    match index::index(heap, text, buffer) {
        Ok(len) => sheet_lines(heap, &buffer[..len]),
        Err(error) => error_line(heap, error),
    }
}

// What the outline program prints for a book text: a line for each element of its sheet and then `end`, or only the refusal's line. It
// fails for want of memory alone.
pub fn outline(heap: Global, text: &[u8]) -> Result<Vec<u8>, AllocError>
    ensures { IfOk result (λ v. Outlined text.now v.items) }
{
    let mut buffer = vec![in heap; 0u8; LONGEST_SHEET]?;
    outline_in(heap, text, buffer.as_mut_slice())
}
