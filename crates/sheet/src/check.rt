// Checks that bytes are a lawful sheet.
ghost use Rattle.std.specs.Prelude.{◌≡◌, ℕ, ◌<◌, ◌≤◌, ◌⊎◌, length, slice_index_or, true, Decides, MatchResult};
ghost use Rattle.layout.specs.Lawful.{RightField, RightHeader};
ghost use Rattle.sheet.specs.Opening.{WrongHeader, WrongLength, Opened};

use crate::header::Header;
use crate::records::Records;
use crate::{elements, names};
use markup::{Fault, Refusal};
use tree::limits::{MOST_ELEMENTS, MOST_NAMES};

// Whether each field of the header is right with those before it.
fn right_fields(bytes: &[u8]) -> [bool; 8]
    requires { 32 ≤ length bytes.now }
    ensures { (i : ℕ) → i < 8 → Decides (slice_index_or result i true) (RightField bytes.now i) }
{
    let header = Header::read(bytes);
    let elements = header.elements as u64;
    let names = header.names as u64;
    let name_bytes = header.name_bytes as u64;
    let name_table = 32 + 16 * elements;
    let texts = name_table + 12 * names;
    [
        header.version == 1,
        (1..=MOST_ELEMENTS as u64).contains(&elements),
        (1..=elements.min(MOST_NAMES as u64)).contains(&names),
        header.element_table == 32,
        header.name_table as u64 == name_table,
        header.texts as u64 == texts,
        (names..=32 * names).contains(&name_bytes),
        header.total as u64 == texts + name_bytes,
    ]
}

// The header's fields in order.
fn check_header(bytes: &[u8]) -> Result<(), Fault>
    requires { 32 ≤ length bytes.now }
    ensures { MatchResult result (λ _. RightHeader bytes.now) (λ f. WrongHeader bytes.now f) }
{
    match right_fields(bytes).iter().position(|right| !*right) {
        Some(i) => Err(Refusal::HeaderField.at(4 * i)),
        None => Ok(()),
    }
}

// The records of the bytes, where the header is right and tells their length.
fn measure(bytes: &[u8]) -> Result<Records<'_>, Fault>
    ensures { MatchResult result (λ r. r.bytes.now ≡ bytes.now) (λ f. WrongLength bytes.now f ⊎ WrongHeader bytes.now f) }
{
    let wrong_length = Refusal::SheetLength.at(bytes.len());
    if bytes.len() < 32 {
        return Err(wrong_length);
    }
    check_header(bytes)?;
    if bytes.len() != Header::read(bytes).total as usize {
        return Err(wrong_length);
    }
    Ok(Records { bytes })
}

// Whether the bytes are a lawful sheet, or what is wrong first: one pass over the header, one over the element records
// from the back for their nexts and each name's first element, one from the front for the rest, and one over the names.
pub(crate) fn check_sheet(bytes: &[u8]) -> Result<(), Fault>
    ensures { Opened bytes.now result }
{
    let records = measure(bytes)?;
    let links = elements::read_links(&records);
    elements::check_elements(&records, links.wrong)?;
    names::check_names(&records, &links.first)
}
