// Checks the element records of a sheet.
ghost use Rattle.std.specs.Prelude.{◌≡◌, ◌+◌, ◌-◌, ◌<◌, ◌≤◌, length, MatchBool, MatchOption, MatchResult, slice_index};
ghost use Rattle.tree.specs.Region.{Fits};
ghost use Rattle.layout.specs.Layout.{element_count, region_at};
ghost use Rattle.layout.specs.Lawful.{RightElement, RightNumbers, used};
ghost use Rattle.sheet.specs.Opening.{WrongElement, Each};
ghost use Rattle.sheet.specs.Stack.{Stack, last_start};
ghost use Rattle.sheet.specs.Links.{RightLink, LinkedFrom, Firsts};

use crate::records::{self, Records};
use arrayvec::ArrayVec;
use markup::{Fault, Refusal};
use tree::limits::{LAST_END, MOST_LEVELS, MOST_NAMES};

// What the elements' names and nexts tell. No invariant says so, since it would be of the records too, which are not here.
#[derive(Drop)]
pub(crate) struct Links {
    // The lowest element whose next is wrong.
    pub(crate) wrong: Option<u32>,
    // Each name's first element. Where there is none it is the count of elements, as in the records that it is compared with.
    pub(crate) first: [u32; MOST_NAMES],
}

// One pass from the back, which knows the nearest element of each name.
pub(crate) fn read_links(records: &Records) -> Links
    ensures wrong { LinkedFrom records.now.bytes.now 0 result.wrong }
    ensures first { Firsts records.now.bytes.now 0 result.first }
{
    let count = records.element_count();
    let mut wrong = None;
    let mut first = [count; MOST_NAMES];
    // By number, here and below, since records are read by number.
    for k in (0..count).rev() {
        let name = records.element(k).name as usize;
        if name < MOST_NAMES {
            if records.next(k) != first[name] {
                wrong = Some(k);
            }
            first[name] = k;
        }
    }
    Links { wrong, first }
}

// The records, the open elements and k go apart, here and below, since what holds of them together fails where k does not fit.
// Closes those of the open elements, `stack`, outermost first, that end below the start of element k, and tells where the
// innermost of those that are left ends.
fn close(records: &Records, stack: &mut ArrayVec<u32, MOST_LEVELS>, k: u32) -> Option<u32>
    requires within { k < element_count records.now.bytes.now }
    requires opened { Stack (region_at records.now.bytes.now) k (region_at records.now.bytes.now k).start stack.old.items }
    ensures opened { Stack (region_at records.now.bytes.now) k (region_at records.now.bytes.now k).start stack.new.items }
    ensures top { 0 < length stack.new.items → (region_at records.now.bytes.now k).start ≤ (region_at records.now.bytes.now (slice_index stack.new.items (length stack.new.items - 1))).end }
    ensures around { MatchOption result (length stack.new.items ≡ 0) (λ end. (0 < length stack.new.items) × (end ≡ (region_at records.now.bytes.now (slice_index stack.new.items (length stack.new.items - 1))).end)) }
{
    let start = records.element(k).start;
    while let Some(top) = stack.last() {
        let end = records.element(*top).end;
        if end >= start {
            return Some(end);
        }
        // Not `pop`, which stores the length before the place, so that each step would load it again.
        stack.truncate(stack.len() - 1);
    }
    None
}

// Opens element k within those of the open elements that do not end before it, where its region fits among those before it.
fn place(records: &Records, stack: &mut ArrayVec<u32, MOST_LEVELS>, k: u32) -> bool
    requires within { k < element_count records.now.bytes.now }
    requires before { Each (Fits (region_at records.now.bytes.now)) k }
    requires opened { Stack (region_at records.now.bytes.now) k (last_start (region_at records.now.bytes.now) k) stack.old.items }
    ensures { MatchBool result (Fits (region_at records.now.bytes.now) k × Stack (region_at records.now.bytes.now) (k + 1) (last_start (region_at records.now.bytes.now) (k + 1)) stack.new.items) (Fits (region_at records.now.bytes.now) k → ⊥) }
{
    let e = records.element(k);
    if e.start >= e.end || e.end > LAST_END || e.level as usize >= MOST_LEVELS {
        return false;
    }
    if k > 0 && e.start <= records.element(k - 1).start {
        return false;
    }
    match close(records, stack, k) {
        Some(end) if end <= e.end => return false,
        // Only the first element has none around it.
        None if k > 0 => return false,
        _ => {}
    }
    if stack.len() != e.level as usize {
        return false;
    }
    stack.push(k);
    true
}

// Whether the name number of element k is right, where the elements before it use `seen` name numbers and its next is right.
fn has_right_numbers(records: &Records, seen: u32, k: u32) -> bool
    requires within { k < element_count records.now.bytes.now }
    requires seen { seen ≡ used records.now.bytes.now k }
    requires linked { RightLink records.now.bytes.now 0 k }
    ensures { MatchBool result (RightNumbers records.now.bytes.now k) (RightNumbers records.now.bytes.now k → ⊥) }
{
    let name = records.element(k).name as u32;
    name < records.name_count() && name <= seen
}

// The element records in order, up to `wrong`, the lowest one whose next is wrong.
pub(crate) fn check_elements(records: &Records, wrong: Option<u32>) -> Result<(), Fault>
    requires { LinkedFrom records.now.bytes.now 0 wrong }
    ensures { MatchResult result (λ _. Each (RightElement records.now.bytes.now) (element_count records.now.bytes.now)) (λ f. WrongElement records.now.bytes.now f) }
{
    let mut stack = ArrayVec::new();
    let mut seen = 0;
    for k in 0..wrong.unwrap_or(records.element_count()) {
        if !place(records, &mut stack, k) || !has_right_numbers(records, seen, k) {
            return Err(Refusal::ElementRecord.at(records::element_offset(k)));
        }
        seen = seen.max(records.element(k).name as u32 + 1);
    }
    match wrong {
        Some(k) => Err(Refusal::ElementRecord.at(records::element_offset(k))),
        None => Ok(()),
    }
}
