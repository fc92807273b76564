// Checks the name records of a sheet.
ghost use Rattle.std.specs.Prelude.{◌≡◌, ℕ, ◌+◌, ◌<◌, ◌≤◌, length, MatchBool, MatchResult, ◌≢◌};
ghost use Rattle.layout.specs.Layout.{element_count, name_count, byte_count, name_text};
ghost use Rattle.layout.specs.Lawful.{RightElement, RightName, names_end};
ghost use Rattle.sheet.specs.Opening.{WrongName, Each};
ghost use Rattle.sheet.specs.Links.{Firsts, key_of, CheckedNames};

use crate::records::Records;
use arrayvec::ArrayVec;
use markup::{Fault, Refusal, name};
use tree::limits::MOST_NAMES;

// A number that equal names share.
fn key(text: &[u8]) -> u32
    requires { (1 ≤ length text.now) × (length text.now ≤ 32) }
    ensures { result ≡ key_of text.now }
{
    let length = text.len();
    u32::from_le_bytes([length as u8, text[0], text[length - 1], text[length / 2]])
}

// The names that are right so far, with what the next one is checked against.
#[derive(Drop)]
struct Names<'r, 'b> {
    records: &'r Records<'b>,
    // Each name's first element.
    first: &'r [u32; MOST_NAMES],
    // A key of each of the names: opening allocates nothing, so names are compared in pairs, by their keys first.
    keys: ArrayVec<u32, MOST_NAMES>,
    // Where they end among the name bytes.
    end: u32,
    ghost checked: { ∥ CheckedNames records.now.bytes.now first.now keys.items end ∥₁ },
}

impl<'r, 'b> Names<'r, 'b> {
    // None yet.
    fn new(records: &'r Records<'b>, first: &'r [u32; MOST_NAMES]) -> Self
        requires { Firsts records.now.bytes.now 0 first.now }
        ensures same { result.records.now.bytes.now ≡ records.now.bytes.now }
        ensures none { length result.keys.items ≡ 0 }
    {
        Names {
            records,
            first,
            keys: ArrayVec::new(),
            end: 0,
        }
    }

    // Whether one of them has the bytes `text`.
    fn has(&self, text: &[u8]) -> bool
        requires { (1 ≤ length text.now) × (length text.now ≤ 32) }
        ensures { MatchBool result ((i : ℕ) × (i < length self.now.keys.items) × (name_text self.now.records.now.bytes.now i ≡ text.now)) ((i : ℕ) → i < length self.now.keys.items → name_text self.now.records.now.bytes.now i ≢ text.now) }
    {
        let own = key(text);
        // By number, which the name's bytes are read by.
        (0..self.keys.len()).any(|i| self.keys[i] == own && self.records.text(i as u32) == text)
    }

    // Whether the next name's record is right.
    fn next_is_right(&self) -> bool
        requires { length self.now.keys.items < name_count self.now.records.now.bytes.now }
        ensures { MatchBool result (RightName self.now.records.now.bytes.now (length self.now.keys.items)) (RightName self.now.records.now.bytes.now (length self.now.keys.items) → ⊥) }
    {
        let j = self.keys.len() as u32;
        let n = self.records.name(j);
        let end = n.offset as u64 + n.length as u64;
        if n.offset != self.end || end > self.records.byte_count() as u64 {
            return false;
        }
        if n.first >= self.records.element_count() || n.first != self.first[j as usize] {
            return false;
        }
        let text = self.records.text(j);
        name::is_name(text) && !self.has(text)
    }

    // Takes in the next name, whose record is right.
    fn push(&mut self)
        requires within { length self.old.keys.items < name_count self.old.records.now.bytes.now }
        requires right { RightName self.old.records.now.bytes.now (length self.old.keys.items) }
        ensures same { self.new.records.now.bytes.now ≡ self.old.records.now.bytes.now }
        ensures more { length self.new.keys.items ≡ length self.old.keys.items + 1 }
    {
        let j = self.keys.len() as u32;
        self.keys.push(key(self.records.text(j)));
        self.end += self.records.name(j).length;
    }
}

// The name records in order, and whether they take up all name bytes. `first` holds each name's first element.
pub(crate) fn check_names(records: &Records, first: &[u32; MOST_NAMES]) -> Result<(), Fault>
    requires firsts { Firsts records.now.bytes.now 0 first.now }
    requires elements { Each (RightElement records.now.bytes.now) (element_count records.now.bytes.now) }
    ensures { MatchResult result (λ _. Each (RightName records.now.bytes.now) (name_count records.now.bytes.now) × (names_end records.now.bytes.now (name_count records.now.bytes.now) ≡ byte_count records.now.bytes.now)) (λ f. WrongName records.now.bytes.now f) }
{
    let mut names = Names::new(records, first);
    // By number, as records are read.
    for j in 0..records.name_count() {
        if !names.next_is_right() {
            return Err(Refusal::NameRecord.at(records.name_offset(j)));
        }
        names.push();
    }
    if names.end != records.byte_count() {
        return Err(Refusal::NameRecord.at(records.bytes_offset()));
    }
    Ok(())
}
