// A view of a lawful sheet.
ghost use Rattle.std.specs.Prelude.{◌≡◌, true, is_ok, if◌then◌else◌, Decides};
ghost use Rattle.layout.specs.Layout.{element_count, name_count, tree_of};
ghost use Rattle.layout.specs.Lawful.{LawfulSheet};
ghost use Rattle.layout.specs.Encoding.{sheet_of};
ghost use Rattle.sheet.specs.Opening.{Opened};
ghost use Rattle.sheet.specs.Viewing.{first_tree, element_in, next_in, first_in, NameIn, Found};

use crate::check;
use crate::records::Records;
use markup::Fault;
use tree::Element;

// The sheet of `<a/>`.
static FIRST: &[u8; 61] = b"\x01\0\0\0\x01\0\0\0\x01\0\0\0\x20\0\0\0\
    \x30\0\0\0\x3c\0\0\0\x01\0\0\0\x3d\0\0\0\
    \0\0\0\0\x02\0\0\0\0\0\0\0\x01\0\0\0\
    \0\0\0\0\x01\0\0\0\0\0\0\0a";

// Shows the elements and names of a lawful sheet, straight from its bytes. Elements and names are numbered from 0.
#[derive(Clone, Copy)]
pub struct SheetView<'b> {
    bytes: &'b [u8],
    ghost lawful: { ∥ LawfulSheet bytes.now ∥₁ },
}

impl<'b> SheetView<'b> {
    // A view of the sheet of `<a/>`.
    pub fn new() -> Self
        ensures { result.bytes.now ≡ sheet_of first_tree }
    {
        SheetView { bytes: FIRST }
    }

    // Turns the view to the given bytes where they are a lawful sheet, which is then the sheet of the tree that it shows.
    // Else the fault is what is wrong first, and the view stays as it was.
    pub fn open(&mut self, bytes: &'b [u8]) -> Result<(), Fault>
        ensures answer { Opened bytes.now result }
        ensures whole { is_ok result ≡ true → bytes.now ≡ sheet_of (tree_of bytes.now) }
        ensures granted { Decides (is_ok result) (LawfulSheet bytes.now) }
        ensures shows { self.new.bytes.now ≡ (if is_ok result then bytes.now else self.old.bytes.now) }
    {
        check::check_sheet(bytes)?;
        *self = SheetView { bytes };
        Ok(())
    }

    // The records of the sheet.
    fn records(&self) -> Records<'b>
        ensures { result.bytes.now ≡ self.now.bytes.now }
    {
        Records { bytes: self.bytes }
    }

    // How many elements there are.
    pub fn element_count(&self) -> u32
        ensures { result ≡ element_count self.now.bytes.now }
    {
        self.records().element_count()
    }

    // How many names there are.
    pub fn name_count(&self) -> u32
        ensures { result ≡ name_count self.now.bytes.now }
    {
        self.records().name_count()
    }

    // Element k.
    pub fn element(&self, k: u32) -> Option<Element>
        ensures { result ≡ element_in self.now.bytes.now k }
    {
        // Here and below not by `then`, with which the proof did not close.
        if k >= self.element_count() {
            return None;
        }
        Some(self.records().element(k))
    }

    // The number of the nearest later element with element k's name, if there is one.
    pub fn next(&self, k: u32) -> Option<u32>
        ensures { result ≡ next_in self.now.bytes.now k }
    {
        let count = self.element_count();
        if k >= count {
            return None;
        }
        let next = self.records().next(k);
        (next < count).then_some(next)
    }

    // The bytes of name j.
    pub fn name(&self, j: u32) -> Option<&'b [u8]>
        ensures { NameIn self.now.bytes.now j result }
    {
        if j >= self.name_count() {
            return None;
        }
        Some(self.records().text(j))
    }

    // The number of the first element with name j, if there is such a name.
    pub fn first(&self, j: u32) -> Option<u32>
        ensures { result ≡ first_in self.now.bytes.now j }
    {
        if j < self.name_count() {
            Some(self.records().name(j).first)
        } else {
            None
        }
    }

    // The number of the name with these bytes.
    pub fn find(&self, text: &[u8]) -> Option<u32>
        ensures { Found self.now.bytes.now text.now result }
    {
        let records = self.records();
        (0..self.name_count()).find(|j| records.text(*j) == text)
    }
}
