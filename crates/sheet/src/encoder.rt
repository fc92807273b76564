// Writes the sheet of elements and names.
ghost use Rattle.std.specs.Prelude.{◌≡◌, ℕ, ◌+◌, ◌*◌, ◌<◌, ◌≤◌, Ok, IfOk, All, length, slice_index};
ghost use Rattle.markup.specs.Faults.{and_then};
ghost use Rattle.layout.specs.Encoding.{seek, header_bytes, element_table, name_table, joint, encoded};
ghost use Rattle.sheet.specs.Writing.{fields_fit, encodes, written};
ghost use Rattle.tree.specs.Tree.{bytes_of};

use crate::write;
use byteorder::{ByteOrder, LittleEndian};
use layout::NameRecord;
use markup::{Fault, Refusal, name};
use tree::Element;
use tree::limits::{MOST_ELEMENTS, MOST_NAMES};

// Elements and names that a sheet's fields can hold.
#[derive(Clone, Copy)]
struct Contents<'a> {
    elements: &'a [Element],
    names: &'a [&'a [u8]],
    ghost few_elements: { length elements.now ≤ 65535 },
    ghost few_names: { length names.now ≤ 1024 },
    ghost numbered: { All (λ e. e.name < length names.now) elements.now },
    ghost short: { All (λ n. length n.now ≤ 32) names.now },
}

impl<'a> Contents<'a> {
    // The fault is the first field or record that would be wrong.
    fn new(elements: &'a [Element], names: &'a [&'a [u8]]) -> Result<Contents<'a>, Fault>
        ensures fits { and_then result (λ _. Ok tt) ≡ fields_fit elements.now (bytes_of names.now) }
        ensures same { IfOk result (λ c. (c.elements.now ≡ elements.now) × (c.names.now ≡ names.now)) }
    {
        if elements.len() > MOST_ELEMENTS {
            return Err(Refusal::HeaderField.at(4));
        }
        if names.len() > MOST_NAMES {
            return Err(Refusal::HeaderField.at(8));
        }
        if let Some(k) = elements.iter().position(|e| e.name as usize >= names.len()) {
            return Err(Refusal::ElementRecord.at(32 + 16 * k));
        }
        if let Some(j) = names.iter().position(|n| n.len() > name::MOST_BYTES) {
            return Err(Refusal::NameRecord.at(32 + 16 * elements.len() + 12 * j));
        }
        Ok(Contents { elements, names })
    }

    // How many bytes the names have together.
    fn joint_length(&self) -> usize
        ensures { result ≡ length (joint (bytes_of self.now.names.now)) }
    {
        self.names.iter().map(|n| n.len()).sum()
    }

    // How long the sheet is.
    #[tactic(auto, using(crate::proofs::Parts::length_sheet, crate::proofs::Fields::joint_le))]
    fn sheet_length(&self) -> usize
        ensures { result ≡ length (encoded self.now.elements.now (bytes_of self.now.names.now)) }
    {
        32 + 16 * self.elements.len() + 12 * self.names.len() + self.joint_length()
    }

    // Writes the header.
    #[tactic(auto, using(crate::proofs::Fields::joint_le), unfolding(layout::specs::Encoding::le32))]
    fn put_header(&self, out: &mut [u8])
        requires { length out.old ≡ 32 }
        ensures { out.new ≡ header_bytes (length self.now.elements.now) (length self.now.names.now) (length (joint (bytes_of self.now.names.now))) }
    {
        let elements = self.elements.len() as u32;
        let names = self.names.len() as u32;
        let bytes = self.joint_length() as u32;
        let table = 32 + 16 * elements;
        let text = table + 12 * names;
        let numbers = [1, elements, names, 32, table, text, bytes, text + bytes];
        LittleEndian::write_u32_into(&numbers, out);
    }

    // Writes the element table, in one pass from the back that knows the nearest element of each name. Answers each
    // name's first element.
    fn put_elements(&self, table: &mut [u8]) -> [u32; MOST_NAMES]
        requires { length table.old ≡ 16 * length self.now.elements.now }
        ensures puts { table.new ≡ element_table self.now.elements.now 0 }
        ensures first { (n : ℕ) → n < 1024 → slice_index result n ≡ seek n self.now.elements.now 0 }
    {
        // The count of elements stands for none, as it does in the sheet.
        let mut nearest = [self.elements.len() as u32; MOST_NAMES];
        // Records by number, since `chunks_exact_mut` does not say what the table then holds.
        for (k, e) in self.elements.iter().enumerate().rev() {
            let name = e.name as usize;
            write::put_element(&mut table[16 * k..16 * (k + 1)], *e, nearest[name]);
            nearest[name] = k as u32;
        }
        nearest
    }

    // Writes the name table and the names' bytes.
    #[tactic(auto, using(crate::proofs::Fields::joint_le, crate::proofs::Parts::offset_within))]
    fn put_names(&self, first: &[u32; MOST_NAMES], table: &mut [u8], text: &mut [u8])
        requires table { length table.old ≡ 12 * length self.now.names.now }
        requires text { length text.old ≡ length (joint (bytes_of self.now.names.now)) }
        ensures table { table.new ≡ name_table (λ j. slice_index first.now j) (bytes_of self.now.names.now) 0 0 }
        ensures text { text.new ≡ joint (bytes_of self.now.names.now) }
    {
        // Where the next name's bytes begin, which its record tells. Records by number, as above.
        let mut offset = 0;
        for (j, name) in self.names.iter().enumerate() {
            let end = offset + name.len();
            let record = NameRecord {
                offset: offset as u32,
                length: name.len() as u32,
                first: first[j],
            };
            write::put_name(&mut table[12 * j..12 * (j + 1)], record);
            text[offset..end].copy_from_slice(name);
            offset = end;
        }
    }

    // Writes the sheet.
    #[tactic(auto, using(crate::proofs::Parts::length_sheet, crate::proofs::Fields::joint_le))]
    fn put(&self, out: &mut [u8])
        requires { length out.old ≡ length (encoded self.now.elements.now (bytes_of self.now.names.now)) }
        ensures { out.new ≡ encoded self.now.elements.now (bytes_of self.now.names.now) }
    {
        let (header, tables) = out.split_at_mut(32);
        let (elements, rest) = tables.split_at_mut(16 * self.elements.len());
        let (names, text) = rest.split_at_mut(12 * self.names.len());
        self.put_header(header);
        let first = self.put_elements(elements);
        self.put_names(&first, names, text);
    }
}

// Writes the sheet of these elements and names from byte 0 on, leaves the bytes behind it as they are, and answers its
// length. Where a sheet's fields cannot hold them (more than 65,535 elements, more than 1,024 names, a name number that
// no name has, a name of more than 32 bytes), the fault is the first field or record that would be wrong; where the
// sheet does not fit, it is `SheetWontFit` with the length needed. A refusal writes nothing.
//
// The elements and names of a lawful tree have a sheet, and it is lawful. Of others the sheet that is written is not:
// opening it is refused.
pub fn encode(elements: &[Element], names: &[&[u8]], out: &mut [u8]) -> Result<usize, Fault>
    ensures answer { result ≡ encodes elements.now (bytes_of names.now) (length out.old) }
    ensures buffer { out.new ≡ written elements.now (bytes_of names.now) result out.old }
{
    let contents = Contents::new(elements, names)?;
    let length = contents.sheet_length();
    if out.len() < length {
        return Err(Refusal::SheetWontFit.at(length));
    }
    contents.put(&mut out[..length]);
    Ok(length)
}
