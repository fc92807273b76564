// The largest books.
use std::alloc::{AllocError, Global};

// A name of 32 bytes, one of 1,024, whose letters at `skip` and behind tell its number.
fn name(number: u32, skip: usize) -> [u8; 32] {
    let mut bytes = [b'a'; 32];
    let rests = [number, number / 11, number / 121];
    for (byte, rest) in bytes.iter_mut().zip(rests) {
        *byte = b'a' + (rest % 11) as u8;
    }
    bytes.rotate_right(skip % 32);
    bytes
}

// A book text with 65,535 elements and 1,024 names of 32 bytes; names tell apart by three letters from the one at `skip` on.
pub(crate) fn largest(heap: Global, skip: usize) -> Result<Vec<u8>, AllocError> {
    let mut text = Vec::new(heap);
    let top = name(0, skip);
    text.push(b'<')?;
    text.extend_from_slice(&top)?;
    text.push(b'>')?;
    for i in 1..65_535u32 {
        text.push(b'<')?;
        text.extend_from_slice(&name(i % 1024, skip))?;
        text.extend_from_slice(b"/>")?;
    }
    text.extend_from_slice(b"</")?;
    text.extend_from_slice(&top)?;
    text.push(b'>')?;
    Ok(text)
}
