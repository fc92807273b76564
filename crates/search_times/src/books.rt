// Books to search.
use std::alloc::{AllocError, Global};

// A book of chapters `c`, each with so many pages `p`, each with so many lines `w`.
pub(crate) fn plain(
    heap: Global,
    chapters: u32,
    pages: u32,
    lines: u32,
) -> Result<Vec<u8>, AllocError> {
    let mut text = Vec::new(heap);
    text.extend_from_slice(b"<b>")?;
    for _ in 0..chapters {
        text.extend_from_slice(b"<c>")?;
        for _ in 0..pages {
            text.extend_from_slice(b"<p>")?;
            for _ in 0..lines {
                text.extend_from_slice(b"<w/>")?;
            }
            text.extend_from_slice(b"</p>")?;
        }
        text.extend_from_slice(b"</c>")?;
    }
    text.extend_from_slice(b"</b>")?;
    Ok(text)
}

// So many elements `a`, each inside the one before, the innermost around a `c` that holds a `b`.
pub(crate) fn nested(heap: Global, depth: u32) -> Result<Vec<u8>, AllocError> {
    let mut text = Vec::new(heap);
    for _ in 0..depth {
        text.extend_from_slice(b"<a>")?;
    }
    text.extend_from_slice(b"<c><b/></c>")?;
    for _ in 0..depth {
        text.extend_from_slice(b"</a>")?;
    }
    Ok(text)
}
