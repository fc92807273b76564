// The name of a node.
ghost use Rattle.std.specs.Prelude.{◌<◌, ◌≤◌};

use markup::name;

// The first `len` bytes.
// Not an `ArrayString`, which has a model: a twig that holds one gets no proof where it is passed by value and used again.
#[derive(Clone, Copy)]
pub(crate) struct Name {
    bytes: [u8; name::MOST_BYTES],
    len: usize,
    ghost some: { 0 < len },
    ghost short: { len ≤ 32 },
}

impl Name {
    ghost use Rattle.std.specs.Prelude.{◌≡◌, length};
    ghost use Rattle.pattern.specs.Table.{name_of};

    // A name of these bytes.
    pub(crate) fn new(text: &[u8]) -> Name
        requires some { 0 < length text.now }
        requires short { length text.now ≤ 32 }
        ensures { name_of result ≡ text.now }
    {
        let mut bytes = [0; name::MOST_BYTES];
        bytes[..text.len()].copy_from_slice(text);
        Name {
            bytes,
            len: text.len(),
        }
    }

    pub(crate) fn as_bytes(&self) -> &[u8]
        ensures value { result.now ≡ name_of self.now }
        ensures short { length result.now ≤ 32 }
    {
        &self.bytes[..self.len]
    }
}
