// Classes of bytes, and runs of one class.
ghost use Rattle.std.specs.Prelude.{◌≡◌, ℕ, ◌≤◌, Bool, length};
ghost use Rattle.std.specs.List.{prefix_len};
ghost use Rattle.markup.specs.Name.{name_byte};

use crate::name;

// A class of bytes: `member` tests for it.
pub trait Class {
    ghost member: { ℕ → Bool };

    fn has(b: u8) -> bool
        ensures { result ≡ member b };
}

// The bytes that may stand in a name.
pub struct NameBytes;

impl Class for NameBytes {
    ghost member = { name_byte };

    fn has(b: u8) -> bool {
        name::in_name(b)
    }
}

// How many bytes of the class stand at the front.
pub fn run<C: Class>(bytes: &[u8]) -> usize
    ensures value { result ≡ prefix_len C.member bytes.now }
    ensures within { result ≤ length bytes.now }
{
    bytes
        .iter()
        .position(|b| !C::has(*b))
        .unwrap_or(bytes.len())
}
