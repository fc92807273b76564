// Which elements a set takes, by their numbers.
ghost use Rattle.std.specs.Prelude.{◌≡◌, ℕ, Bool};
ghost use Rattle.chain.specs.Select.{every, marked};

// A choice among the elements of a sheet.
pub trait Select {
    ghost selects: { Self → ℕ → Bool };

    // Whether element k is taken.
    fn select(&self, k: u32) -> bool
        ensures { result ≡ selects self.now k };
}

// Every element.
#[derive(Clone, Copy)]
pub struct AnyElement;

impl Select for AnyElement {
    ghost selects = { λ _. every };

    fn select(&self, _k: u32) -> bool {
        true
    }
}

// The elements whose mark byte is not 0. Byte k is the mark of element k; an element past the last byte has none, and is not taken.
#[derive(Clone, Copy)]
pub struct Marked<'b> {
    pub marks: &'b [u8],
}

impl<'b> Select for Marked<'b> {
    ghost selects = { λ m. marked m.marks.now };

    fn select(&self, k: u32) -> bool {
        self.marks.get(k as usize).is_some_and(|mark| *mark != 0)
    }
}
