// The items of a book text, as parts of it.

// A part of the book text: the place of its first byte, and its bytes.
#[derive(Clone, Copy, Debug)]
pub struct Part<'t> {
    pub place: usize,
    pub bytes: &'t [u8],
}

// A tag and the name in it.
#[derive(Clone, Copy, Debug)]
pub struct Tag<'t> {
    pub whole: Part<'t>,
    pub name: Part<'t>,
}

// An item of a book text.
#[derive(Clone, Copy, Debug)]
pub enum Token<'t> {
    // <chapter>
    // ~~~~~~~~~ whole
    //  ~~~~~~~  name
    Start(Tag<'t>),
    // </chapter>
    // ~~~~~~~~~~ whole
    //   ~~~~~~~  name
    End(Tag<'t>),
    // <page/>
    // ~~~~~~~ whole
    //  ~~~~   name
    Empty(Tag<'t>),
    // one or more bytes up to the next `<` or the end
    Text(Part<'t>),
}
