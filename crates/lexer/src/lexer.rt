// Cuts a book text into its items.
ghost use Rattle.std.specs.Prelude.{◌≡◌, ◌+◌, ◌^◌, ◌<◌, ◌≤◌, [], ◌∷◌, length, take, drop, IfOk};
ghost use Rattle.std.specs.List.{prefix_len};
ghost use Rattle.lexer.specs.Bytes.{text_byte};
ghost use Rattle.lexer.specs.Item.{Item};
ghost use Rattle.lexer.specs.Lex.{name_at, end_tag, start_tag, item_at, lex, behind};
ghost use Rattle.lexer.specs.Token.{item_of, Written, Finds, answered, Parts};

use crate::class::TextBytes;
use crate::token::{Part, Tag, Token};
use markup::scan::NameBytes;
use markup::{Fault, Refusal, name, scan};

// What is left of a book text: the place of its first byte, and its bytes. Unlike a `Part`, which anyone can make, it ends below 2^64.
#[derive(Clone, Copy)]
struct Rest<'t> {
    place: usize,
    bytes: &'t [u8],
    ghost fits: { place + length bytes.now < 2 ^ 64 },
}

impl<'t> Rest<'t> {
    // What is left behind the first `skip` bytes.
    fn behind(&self, skip: usize) -> Rest<'t>
        requires { skip ≤ length self.now.bytes.now }
        ensures place { result.place ≡ self.now.place + skip }
        ensures bytes { result.bytes.now ≡ drop skip self.now.bytes.now }
    {
        Rest {
            place: self.place + skip,
            bytes: &self.bytes[skip..],
        }
    }

    // The part of `len` bytes behind the first `skip`.
    fn part(&self, skip: usize, len: usize) -> Part<'t>
        requires { skip + len ≤ length self.now.bytes.now }
        ensures place { result.place ≡ self.now.place + skip }
        ensures bytes { result.bytes.now ≡ take len (drop skip self.now.bytes.now) }
    {
        Part {
            place: self.place + skip,
            bytes: &self.bytes[skip..skip + len],
        }
    }

    // The length of the name at the front.
    fn name_len(&self) -> Result<usize, Fault>
        ensures value { result ≡ name_at self.now.place self.now.bytes.now }
        ensures within { IfOk result (λ n. n ≤ length self.now.bytes.now) }
    {
        if !self.bytes.first().is_some_and(|b| name::starts_name(*b)) {
            return Err(Refusal::Stray.at(self.place));
        }
        let len = scan::run::<NameBytes>(self.bytes);
        if len > name::MOST_BYTES {
            return Err(Refusal::BookNameTooLong.at(self.place + name::MOST_BYTES));
        }
        Ok(len)
    }

    // The tag of `size` bytes at the front. Its name has `len` bytes, behind the first `skip`.
    fn tag(&self, skip: usize, len: usize, size: usize) -> Tag<'t>
        requires name { skip + len ≤ size }
        requires whole { size ≤ length self.now.bytes.now }
        ensures whole { (result.whole.place ≡ self.now.place) × (result.whole.bytes.now ≡ take size self.now.bytes.now) }
        ensures name { (result.name.place ≡ self.now.place + skip) × (result.name.bytes.now ≡ take len (drop skip self.now.bytes.now)) }
    {
        Tag {
            whole: self.part(0, size),
            name: self.part(skip, len),
        }
    }

    // The end tag at the front, which begins with `</`.
    fn end_tag(&self) -> Result<Token<'t>, Fault>
        requires begins { take 2 self.now.bytes.now ≡ 60 ∷ 47 ∷ [] }
        ensures { Finds self.now.place (end_tag self.now.place (drop 2 self.now.bytes.now)) result }
    {
        let len = self.behind(2).name_len()?;
        let close = self.behind(2 + len);
        let [b'>', ..] = close.bytes else {
            return Err(Refusal::Stray.at(close.place));
        };
        Ok(Token::End(self.tag(2, len, len + 3)))
    }

    // The start or empty tag at the front, which begins with `<`.
    fn start_tag(&self) -> Result<Token<'t>, Fault>
        requires begins { take 1 self.now.bytes.now ≡ 60 ∷ [] }
        ensures { Finds self.now.place (start_tag self.now.place (drop 1 self.now.bytes.now)) result }
    {
        let len = self.behind(1).name_len()?;
        let close = self.behind(1 + len);
        match close.bytes {
            [b'>', ..] => Ok(Token::Start(self.tag(1, len, len + 2))),
            [b'/', b'>', ..] => Ok(Token::Empty(self.tag(1, len, len + 3))),
            [b'/', ..] => Err(Refusal::Stray.at(close.place + 1)),
            _ => Err(Refusal::Stray.at(close.place)),
        }
    }

    // The text run at the front.
    fn text_run(&self) -> Token<'t>
        ensures item { item_of result ≡ Item.text (take (prefix_len text_byte self.now.bytes.now) self.now.bytes.now) }
        ensures written { Written self.now.place result }
    {
        let len = scan::run::<TextBytes>(self.bytes);
        Token::Text(self.part(0, len))
    }

    // The item at the front: a tag is known by its first two bytes.
    fn item_at(&self) -> Result<Token<'t>, Fault>
        ensures { Finds self.now.place (item_at self.now.place self.now.bytes.now) result }
    {
        match self.bytes {
            [b'<', b'/', ..] => self.end_tag(),
            [b'<', ..] => self.start_tag(),
            _ => Ok(self.text_run()),
        }
    }
}

// A book text with the place of its next item.
#[derive(Drop)]
pub struct Lexer<'t> {
    text: &'t [u8],
    at: usize,
    ghost inside: { at ≤ length text.now },
}

impl<'t> Lexer<'t> {
    // A lexer at the beginning of a text, which may be any bytes.
    pub fn new(text: &'t [u8]) -> Self
        ensures { (result.text.now ≡ text.now) × (result.at ≡ 0) }
    {
        Lexer { text, at: 0 }
    }

    // What is left of the text.
    fn rest(&self) -> Rest<'t>
        ensures place { result.place ≡ self.now.at }
        ensures bytes { result.bytes.now ≡ drop self.now.at self.now.text.now }
    {
        Rest {
            place: self.at,
            bytes: &self.text[self.at..],
        }
    }

    // The next item, and the lexer moves behind it; or nothing at the end of the text. A refusal moves nothing.
    pub fn next(&mut self) -> Result<Option<Token<'t>>, Fault>
        ensures text { self.new.text.now ≡ self.old.text.now }
        ensures item { answered result ≡ lex self.old.at (drop self.old.at self.old.text.now) }
        ensures moved { self.new.at ≡ behind self.old.at (answered result) }
        ensures parts { Parts self.old.text.now self.old.at result }
    {
        // No `is_empty` of the rest: with it the loop over a text run takes an instruction more for each byte.
        if self.at == self.text.len() {
            return Ok(None);
        }
        let token = self.rest().item_at()?;
        self.at += token.whole().bytes.len();
        Ok(Some(token))
    }
}
