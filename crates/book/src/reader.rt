// Reads a book text into its elements and names.
ghost use Rattle.std.specs.Prelude.{◌≡◌, ◌+◌, ◌<◌, ◌≤◌, length, OnOk};
ghost use Rattle.lexer.specs.Item.{Item, spelling};
ghost use Rattle.lexer.specs.Token.{item_of, whole_of};
ghost use Rattle.book.specs.Document.{intern};
ghost use Rattle.book.specs.Reading.{allowed, blanks_only, short_enough, entered, initial, step, finished};
ghost use Rattle.book.specs.Views.{tree_of, Answers};
ghost use Rattle.book.specs.Answer.{ReadsBook};

use crate::book::Book;
use indexmap::IndexSet;
use lexer::class::Blanks;
use lexer::{Lexer, Token};
use markup::{Error, Fault, Refusal, scan};
use std::alloc::Global;
use std::marker::Model;
use tree::Element;

// The limits of a book text. A sheet shares the first three.
pub use tree::limits::{MOST_ELEMENTS, MOST_LEVELS as MOST_OPEN, MOST_NAMES};

pub const MOST_BYTES: usize = 16_777_216;

// Whether a text is not too long.
fn check_length(text: &[u8]) -> Result<(), Fault>
    ensures value { result ≡ short_enough (length text.now) }
    ensures short { OnOk result (length text.now ≤ 16777216) }
{
    if text.len() > MOST_BYTES {
        Err(Refusal::BookTooLong.at(MOST_BYTES))
    } else {
        Ok(())
    }
}

// Whether a text run at `place` holds only blanks.
fn check_blanks(run: &[u8], place: u32) -> Result<(), Fault>
    ensures { result ≡ blanks_only place run.now }
{
    let blanks = scan::run::<Blanks>(run);
    if blanks == run.len() {
        Ok(())
    } else {
        Err(Refusal::Stray.at(place as usize + blanks))
    }
}

// An open element, whose end is still 0, with its number and the bytes of its name.
#[derive(Drop)]
struct Open<'t> {
    number: usize,
    element: Element,
    name: &'t [u8],
}

// The tree so far: the elements, their names by first use, and the open elements, innermost last.
#[derive(Drop)]
struct Reader<'t> {
    elements: Vec<Element>,
    names: IndexSet<&'t [u8]>,
    opens: Vec<Open<'t>>,
}

// In a clause a reader is its state, which is always consistent.
impl<'t> Model for Reader<'t> {
    ghost use Rattle.book.specs.Reading.{State, Consistent};

    ghost Value = { State };

    ghost use Rattle.book.specs.Views.{state_of};

    ghost view = { state_of };

    ghost invariant = { λ r. Consistent (state_of r) };
}

impl<'t> Reader<'t> {
    fn new(heap: Global) -> Self
        ensures { result ≡ initial }
    {
        Reader {
            elements: Vec::new(heap),
            names: IndexSet::new(heap),
            opens: Vec::new(heap),
        }
    }

    // Whether a further element may begin at `place`; its name has this number.
    fn check_element(&self, number: usize, place: u32) -> Result<(), Fault>
        ensures value { result ≡ allowed (length self.now.opens) (length self.now.elements) number place }
        ensures within { OnOk result ((length self.now.opens < 64) × (number < 1024)) }
    {
        let place = place as usize;
        if self.opens.is_empty() && !self.elements.is_empty() {
            return Err(Refusal::TopElement.at(place));
        }
        if self.opens.len() >= MOST_OPEN {
            return Err(Refusal::TooDeep.at(place));
        }
        if self.elements.len() >= MOST_ELEMENTS || number >= MOST_NAMES {
            return Err(Refusal::TooMany.at(place));
        }
        Ok(())
    }

    // The element of a tag at `place`, whose name is among the names from now on.
    fn admit(&mut self, name: &'t [u8], place: u32) -> Result<Element, Error>
        ensures element { Answers (entered self.old place name.now) result (λ e. e) }
        ensures names { OnOk result (self.new ≡ record self.old { names = intern self.old.names name.now }) }
    {
        let known = self.names.get_index_of(name);
        let number = known.unwrap_or(self.names.len());
        self.check_element(number, place)?;
        if known.is_none() {
            self.names.insert(name)?;
        }
        Ok(Element {
            start: place,
            end: 0,
            level: self.opens.len() as u16,
            name: number as u16,
        })
    }

    // A start tag: its element is open from here on. Name and place go apart, here and below: the place is a `u32` from here on,
    // which it is not in a `Tag`.
    fn start(&mut self, name: &'t [u8], place: u32) -> Result<(), Error>
        ensures { Answers (step self.old place (Item.start name.now)) result (λ _. self.new) }
    {
        let element = self.admit(name, place)?;
        let number = self.elements.len();
        self.elements.push(element)?;
        self.opens.push(Open {
            number,
            element,
            name,
        })?;
        Ok(())
    }

    // An empty tag: its element ends at the `/` behind its name.
    fn empty(&mut self, name: &'t [u8], place: u32) -> Result<(), Error>
        requires { place + 1 + length name.now ≤ 16777216 }
        ensures { Answers (step self.old place (Item.empty name.now)) result (λ _. self.new) }
    {
        let element = self.admit(name, place)?;
        self.elements.push(Element {
            end: place + 1 + name.len() as u32,
            ..element
        })?;
        Ok(())
    }

    // An end tag: it closes the innermost open element.
    fn close(&mut self, name: &[u8], place: u32) -> Result<(), Error>
        ensures { Answers (step self.old place (Item.end name.now)) result (λ _. self.new) }
    {
        match self.opens.pop() {
            Some(open) if open.name == name => {
                self.elements[open.number] = Element {
                    end: place,
                    ..open.element
                };
                Ok(())
            }
            _ => Err(Refusal::WrongEndTag.at(place as usize).into()),
        }
    }

    // A text run: outside the top element it holds only blanks.
    fn text(&self, run: &[u8], place: u32) -> Result<(), Error>
        ensures { Answers (step self.now place (Item.text run.now)) result (λ _. self.now) }
    {
        if self.opens.is_empty() {
            check_blanks(run, place)?;
        }
        Ok(())
    }

    // The next item.
    fn take(&mut self, token: Token<'t>) -> Result<(), Error>
        requires { (whole_of token).place + length (spelling (item_of token)) ≤ 16777216 }
        ensures { Answers (step self.old (whole_of token.entry).place (item_of token.entry)) result (λ _. self.new) }
    {
        let place = token.whole().place as u32;
        match token {
            Token::Start(tag) => self.start(tag.name.bytes, place),
            Token::Empty(tag) => self.empty(tag.name.bytes, place),
            Token::End(tag) => self.close(tag.name.bytes, place),
            Token::Text(run) => self.text(run.bytes, place),
        }
    }

    // The book, at the end of a text of `len` bytes.
    fn finish(self, heap: Global, len: usize) -> Result<Book<'t>, Error>
        ensures { Answers (finished len self.entry) result tree_of }
    {
        if self.elements.is_empty() {
            return Err(Refusal::TopElement.at(len).into());
        }
        if let Some(open) = self.opens.last() {
            return Err(Refusal::Unclosed.at(open.element.start as usize).into());
        }
        Ok(Book {
            elements: self.elements,
            names: self.names.into_iter().collect(heap)?,
        })
    }
}

// The elements and names of a book text, or the first refusal with its place.
pub fn read<'t>(heap: Global, text: &'t [u8]) -> Result<Book<'t>, Error>
    ensures { ReadsBook text.now result }
{
    check_length(text)?;
    let mut lexer = Lexer::new(text);
    let mut reader = Reader::new(heap);
    while let Some(token) = lexer.next()? {
        reader.take(token)?;
    }
    reader.finish(heap, text.len())
}
