// The sets that follow the chains of a sheet.
ghost use Rattle.std.specs.Prelude.{◌≡◌, true, length, None, IfSome, slice_index_or};
ghost use Rattle.layout.specs.Layout.{tree_of};
ghost use Rattle.pattern.specs.Twig.{shape_of};
ghost use Rattle.chain.specs.Chains.{chain_from, chains, book_of};
ghost use Rattle.chain.specs.Select.{every, marked};
ghost use Rattle.chain.specs.Named.{numbers_of, lists_of};
ghost use Rattle.chain.specs.Standing.{StandsFor};
ghost use Rattle.chain.specs.Laws.{chain_laws};

use crate::select::{AnyElement, Marked, Select};
use pattern::Twig;
use sheet::SheetView;
use std::array;
use stream::set::{SkippingSet, StreamSet};
use stream::{POSITIONS, Region};

// The number of the first element with the name of node i, if there is one.
fn head(view: &SheetView, twig: &Twig, i: usize) -> Option<u32>
    ensures { chain_from view.now.bytes.now result ≡ numbers_of view.now.bytes.now (shape_of twig.now).nodes i }
{
    let name = twig.name(i)?;
    let j = view.find(name)?;
    view.first(j)
}

// Sets a head. Where it has a number before and after, the number alone is written, since a walk is slower where all of it is.
fn set_head(head: &mut Option<u32>, next: Option<u32>)
    ensures { head.new ≡ next }
{
    if let Some(k) = head
        && let Some(next) = next
    {
        *k = next;
    } else {
        *head = next;
    }
}

// For each position the number of an element, if its list has one left. The list has the elements from there on with the name of
// this element, as far as they are selected.
#[derive(Clone, Copy, Drop)]
pub struct Chains<'b, M> {
    view: SheetView<'b>,
    heads: [Option<u32>; POSITIONS],
    select: M,
}

// At each position all elements with a name.
pub type ChainSet<'b> = Chains<'b, AnyElement>;

// At each position the elements with a name that are marked.
pub type MarkedSet<'b> = Chains<'b, Marked<'b>>;

impl<'b> Chains<'b, AnyElement> {
    // The elements of a sheet by the names of a pattern's nodes.
    pub fn new(view: SheetView<'b>, twig: &Twig) -> Self
        ensures book { book_of result.view.bytes.now ≡ book_of view.entry.bytes.now }
        ensures lists { chains result.view.bytes.now every result.heads ≡ lists_of (tree_of view.entry.bytes.now) (shape_of twig.now).nodes }
        ensures stands { StandsFor (tree_of view.entry.bytes.now) (shape_of twig.now).nodes (λ _ _ _. true) (⟦<ChainSet<'b> as StreamSet>⟧.book result) (⟦<ChainSet<'b> as StreamSet>⟧.lists result) }
    {
        Chains::over(view, twig, AnyElement)
    }
}

impl<'b> Chains<'b, Marked<'b>> {
    // The marked elements of a sheet by the names of a pattern's nodes. Byte k is the mark of element k.
    pub fn new(view: SheetView<'b>, twig: &Twig, marks: &'b [u8]) -> Self
        ensures { StandsFor (tree_of view.entry.bytes.now) (shape_of twig.now).nodes (λ _ k _. marked marks.now k) (⟦<MarkedSet<'b> as StreamSet>⟧.book result) (⟦<MarkedSet<'b> as StreamSet>⟧.lists result) }
    {
        Chains::over(view, twig, Marked { marks })
    }
}

impl<'b, M: Select> Chains<'b, M> {
    // The selected elements of a sheet by the names of a pattern's nodes.
    fn over(view: SheetView<'b>, twig: &Twig, select: M) -> Self
        ensures view { result.view ≡ view.entry }
        ensures stands { StandsFor (tree_of view.entry.bytes.now) (shape_of twig.now).nodes (λ _ k _. M.Select.selects select k) (⟦<Chains<'b, M> as StreamSet>⟧.book result) (⟦<Chains<'b, M> as StreamSet>⟧.lists result) }
    {
        let heads = array::from_fn(|i| head(&view, twig, i));
        Chains {
            view,
            heads,
            select,
        }
    }

    // The number of the first element of list i. The head of the list moves on to it.
    fn first(&mut self, i: usize) -> Option<u32>
        ensures head { result ≡ slice_index_or self.new.heads i None }
        ensures selected { IfSome result (λ k. M.Select.selects self.new.select k ≡ true) }
        ensures same { ⟦<Chains<'b, M> as StreamSet>⟧.lists self.new ≡ ⟦<Chains<'b, M> as StreamSet>⟧.lists self.old }
        ensures view { self.new.view ≡ self.old.view }
        ensures positions { length self.new.heads ≡ 16 }
    {
        // A loop, since `find` asks that its iterator is known to end, and one by `successors` never is.
        while let Some(k) = self.heads.get(i).copied().flatten() {
            if self.select.select(k) {
                return Some(k);
            }
            let next = self.view.next(k);
            set_head(&mut self.heads[i], next);
        }
        None
    }
}

impl<'b, M: Select> StreamSet for Chains<'b, M> {
    ghost book = { λ c. book_of c.view.bytes.now };

    ghost lists = { λ c. chains c.view.bytes.now (M.Select.selects c.select) c.heads };

    ghost laws = { chain_laws (λ c. c.view.bytes.now) (λ c. M.Select.selects c.select) (λ c. c.heads) (λ c. c.view.lawful) };

    fn tell(&mut self, i: usize) -> Option<Region> {
        let k = self.first(i)?;
        self.view.element(k).map(Region::from)
    }

    fn advance(&mut self, i: usize) {
        if let Some(taken) = self.first(i) {
            let next = self.view.next(taken);
            set_head(&mut self.heads[i], next);
        }
    }
}

impl<'b, M: Select> SkippingSet for Chains<'b, M> {}
