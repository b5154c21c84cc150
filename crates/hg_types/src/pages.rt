//! A list that grows by pages.

ghost use Rattle.std.specs.Prelude.{◌≡◌, ◌<◌, [], ◌∷◌, ◌++◌, OnOk, OnErr, IfSome, IfNone, length, vec_len};
ghost use Rattle.std.specs.Prelude.{vec_capacity};
ghost use Rattle.std.specs.List.{AllByRecursion};
ghost use Rattle.hg_types.specs.code.Pages.{items_in, IsFilled};

use crate::memory::NoMemory;
use std::alloc::{Allocator, Global};
use std::marker::Model;
use std::mem;
use std::vec::IntoIter;

/// How many items a list asks for room for with its first one.
const FIRST: usize = 7;

/// How many items the first page has at most.
const FIRST_PAGE: usize = 28;

/// How many items each later page has room for.
const PAGE: usize = 40;

/// A list that is kept in pages, of which the first one grows and each later one has its room from the beginning. So
/// an item is moved at most once, and a list that grows beside many others asks for small blocks alone. Contracts
/// see the list of its items.
#[derive(Drop)]
pub struct Pages<T, A: Allocator = Global> {
    before: Vec<Vec<T, A>, A>,
    last: Vec<T, A>,
    len: usize,
}

impl<T, A: Allocator> Model for Pages<T, A> {
    ghost use Rattle.std.specs.Prelude.{List, ◌≡◌, ◌++◌, length};
    ghost use Rattle.std.specs.List.{AllByRecursion};
    ghost use Rattle.hg_types.specs.code.Pages.{items_in, IsFilled};

    ghost Value = { List T };

    ghost view = { λ p. items_in p.before.items ++ p.last.items };

    ghost invariant = { λ p. (p.len ≡ length (items_in p.before.items ++ p.last.items))
        × AllByRecursion IsFilled p.before.items };
}

impl<T, A: Allocator + Copy> Pages<T, A> {
    /// The empty list, which takes no memory.
    pub fn new(alloc: A) -> Self
        ensures { result ≡ [] }
    {
        Pages {
            before: Vec::new(alloc),
            last: Vec::new(alloc),
            len: 0,
        }
    }

    /// How many items there are.
    pub fn len(&self) -> usize
        ensures { result ≡ length self.now }
    {
        self.len
    }

    /// Adds an item at the end. An item that memory is refused for is dropped.
    #[inline(always)]
    pub fn push(&mut self, item: T) -> Result<(), NoMemory>
    where
        T: Drop,
        ensures ok { OnOk result (self.new ≡ self.old ++ item ∷ []) }
        ensures err { OnErr result (self.new ≡ self.old) }
    {
        let Pages { before, last, len } = self;
        let more = len.checked_add(1).ok_or(NoMemory)?;
        if last.len() >= last.capacity() {
            make_room(before, last)?;
        }
        last.push_reserved(item);
        *len = more;
        Ok(())
    }

    /// The items one by one.
    pub fn into_items(self) -> PageItems<T, A>
        ensures { result ≡ self }
    {
        let Pages { before, last, .. } = self;
        let none = Vec::new(*last.allocator());
        PageItems {
            page: none.into_iter(),
            pages: before.into_iter(),
            last: last.into_iter(),
        }
    }
}

/// Makes room for one more item on the last page, or begins a page. Where the room for some is refused, it is made for
/// one.
#[inline(never)]
fn make_room<T: Drop, A: Allocator + Copy>(
    before: &mut Vec<Vec<T, A>, A>,
    last: &mut Vec<T, A>,
) -> Result<(), NoMemory>
    requires { AllByRecursion IsFilled before.old.items }
    ensures items { items_in before.new.items ++ last.new.items ≡ items_in before.old.items ++ last.old.items }
    ensures filled { AllByRecursion IsFilled before.new.items }
    ensures room { OnOk result (vec_len last.new < vec_capacity last.new) }
{
    let len = last.len();
    if len < FIRST_PAGE {
        let room = if len == 0 { FIRST } else { FIRST_PAGE - len };
        if last.reserve(room).is_err() {
            last.reserve(1)?;
        }
        return Ok(());
    }
    before.reserve(1)?;
    let page = Vec::with_capacity(*last.allocator(), PAGE)?;
    before.push_reserved(mem::replace(last, page));
    Ok(())
}

/// The items of a list that are left. Contracts see the list of them.
#[derive(Drop)]
pub struct PageItems<T, A: Allocator = Global> {
    page: IntoIter<T, A>,
    pages: IntoIter<Vec<T, A>, A>,
    last: IntoIter<T, A>,
}

impl<T, A: Allocator> Model for PageItems<T, A> {
    ghost use Rattle.std.specs.Prelude.{List, ◌++◌};
    ghost use Rattle.std.specs.List.{AllByRecursion};
    ghost use Rattle.std.specs.Vec.Iter.{into_iter_items};
    ghost use Rattle.hg_types.specs.code.Pages.{items_in, IsFilled, IsCounted};

    ghost Value = { List T };

    ghost view = { λ p. into_iter_items p.page ++ (items_in (into_iter_items p.pages) ++ into_iter_items p.last) };

    ghost invariant = { λ p. IsCounted p.page × IsCounted p.pages × IsCounted p.last
        × AllByRecursion IsFilled (into_iter_items p.pages) };
}

impl<T: Drop, A: Allocator> PageItems<T, A> {
    /// The next item.
    pub fn next(&mut self) -> Option<T>
        ensures some { IfSome result (λ item. self.old ≡ item ∷ self.new) }
        ensures none { IfNone result (self.old ≡ []) }
        ensures stay { IfNone result (self.new ≡ []) }
    {
        if let Some(item) = self.page.next() {
            return Some(item);
        }
        if let Some(page) = self.pages.next() {
            self.page = page.into_iter();
            return self.page.next();
        }
        self.last.next()
    }
}
