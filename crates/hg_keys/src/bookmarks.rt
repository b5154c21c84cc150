//! Bookmarks: names for changesets, which move.

ghost use Rattle.std.specs.Prelude.{◌≡◌, ◌≢◌, ◌+◌, ◌<◌, ◌≤◌, ◌++◌, [], length, reverse, true, Some, None, IfSome};
ghost use Rattle.std.specs.Prelude.{IfNone, IfOk, OnOk, OnErr, slice_get, vec_len, vec_capacity};
ghost use Rattle.std.specs.Option.{option_to_list};
ghost use Rattle.hg_keys.specs.Bookmarks.{AreInOrder, ArePartlySet, HaveSameNames, node_of, set_each};
ghost use Rattle.hg_keys.specs.Bookmarks.{with_bookmark};
ghost use Rattle.hg_keys.specs.code.Changes.{all_undone, base_of, can_undo, can_undo_all, undone};

use hg_names::{Entries, Named, Names};
use hg_types::{NoMemory, Node, Seq, Short};
use std::alloc::{Allocator, Global};
use std::marker::Model;

/// A change that was made after the savepoint: the name, and what it was on before.
#[derive(Drop)]
enum Change<A: Allocator = Global> {
    Added(Short<A>),
    Moved(Short<A>, Node),
    Removed(Named<A>),
}

/// For so many changes a savepoint leaves what memory there is. With less, pushes of a few bookmarks would ask for it
/// again each time; a push of millions leaves hundreds of megabytes.
const KEPT: usize = 1_024;

/// A moment to which the bookmarks can go back. What they were then is a part of the value that contracts
/// see.
#[derive(Drop)]
pub struct BookmarkSavepoint {
    _private: (),
}

/// A map from names to changesets. Contracts see its pairs, in the order of the names' bytes.
///
/// They are kept in blocks: a name that is looked up, set or deleted takes about as many steps as the logarithm
/// of their number, and so does each change on the way back. A name that comes or goes moves those of its block
/// in memory, and now and then the list of blocks.
#[derive(Drop)]
pub struct Bookmarks<A: Allocator = Global> {
    names: Names<A>,
    changes: Vec<Change<A>, A>,
    is_saved: bool,
}

impl<A: Allocator> Model for Bookmarks<A> {
    ghost use Rattle.std.specs.Prelude.{Some, None, if◌then◌else◌};
    ghost use Rattle.hg_keys.specs.Bookmarks.{Saved};

    ghost Value = { Saved };

    ghost use Rattle.hg_keys.specs.code.Changes.{base_of, IsSound};

    ghost view = { λ b. record {
      current = b.names.pairs;
      saved = if b.is_saved then Some (base_of b.changes.items b.names.pairs) else None;
    } };

    ghost invariant = { λ b. IsSound b.names.pairs b.changes.items b.names.room b.is_saved };
}

impl<A: Allocator + Copy> Bookmarks<A> {
    /// No bookmarks, and no savepoint. It takes no memory.
    pub fn new(alloc: A) -> Self
        ensures { result ≡ record { current = []; saved = None } }
    {
        Bookmarks {
            names: Names::new(alloc),
            changes: Vec::new(alloc),
            is_saved: false,
        }
    }

    /// The same bookmarks, without a savepoint.
    pub fn try_clone(&self, alloc: A) -> Result<Self, NoMemory>
        ensures { IfOk result (λ copy. copy ≡ record { current = self.now.current; saved = None }) }
    {
        let names = self.names.try_clone(alloc)?;
        let is_saved = false;
        Ok(Bookmarks {
            names,
            changes: Vec::new(alloc),
            is_saved,
        })
    }

    /// Sets a name on a changeset, or deletes it. After a savepoint it keeps what it replaces before it changes
    /// anything. Where memory is refused, the bookmarks are unchanged.
    pub fn set(&mut self, alloc: A, name: &[u8], node: Option<Node>) -> Result<(), NoMemory>
        ensures ok { OnOk result (self.new
            ≡ record { current = with_bookmark self.old.current name.now node; saved = self.old.saved }) }
        ensures err { OnErr result (self.new ≡ self.old) }
    {
        if !self.is_saved {
            put(alloc, &mut self.names, name, node)?;
            return Ok(());
        }
        make_room(&mut self.names, &mut self.changes)?;
        let change = put_after_savepoint(alloc, &mut self.names, name, node)?;
        keep(&mut self.changes, change);
        Ok(())
    }

    /// Sets each name on its changeset, or deletes it, as if in the order of the entries. It takes them in the
    /// order of their names, where most come next to the one before. Where memory is refused, some are set; the
    /// savepoint stays, so that the bookmarks can go back to what they were then.
    pub fn set_each(
        &mut self,
        alloc: A,
        entries: Seq<(Option<Node>, Short<A>), A>,
    ) -> Result<(), NoMemory>
        ensures ok { OnOk result (self.new.current ≡ set_each entries self.old.current) }
        ensures err { OnErr result (ArePartlySet entries self.old.current self.new.current) }
        ensures saved { self.new.saved ≡ self.old.saved }
    {
        // `len` says that the names are in order. So entries give the same in any order that keeps those of each
        // name in theirs.
        let _in_order = self.len();
        let entries = in_name_order(entries)?;
        for entry in entries.as_slice() {
            self.set(alloc, entry.1.as_slice(), entry.0)?;
        }
        Ok(())
    }
}

/// The entries in the order of their names' bytes. Those of one name keep their order.
fn in_name_order<A: Allocator + Copy>(
    entries: Seq<(Option<Node>, Short<A>), A>,
) -> Result<Vec<(Option<Node>, Short<A>), A>, NoMemory>
    ensures { IfOk result (λ sorted. HaveSameNames entries sorted.items) }
{
    let mut entries = entries.into_vec();
    entries.sort_by(|one, other| one.1.as_slice().cmp(other.1.as_slice()))?;
    Ok(entries)
}

impl<A: Allocator> Bookmarks<A> {
    /// The number of bookmarks.
    pub fn len(&self) -> usize
        ensures len { result ≡ length self.now.current }
        ensures in_order { AreInOrder self.now.current }
    {
        self.names.len()
    }

    /// The changeset that a name is on.
    pub fn get(&self, name: &[u8]) -> Option<Node>
        ensures { result ≡ node_of self.now.current name.now }
    {
        self.names.find(name)
    }

    /// The name at a place in the order of the names' bytes, and the changeset that it is on.
    pub fn entry(&self, place: usize) -> Option<(&[u8], Node)>
        ensures found { IfSome result (λ pair. slice_get self.now.current place ≡ Some (pair.0.now, pair.1)) }
        ensures none { IfNone result (length self.now.current ≤ place) }
    {
        self.names.get(place)
    }

    /// A walk through all bookmarks, in the order of the names' bytes.
    pub fn entries(&self) -> Entries<'_, A>
        ensures { result ≡ self.now.current }
    {
        self.names.entries()
    }

    /// Sets a savepoint: the bookmarks as they are. An earlier one is gone, and what memory many changes since then took
    /// is given back.
    pub fn savepoint(&mut self) -> BookmarkSavepoint
        ensures { self.new ≡ record { current = self.old.current; saved = Some self.old.current } }
    {
        self.changes.clear();
        self.changes.shrink_to(KEPT);
        self.names.shrink_room(KEPT);
        self.is_saved = true;
        BookmarkSavepoint { _private: () }
    }

    /// Goes back to the bookmarks of the moment of the savepoint, the last that was made. It takes no memory.
    pub fn back_to(&mut self, savepoint: BookmarkSavepoint)
        requires { self.old.saved ≢ None }
        ensures back { self.old.saved ≡ Some self.new.current }
        ensures gone { self.new.saved ≡ None }
    {
        go_back(&mut self.names, &mut self.changes);
        self.is_saved = false;
        drop(savepoint);
    }
}

/// Makes room for one more change, and for all of them to be taken back. Where memory is refused, nothing is
/// changed.
fn make_room<A: Allocator>(
    names: &mut Names<A>,
    changes: &mut Vec<Change<A>, A>,
) -> Result<(), NoMemory>
    ensures names { names.new.pairs ≡ names.old.pairs }
    ensures changes { changes.new.items ≡ changes.old.items }
    ensures more { names.old.room ≤ names.new.room }
    ensures place { OnOk result (vec_len changes.new < vec_capacity changes.new) }
    ensures room { OnOk result (length changes.old.items + 2 ≤ names.new.room) }
{
    let count = changes.len().checked_add(2).ok_or(NoMemory)?;
    changes.reserve(1)?;
    names.reserve(count)?;
    Ok(())
}

/// Sets a name or deletes it.
fn put<A: Allocator + Copy>(
    alloc: A,
    names: &mut Names<A>,
    name: &[u8],
    node: Option<Node>,
) -> Result<(), NoMemory>
    ensures set { OnOk result (names.new.pairs ≡ with_bookmark names.old.pairs name.now node) }
    ensures err { OnErr result (names.new.pairs ≡ names.old.pairs) }
{
    match node {
        Some(node) => names.set(alloc, name, node)?,
        None => names.forget(name),
    }
    Ok(())
}

/// Sets a name or deletes it, and reports the change, if there is one.
fn put_after_savepoint<A: Allocator + Copy>(
    alloc: A,
    names: &mut Names<A>,
    name: &[u8],
    node: Option<Node>,
) -> Result<Option<Change<A>>, NoMemory>
    ensures set { OnOk result (names.new.pairs ≡ with_bookmark names.old.pairs name.now node) }
    ensures back { IfOk result (λ change. all_undone (option_to_list change) names.new.pairs
        ≡ names.old.pairs) }
    ensures can { IfOk result (λ change. can_undo_all (option_to_list change) names.new.pairs ≡ true) }
    ensures room { names.old.room ≤ names.new.room + 1 }
    ensures err { OnErr result (names.new.pairs ≡ names.old.pairs) }
{
    match node {
        Some(node) => {
            let kept = Short::copy_of(alloc, name)?;
            match names.insert(alloc, name, node)? {
                Some(was) => Ok(Some(Change::Moved(kept, was))),
                None => Ok(Some(Change::Added(kept))),
            }
        }
        None => match names.remove(alloc, name)? {
            Some(gone) => Ok(Some(Change::Removed(gone))),
            None => Ok(None),
        },
    }
}

/// Keeps a change, if there is one. There is room for it.
fn keep<A: Allocator>(changes: &mut Vec<Change<A>, A>, change: Option<Change<A>>)
    requires { vec_len changes.old < vec_capacity changes.old }
    ensures { changes.new.items ≡ changes.old.items ++ option_to_list change }
{
    if let Some(change) = change {
        changes.push_reserved(change);
    }
}

/// Takes back all changes, the last first. There is room for each name that comes back.
fn go_back<A: Allocator>(names: &mut Names<A>, changes: &mut Vec<Change<A>, A>)
    requires can { can_undo_all (reverse changes.old.items) names.old.pairs ≡ true }
    requires room { length changes.old.items ≤ names.old.room }
    ensures { names.new.pairs ≡ base_of changes.old.items names.old.pairs }
{
    while let Some(change) = changes.pop() {
        undo(names, change);
    }
}

/// Takes back one change. It takes no memory.
fn undo<A: Allocator>(names: &mut Names<A>, change: Change<A>)
    requires can { can_undo change names.old.pairs ≡ true }
    requires room { 0 < names.old.room }
    ensures pairs { names.new.pairs ≡ undone change names.old.pairs }
    ensures room { names.old.room ≤ names.new.room + 1 }
{
    match change {
        Change::Added(name) => names.forget(name.as_slice()),
        Change::Moved(name, node) => names.move_to(name.as_slice(), node),
        Change::Removed(gone) => names.put_back(gone),
    }
}
