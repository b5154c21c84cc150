//! The markers of a repository.

ghost use Rattle.std.specs.Prelude.{◌≡◌, ◌≢◌, ◌<◌, ◌≤◌, ◌-◌, ◌++◌, ◌∷◌, [], ◌↔◌, false, Some, None};
ghost use Rattle.std.specs.Prelude.{IsTrue, IfOk, OnOk, OnErr, AllPairs, length, take, unwrap_or};
ghost use Rattle.std.specs.Prelude.{if◌then◌else◌};
ghost use Rattle.std.specs.Map.{lookup};
ghost use Rattle.indexmap.specs.IndexMap.{spare as places_room};
ghost use Rattle.hg_types.specs.declared.node.Node.{Node as AnId};
ghost use Rattle.hg_obs.specs.Same.{same_node};
ghost use Rattle.hg_obs.specs.Markers.{fresh, is_in, merged};
ghost use Rattle.hg_obs.specs.code.Places.{or_else, without, place_from};
ghost use Rattle.hg_obs.specs.code.Later.{seal_of};

use crate::marker::Marker;
use hg_types::{NoMemory, Node, Seq, TryClone, try_clone_each};
use indexmap::IndexMap;
use std::alloc::{Allocator, Global};
use std::hash::{BuildHasher, RandomState};
use std::marker::Model;

/// Places in a list of markers, by ids.
type Places<A> = IndexMap<Node, usize, RandomState, A>;

/// Distinct markers, in the order in which they came first. Contracts see the list of them.
///
/// A marker is found by its predecessor where it is the first of that, and else by its seal. So each stands
/// in one table alone. Two large tables, which no cache holds, would be twice as much to wait for.
#[derive(Drop)]
pub struct Markers<A: Allocator = Global> {
    list: Vec<Marker<A>, A>,
    /// The place of the first marker of each predecessor.
    firsts: Places<A>,
    /// The place of the first marker of each seal, among those that are not the first of their predecessor.
    others: Places<A>,
    state: RandomState,
}

impl<A: Allocator> Model for Markers<A> {
    ghost use Rattle.std.specs.Prelude.{List as AList};
    ghost use Rattle.hg_obs.specs.declared.marker.Marker.{Marker as AMarker};
    ghost use Rattle.hg_obs.specs.code.Later.{AreKept};

    ghost Value = { AList (AMarker A) };

    ghost view = { λ m. m.list.items };

    ghost invariant = { λ m. AreKept m.state m.list.items m.firsts.entries m.others.entries };
}

impl<A: Allocator + Copy> Markers<A> {
    /// No markers, which takes no memory. Their bytes come from strangers, so look-ups hash by random keys.
    pub fn new(alloc: A, state: RandomState) -> Self
        ensures { result ≡ [] }
    {
        Markers {
            list: Vec::new(alloc),
            firsts: IndexMap::with_hasher(alloc, state),
            others: IndexMap::with_hasher(alloc, state),
            state,
        }
    }
}

impl<A: Allocator> Markers<A> {
    ghost use Rattle.hg_obs.specs.Markers.{IsPredecessor, fresh, merged};

    /// The markers, in order.
    pub fn list(&self) -> &[Marker<A>]
        ensures value { result.now ≡ self.now }
        ensures distinct { AllPairs (λ a b. a ≢ b) self.now }
    {
        self.list.as_slice()
    }

    /// Whether the id is the predecessor of a marker. It is one look-up.
    pub fn is_predecessor(&self, node: &Node) -> bool
        ensures { IsTrue result ↔ IsPredecessor self.now node.now }
    {
        self.firsts.contains_key(node)
    }

    /// Adds each marker that is not there yet, in order, and answers how many. Room is made where markers are
    /// new, and once an eighth of them proved new, for the others at once. A merge that adds nothing takes
    /// none; where it is refused the markers are as before. On average it takes time for what is merged, and
    /// not for what is there.
    pub fn merge(&mut self, added: Seq<Marker<A>, A>) -> Result<u64, NoMemory>
        ensures ok { OnOk result (self.new ≡ merged self.old added) }
        ensures count { IfOk result (λ count. count ≡ length (fresh self.old added)) }
        ensures err { OnErr result (self.new ≡ self.old) }
        // Memory is refused only where a marker is new.
        ensures needed { OnErr result (fresh self.old added ≢ []) }
    {
        let len = self.len();
        let most = added.len();
        for marker in added.into_vec() {
            self.make_room(len, most);
            if let Err(refused) = self.add(marker) {
                self.cut_back(len);
                return Err(refused);
            }
        }
        let count = self.len() - len;
        Ok(count as u64)
    }

    /// Drops the markers from that place on. It takes no memory.
    pub fn cut_back(&mut self, len: usize)
        requires { len ≤ length self.old }
        ensures { self.new ≡ take len self.old }
    {
        while len < self.len() {
            self.drop_last();
        }
    }

    /// How many markers there are.
    fn len(&self) -> usize
        ensures { result ≡ length self.now }
    {
        self.list.len()
    }

    /// Where the table of predecessors is full, and an eighth of so many markers proved new since the list
    /// had that length, asks for room for the others at once. So the table is not built anew at each doubling
    /// from there. It is no loss where that is refused.
    fn make_room(&mut self, since: usize, most: usize)
        ensures { self.new ≡ self.old }
    {
        if self.firsts.len() < self.firsts.capacity() {
            return;
        }
        let filled = self.list.len().saturating_sub(since);
        let left = most.saturating_sub(filled);
        if left <= filled.saturating_mul(7) {
            let _asked = self.firsts.reserve(left);
        }
    }

    /// Adds a marker that is not there yet.
    fn add(&mut self, marker: Marker<A>) -> Result<(), NoMemory>
        ensures ok { OnOk result (self.new
            ≡ (if is_in self.old marker then self.old else self.old ++ marker ∷ [])) }
        ensures err { OnErr result (self.new ≡ self.old) }
        ensures needed { OnErr result (is_in self.old marker ≡ false) }
    {
        let place = self.list.len();
        let predecessor = marker.predecessor;
        let first = note(&mut self.firsts, predecessor, place)?;
        if first < place {
            return self.add_later(marker, first);
        }
        if let Err(refused) = self.list.push(marker) {
            forget(&mut self.firsts, &predecessor, place);
            return Err(refused.into());
        }
        Ok(())
    }

    /// Adds a marker that is not there yet, where the first of its predecessor stands at that place.
    fn add_later(&mut self, marker: Marker<A>, first: usize) -> Result<(), NoMemory>
        requires { place_from 0 marker.predecessor self.old ≡ Some first }
        ensures ok { OnOk result (self.new
            ≡ (if is_in self.old marker then self.old else self.old ++ marker ∷ [])) }
        ensures err { OnErr result (self.new ≡ self.old) }
        ensures needed { OnErr result (is_in self.old marker ≡ false) }
    {
        if self.list[first] == marker {
            return Ok(());
        }
        let place = self.list.len();
        let seal = seal_of(&self.state, &marker);
        let other = note(&mut self.others, seal, place)?;
        if other < place && is_among(self.list.as_slice(), &marker, other) {
            return Ok(());
        }
        if let Err(refused) = self.list.push(marker) {
            forget(&mut self.others, &seal, place);
            return Err(refused.into());
        }
        Ok(())
    }

    /// Drops the last marker, if there is one.
    fn drop_last(&mut self)
        ensures { self.new ≡ take (length self.old - 1) self.old }
    {
        if let Some(marker) = self.list.pop() {
            let place = self.list.len();
            forget(&mut self.firsts, &marker.predecessor, place);
            forget(&mut self.others, &seal_of(&self.state, &marker), place);
        }
    }
}

impl<A: Allocator + Copy> TryClone<A> for Markers<A> {
    fn try_clone(&self, alloc: A) -> Result<Self, NoMemory> {
        let copies = try_clone_each(alloc, self.list.as_slice())?;
        let mut copy = Markers::new(alloc, self.state);
        copy.merge(copies)?;
        Ok(copy)
    }
}

/// Whether the marker is in the list. Where it is, it stands at that place, unless two have one seal.
fn is_among<A: Allocator>(list: &[Marker<A>], marker: &Marker<A>, place: usize) -> bool
    requires { place < length list.now }
    ensures { result ≡ is_in list.now marker.now }
{
    list[place] == *marker || list.contains(marker)
}

/// The id that stands for a marker: its hash by random keys, and zeros.
fn seal_of<A: Allocator>(state: &RandomState, marker: &Marker<A>) -> Node
    ensures { result ≡ seal_of state.now marker.now }
{
    let mut id = [0; 20];
    let (hash, _) = id.split_at_mut(8);
    hash.copy_from_slice(&state.hash_one(marker).to_be_bytes());
    Node(id)
}

/// Notes a place for an id that has none, and answers the place that it has then. Memory is refused only
/// where it had none.
fn note<A: Allocator>(places: &mut Places<A>, id: Node, place: usize) -> Result<usize, NoMemory>
    ensures place { IfOk result (λ at. at ≡ unwrap_or (lookup (same_node id) places.old.entries) place) }
    ensures found { OnOk result ((node : AnId) → lookup (same_node node) places.new.entries
        ≡ or_else (lookup (same_node node) places.old.entries) (if same_node node id then Some place
        else None)) }
    ensures err { OnErr result (places.new.entries ≡ places.old.entries) }
    ensures needed { OnErr result (lookup (same_node id) places.old.entries ≡ None) }
{
    if places.len() < places.capacity() {
        return Ok(note_within(places, id, place));
    }
    if let Some(at) = places.get(&id).copied() {
        return Ok(at);
    }
    places.insert(id, place)?;
    Ok(place)
}

/// The same, in one look-up, where there is room.
fn note_within<A: Allocator>(places: &mut Places<A>, id: Node, place: usize) -> usize
    requires { 0 < places_room places.old }
    ensures place { result ≡ unwrap_or (lookup (same_node id) places.old.entries) place }
    ensures found { (node : AnId) → lookup (same_node node) places.new.entries
        ≡ or_else (lookup (same_node node) places.old.entries) (if same_node node id then Some place
        else None) }
{
    *places.entry(id).unwrap().or_insert(place)
}

/// Forgets an id, if its place is that one.
fn forget<A: Allocator>(places: &mut Places<A>, id: &Node, place: usize)
    ensures { (node : AnId) → lookup (same_node node) places.new.entries
        ≡ without (same_node node id.now) place (lookup (same_node node) places.old.entries) }
{
    if places.get(id).copied() == Some(place) {
        places.swap_remove(id);
    }
}
