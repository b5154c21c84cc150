//! The heads of branches in doubt, found by a search for descendants.

ghost use Rattle.std.specs.Prelude.{◌≡◌, ◌↔◌, ◌⊎◌, ◌<◌, ◌≤◌, ◌+◌, ◌/◌, ◌^◌, ◌++◌, ℕ, All, Contains, Some, length};
ghost use Rattle.std.specs.Prelude.{map, slice_index, slice_index_or, IfOk, IfSome, OnOk};
ghost use Rattle.std.specs.List.{flat_map};
ghost use Rattle.hg_wireproto.specs.code.Branches.{heads_in};
ghost use Rattle.hg_wireproto.specs.code.Search.{AreApart, AreBetween, AreFirstsOf, HasFirst, IsLastIn, IsNumber};
ghost use Rattle.hg_wireproto.specs.code.Sets.{AreEmpty, HasNumber, IsAt};
ghost use Rattle.hg_wireproto.specs.declared.search.Window.{Window};

use crate::branches::Branch;
use crate::copied::Copied;
use crate::set::{NumberSet, SET};
use hg_types::NoMemory;
use std::alloc::Allocator;

/// The changesets that one pass goes through: from the first one of its branches to the last.
#[derive(Clone, Copy)]
struct Window {
    first: usize,
    end: usize,
}

/// Adds the heads of branches. Each 512 changesets are a group, and one pass looks for the branches of which one of
/// these is the first. It goes from their last changeset down to their first, with 64 bytes for each that is between.
/// So where all passes go through all changesets, they look at one for each 512, and its parents, by the square of
/// their number. Who descends from whom, for as many pairs, has no known way that is linear.
pub fn push_heads<A: Allocator + Copy>(
    alloc: A,
    heads: &mut Vec<u32, A>,
    copied: &Copied<A>,
    branches: &[Branch<A>],
) -> Result<(), NoMemory>
    requires within { All (λ b. All (λ r. r < length copied.now.rows) b.revs.items) branches.now }
    requires apart { AreApart (map (λ b. b.revs.items) branches.now) }
    ensures { OnOk result ((r : ℕ) → Contains heads.new.items r ↔ Contains (heads.old.items
        ++ flat_map (λ b. heads_in copied.now.rows b.revs.items) branches.now) r) }
{
    if branches.is_empty() {
        return Ok(());
    }
    let firsts = firsts_of(alloc, copied.len(), branches)?;
    let windows = windows_of(alloc, firsts.as_slice())?;
    let mut behind = Vec::new(alloc);
    for (group, window) in windows.as_slice().iter().enumerate() {
        push_some(
            heads,
            copied,
            firsts.as_slice(),
            &mut behind,
            group,
            *window,
        )?;
    }
    Ok(())
}

/// For each changeset of a branch, the first one of that.
fn firsts_of<A: Allocator + Copy>(
    alloc: A,
    len: usize,
    branches: &[Branch<A>],
) -> Result<Vec<Option<u32>, A>, NoMemory>
    requires within { All (λ b. All (λ r. r < len) b.revs.items) branches.now }
    requires apart { AreApart (map (λ b. b.revs.items) branches.now) }
    ensures len { IfOk result (λ firsts. length firsts.items ≡ len) }
    ensures each { IfOk result (λ firsts. AreFirstsOf (map (λ b. b.revs.items) branches.now) firsts.items) }
{
    let mut firsts = no_firsts(alloc, len)?;
    for branch in branches {
        note_first(&mut firsts, branch.revs.as_slice());
    }
    Ok(firsts)
}

/// For each of so many changesets, that it is of no branch.
fn no_firsts<A: Allocator>(alloc: A, len: usize) -> Result<Vec<Option<u32>, A>, NoMemory>
    ensures len { IfOk result (λ firsts. length firsts.items ≡ len) }
    ensures none { IfOk result (λ firsts. (r f : ℕ) → ¬ (HasFirst firsts.items r f)) }
{
    let mut firsts = Vec::with_capacity(alloc, len)?;
    for _rev in 0..len {
        firsts.push(None)?;
    }
    Ok(firsts)
}

/// Notes at each changeset of a branch the first one.
fn note_first<A: Allocator>(firsts: &mut Vec<Option<u32>, A>, revs: &[u32])
    requires { All (λ r. r < length firsts.old.items) revs.now }
    ensures as_long { length firsts.new.items ≡ length firsts.old.items }
    ensures each { (r f : ℕ) → HasFirst firsts.new.items r f
        ↔ ((HasFirst firsts.old.items r f × ¬ (Contains revs.now r))
        ⊎ (Contains revs.now r × (slice_index revs.now 0 ≡ f))) }
{
    if revs.is_empty() {
        return;
    }
    let first = revs[0];
    for rev in revs {
        firsts[*rev as usize] = Some(first);
    }
}

/// For each group, what its pass goes through.
fn windows_of<A: Allocator + Copy>(
    alloc: A,
    firsts: &[Option<u32>],
) -> Result<Vec<Window, A>, NoMemory>
    requires few { length firsts.now < 2 ^ 31 }
    requires within { (r f : ℕ) → HasFirst firsts.now r f → f < length firsts.now }
    ensures enough { IfOk result (λ windows. length windows.items ≡ length firsts.now / 512 + 1) }
    ensures each { IfOk result (λ windows. (group : ℕ) (w : Window) → group < length windows.items → AreBetween
        firsts.now group (slice_index_or windows.items group w).first (slice_index_or windows.items group w).end) }
    ensures ends { IfOk result (λ windows. All (λ w. w.end ≤ length firsts.now) windows.items) }
{
    let mut windows = no_windows(alloc, firsts.len())?;
    for rev in 0..firsts.len() {
        if let Some(first) = firsts[rev] {
            widen(&mut windows[first as usize / SET], rev);
        }
    }
    Ok(windows)
}

/// For each group of so many changesets, a pass through none.
fn no_windows<A: Allocator>(alloc: A, len: usize) -> Result<Vec<Window, A>, NoMemory>
    ensures enough { IfOk result (λ windows. length windows.items ≡ len / 512 + 1) }
    ensures ends { IfOk result (λ windows. All (λ w. w.end ≤ 0) windows.items) }
{
    let mut windows = Vec::new(alloc);
    for _group in 0..len / SET + 1 {
        windows.push(Window { first: len, end: 0 })?;
    }
    Ok(windows)
}

/// Widens what a pass goes through, so that it comes by a changeset.
fn widen(window: &mut Window, rev: usize)
    requires { rev < 2 ^ 31 }
    ensures first { (window.new.first ≤ window.old.first) × (window.new.first ≤ rev) }
    ensures end { (window.old.end ≤ window.new.end) × (rev < window.new.end) }
    ensures ends { (n : ℕ) → window.old.end ≤ n → rev < n → window.new.end ≤ n }
{
    window.first = window.first.min(rev);
    window.end = window.end.max(rev + 1);
}

/// Adds the heads of the branches of a group. What is behind the changesets has no number before, nor after.
fn push_some<A: Allocator + Copy>(
    heads: &mut Vec<u32, A>,
    copied: &Copied<A>,
    firsts: &[Option<u32>],
    behind: &mut Vec<NumberSet, A>,
    group: usize,
    window: Window,
) -> Result<(), NoMemory>
    requires as_long { length firsts.now ≡ length copied.now.rows }
    requires between { AreBetween firsts.now group window.first window.end }
    requires end { window.end ≤ length copied.now.rows }
    requires empty { AreEmpty behind.old.items }
    ensures empty { OnOk result (AreEmpty behind.new.items) }
    ensures heads { OnOk result ((r : ℕ) → Contains heads.new.items r
        ↔ (Contains heads.old.items r ⊎ IsLastIn copied.now.rows firsts.now group r)) }
{
    copied.len();
    grow(behind, window)?;
    for rev in (window.first..window.end).rev() {
        let mut own = take(behind, rev - window.first);
        let number = number_in(firsts[rev], group);
        tell(heads, &mut own, rev as u32, number)?;
        let (p1, p2) = copied.parent_revs(rev as u32);
        hand_on(behind, window.first, p1, own);
        hand_on(behind, window.first, p2, own);
    }
    Ok(())
}

/// Makes room for a set for each changeset that a pass goes through.
fn grow<A: Allocator>(behind: &mut Vec<NumberSet, A>, window: Window) -> Result<(), NoMemory>
    requires { AreEmpty behind.old.items }
    ensures empty { OnOk result (AreEmpty behind.new.items) }
    ensures room { OnOk result (window.end ≤ window.first + length behind.new.items) }
{
    for _place in behind.len()..window.end.saturating_sub(window.first) {
        behind.push(NumberSet::new())?;
    }
    Ok(())
}

/// The number of a branch in a group, where it is of that.
fn number_in(first: Option<u32>, group: usize) -> Option<usize>
    ensures { (k : ℕ) → (result ≡ Some k) ↔ IsNumber first group k }
{
    match first {
        Some(first) if first as usize / SET == group => Some(first as usize % SET),
        _ => None,
    }
}

/// Adds a changeset of a branch to the heads, where no descendant is of that, and the branch to what is handed on.
fn tell<A: Allocator>(
    heads: &mut Vec<u32, A>,
    own: &mut NumberSet,
    rev: u32,
    number: Option<usize>,
) -> Result<(), NoMemory>
    requires { IfSome number (λ k. k < 512) }
    ensures heads { OnOk result ((r : ℕ) → Contains heads.new.items r ↔ (Contains heads.old.items r
        ⊎ ((r ≡ rev) × (k : ℕ) × (number ≡ Some k) × ¬ (HasNumber own.old.words k)))) }
    ensures own { OnOk result ((k : ℕ) → HasNumber own.new.words k
        ↔ (HasNumber own.old.words k ⊎ (number ≡ Some k))) }
{
    if let Some(number) = number {
        if !own.has(number) {
            heads.push(rev)?;
        }
        own.add(number);
    }
    Ok(())
}

/// Takes a set, and leaves one without numbers.
fn take<A: Allocator>(behind: &mut Vec<NumberSet, A>, place: usize) -> NumberSet
    requires { place < length behind.old.items }
    ensures taken { (k : ℕ) → HasNumber result.words k ↔ IsAt behind.old.items place k }
    ensures as_long { length behind.new.items ≡ length behind.old.items }
    ensures each { (i k : ℕ) → IsAt behind.new.items i k ↔ (IsAt behind.old.items i k × ¬ (i ≡ place)) }
{
    let taken = behind[place];
    behind[place] = NumberSet::new();
    taken
}

/// Adds a set to that of a parent, where the pass comes by it.
fn hand_on<A: Allocator>(
    behind: &mut Vec<NumberSet, A>,
    first: usize,
    parent: Option<u32>,
    set: NumberSet,
)
    requires { IfSome parent (λ p. p < first + length behind.old.items) }
    ensures as_long { length behind.new.items ≡ length behind.old.items }
    ensures each { (i k : ℕ) → IsAt behind.new.items i k
        ↔ (IsAt behind.old.items i k ⊎ ((parent ≡ Some (first + i)) × HasNumber set.words k)) }
{
    if let Some(parent) = parent
        && parent as usize >= first
    {
        let place = parent as usize - first;
        behind[place] = behind[place].and(set);
    }
}
