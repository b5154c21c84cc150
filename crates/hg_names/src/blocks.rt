//! The blocks in which names are kept, and where a name is among them.

ghost use Rattle.std.specs.Prelude.{◌≡◌, ◌<◌, ◌≤◌, ◌+◌, ◌^◌, true, false, length, All, IfOk, IfErr, OnOk, OnErr};
ghost use Rattle.std.specs.Prelude.{[], ◌∷◌, ◌++◌, insert, remove, vec_len, vec_capacity, slice_get, Some, None, is_some};
ghost use Rattle.std.specs.Prelude.{IfSome, IfNone};
ghost use Rattle.std.specs.List.{HoldsAt, AllWithin};
ghost use Rattle.hg_names.specs.Names.{AreInOrder, node_of, with_name, without};
ghost use Rattle.hg_names.specs.code.Blocks.{pairs_in, start_of, place_at, IsFilled, IsNotGreater, IsGreater};
ghost use Rattle.hg_names.specs.code.Blocks.{IsLess, IsSpot, IsOpen, IsNamed, IsFree};
ghost use Rattle.hg_names.specs.code.Places.{IsAt, IsGap, moved};

use crate::order::order;
use hg_types::{NoMemory, Node, Short};
use std::alloc::{Allocator, Global};
use std::cmp::Ordering;
use std::mem;

/// A name, and the changeset that it is on.
pub(crate) type Pair<A> = (Short<A>, Node);

/// Names that follow one another.
#[derive(Drop)]
pub(crate) struct Block<A: Allocator = Global> {
    pub(crate) pairs: Vec<Pair<A>, A>,
}

/// A block with so many names is cut in two before another joins it. With fewer the list of blocks gets long,
/// and a block that comes at its front moves all others; with more, each name that comes moves more of its block.
const FULL: usize = 256;

/// Whether the first name of a block comes after a name.
fn is_behind<A: Allocator>(block: &Block<A>, name: &[u8]) -> bool
    requires { IsFilled block.now }
    ensures behind { result ≡ true → HoldsAt (IsGreater name.now) block.now.pairs.items 0 }
    ensures upto { result ≡ false → HoldsAt (IsNotGreater name.now) block.now.pairs.items 0 }
{
    order(block.pairs[0].0.as_slice(), name) == Ordering::Greater
}

/// The last block whose first name does not come after a name, or else the first one.
fn block_of<A: Allocator>(blocks: &[Block<A>], name: &[u8]) -> usize
    requires filled { All IsFilled blocks.now }
    requires some { 0 < length blocks.now }
    requires in_order { AreInOrder (pairs_in blocks.now) }
    ensures within { result < length blocks.now }
    ensures lesser { AllWithin (IsLess name.now) (pairs_in blocks.now) 0 (start_of blocks.now result) }
    ensures greater { AllWithin (IsGreater name.now) (pairs_in blocks.now)
        (start_of blocks.now (result + 1)) (length (pairs_in blocks.now)) }
{
    let mut low = 0;
    let mut high = blocks.len();
    while high - low > 1 {
        let middle = low + (high - low) / 2;
        if is_behind(&blocks[middle], name) {
            high = middle;
        } else {
            low = middle;
        }
    }
    low
}

/// Where a name is in a block, or else where it would go.
fn place_in<A: Allocator>(pairs: &[Pair<A>], name: &[u8]) -> Result<usize, usize>
    requires { AreInOrder pairs.now }
    ensures found { IfOk result (IsAt pairs.now name.now) }
    ensures absent { IfErr result (IsGap pairs.now name.now) }
{
    pairs.binary_search_by(|pair| order(pair.0.as_slice(), name))
}

/// The spot of a name, or else one at which it would go.
pub(crate) fn spot_of<A: Allocator>(
    blocks: &[Block<A>],
    name: &[u8],
) -> Result<(usize, usize), (usize, usize)>
    requires filled { All IsFilled blocks.now }
    requires some { 0 < length blocks.now }
    requires in_order { AreInOrder (pairs_in blocks.now) }
    ensures found { IfOk result (IsNamed blocks.now name.now) }
    ensures absent { IfErr result (IsFree blocks.now name.now) }
{
    let number = block_of(blocks, name);
    match place_in(blocks[number].pairs.as_slice(), name) {
        Ok(place) => Ok((number, place)),
        Err(place) => Err((number, place)),
    }
}

/// The spot of a name, if it is there.
pub(crate) fn spot_if_there<A: Allocator>(
    blocks: &[Block<A>],
    name: &[u8],
) -> Option<(usize, usize)>
    requires filled { All IsFilled blocks.now }
    requires in_order { AreInOrder (pairs_in blocks.now) }
    ensures found { IfSome result (IsNamed blocks.now name.now) }
    ensures none { IfNone result (node_of (pairs_in blocks.now) name.now ≡ None) }
    ensures stays { IfNone result (without (pairs_in blocks.now) name.now ≡ pairs_in blocks.now) }
{
    if blocks.is_empty() {
        return None;
    }
    match spot_of(blocks, name) {
        Ok(spot) => Some(spot),
        Err(_) => None,
    }
}

/// The spot of a name that is there.
pub(crate) fn spot_named<A: Allocator>(blocks: &[Block<A>], name: &[u8]) -> (usize, usize)
    requires filled { All IsFilled blocks.now }
    requires in_order { AreInOrder (pairs_in blocks.now) }
    requires there { is_some (node_of (pairs_in blocks.now) name.now) ≡ true }
    ensures { IsNamed blocks.now name.now result }
{
    match spot_of(blocks, name) {
        Ok(spot) => spot,
        Err(_) => unreachable!(),
    }
}

/// A spot at which a name goes that is not there.
fn spot_free<A: Allocator>(blocks: &[Block<A>], name: &[u8]) -> (usize, usize)
    requires filled { All IsFilled blocks.now }
    requires some { 0 < length blocks.now }
    requires in_order { AreInOrder (pairs_in blocks.now) }
    requires absent { node_of (pairs_in blocks.now) name.now ≡ None }
    ensures { IsFree blocks.now name.now result }
{
    match spot_of(blocks, name) {
        Ok(_) => unreachable!(),
        Err(spot) => spot,
    }
}

/// The block that has the name at a place, and the name's place in it.
pub(crate) fn spot_at<A: Allocator>(blocks: &[Block<A>], place: usize) -> (usize, usize)
    requires { place < length (pairs_in blocks.now) }
    ensures place { place_at blocks.now result ≡ place }
    ensures spot { IsSpot blocks.now result }
{
    let mut rest = place;
    for (number, block) in blocks.iter().enumerate() {
        if rest < block.pairs.len() {
            return (number, rest);
        }
        rest -= block.pairs.len();
    }
    unreachable!()
}

/// Cuts a block in two. Where memory is refused, the blocks are unchanged.
fn split<A: Allocator + Copy>(blocks: &mut Vec<Block<A>, A>, block: usize) -> Result<(), NoMemory>
    requires filled { All IsFilled blocks.old.items }
    requires within { block < length blocks.old.items }
    requires full { HoldsAt (λ block. 2 ≤ length block.pairs.items) blocks.old.items block }
    ensures pairs { pairs_in blocks.new.items ≡ pairs_in blocks.old.items }
    ensures filled { All IsFilled blocks.new.items }
    ensures len { vec_len blocks.new ≤ vec_len blocks.old + 1 }
    ensures capacity { vec_capacity blocks.old ≤ vec_capacity blocks.new }
    ensures some { 0 < vec_len blocks.new }
{
    blocks.reserve(1)?;
    let lower = &mut blocks[block];
    let half = lower.pairs.len() / 2;
    let pairs = lower.pairs.split_off(half)?;
    blocks.insert(block + 1, Block { pairs }).unwrap();
    Ok(())
}

/// Puts a pair into a block. Where memory is refused, the blocks are unchanged.
fn put<A: Allocator>(
    blocks: &mut Vec<Block<A>, A>,
    spot: (usize, usize),
    pair: Pair<A>,
) -> Result<(), NoMemory>
    requires filled { All IsFilled blocks.old.items }
    requires spot { IsOpen blocks.old.items spot }
    ensures ok { OnOk result (pairs_in blocks.new.items
        ≡ insert (pairs_in blocks.old.items) (place_at blocks.old.items spot) pair) }
    ensures err { OnErr result (pairs_in blocks.new.items ≡ pairs_in blocks.old.items) }
    ensures filled { All IsFilled blocks.new.items }
    ensures len { vec_len blocks.new ≡ vec_len blocks.old }
    ensures capacity { vec_capacity blocks.new ≡ vec_capacity blocks.old }
{
    blocks[spot.0].pairs.insert(spot.1, pair)?;
    Ok(())
}

/// Takes the pair at a spot out. A block that gets empty goes.
pub(crate) fn take_out<A: Allocator>(blocks: &mut Vec<Block<A>, A>, spot: (usize, usize)) -> Pair<A>
    requires filled { All IsFilled blocks.old.items }
    requires in_order { AreInOrder (pairs_in blocks.old.items) }
    requires spot { IsSpot blocks.old.items spot }
    ensures pairs { pairs_in blocks.new.items
        ≡ remove (pairs_in blocks.old.items) (place_at blocks.old.items spot) }
    ensures fewer { length (pairs_in blocks.old.items) ≡ length (pairs_in blocks.new.items) + 1 }
    ensures pair { slice_get (pairs_in blocks.old.items) (place_at blocks.old.items spot) ≡ Some result }
    ensures filled { All IsFilled blocks.new.items }
    ensures in_order { AreInOrder (pairs_in blocks.new.items) }
    ensures len { vec_len blocks.new ≤ vec_len blocks.old }
    ensures capacity { vec_capacity blocks.new ≡ vec_capacity blocks.old }
{
    let block = &mut blocks[spot.0];
    let pair = block.pairs.remove(spot.1);
    if block.pairs.is_empty() {
        blocks.remove(spot.0);
    }
    pair
}

/// Puts the name at a spot on another changeset, and gives the one that it was on.
pub(crate) fn move_in<A: Allocator>(
    blocks: &mut Vec<Block<A>, A>,
    spot: (usize, usize),
    node: Node,
) -> Node
    requires filled { All IsFilled blocks.old.items }
    requires in_order { AreInOrder (pairs_in blocks.old.items) }
    requires spot { IsSpot blocks.old.items spot }
    ensures pairs { pairs_in blocks.new.items
        ≡ moved (pairs_in blocks.old.items) (place_at blocks.old.items spot) node }
    ensures was { HoldsAt (λ pair. result ≡ pair.1) (pairs_in blocks.old.items) (place_at blocks.old.items spot) }
    ensures filled { All IsFilled blocks.new.items }
    ensures in_order { AreInOrder (pairs_in blocks.new.items) }
    ensures len { vec_len blocks.new ≡ vec_len blocks.old }
    ensures capacity { vec_capacity blocks.new ≡ vec_capacity blocks.old }
{
    let pair = &mut blocks[spot.0].pairs[spot.1];
    mem::replace(&mut pair.1, node)
}

/// A spot at which a name goes, in a block that is not full: one that is gets cut in two. Where memory is
/// refused, the blocks are unchanged.
fn open_spot<A: Allocator + Copy>(
    blocks: &mut Vec<Block<A>, A>,
    spot: (usize, usize),
    name: &[u8],
) -> Result<(usize, usize), NoMemory>
    requires filled { All IsFilled blocks.old.items }
    requires in_order { AreInOrder (pairs_in blocks.old.items) }
    requires free { IsFree blocks.old.items name.now spot }
    ensures free { IfOk result (IsFree blocks.new.items name.now) }
    ensures pairs { pairs_in blocks.new.items ≡ pairs_in blocks.old.items }
    ensures filled { All IsFilled blocks.new.items }
    ensures len { vec_len blocks.new ≤ vec_len blocks.old + 1 }
    ensures capacity { vec_capacity blocks.old ≤ vec_capacity blocks.new }
{
    if blocks[spot.0].pairs.len() < FULL {
        return Ok(spot);
    }
    split(blocks, spot.0)?;
    Ok(spot_free(blocks.as_slice(), name))
}

/// Puts a name in at a spot at which it goes. Where memory is refused, the names are unchanged.
fn join<A: Allocator + Copy>(
    blocks: &mut Vec<Block<A>, A>,
    spot: (usize, usize),
    pair: Pair<A>,
) -> Result<(), NoMemory>
    requires filled { All IsFilled blocks.old.items }
    requires in_order { AreInOrder (pairs_in blocks.old.items) }
    requires free { IsFree blocks.old.items pair.0 spot }
    ensures ok { OnOk result (pairs_in blocks.new.items
        ≡ with_name (pairs_in blocks.old.items) pair.0 pair.1) }
    ensures more { OnOk result (length (pairs_in blocks.new.items) ≡ length (pairs_in blocks.old.items) + 1) }
    ensures err { OnErr result (pairs_in blocks.new.items ≡ pairs_in blocks.old.items) }
    ensures filled { All IsFilled blocks.new.items }
    ensures in_order { AreInOrder (pairs_in blocks.new.items) }
    ensures len { vec_len blocks.new ≤ vec_len blocks.old + 1 }
    ensures capacity { vec_capacity blocks.old ≤ vec_capacity blocks.new }
{
    let spot = open_spot(blocks, spot, pair.0.as_slice())?;
    put(blocks, spot, pair)
}

/// Puts the first pair in. Where memory is refused, there is none.
fn begin<A: Allocator + Copy>(
    alloc: A,
    blocks: &mut Vec<Block<A>, A>,
    pair: Pair<A>,
) -> Result<(), NoMemory>
    requires { vec_len blocks.old ≡ 0 }
    ensures ok { OnOk result (pairs_in blocks.new.items ≡ pair ∷ []) }
    ensures err { OnErr result (blocks.new.items ≡ []) }
    ensures filled { All IsFilled blocks.new.items }
    ensures len { vec_len blocks.new ≤ 1 }
    ensures capacity { vec_capacity blocks.old ≤ vec_capacity blocks.new }
{
    let mut pairs = Vec::with_capacity(alloc, 1)?;
    pairs.push_reserved(pair);
    blocks.push(Block { pairs })?;
    Ok(())
}

/// Puts the first name in, and counts it. Where memory is refused, there is none.
pub(crate) fn add_first<A: Allocator + Copy>(
    alloc: A,
    blocks: &mut Vec<Block<A>, A>,
    count: &mut usize,
    name: &[u8],
    node: Node,
) -> Result<(), NoMemory>
    requires none { vec_len blocks.old ≡ 0 }
    requires count { count.old ≡ length (pairs_in blocks.old.items) }
    ensures ok { OnOk result (pairs_in blocks.new.items
        ≡ with_name (pairs_in blocks.old.items) name.now node) }
    ensures err { OnErr result (pairs_in blocks.new.items ≡ pairs_in blocks.old.items) }
    ensures count { count.new ≡ length (pairs_in blocks.new.items) }
    ensures filled { All IsFilled blocks.new.items }
    ensures in_order { AreInOrder (pairs_in blocks.new.items) }
    ensures len { vec_len blocks.new ≤ vec_len blocks.old + 1 }
    ensures capacity { vec_capacity blocks.old ≤ vec_capacity blocks.new }
{
    let name = Short::copy_of(alloc, name)?;
    begin(alloc, blocks, (name, node))?;
    *count = 1;
    Ok(())
}

/// Puts a name in at a spot at which it goes, and counts it. Where memory is refused, the names are
/// unchanged.
pub(crate) fn add_at<A: Allocator + Copy>(
    alloc: A,
    blocks: &mut Vec<Block<A>, A>,
    count: &mut usize,
    spot: (usize, usize),
    name: &[u8],
    node: Node,
) -> Result<(), NoMemory>
    requires filled { All IsFilled blocks.old.items }
    requires in_order { AreInOrder (pairs_in blocks.old.items) }
    requires count { count.old ≡ length (pairs_in blocks.old.items) }
    requires free { IsFree blocks.old.items name.now spot }
    ensures ok { OnOk result (pairs_in blocks.new.items
        ≡ with_name (pairs_in blocks.old.items) name.now node) }
    ensures err { OnErr result (pairs_in blocks.new.items ≡ pairs_in blocks.old.items) }
    ensures count { count.new ≡ length (pairs_in blocks.new.items) }
    ensures filled { All IsFilled blocks.new.items }
    ensures in_order { AreInOrder (pairs_in blocks.new.items) }
    ensures len { vec_len blocks.new ≤ vec_len blocks.old + 1 }
    ensures capacity { vec_capacity blocks.old ≤ vec_capacity blocks.new }
{
    if *count == usize::MAX {
        return Err(NoMemory);
    }
    let name = Short::copy_of(alloc, name)?;
    join(blocks, spot, (name, node))?;
    *count += 1;
    Ok(())
}

/// Puts a name in that is not there, with an empty block that has room for one. It takes no memory.
pub(crate) fn come_back<A: Allocator>(blocks: &mut Vec<Block<A>, A>, pair: Pair<A>, own: Block<A>)
    requires filled { All IsFilled blocks.old.items }
    requires in_order { AreInOrder (pairs_in blocks.old.items) }
    requires absent { node_of (pairs_in blocks.old.items) pair.0 ≡ None }
    requires room { vec_len blocks.old < vec_capacity blocks.old }
    requires empty { own.pairs.items ≡ [] }
    requires own_room { vec_len own.pairs < vec_capacity own.pairs }
    ensures pairs { pairs_in blocks.new.items ≡ with_name (pairs_in blocks.old.items) pair.0 pair.1 }
    ensures more { length (pairs_in blocks.new.items) ≡ length (pairs_in blocks.old.items) + 1 }
    ensures filled { All IsFilled blocks.new.items }
    ensures in_order { AreInOrder (pairs_in blocks.new.items) }
    ensures len { vec_len blocks.new ≤ vec_len blocks.old + 1 }
    ensures capacity { vec_capacity blocks.old ≤ vec_capacity blocks.new }
{
    if blocks.is_empty() {
        come_first(blocks, pair, own);
        return;
    }
    let spot = spot_free(blocks.as_slice(), pair.0.as_slice());
    come_back_at(blocks, spot, pair, own);
}

/// Puts the first pair in, with an empty block that has room for one.
fn come_first<A: Allocator>(blocks: &mut Vec<Block<A>, A>, pair: Pair<A>, mut own: Block<A>)
    requires none { vec_len blocks.old ≡ 0 }
    requires room { vec_len blocks.old < vec_capacity blocks.old }
    requires empty { own.pairs.items ≡ [] }
    requires own_room { vec_len own.pairs < vec_capacity own.pairs }
    ensures pairs { pairs_in blocks.new.items ≡ pair ∷ [] }
    ensures filled { All IsFilled blocks.new.items }
    ensures len { vec_len blocks.new ≡ 1 }
    ensures capacity { vec_capacity blocks.old ≤ vec_capacity blocks.new }
{
    own.pairs.push_reserved(pair);
    blocks.push_reserved(own);
}

/// Puts a pair in at a spot. Where the block that it would join has no room, the last pair of that block moves
/// on into the block that came with the pair.
fn come_back_at<A: Allocator>(
    blocks: &mut Vec<Block<A>, A>,
    spot: (usize, usize),
    pair: Pair<A>,
    mut own: Block<A>,
)
    requires filled { All IsFilled blocks.old.items }
    requires spot { IsOpen blocks.old.items spot }
    requires room { vec_len blocks.old < vec_capacity blocks.old }
    requires empty { own.pairs.items ≡ [] }
    requires own_room { vec_len own.pairs < vec_capacity own.pairs }
    ensures pairs { pairs_in blocks.new.items
        ≡ insert (pairs_in blocks.old.items) (place_at blocks.old.items spot) pair }
    ensures filled { All IsFilled blocks.new.items }
    ensures len { vec_len blocks.new ≤ vec_len blocks.old + 1 }
    ensures capacity { vec_capacity blocks.old ≤ vec_capacity blocks.new }
{
    let block = &mut blocks[spot.0];
    if block.pairs.len() < block.pairs.capacity() {
        block.pairs.insert(spot.1, pair).unwrap();
        return;
    }
    let last = with_last_out(&mut block.pairs, spot.1, pair);
    own.pairs.push_reserved(last);
    blocks.insert(spot.0 + 1, own).unwrap();
}

/// Puts a pair in at a place, and takes the last one out, which may be the same.
fn with_last_out<A: Allocator>(pairs: &mut Vec<Pair<A>, A>, place: usize, pair: Pair<A>) -> Pair<A>
    requires filled { 0 < length pairs.old.items }
    requires within { place ≤ length pairs.old.items }
    ensures pairs { pairs.new.items ++ result ∷ [] ≡ insert pairs.old.items place pair }
    ensures filled { 0 < length pairs.new.items }
{
    if place == pairs.len() {
        return pair;
    }
    let Some(last) = pairs.pop() else {
        unreachable!()
    };
    pairs.insert(place, pair).unwrap();
    last
}

/// A copy of all blocks.
pub(crate) fn copies<A: Allocator + Copy>(
    alloc: A,
    blocks: &[Block<A>],
) -> Result<Vec<Block<A>, A>, NoMemory>
    requires filled { All IsFilled blocks.now }
    ensures pairs { IfOk result (λ copies. pairs_in copies.items ≡ pairs_in blocks.now) }
    ensures filled { IfOk result (λ copies. All IsFilled copies.items) }
{
    let mut copies = Vec::with_capacity(alloc, blocks.len())?;
    for block in blocks {
        let pairs = pair_copies(alloc, block.pairs.as_slice())?;
        copies.push(Block { pairs })?;
    }
    Ok(copies)
}

/// A copy of each pair in turn.
fn pair_copies<A: Allocator + Copy>(
    alloc: A,
    pairs: &[Pair<A>],
) -> Result<Vec<Pair<A>, A>, NoMemory>
    ensures { IfOk result (λ copies. copies.items ≡ pairs.now) }
{
    let mut copies = Vec::with_capacity(alloc, pairs.len())?;
    for pair in pairs {
        let name = Short::copy_of(alloc, pair.0.as_slice())?;
        copies.push((name, pair.1))?;
    }
    Ok(copies)
}
