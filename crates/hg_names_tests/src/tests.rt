//! Names at their places, among few and among many, and memory refused in turn.

ghost use Rattle.std.specs.Prelude.{◌≡◌, ◌<◌, ◌≤◌, ◌+◌, vec_len};

use hg_names::{Entries, Named, Names};
use hg_types::{NoMemory, Node};
use linked_list_allocator::LocalHeap;
use std::alloc::{Allocator, Global};
use std::test::*;

/// How many names the larger test has.
const MANY: u16 = 20_000;

/// How many names there are to choose from where a plain list is the model.
const SMALL: u64 = 2_800;

fn node(byte: u8) -> Node {
    Node([byte; 20])
}

/// A name of two bytes that left.
#[derive(Drop)]
struct Gone<A: Allocator = Global> {
    name: [u8; 2],
    named: Named<A>,
    ghost same: { named.0 ≡ name },
}

/// Takes a name of two bytes out, if it is there.
fn take<A: Allocator + Copy>(
    alloc: A,
    names: &mut Names<A>,
    name: [u8; 2],
) -> Result<Option<Gone<A>>, NoMemory> {
    match names.remove(alloc, &name)? {
        Some(named) => Ok(Some(Gone { name, named })),
        None => Ok(None),
    }
}

/// Puts a name back, and reports whether it could come: it was not there.
fn put_back<A: Allocator>(names: &mut Names<A>, gone: Gone<A>) -> bool
    requires { 0 < names.old.room }
    ensures { names.old.room ≤ names.new.room + 1 }
{
    let Gone { name, named } = gone;
    if names.find(&name).is_some() || names.len() == usize::MAX {
        return false;
    }
    names.put_back(named);
    true
}

/// Moves a name, and reports whether it was there.
fn move_if_there<A: Allocator>(names: &mut Names<A>, name: &[u8], node: Node) -> bool {
    let is_there = names.find(name).is_some();
    if is_there {
        names.move_to(name, node);
    }
    is_there
}

/// Whether the names are these, in this order, each at its place and once on the walk.
fn are<A: Allocator>(names: &Names<A>, wanted: &[(&[u8], Node)]) -> bool {
    let mut same = names.len() == wanted.len() && names.get(wanted.len()).is_none();
    let mut walk = names.entries();
    for (place, pair) in wanted.iter().enumerate() {
        same = same
            && walk
                .next()
                .is_some_and(|found| found.0 == pair.0 && found.1 == pair.1)
            && names
                .get(place)
                .is_some_and(|found| found.0 == pair.0 && found.1 == pair.1)
            && names.find(pair.0) == Some(pair.1);
    }
    same && walk.next().is_none()
}

#[test]
fn names_at_their_places(rt: HostRuntime) -> Result<(), Fail> {
    let alloc = rt.alloc();
    let mut names = Names::new(alloc);
    assert!(rt; are(&names, &[]) && names.find(b"a").is_none());
    put_four(alloc, &mut names)?;
    assert!(rt; are_four(&names, 1));
    assert!(rt; names.find(b"a").is_none() && names.find(&[255, 0]).is_none());
    assert!(rt; move_if_there(&mut names, b"b", node(9)));
    assert!(rt; names.insert(alloc, b"ab", node(5))? == Some(node(4)));
    assert!(rt; names.insert(alloc, b"ab", node(4))? == Some(node(5)));
    names.forget(b"c");
    assert!(rt; names.remove(alloc, b"c")?.is_none() && names.len() == 4);
    let copy = names.try_clone(alloc)?;
    assert!(rt; one_leaves_and_comes_back(alloc, &mut names)?);
    assert!(rt; are_four(&copy, 9));
    Ok(())
}

/// The first name, one that is there, and one that is not.
#[test]
fn names_that_are_set(rt: HostRuntime) -> Result<(), Fail> {
    let alloc = rt.alloc();
    let mut names = Names::new(alloc);
    names.set(alloc, b"b", node(8))?;
    assert!(rt; are(&names, &[(b"b", node(8))]));
    put_four(alloc, &mut names)?;
    names.set(alloc, b"b", node(9))?;
    assert!(rt; are_four(&names, 9));
    names.set(alloc, b"c", node(6))?;
    assert!(rt; names.len() == 5 && names.find(b"c") == Some(node(6)));
    names.forget(b"c");
    assert!(rt; are_four(&names, 9));
    Ok(())
}

fn put_four<A: Allocator + Copy>(alloc: A, names: &mut Names<A>) -> Result<(), NoMemory> {
    names.insert(alloc, b"b", node(1))?;
    names.insert(alloc, b"", node(2))?;
    names.insert(alloc, &[255], node(3))?;
    names.insert(alloc, b"ab", node(4))?;
    Ok(())
}

/// Whether the names are the four, with `b` on that changeset.
fn are_four<A: Allocator>(names: &Names<A>, b: u8) -> bool {
    are(
        names,
        &[
            (b"", node(2)),
            (b"ab", node(4)),
            (b"b", node(b)),
            (&[255], node(3)),
        ],
    )
}

/// Of the four `ab` leaves, the empty one is forgotten, and `ab` comes back. Whether each was right.
fn one_leaves_and_comes_back<A: Allocator + Copy>(
    alloc: A,
    names: &mut Names<A>,
) -> Result<bool, NoMemory> {
    let Some(gone) = take(alloc, names, *b"ab")? else {
        return Ok(false);
    };
    let left = are(names, &[(b"", node(2)), (b"b", node(9)), (&[255], node(3))]);
    names.forget(b"");
    let few = are(names, &[(b"b", node(9)), (&[255], node(3))]);
    names.reserve(400)?;
    names.shrink_room(1);
    let back = put_back(names, gone);
    let again = are(
        names,
        &[(b"ab", node(4)), (b"b", node(9)), (&[255], node(3))],
    );
    Ok(left && few && back && again)
}

/// Puts many names in, each before the first or after the last.
fn put_many<A: Allocator + Copy>(
    alloc: A,
    names: &mut Names<A>,
    half: u16,
) -> Result<(), NoMemory> {
    for number in 0..half {
        let below = half.saturating_sub(1).saturating_sub(number);
        names.insert(alloc, &below.to_be_bytes(), node(1))?;
        let above = half.saturating_add(number);
        names.insert(alloc, &above.to_be_bytes(), node(2))?;
    }
    Ok(())
}

/// Whether the next name of a walk is these bytes.
fn next_is<A: Allocator>(walk: &mut Entries<'_, A>, name: &[u8]) -> bool {
    walk.next().is_some_and(|found| found.0 == name)
}

/// Whether the name at a place is these bytes.
fn is_at<A: Allocator>(names: &Names<A>, place: u16, name: &[u8]) -> bool {
    names
        .get(usize::from(place))
        .is_some_and(|found| found.0 == name)
}

/// Whether the names are so many numbers from 0 on, found, at their places and on the walk.
fn are_numbers<A: Allocator>(names: &Names<A>, count: u16) -> bool {
    let mut same = names.len() == usize::from(count);
    let mut walk = names.entries();
    for number in 0..count {
        let bytes = number.to_be_bytes();
        let is_found = names.find(&bytes).is_some();
        let is_next = next_is(&mut walk, &bytes);
        same = same && is_found && is_next && is_at(names, number, &bytes);
    }
    same && walk.next().is_none()
}

/// Whether of so many pairs of numbers the odd ones are there, each at its place, and the even ones are not.
fn are_odd<A: Allocator>(names: &Names<A>, pairs: u16) -> bool {
    let mut same = true;
    for number in 0..pairs {
        let even = number.saturating_mul(2);
        let odd = even.saturating_add(1);
        same = same
            && names.find(&even.to_be_bytes()).is_none()
            && is_at(names, number, &odd.to_be_bytes());
    }
    same
}

#[test]
fn many_names_at_their_places(rt: HostRuntime) -> Result<(), Fail> {
    let alloc = rt.alloc();
    let mut names = Names::new(alloc);
    put_many(alloc, &mut names, MANY / 2)?;
    assert!(rt; are_numbers(&names, MANY));
    for number in 0..MANY / 2 {
        let even = number.saturating_mul(2);
        names.remove(alloc, &even.to_be_bytes())?;
    }
    assert!(rt; are_odd(&names, MANY / 2));
    for number in 0..MANY / 2 {
        let odd = number.saturating_mul(2).saturating_add(1);
        names.forget(&odd.to_be_bytes());
    }
    assert!(rt; names.len() == 0 && names.entries().next().is_none());
    Ok(())
}

/// The next of a row of numbers that look like chance.
fn next_chance(seed: u64) -> u64 {
    seed.wrapping_mul(6_364_136_223_846_793_005)
        .wrapping_add(1_442_695_040_888_963_407)
}

/// A name of the list leaves or moves, in the names and in the list alike. Whether both said the same.
fn one_that_is_there<A: Allocator + Copy>(
    alloc: A,
    names: &mut Names<A>,
    model: &mut Vec<(u64, u8)>,
    place: usize,
    turn: u32,
    byte: u8,
) -> Result<bool, NoMemory>
    requires { place < vec_len model.old }
{
    let (name, was) = model[place];
    let bytes = name.to_be_bytes();
    if names.find(&bytes) != Some(node(was)) {
        return Ok(false);
    }
    if turn % 3 == 0 {
        model.remove(place);
        return Ok(names.remove(alloc, &bytes)?.is_some());
    }
    if turn % 3 == 1 {
        model.remove(place);
        names.forget(&bytes);
        return Ok(true);
    }
    model[place].1 = byte;
    if turn % 2 == 0 {
        return Ok(move_if_there(names, &bytes, node(byte)));
    }
    let before = names.insert(alloc, &bytes, node(byte))?;
    Ok(before == Some(node(was)))
}

/// A name that is not in the list comes, in the names and in the list alike. Whether it was not there.
fn one_that_comes<A: Allocator + Copy>(
    alloc: A,
    names: &mut Names<A>,
    model: &mut Vec<(u64, u8)>,
    place: usize,
    name: u64,
    byte: u8,
) -> Result<bool, NoMemory>
    requires { place ≤ vec_len model.old }
{
    let bytes = name.to_be_bytes();
    let absent = names.find(&bytes).is_none();
    names.forget(&bytes);
    let removed = names.remove(alloc, &bytes)?.is_some();
    let before = names.insert(alloc, &bytes, node(byte))?;
    model.insert(place, (name, byte))?;
    Ok(absent && !removed && before.is_none())
}

/// Whether the names are those of the list, in its order.
fn are_of<A: Allocator>(names: &Names<A>, model: &[(u64, u8)]) -> bool {
    let mut same = true;
    let mut walk = names.entries();
    for pair in model {
        let bytes = pair.0.to_be_bytes();
        same = same
            && walk.next().is_some_and(|found| found.0 == bytes.as_slice()
                && found.1 == node(pair.1));
    }
    same && walk.next().is_none()
}

/// Names come, move and go in an order like chance; a plain sorted list tells what has to be there.
#[test]
fn names_like_a_sorted_list(rt: HostRuntime) -> Result<(), Fail> {
    let alloc = rt.alloc();
    let mut names = Names::new(alloc);
    let mut model: Vec<(u64, u8)> = Vec::new(alloc);
    let mut seed = 12_345u64;
    let mut same = true;
    for turn in 0..24_000u32 {
        seed = next_chance(seed);
        let name = (seed >> 33) % SMALL;
        let byte = seed.to_be_bytes()[4];
        let is_right = match model.binary_search_by(|pair| pair.0.cmp(&name)) {
            Ok(place) => one_that_is_there(alloc, &mut names, &mut model, place, turn, byte)?,
            Err(place) => one_that_comes(alloc, &mut names, &mut model, place, name, byte)?,
        };
        same = same && is_right;
    }
    assert!(rt; same && are_of(&names, &model) && model.len() > 600);
    Ok(())
}

/// The name of a number, between those of 799 and 800.
fn between(number: u16) -> [u8; 4] {
    let (before, low) = (799u16.to_be_bytes(), number.to_be_bytes());
    [before[0], before[1], low[0], low[1]]
}

/// Takes the numbers from 800 up to 1,200 out.
fn take_upper<A: Allocator + Copy>(
    alloc: A,
    names: &mut Names<A>,
) -> Result<Vec<Gone<A>, A>, NoMemory> {
    let mut gone = Vec::new(alloc);
    for number in 800..1_200u16 {
        if let Some(one) = take(alloc, names, number.to_be_bytes())? {
            gone.push(one)?;
        }
    }
    Ok(gone)
}

/// Puts those back, the last one first. Whether each could come.
fn put_all_back<A: Allocator + Copy>(
    names: &mut Names<A>,
    gone: Vec<Gone<A>, A>,
) -> Result<bool, NoMemory> {
    let mut gone = gone;
    let mut same = gone.len() == 400;
    names.reserve(gone.len())?;
    while let Some(one) = gone.pop() {
        let back = put_back(names, one);
        same = same && back;
    }
    Ok(same && names.len() == 4_400)
}

/// Takes the names between out, one by one. Whether one less was left each time.
fn take_between<A: Allocator + Copy>(alloc: A, names: &mut Names<A>) -> Result<bool, NoMemory> {
    let mut same = true;
    for number in 0..2_000u16 {
        let was_there = names.remove(alloc, &between(number))?.is_some();
        let left = usize::from(4_399u16.saturating_sub(number));
        same = same && was_there && names.len() == left;
    }
    Ok(same)
}

/// Names that left come back among full blocks, each at its place.
#[test]
fn names_come_back(rt: HostRuntime) -> Result<(), Fail> {
    let alloc = rt.alloc();
    let mut names = Names::new(alloc);
    put_many(alloc, &mut names, 1_200)?;
    let gone = take_upper(alloc, &mut names)?;
    for number in 0..2_000u16 {
        names.insert(alloc, &between(number), node(7))?;
    }
    let back = put_all_back(&mut names, gone)?;
    let taken = take_between(alloc, &mut names)?;
    assert!(rt; back && taken && are_numbers(&names, 2_400));
    Ok(())
}

/// What a heap keeps for 300 names: before room for many to come back is made, with it, and after all but a little of
/// it is given back.
fn kept_for_room(heap: &LocalHeap) -> Result<[usize; 3], NoMemory> {
    let mut names = Names::new(heap);
    let count = put_numbers(heap, &mut names);
    let before = heap.used();
    names.reserve(4_096)?;
    let large = heap.used();
    names.shrink_room(2);
    let small = heap.used();
    let is_same = are_put(&names, count);
    drop(names);
    Ok(if is_same && count == 300 {
        [before, large, small]
    } else {
        [0; 3]
    })
}

/// Room that is given back is free: it takes 32 bytes for each name that could come back.
#[test]
fn room_is_given_back(rt: HostRuntime) -> Result<(), Fail> {
    let heap = LocalHeap::new(rt.alloc(), 1 << 20)?;
    let [before, large, small] = kept_for_room(&heap)?;
    let is_large = large >= before.saturating_add(32 * 4_000);
    assert!(rt;
        is_large && before > 0 && small <= before.saturating_add(64),
        "{before} {large} {small}"
    );
    Ok(())
}

/// Puts up to 300 numbers in, each on the same changeset, and reports how many came before memory was refused.
fn put_numbers<A: Allocator + Copy>(alloc: A, names: &mut Names<A>) -> u16 {
    for number in 0..300u16 {
        if names.insert(alloc, &number.to_be_bytes(), node(1)).is_err() {
            return number;
        }
    }
    300
}

/// Whether the names are so many numbers from 0 on, each on that changeset.
fn are_put<A: Allocator>(names: &Names<A>, count: u16) -> bool {
    let mut same = names.len() == usize::from(count);
    let mut walk = names.entries();
    for number in 0..count {
        let bytes = number.to_be_bytes();
        same = same
            && walk
                .next()
                .is_some_and(|found| found.0 == bytes.as_slice() && found.1 == node(1));
    }
    same && walk.next().is_none()
}

/// The first of so many numbers leaves and comes back, where memory is not refused. Whether each was right.
fn first_comes_back<A: Allocator + Copy>(alloc: A, names: &mut Names<A>, count: u16) -> bool {
    let first = 0u16.to_be_bytes();
    let all = usize::from(count);
    let gone = match take(alloc, names, first) {
        Ok(Some(gone)) => gone,
        Ok(None) => return false,
        Err(_) => return names.len() == all,
    };
    let is_less = names.len().saturating_add(1) == all;
    match names.reserve(1) {
        Ok(()) => {
            let back = put_back(names, gone);
            let is_found = names.find(&first) == Some(node(1));
            is_less && back && is_found && names.len() == all
        }
        Err(_) => is_less,
    }
}

/// What came of names over one heap.
#[derive(Clone, Copy)]
struct Growth {
    is_right: bool,
    is_copied: bool,
    count: u16,
}

/// Puts numbers in, copies the names, and takes the first out and back.
fn grow<A: Allocator + Copy>(alloc: A) -> Growth {
    let mut names = Names::new(alloc);
    let count = put_numbers(alloc, &mut names);
    let is_put = are_put(&names, count);
    let (is_copied, is_same) = match names.try_clone(alloc) {
        Ok(copy) => (true, copy.len() == names.len()),
        Err(_) => (false, true),
    };
    let comes_back = count == 0 || first_comes_back(alloc, &mut names, count);
    drop(names);
    Growth {
        is_right: is_put && is_same && comes_back,
        is_copied,
        count,
    }
}

/// Over heaps of each multiple of 16 bytes, so that each growth is refused in turn: what is refused leaves the
/// names as they were.
#[test]
fn each_growth_refused(rt: HostRuntime) -> Result<(), Fail> {
    let (mut refused, mut done) = (0u32, 0u32);
    for sixteens in (1..6_000usize).step_by(9) {
        let heap = LocalHeap::new(rt.alloc(), sixteens.saturating_mul(16))?;
        let growth = grow(&heap);
        assert!(rt; growth.is_right);
        if !growth.is_copied {
            refused = refused.saturating_add(1);
        }
        if growth.count == 300 {
            done = done.saturating_add(1);
        }
    }
    assert!(rt; refused > 0 && done > 0);
    Ok(())
}
