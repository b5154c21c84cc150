//! Worked examples with their bytes, merges, cuts, and memory refused in turn.

use hg_obs::*;
use hg_types::{NoMemory, Node, Seq, TryClone};
use linked_list_allocator::LocalHeap;
use std::alloc::{AllocError, Allocator, Global};
use std::hash::RandomState;
use std::test::*;

/// A marker without successors and metadata: six zero bytes, and 20 times 17.
const MARKER: [u8; 26] = [
    0, 0, 0, 0, 0, 0, 17, 17, 17, 17, 17, 17, 17, 17, 17, 17, 17, 17, 17, 17, 17, 17, 17, 17, 17,
    17,
];

/// Marker data with two markers, of 52 and 69 bytes. The first has the flags 1, one successor and the
/// metadata `user:a`, the second two successors and `a:b`.
const TWO: [u8; 122] = [
    0, 1, 0, 0, 0, 6, 1, 17, 17, 17, 17, 17, 17, 17, 17, 17, 17, 17, 17, 17, 17, 17, 17, 17, 17,
    17, 17, 34, 34, 34, 34, 34, 34, 34, 34, 34, 34, 34, 34, 34, 34, 34, 34, 34, 34, 34, 34, 117,
    115, 101, 114, 58, 97, 2, 0, 0, 0, 3, 0, 34, 34, 34, 34, 34, 34, 34, 34, 34, 34, 34, 34, 34,
    34, 34, 34, 34, 34, 34, 34, 51, 51, 51, 51, 51, 51, 51, 51, 51, 51, 51, 51, 51, 51, 51, 51, 51,
    51, 51, 51, 68, 68, 68, 68, 68, 68, 68, 68, 68, 68, 68, 68, 68, 68, 68, 68, 68, 68, 68, 68, 97,
    58, 98,
];

fn node(byte: u8) -> Node {
    Node([byte; 20])
}

/// A marker with that predecessor and one successor.
fn marker<A: Allocator + Copy>(
    alloc: A,
    predecessor: u8,
    successor: u8,
) -> Result<Marker<A>, NoMemory> {
    let mut successors = Seq::new(alloc);
    successors.push(node(successor))?;
    Ok(Marker {
        successors,
        flags: 0,
        predecessor: node(predecessor),
        meta: Seq::new(alloc),
    })
}

/// Markers with these predecessors and successors.
fn list_of<A: Allocator + Copy>(
    alloc: A,
    pairs: &[(u8, u8)],
) -> Result<Seq<Marker<A>, A>, NoMemory> {
    let mut markers = Seq::new(alloc);
    for (predecessor, successor) in pairs {
        markers.push(marker(alloc, *predecessor, *successor)?)?;
    }
    Ok(markers)
}

fn predecessors<A: Allocator + Copy>(
    alloc: A,
    markers: &[Marker<A>],
) -> Result<Seq<Node, A>, NoMemory> {
    let mut nodes = Seq::new(alloc);
    for marker in markers {
        nodes.push(marker.predecessor)?;
    }
    Ok(nodes)
}

/// Appends the bytes of each marker, one after the other.
fn write_all<A: Allocator, B: Allocator>(
    markers: &[Marker<A>],
    out: &mut Vec<u8, B>,
) -> Result<(), NoMemory> {
    for marker in markers {
        if marker.successors.len() < 256 && marker.meta.len() < 4_294_967_296 {
            marker.append_to(out)?;
        }
    }
    Ok(())
}

/// How many markers are read.
fn count(alloc: Global, bytes: &[u8]) -> Result<usize, MarkerFault> {
    let markers = read_markers(alloc, bytes)?;
    Ok(markers.len())
}

/// The data of one marker with that successor and metadata of fewer than 256 bytes.
fn data_of(alloc: Global, successor: u8, meta: &[u8]) -> Result<Vec<u8>, AllocError> {
    let mut bytes = Vec::new(alloc);
    let size = u8::try_from(meta.len()).unwrap_or(0);
    bytes.extend_from_slice(&[0, 1, 0, 0, 0, size, 0])?;
    bytes.extend_from_slice(&[17; 20])?;
    bytes.extend_from_slice(&[successor; 20])?;
    bytes.extend_from_slice(meta)?;
    Ok(bytes)
}

/// Merges the markers of the data, and answers how many are new.
fn merge_data<A: Allocator + Copy>(
    markers: &mut Markers<A>,
    alloc: A,
    bytes: &[u8],
) -> Result<u64, MarkerFault> {
    let read = read_markers(alloc, bytes)?;
    Ok(markers.merge(read)?)
}

/// Marker data with that marker as often as `times` says.
fn repeated(alloc: Global, times: u8) -> Result<Vec<u8>, AllocError> {
    let mut bytes = Vec::new(alloc);
    bytes.extend_from_slice(&[0])?;
    for _ in 0..times {
        bytes.extend_from_slice(&MARKER)?;
    }
    Ok(bytes)
}

// `00`, and twice `00 00000000 00 11*20` (53 bytes). Result: two markers are read, one is added;
// its bytes are the 26 bytes again; `11*20` is a predecessor, the null id is not.
#[test]
fn one_marker_twice(rt: HostRuntime) -> Result<(), Fail> {
    let bytes = repeated(rt.alloc(), 2)?;
    let mut markers = Markers::new(rt.alloc(), RandomState::new(&rt)?);
    let added = merge_data(&mut markers, rt.alloc(), &bytes)?;
    assert!(rt; added == 1 && markers.list().len() == 1);
    assert!(rt; markers.is_predecessor(&node(17)) && !markers.is_predecessor(&Node::NULL));
    // What a report prints of it.
    let mut out = Vec::new(rt.alloc());
    write_all(markers.list(), &mut out)?;
    assert_eq!(rt; out.as_slice(), MARKER.as_slice());
    Ok(())
}

/// Whether markers with that metadata are merged in turn, as is said beside each.
fn are_merged(
    markers: &mut Markers,
    alloc: Global,
    forms: &[(&[u8], Result<u64, MarkerFault>)],
) -> Result<bool, AllocError> {
    let mut all = true;
    for (meta, added) in forms {
        let bytes = data_of(alloc, 34, meta)?;
        all = merge_data(markers, alloc, &bytes) == *added && all;
    }
    Ok(all)
}

// A marker with one successor and the metadata `user:a`; the same with a NUL after it; `user`.
// Result: accepted; accepted as another marker; BadMetadata.
#[test]
fn metadata_in_three_forms(rt: HostRuntime) -> Result<(), Fail> {
    let mut markers = Markers::new(rt.alloc(), RandomState::new(&rt)?);
    let forms: [(&[u8], Result<u64, MarkerFault>); 4] = [
        (b"user:a", Ok(1)),
        (b"user:a\0", Ok(1)),
        (b"user:a", Ok(0)),
        (b"user", Err(MarkerFault::BadMetadata)),
    ];
    let merged = are_merged(&mut markers, rt.alloc(), &forms);
    assert!(rt; merged == Ok(true) && markers.list().len() == 2);
    Ok(())
}

/// Whether the data of one marker is read so, and with a byte after it is not.
fn is_read(
    alloc: Global,
    successor: u8,
    meta: &[u8],
    read: Result<usize, MarkerFault>,
) -> Result<bool, AllocError> {
    let mut bytes = data_of(alloc, successor, meta)?;
    let alone = count(alloc, &bytes) == read;
    bytes.push(0)?;
    Ok(alone && count(alloc, &bytes) == Err(read.err().unwrap_or(MarkerFault::Short)))
}

// Empty; `:`; two NULs; `a:1` NUL NUL `b:2`; `a::` NUL `:b` · `a:1` NUL `b`; `a` NUL `b:2`; `a`;
// NUL `a` NUL; `a:1` NUL `b` NUL `c:3` · a null successor, also with a byte after it · a null
// successor and bad metadata. Result: metadata · none · NullSuccessor · BadMetadata.
#[test]
fn pieces_of_metadata_and_null_successors(rt: HostRuntime) -> Result<(), Fail> {
    let (bare, null) = (MarkerFault::BadMetadata, MarkerFault::NullSuccessor);
    let forms: [(u8, &[u8], Result<usize, MarkerFault>); 12] = [
        (34, b"", Ok(1)),
        (34, b":", Ok(1)),
        (34, b"\0\0", Ok(1)),
        (34, b"a:1\0\0b:2", Ok(1)),
        (34, b"a::\0:b", Ok(1)),
        (34, b"a:1\0b", Err(bare)),
        (34, b"a\0b:2", Err(bare)),
        (34, b"\0a\0", Err(bare)),
        (34, b"a:1\0b\0c:3", Err(bare)),
        (0, b"a:1", Err(null)),
        // Of one marker the metadata comes first, and a fault comes before those after it.
        (0, b"a", Err(bare)),
        (0, b"", Err(null)),
    ];
    for (successor, meta, read) in forms {
        assert!(rt; is_read(rt.alloc(), successor, meta, read)?);
    }
    Ok(())
}

// `00`, a marker of 52 bytes (`01 00000006 01 11*20 22*20 "user:a"`) and one of 69 (`02 00000003 00
// 22*20 33*20 44*20 "a:b"`), cut at each place · `01`. Result: Short, except the first byte alone
// (no markers), the first 53 bytes (one) and all 122 (two) · BadVersion.
#[test]
fn every_prefix_of_two_markers(rt: HostRuntime) {
    for len in 0..122usize {
        let read = match len {
            1 => Ok(0),
            53 => Ok(1),
            _ => Err(MarkerFault::Short),
        };
        assert!(rt; count(rt.alloc(), &TWO[..len]) == read, "at {len}");
    }
    assert!(rt; count(rt.alloc(), &TWO) == Ok(2));
    assert!(rt; count(rt.alloc(), &[1]) == Err(MarkerFault::BadVersion));
    reading_is_the_grammar::<Global>();
    bytes_tell_markers::<Global>();
}

/// Merges two lists that share markers, and answers how many of each were new.
fn merge_two_lists(alloc: Global, markers: &mut Markers) -> Result<(u64, u64), NoMemory> {
    let first = markers.merge(list_of(alloc, &[(1, 9)])?)?;
    let second = markers.merge(list_of(alloc, &[(2, 9), (1, 9), (1, 8), (2, 9)])?)?;
    Ok((first, second))
}

// Predecessors 1; then 2, 1 (the same marker), 1 (another successor), 2 (again); a copy; cut back
// to one, to none. Result: 1 added; 2 added; the order 1, 2, 1; 2 is no predecessor any more, 1 is
// while a marker is left; the copy has all three.
#[test]
fn merge_of_shared_markers(rt: HostRuntime) -> Result<(), Fail> {
    let mut markers = Markers::new(rt.alloc(), RandomState::new(&rt)?);
    let added = merge_two_lists(rt.alloc(), &mut markers)?;
    assert!(rt; added == (1, 2));
    let order = predecessors(rt.alloc(), markers.list())?;
    assert!(rt; order.as_slice() == [node(1), node(2), node(1)].as_slice());
    Ok(())
}

/// Whether the two lists are cut back to so many markers.
fn is_cut(markers: &mut Markers, left: usize) -> bool {
    if left <= markers.list().len() {
        markers.cut_back(left);
    }
    let (first, second) = (
        markers.is_predecessor(&node(1)),
        markers.is_predecessor(&node(2)),
    );
    markers.list().len() == left && first == (left > 0) && second == (left > 1)
}

/// Whether the two lists are cut back to nothing, and a copy of them stays.
fn is_copied(alloc: Global, markers: &mut Markers) -> Result<bool, NoMemory> {
    merge_two_lists(alloc, markers)?;
    let copy = markers.try_clone(alloc)?;
    let cut = is_cut(markers, 2) && is_cut(markers, 1) && is_cut(markers, 0);
    Ok(cut && copy.list().len() == 3 && copy.is_predecessor(&node(2)))
}

#[test]
fn cut_back_and_copy(rt: HostRuntime) -> Result<(), Fail> {
    let mut markers = Markers::new(rt.alloc(), RandomState::new(&rt)?);
    assert!(rt; is_copied(rt.alloc(), &mut markers)?);
    Ok(())
}

/// How far memory went.
#[derive(Clone, Copy)]
enum Reached {
    Reading,
    Merging,
    MergingMore,
    Copying,
    Writing,
    End,
    /// Something else was answered, or a refusal left a change.
    Wrong,
}

/// Ten markers with predecessors of their own, which with two others are more than the first room of a list.
const TEN: [(u8, u8); 10] = [
    (1, 9),
    (2, 9),
    (3, 9),
    (4, 9),
    (5, 9),
    (6, 9),
    (7, 9),
    (8, 9),
    (9, 9),
    (10, 9),
];

/// Reads two markers, merges them, copies the list and writes both, in that memory. After that ten more are
/// merged.
fn reach<A: Allocator + Copy>(alloc: A, state: RandomState) -> Reached {
    match read_markers(alloc, &TWO) {
        Ok(read) => merge_two(alloc, Markers::new(alloc, state), read),
        Err(MarkerFault::NoMemory) => Reached::Reading,
        Err(_) => Reached::Wrong,
    }
}

/// Merges the two markers that were read into the empty list.
fn merge_two<A: Allocator + Copy>(
    alloc: A,
    markers: Markers<A>,
    read: Seq<Marker<A>, A>,
) -> Reached {
    let mut markers = markers;
    match markers.merge(read) {
        Ok(added) => copy_two(alloc, markers, added == 2),
        Err(NoMemory) => merging(markers.list().is_empty() && !markers.is_predecessor(&node(17))),
    }
}

/// What a merge reached that was refused and left the list as it was, or did not.
fn merging(unchanged: bool) -> Reached {
    if unchanged {
        Reached::Merging
    } else {
        Reached::Wrong
    }
}

/// Copies the list of two markers, if as many were merged.
fn copy_two<A: Allocator + Copy>(alloc: A, markers: Markers<A>, merged: bool) -> Reached {
    match markers.try_clone(alloc) {
        Ok(copy) => write_two(alloc, markers, merged, copy.list()),
        Err(NoMemory) => Reached::Copying,
    }
}

/// Writes the copy's markers. A marker is there whole or not at all.
fn write_two<A: Allocator + Copy>(
    alloc: A,
    markers: Markers<A>,
    merged: bool,
    copy: &[Marker<A>],
) -> Reached {
    let mut out = Vec::new(alloc);
    let written = write_all(copy, &mut out).is_ok();
    if merged && written && out.as_slice() == &TWO[1..] {
        merge_ten(alloc, markers)
    } else if merged && !written && (out.is_empty() || out.len() == 52) {
        Reached::Writing
    } else {
        Reached::Wrong
    }
}

/// Merges ten markers into a list of two.
fn merge_ten<A: Allocator + Copy>(alloc: A, markers: Markers<A>) -> Reached {
    let mut markers = markers;
    match list_of(alloc, &TEN) {
        Ok(ten) => {
            let added = markers.merge(ten);
            end_of_ten(added, &markers)
        }
        Err(NoMemory) => Reached::MergingMore,
    }
}

/// What the merge of ten reached: all of them are in the list, or none.
fn end_of_ten<A: Allocator>(added: Result<u64, NoMemory>, markers: &Markers<A>) -> Reached {
    let (count, first) = (markers.list().len(), markers.is_predecessor(&node(1)));
    if added == Ok(10) && count == 12 && first {
        Reached::End
    } else if added == Err(NoMemory) && count == 2 && !first && markers.is_predecessor(&node(17)) {
        Reached::MergingMore
    } else {
        Reached::Wrong
    }
}

// Reading, merging, copying and writing the two markers, and merging ten more, over heaps of each
// multiple of 16 bytes below 16,384. Result: each of the five is refused somewhere, leaves the list
// as it was, and all succeed in the end.
#[test]
fn each_growth_refused(rt: HostRuntime) -> Result<(), Fail> {
    let state = RandomState::new(&rt)?;
    let mut seen = [false; 6];
    for size in 0..1024usize {
        let heap = LocalHeap::new(rt.alloc(), size * 16)?;
        match reach(&heap, state) {
            Reached::Reading => seen[0] = true,
            Reached::Merging => seen[1] = true,
            Reached::Copying => seen[2] = true,
            Reached::Writing => seen[3] = true,
            Reached::End => seen[4] = true,
            Reached::MergingMore => seen[5] = true,
            Reached::Wrong => assert!(rt; false, "with {size} times 16 bytes"),
        }
    }
    assert!(rt; seen == [true; 6]);
    Ok(())
}

/// Takes what is left of the heap, down to the last byte.
fn fill<'h>(
    heap: &'h LocalHeap,
    taken: &mut Vec<Vec<u8, &'h LocalHeap>>,
) -> Result<(), AllocError> {
    for size in [4096usize, 2048, 1024, 512, 256, 128, 64, 32, 16, 8, 4, 2, 1] {
        for _ in 0..16u32 {
            if let Ok(block) = Vec::<u8, _>::with_capacity(heap, size) {
                taken.push(block)?;
            }
        }
    }
    Ok(())
}

/// Whether the list of two markers is looked at, and cut to the first.
fn is_cut_to_one<A: Allocator>(markers: &mut Markers<A>) -> bool {
    let two = markers.list().len() == 2 && markers.is_predecessor(&node(34));
    if markers.list().len() > 1 {
        markers.cut_back(1);
    }
    let (first, second) = (
        markers.is_predecessor(&node(17)),
        markers.is_predecessor(&node(34)),
    );
    two && markers.list().len() == 1 && first && !second
}

// A list of the two markers over a heap of which nothing is left. Result: `list`, `is_predecessor`
// and `cut_back` answer as ever.
#[test]
fn no_memory_for_looking_and_cutting(rt: HostRuntime) -> Result<(), Fail> {
    let state = RandomState::new(&rt)?;
    let heap = LocalHeap::new(rt.alloc(), 8192)?;
    let mut markers = Markers::new(&heap, state);
    let merged = merge_data(&mut markers, &heap, &TWO) == Ok(2);
    let mut taken = Vec::new(rt.alloc());
    let filled = fill(&heap, &mut taken).is_ok() && Vec::<u8, _>::with_capacity(&heap, 1).is_err();
    assert!(rt; merged && filled && is_cut_to_one(&mut markers));
    Ok(())
}

/// Marker data with so many markers of 46 bytes: each has a predecessor of its own and one successor.
fn numbered(alloc: Global, count: u32) -> Result<Vec<u8>, AllocError> {
    let mut bytes = Vec::new(alloc);
    bytes.push(0)?;
    for number in 0..count {
        bytes.extend_from_slice(&[1, 0, 0, 0, 0, 0])?;
        bytes.extend_from_slice(&[7; 16])?;
        bytes.extend_from_slice(&number.to_be_bytes())?;
        bytes.extend_from_slice(&[9; 20])?;
    }
    Ok(bytes)
}

/// Merges the markers of the data, and answers the bytes of the heap in use when they were read and when they
/// were merged.
fn merge_in_use<'h>(
    heap: &'h LocalHeap,
    markers: &mut Markers<&'h LocalHeap>,
    bytes: &[u8],
) -> Result<[usize; 2], MarkerFault> {
    let data = read_markers(heap, bytes)?;
    let read = heap.used();
    markers.merge(data)?;
    Ok([read, heap.used()])
}

/// Whether a list that is not empty takes two markers more.
fn takes_two_more<A: Allocator + Copy>(alloc: A, markers: &mut Markers<A>) -> bool {
    let is_list = !markers.list().is_empty() && !markers.is_predecessor(&Node::NULL);
    is_list && merge_data(markers, alloc, &TWO) == Ok(2)
}

/// The bytes of the heap in use when the list is copied. Two more markers join the copy.
fn copy_in_use<'h>(
    heap: &'h LocalHeap,
    markers: &Markers<&'h LocalHeap>,
) -> Result<usize, MarkerFault> {
    let mut copy = markers.try_clone(heap)?;
    let copied = heap.used();
    if takes_two_more(heap, &mut copy) {
        Ok(copied)
    } else {
        Err(MarkerFault::Short)
    }
}

/// The bytes of a heap in use where the list is empty, where the markers of the data are read, merged and
/// copied, and where the list is looked at and cut to nothing.
fn in_use(heap: &LocalHeap, state: RandomState, bytes: &[u8]) -> Result<[usize; 5], MarkerFault> {
    let mut markers = Markers::new(heap, state);
    let empty = heap.used();
    let merge = merge_in_use(heap, &mut markers, bytes);
    let copy = copy_in_use(heap, &markers);
    markers.cut_back(0);
    let cut = heap.used();
    let [read, merged] = merge?;
    Ok([empty, read, merged, copy?, cut])
}

/// Over an ample heap nothing is refused, however many markers come, and no call keeps more than came:
/// reading at most 8 times the data and 256 bytes, a list at most 512 bytes a marker and 2,048, and a copy as
/// much as its source. A cut takes nothing.
/// 1, 20 and 3,000 markers with one successor, each over a heap of 4 MiB: read, merged, copied, cut
/// to nothing. Result: reading keeps at most 8 times the data and 256 bytes, the list at most 512
/// bytes a marker and 2,048, the copy no more than its source; the cut takes nothing.
#[test]
fn many_markers_take_what_came(rt: HostRuntime) -> Result<(), Fail> {
    let state = RandomState::new(&rt)?;
    for count in [1u32, 20, 3_000, 20_000] {
        let data = numbered(rt.alloc(), count)?;
        let heap = LocalHeap::new(rt.alloc(), 1 << 26)?;
        let [empty, read, merged, copied, cut] = in_use(&heap, state, &data)?;
        assert!(rt; empty == 0 && read <= data.len().saturating_mul(8).saturating_add(256));
        assert!(rt; merged <= (count as usize).saturating_mul(512).saturating_add(2_048));
        assert!(rt; copied <= merged.saturating_mul(2) && cut < copied);
    }
    Ok(())
}

/// Room is made for new markers alone: a list into which one marker was merged 50,000 times keeps at most
/// 2,048 bytes.
/// One marker 50,000 times, merged into a list over a heap of 16 MiB. Result: the list keeps at
/// most 2,048 bytes.
#[test]
fn repeated_markers_take_no_memory(rt: HostRuntime) -> Result<(), Fail> {
    let state = RandomState::new(&rt)?;
    let mut data = Vec::new(rt.alloc());
    data.push(0)?;
    for _ in 0..50_000u32 {
        data.extend_from_slice(&MARKER)?;
    }
    let heap = LocalHeap::new(rt.alloc(), 1 << 24)?;
    let [_empty, _read, merged, _copied, _cut] = in_use(&heap, state, &data)?;
    assert!(rt; merged <= 2_048);
    Ok(())
}

/// Marker data with one marker: as many successors as there may be, and metadata of 4 MiB.
fn long_data(alloc: Global) -> Result<Vec<u8>, AllocError> {
    let mut bytes = Vec::new(alloc);
    bytes.extend_from_slice(&[0, 255, 0, 64, 0, 0])?;
    bytes.push(0)?;
    bytes.extend_from_slice(&[17; 20])?;
    bytes.extend_from_slice(&[34; 20 * 255])?;
    bytes.extend_from_slice(&vec![in alloc; b':'; 4_194_304]?)?;
    Ok(bytes)
}

/// Whether the one marker of the data is merged, copied, and written as it came.
fn is_kept(heap: &LocalHeap, state: RandomState, bytes: &[u8]) -> Result<bool, MarkerFault> {
    let mut markers = Markers::new(heap, state);
    let added = markers.merge(read_markers(heap, bytes)?)?;
    let copy = markers.try_clone(heap)?;
    let mut out = Vec::new(heap);
    write_all(copy.list(), &mut out)?;
    Ok(added == 1 && out.as_slice() == &bytes[1usize.min(bytes.len())..])
}

/// Over an ample heap nothing is refused to a marker with so much.
#[test]
fn the_most_successors_and_long_metadata(rt: HostRuntime) -> Result<(), Fail> {
    let state = RandomState::new(&rt)?;
    let data = long_data(rt.alloc())?;
    let heap = LocalHeap::new(rt.alloc(), 1 << 25)?;
    assert!(rt; data.len() == 27 + 20 * 255 + 4_194_304 && is_kept(&heap, state, &data)?);
    Ok(())
}
