//! Stores in memory that grow while they are followed.

use crate::made::*;
use hg_store_tools::*;
use linked_list_allocator::LocalHeap;
use std::alloc::{Allocator, Global};
use std::cell::Cell;
use std::io;
use std::io::{ErrorKind, Read, Write};
use std::process::Abort;
use std::test::*;

/// What a file is, one after the other, as others write it.
#[derive(Drop)]
struct World<'a> {
    states: &'a [&'a [u8]],
    now: Cell<usize>,
    /// How many states were there at the last sync.
    synced: Cell<usize>,
}

impl<'a> World<'a> {
    fn new(states: &'a [&'a [u8]]) -> Self {
        World {
            states,
            now: Cell::new(0),
            synced: Cell::new(0),
        }
    }

    /// The file as it is.
    fn bytes(&self) -> &'a [u8] {
        match self.states.get(self.now.get()) {
            Some(bytes) => bytes,
            None => &[],
        }
    }
}

/// That file, open. It gives at most so many bytes at once, and its sync fails where it is the so many-th.
#[derive(Drop)]
struct Growing<'a> {
    world: &'a World<'a>,
    /// What was read ahead, and where.
    ahead: &'a [u8],
    most: usize,
    good_syncs: usize,
}

impl<'a> Growing<'a> {
    fn new(world: &'a World<'a>, most: usize, good_syncs: usize) -> Self {
        Growing {
            world,
            ahead: world.bytes(),
            most,
            good_syncs,
        }
    }
}

impl Read for Growing<'_> {
    fn read(&mut self, buf: &mut [u8]) -> io::Result<usize> {
        let count = buf.len().min(self.ahead.len()).min(self.most);
        let (front, left) = self.ahead.split_at(count);
        buf[..count].copy_from_slice(front);
        self.ahead = left;
        Ok(count)
    }
}

impl GrowingFile for Growing<'_> {
    fn byte_at(&self, place: u64) -> io::Result<Option<u8>> {
        Ok(self.world.bytes().get(place as usize).copied())
    }

    fn go_to(&mut self, place: u64) -> io::Result<()> {
        let bytes = self.world.bytes();
        self.ahead = &bytes[bytes.len().min(place as usize)..];
        Ok(())
    }

    fn sync(&mut self) -> io::Result<()> {
        if self.good_syncs == 0 {
            return Err(io::Error::from(ErrorKind::Other));
        }
        self.good_syncs -= 1;
        self.world
            .synced
            .set(self.world.now.get().saturating_add(1));
        Ok(())
    }
}

/// The next state of the file is there each time that nothing was found; after the last one it is followed no more.
#[derive(Drop)]
struct Turns<'a> {
    world: &'a World<'a>,
}

impl Pause for Turns<'_> {
    fn goes_on(&mut self, is_idle: bool) -> bool {
        let now = self.world.now.get();
        if is_idle {
            self.world.now.set(now.saturating_add(1));
        }
        self.world.now.get() < self.world.states.len()
    }
}

/// A writer that has room for so many bytes. A byte that comes before the file was synced as it is fails.
#[derive(Drop)]
struct Strict<'a, A: Allocator> {
    world: &'a World<'a>,
    bytes: Vec<u8, A>,
    room: usize,
}

impl<A: Allocator> Write for Strict<'_, A> {
    fn write(&mut self, buf: &[u8]) -> io::Result<usize> {
        if self.world.synced.get() <= self.world.now.get() {
            return Err(io::Error::from(ErrorKind::Other));
        }
        let count = buf.len().min(self.room);
        self.bytes.extend_from_slice(&buf[..count])?;
        self.room -= count;
        Ok(count)
    }

    fn flush(&mut self) -> io::Result<()> {
        Ok(())
    }
}

/// What becomes of a file with these states that is followed, and what was written of it.
fn followed<A: Allocator + Copy>(
    alloc: A,
    states: &[&[u8]],
    from: usize,
    form: BundleForm,
    room: usize,
) -> (FollowEnd, Vec<u8, A>) {
    let world = World::new(states);
    let mut writer = Strict {
        world: &world,
        bytes: Vec::new(alloc),
        room,
    };
    let mut turns = Turns { world: &world };
    let file = Growing::new(&world, 7, usize::MAX);
    let end = send_trail(alloc, file, from, form, &mut writer, &mut turns);
    let Strict { bytes, .. } = writer;
    (end, bytes)
}

/// The frame of [`EMPTY`] at a place below 256, by nobody and at no time.
fn empty_frame(alloc: Global, place: u8) -> Result<Vec<u8>, Fail> {
    let mut frame = Vec::new(alloc);
    frame.extend_from_slice(&[0, 0, 0, 0, 0, 0, 0, place])?;
    frame.extend_from_slice(&[0, 0, 0, 0, 0, 0, 0, 0, 0, 0, 0, 0, 12])?;
    frame.extend_from_slice(&[
        132, 54, 40, 255, 188, 106, 115, 195, 17, 94, 87, 25, 179, 58, 156, 58, 0, 71, 109, 246,
    ])?;
    frame.extend_from_slice(&EMPTY)?;
    Ok(frame)
}

/// Those of so many, from a place on.
fn empty_frames(alloc: Global, from: usize, count: usize) -> Result<Vec<u8>, Fail> {
    let mut frames = Vec::new(alloc);
    for place in 0..count {
        if place >= from {
            frames.extend_from_slice(&empty_frame(alloc, place as u8)?)?;
        }
    }
    Ok(frames)
}

/// How many bytes a frame of [`EMPTY`] has.
const FRAME: usize = 53;

// A store that grows by a push at a time, from each place on.
// No record; one; three; a shut gate and more bytes behind these. Result: the frames of three, from there on.
#[test]
fn a_store_that_grows(rt: HostRuntime) -> Result<(), Fail> {
    let alloc = rt.alloc();
    let none = store_of(alloc, false, &[])?;
    let one = shut_store(alloc, false, &[&EMPTY])?;
    let three = store_of(alloc, false, &[&EMPTY, &EMPTY, &EMPTY])?;
    let mut behind = shut_store(alloc, false, &[&EMPTY, &EMPTY, &EMPTY])?;
    behind.extend_from_slice(&three)?;
    let states: [&[u8]; 4] = [&none, &one, &three, &behind];
    for from in 0..5usize {
        let (end, bytes) = followed(alloc, &states, from, BundleForm::Stored, usize::MAX);
        assert!(rt;
            end == FollowEnd::Left && bytes == empty_frames(alloc, from, 3)?,
            "from {from}"
        );
    }
    Ok(())
}

// A batch that is written behind a shut gate, byte by byte, and is then opened.
// E, and behind it E and E. Result: one frame until the gate is open, and then three.
#[test]
fn behind_a_shut_gate(rt: HostRuntime) -> Result<(), Fail> {
    let alloc = rt.alloc();
    let whole = shut_store(alloc, false, &[&EMPTY, &EMPTY, &EMPTY])?;
    let mut shut = whole.to_vec(alloc)?;
    let gate = 54 + 34 + 12;
    turn(&mut shut, gate, 255);
    for size in gate + 1..shut.len() + 1 {
        let (end, bytes) = followed(alloc, &[&shut[..size]], 0, BundleForm::Stored, usize::MAX);
        assert!(rt;
            end == FollowEnd::Left && bytes == empty_frames(alloc, 0, 1)?,
            "{size} bytes"
        );
        let states: [&[u8]; 3] = [&shut[..size], &shut, &whole];
        let (end, bytes) = followed(alloc, &states, 0, BundleForm::Stored, usize::MAX);
        assert!(rt;
            end == FollowEnd::Left && bytes == empty_frames(alloc, 0, 3)?,
            "{size} bytes"
        );
    }
    Ok(())
}

// A tail that is cut off, and other records in its place.
// E and a shut M1; E; E and E. Result: the frames of E and E.
#[test]
fn a_tail_that_is_cut_off(rt: HostRuntime) -> Result<(), Fail> {
    let alloc = rt.alloc();
    let mut tailed = shut_store(alloc, false, &[&EMPTY, &ONE])?;
    turn(&mut tailed, 54 + 34 + 12, 255);
    let one = store_of(alloc, false, &[&EMPTY])?;
    let two = shut_store(alloc, false, &[&EMPTY, &EMPTY])?;
    let states: [&[u8]; 3] = [&tailed, &one, &two];
    let (end, bytes) = followed(alloc, &states, 0, BundleForm::Stored, usize::MAX);
    assert!(rt; end == FollowEnd::Left && bytes == empty_frames(alloc, 0, 2)?);
    Ok(())
}

// A writer that has no room for all, after each number of bytes.
// E, E. Result: the output failed, and a front was written.
#[test]
fn a_writer_that_fails(rt: HostRuntime) -> Result<(), Fail> {
    let alloc = rt.alloc();
    let two = shut_store(alloc, false, &[&EMPTY, &EMPTY])?;
    let wanted = empty_frames(alloc, 0, 2)?;
    assert!(rt; wanted.len() == 2 * FRAME);
    for room in 0..wanted.len() {
        let (end, bytes) = followed(alloc, &[&two], 0, BundleForm::Stored, room);
        assert!(rt;
            end == FollowEnd::Stopped(Fault::Unsent) && bytes.as_slice() == &wanted[..room],
            "{room} bytes"
        );
    }
    Ok(())
}

// A sync that fails.
// E, and then E: the first sync, the second. Result: the device failed, and nothing was written; one frame.
#[test]
fn a_sync_that_fails(rt: HostRuntime) -> Result<(), Fail> {
    let alloc = rt.alloc();
    let one = store_of(alloc, false, &[&EMPTY])?;
    let two = store_of(alloc, false, &[&EMPTY, &EMPTY])?;
    let states: [&[u8]; 2] = [&one, &two];
    for good in 0..3usize {
        let world = World::new(&states);
        let mut writer = Strict {
            world: &world,
            bytes: Vec::new(alloc),
            room: usize::MAX,
        };
        let mut turns = Turns { world: &world };
        let file = Growing::new(&world, usize::MAX, good);
        let end = send_trail(alloc, file, 0, BundleForm::Stored, &mut writer, &mut turns);
        let Strict { bytes, .. } = writer;
        let wanted = if good < 2 {
            FollowEnd::Stopped(Fault::Failed)
        } else {
            FollowEnd::Left
        };
        assert!(rt;
            end == wanted && bytes == empty_frames(alloc, 0, good)?,
            "{good} syncs"
        );
    }
    Ok(())
}

// Damage and torn records at each of three places, and a file without a head.
// A gate of 254, another digest, each length of the record; each length of a head. Result: the frames before it, and
// its place; no store, and nothing written.
#[test]
fn damage(rt: HostRuntime) -> Result<(), Fail> {
    let alloc = rt.alloc();
    let whole = store_of(alloc, false, &[&EMPTY, &EMPTY, &EMPTY])?;
    for place in 0..3usize {
        let gate = 54 + place * 46;
        for at in [gate, gate + 20, gate + 45] {
            let mut bad = whole.to_vec(alloc)?;
            turn(&mut bad, at, 1);
            let (end, bytes) = followed(alloc, &[&bad], 0, BundleForm::Stored, usize::MAX);
            assert!(rt;
                end == FollowEnd::Stopped(Fault::Damaged(place)),
                "byte {at}"
            );
            assert!(rt; bytes == empty_frames(alloc, 0, place)?, "byte {at}");
        }
        for size in gate + 1..gate + 46 {
            let (end, bytes) = followed(
                alloc,
                &[&whole[..size]],
                0,
                BundleForm::Stored,
                usize::MAX,
            );
            assert!(rt;
                end == FollowEnd::Stopped(Fault::Torn(place)),
                "{size} bytes"
            );
            assert!(rt; bytes == empty_frames(alloc, 0, place)?, "{size} bytes");
        }
    }
    for size in 0..54usize {
        let (end, bytes) = followed(alloc, &[&whole[..size]], 0, BundleForm::Stored, usize::MAX);
        let is_refused = matches!(end, FollowEnd::Stopped(Fault::Head(_)));
        assert!(rt; is_refused && bytes.is_empty(), "{size} bytes");
    }
    Ok(())
}

// Canonical bundles, and a record that is no bundle.
// X and bytes that are none. Result: the frame of P, and no bundle at place 1.
#[test]
fn canonical_frames(rt: HostRuntime) -> Result<(), Fail> {
    let alloc = rt.alloc();
    let plain = shut_store(alloc, false, &[&PLAIN])?;
    let (_, wanted) = followed(alloc, &[&plain], 0, BundleForm::Stored, usize::MAX);
    let mixed = shut_store(alloc, false, &[&MIXED, &EMPTY[..11]])?;
    let (end, bytes) = followed(alloc, &[&mixed], 0, BundleForm::Canonical, usize::MAX);
    assert!(rt; end == FollowEnd::Stopped(Fault::NoBundle(1)) && bytes == wanted);
    Ok(())
}

// Each growth refused.
// E, X, E in canonical form. Result: out of memory and a front; or all.
#[test]
fn memory_that_is_refused(rt: HostRuntime) -> Result<(), Fail> {
    let alloc = rt.alloc();
    let file = shut_store(alloc, false, &[&EMPTY, &MIXED, &EMPTY])?;
    let (_, wanted) = followed(alloc, &[&file], 0, BundleForm::Canonical, usize::MAX);
    let mut refused = 0;
    for size in 1..40usize {
        let heap = LocalHeap::new(alloc, size * 64)?;
        let (end, bytes) = followed(&heap, &[&file], 0, BundleForm::Canonical, usize::MAX);
        assert!(rt; wanted.starts_with(&bytes), "{size}");
        match end {
            FollowEnd::Left => assert!(rt; bytes.len() == wanted.len(), "{size}"),
            FollowEnd::Stopped(Fault::NoMemory | Fault::Unsent) => refused += 1,
            FollowEnd::Stopped(_) => assert!(rt; false, "{size}"),
        }
    }
    assert!(rt; refused > 0);
    Ok(())
}
