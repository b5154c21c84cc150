//! A file that is read as far as it was told to reach.

ghost use Rattle.std.specs.Prelude.{true};

use hg_store_tools::{Measurable, Measured};
use std::cell::Cell;
use std::io;
use std::io::{BufReader, Read, Seek, SeekFrom};
use std::test::*;

/// A file that is longer each time that it was asked for its length, as another process makes it. It gives at most so
/// many bytes at once.
#[derive(Drop)]
struct Ahead<'a> {
    states: &'a [&'a [u8]],
    asked: Cell<usize>,
    told: Cell<usize>,
    /// Whether a byte was asked for behind the length that was told last.
    is_beyond: Cell<bool>,
    most: usize,
}

impl<'a> Ahead<'a> {
    fn new(states: &'a [&'a [u8]], most: usize) -> Self {
        Ahead {
            states,
            asked: Cell::new(0),
            told: Cell::new(0),
            is_beyond: Cell::new(false),
            most,
        }
    }

    /// The file of that state, or the last one.
    fn state(&self, place: usize) -> &'a [u8] {
        match self.states.get(place) {
            Some(bytes) => bytes,
            None => match self.states.last() {
                Some(bytes) => bytes,
                None => &[],
            },
        }
    }
}

impl Measurable for Ahead<'_> {
    ghost is_told = { λ _ _. true };

    fn ask_length(&self) -> io::Result<u64> {
        let asked = self.asked.get();
        self.told.set(self.state(asked).len());
        self.asked.set(asked.saturating_add(1));
        Ok(self.told.get() as u64)
    }

    fn read_within(&self, place: u64, bytes: &mut [u8]) -> io::Result<usize> {
        let place = place as usize;
        if place.saturating_add(bytes.len()) > self.told.get() {
            self.is_beyond.set(true);
        }
        let now = self.state(self.asked.get());
        let left = &now[place.min(now.len())..];
        let count = bytes.len().min(left.len()).min(self.most);
        bytes[..count].copy_from_slice(&left[..count]);
        Ok(count)
    }
}

const STATES: [&[u8]; 4] = [b"ab", b"abcd", b"abcd", b"abcdefgh"];

// A file that is told to have two bytes, four, four, and eight, and has those of the next state when it is read.
// Result: four bytes, and then four more; the length was asked for three times, and twice more; no byte behind it was.
#[test]
fn a_file_that_grows(rt: HostRuntime) -> Result<(), Fail> {
    let alloc = rt.alloc();
    for most in 1..10usize {
        for room in [1usize, 3, 100] {
            let file = Ahead::new(&STATES, most);
            let mut reader = BufReader::with_capacity(alloc, room, Measured::new(file))?;
            for (wanted, asked) in [(b"abcd".as_slice(), 3usize), (b"efgh", 5), (b"", 6)] {
                let mut bytes = Vec::new(alloc);
                reader.read_to_end(&mut bytes)?;
                assert_eq!(rt;
                    bytes.as_slice(),
                    wanted,
                    "{most} bytes at once, {room} ahead"
                );
                assert_eq!(rt; reader.get_ref().file().asked.get(), asked);
            }
            assert!(rt; !reader.get_ref().file().is_beyond.get());
        }
    }
    Ok(())
}

// The same file, which is gone to: to its third byte, back to the first, to one behind the end, from there back, and to
// the last. Result: the bytes from there on of the state that is told then.
#[test]
fn a_file_that_is_gone_to(rt: HostRuntime) -> Result<(), Fail> {
    let alloc = rt.alloc();
    let file = Ahead::new(&STATES[1..], usize::MAX);
    let mut reader = Measured::new(file);
    for (to, place, wanted) in [
        (SeekFrom::Start(2), 2u64, b"cd".as_slice()),
        (SeekFrom::Start(0), 0, b"abcdefgh"),
        (SeekFrom::Start(9), 9, b""),
        (SeekFrom::Current(-3), 6, b"gh"),
        (SeekFrom::End(-1), 7, b"h"),
    ] {
        assert_eq!(rt; reader.seek(to)?, place);
        let mut bytes = Vec::new(alloc);
        reader.read_to_end(&mut bytes)?;
        assert_eq!(rt; bytes.as_slice(), wanted, "from {place} on");
    }
    assert!(rt; reader.seek(SeekFrom::Current(-9)).is_err());
    assert!(rt; !reader.file().is_beyond.get());
    Ok(())
}

// Bytes of the same file, looked at from its front to behind its end. Result: each of them, and none behind it, of the
// state that is told then.
#[test]
fn a_byte_of_a_file(rt: HostRuntime) -> Result<(), Fail> {
    let file = Ahead::new(&STATES, usize::MAX);
    let reader = Measured::new(file);
    for (place, wanted) in [
        (0u64, Some(b'a')),
        (3, Some(b'd')),
        (4, None),
        (7, Some(b'h')),
        (8, None),
    ] {
        assert_eq!(rt; reader.byte_at(place)?, wanted, "at {place}");
    }
    assert!(rt; !reader.file().is_beyond.get());
    Ok(())
}
