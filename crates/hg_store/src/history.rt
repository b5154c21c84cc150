//! The calls on a file so far, which only contracts see.

ghost use Rattle.std.specs.Prelude.{◌≡◌, List, [], ◌∷◌};
ghost use Rattle.std.specs.Borrow.{ftrue};
ghost use Rattle.hg_store.specs.Calls.{Event};

use std::marker::Model;

/// Each call on a file with its answer, or what was done in a folder, the newest first. It has no bytes, and its functions do nothing
/// when they run: so what it says is as true as the code that notes it.
#[derive(Drop)]
pub struct History {
    pub ghost events: { List Event },
}

impl Model for History {
    ghost also_owns = { λ _. ftrue };
}

/// A call on a file, and whether it answered Ok; or what was done in the folder of a store.
#[derive(Clone, Copy, Drop)]
pub enum Call<'a> {
    /// The file was synced, what the system kept of it was dropped, and these bytes were read.
    Began(&'a [u8]),
    /// Of a file that is read, these bytes came next.
    Read(&'a [u8]),
    /// These bytes were written from that place on.
    Wrote(usize, &'a [u8], bool),
    /// The file was cut to that length.
    Shortened(usize, bool),
    /// The file was synced.
    Synced(bool),
    /// The file got the name of the store, and its folder was synced.
    Placed(bool),
    /// No call was made.
    GaveUp,
    /// In a folder: no file had the name of the store.
    Missed,
    /// In a folder: a file was made that may get the name of the store, in the place of one that has it.
    Renewed,
    /// In a folder: these bytes, which stood after so many records, were kept in a new file.
    TailKept(usize, &'a [u8]),
    /// Of a file that is read, it is read once more from that place on.
    WentBack(usize),
    /// The file was held against other processes, synced, and what the system kept of it was dropped.
    Held,
    /// Of a file that is held, these bytes were read that stand from that place on.
    Looked(usize, &'a [u8]),
}

impl History {
    ghost use Rattle.hg_store.specs.Calls.{began, bytes_in};
    ghost use Rattle.hg_store.specs.History.{event_of};

    /// The history of a file that was not called yet.
    pub fn new() -> History
        ensures { result.events ≡ [] }
    {
        History {}
    }

    /// The history with one call more.
    pub fn and(&self, _call: &Call<'_>) -> History
        ensures { result.events ≡ event_of _call.now ∷ self.now.events }
    {
        History {}
    }

    /// The history with one call more: a file was read, of which these pieces came.
    pub fn and_read(&self, _pieces: &History) -> History
        ensures { result.events ≡ began (bytes_in _pieces.now.events) ∷ self.now.events }
    {
        History {}
    }
}
