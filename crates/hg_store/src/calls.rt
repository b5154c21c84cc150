//! What is asked of a file of the system: that each call on it is noted with its answer.

ghost use Rattle.std.specs.Prelude.{◌≡◌, [], ◌∷◌, ◌++◌, Bool, List, ℕ, MatchResult, OnOk, is_ok, take, true};
ghost use Rattle.hg_store.specs.Calls.{Event, ReadsOn, began, gave_up, looked, shortened, synced, wrote};

use crate::device::DeviceError;
use std::alloc::Allocator;
use std::io;

/// The calls on a file. A contract says which were made and what each answered, and not what is in the
/// file.
pub trait Calls: Drop {
    /// Each call so far with its answer, the newest first. A file is read by many calls, and they are noted as one, once
    /// all of it was read.
    ghost history: { Self → List Event };

    /// The bytes that were read since it was begun.
    ghost drawn: { Self → List ℕ };

    /// Whether its end was met.
    ghost is_over: { Self → Bool };

    /// Syncs the file, and drops what the system keeps of it: so that what is read from now on is what the disk has,
    /// from the first byte on.
    fn begin(&mut self) -> Result<(), DeviceError>
        ensures same { history self.new ≡ history self.old }
        ensures drawn { OnOk result (drawn self.new ≡ []) };

    /// Reads on: appends so many bytes of the file, or those that it has still, where they are fewer.
    fn read_on<A: Allocator>(
        &mut self,
        count: usize,
        bytes: &mut Vec<u8, A>,
    ) -> Result<(), DeviceError>
        ensures same { history self.new ≡ history self.old }
        ensures read { OnOk result (ReadsOn count bytes.old.items bytes.new.items (drawn self.old) (drawn self.new)
            (is_over self.new)) };

    /// Goes back to a place: what follows it is read once more, as it is then.
    fn go_back(&mut self, place: usize) -> Result<(), DeviceError>
        ensures same { history self.new ≡ history self.old }
        ensures drawn { OnOk result (drawn self.new ≡ take place (drawn self.old)) };

    /// Looks at so many bytes that stand from a place on, or at those that there are: they are appended, and reading
    /// goes on where it was.
    fn look<A: Allocator>(
        &mut self,
        at: usize,
        count: usize,
        bytes: &mut Vec<u8, A>,
    ) -> Result<(), DeviceError>
        ensures same { OnOk result (drawn self.new ≡ drawn self.old) }
        ensures looked { MatchResult result (λ _. (more : List ℕ) × (bytes.new.items ≡ bytes.old.items ++ more)
            × (history self.new ≡ looked at more ∷ history self.old)) (λ _. history self.new ≡ history self.old) };

    /// Makes no call, and notes that the file was read from its first byte to its end.
    fn note_read(&mut self)
        requires { is_over self.old ≡ true }
        ensures { history self.new ≡ began (drawn self.old) ∷ history self.old };

    /// Writes these bytes from that place on.
    fn write(&mut self, at: usize, bytes: &[u8]) -> io::Result<()>
        ensures { history self.new ≡ wrote at bytes.now (is_ok result) ∷ history self.old };

    /// Cuts the file to a length.
    fn shorten(&mut self, len: usize) -> io::Result<()>
        ensures { history self.new ≡ shortened len (is_ok result) ∷ history self.old };

    /// Brings all that was written to the disk.
    fn sync(&mut self) -> io::Result<()>
        ensures { history self.new ≡ synced (is_ok result) ∷ history self.old };

    /// Makes no call, and notes that.
    fn give_up(&mut self)
        ensures { history self.new ≡ gave_up ∷ history self.old };
}
