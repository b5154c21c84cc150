//! A file as the log sees it: what a read returns, and what a crash may leave.

ghost use Rattle.std.specs.Prelude.{◌≡◌, ◌≤◌, ◌<◌, Bool, true, List, ℕ, length, take, IfOk, OnOk};
ghost use Rattle.hg_store.specs.declared.device.DeviceError.TheVariants.{Memory};
ghost use Rattle.hg_store.specs.Device.{Only, CrashesFollow, Torn, Cut, Overwrites, Elapses, HasCause};

use hg_types::NoMemory;
use std::alloc::Allocator;
use thiserror::Error;

/// Why a call of a device failed.
#[derive(Clone, Copy, Debug, PartialEq, Eq, Error)]
pub enum DeviceError {
    /// A growth was refused.
    #[error("out of memory")]
    Memory = 1,
    /// The device failed.
    #[error("the store failed")]
    Failed = 2,
    /// The file is as long as a file may be. No call of a device reports it.
    #[error("a store that is as long as a file may be")]
    Full = 3,
}

/// Whatever says that memory was refused.
impl<E: Into<NoMemory> + Drop> From<E> for DeviceError {
    ghost from_gives = { λ _ e. e ≡ Memory };

    fn from(_refused: E) -> Self {
        DeviceError::Memory
    }
}

/// A file of a disk. A contract speaks of what a read would return, and of what a crash may leave.
pub trait Device {
    /// The bytes that a read returns.
    ghost seen: { Self → List ℕ };

    /// What a crash at this moment may leave.
    ghost may_leave: { Self → List ℕ → Type 0 };

    /// The moment, as a number that does not fall.
    ghost moment: { Self → ℕ };

    /// What a crash at some moment from that one on might have left, during a call or between two.
    ghost left_since: { Self → ℕ → List ℕ → Type 0 };

    /// How often the disk has failed.
    ghost faults: { Self → ℕ };

    /// Whether the last call was a write that answered Ok.
    ghost is_written: { Self → Bool };

    /// How many beats it had: syncs that answered Ok, each right behind a write that did.
    ghost beats: { Self → ℕ };

    /// A file, and the same one after more calls, or none.
    ghost goes_on: { Self → Self → Type 0 };

    /// All the bytes.
    fn read<A: Allocator + Copy>(&mut self, alloc: A) -> Result<Vec<u8, A>, DeviceError>
        ensures bytes { IfOk result (λ bytes. bytes.items ≡ seen self.old) }
        ensures seen { seen self.new ≡ seen self.old }
        ensures crash { (c : List ℕ) → may_leave self.new c → may_leave self.old c }
        ensures time { Elapses (moment self.old) (moment self.new) (left_since self.old) (left_since self.new)
            (may_leave self.new) }
        ensures same_file { goes_on self.old self.new }
        ensures beats { beats self.old ≤ beats self.new }
        ensures cause { HasCause (faults self.old) (faults self.new) result };

    /// Writes over what is there, and past the end. Until a sync, a crash may leave any bytes in the range;
    /// but a write of one byte it leaves made or not made.
    fn write_at(&mut self, at: usize, bytes: &[u8]) -> Result<(), DeviceError>
        requires { at ≤ length (seen self.old) }
        ensures written { OnOk result (Overwrites (seen self.old) at bytes.now (seen self.new)) }
        ensures crash { CrashesFollow (Torn at bytes.now) (may_leave self.old) (may_leave self.new) }
        ensures time { Elapses (moment self.old) (moment self.new) (left_since self.old) (left_since self.new)
            (may_leave self.new) }
        ensures same_file { goes_on self.old self.new }
        ensures waits { OnOk result (is_written self.new ≡ true) }
        ensures beats { beats self.old ≤ beats self.new }
        ensures cause { HasCause (faults self.old) (faults self.new) result };

    /// Cuts the file to a length. Until a sync, a crash may leave any length from that one on.
    fn cut(&mut self, len: usize) -> Result<(), DeviceError>
        requires { len ≤ length (seen self.old) }
        ensures cut { OnOk result (seen self.new ≡ take len (seen self.old)) }
        ensures crash { CrashesFollow (Cut len) (may_leave self.old) (may_leave self.new) }
        ensures time { Elapses (moment self.old) (moment self.new) (left_since self.old) (left_since self.new)
            (may_leave self.new) }
        ensures same_file { goes_on self.old self.new }
        ensures beats { beats self.old ≤ beats self.new }
        ensures cause { HasCause (faults self.old) (faults self.new) result };

    /// After it, a crash leaves what a read returns.
    fn sync(&mut self) -> Result<(), DeviceError>
        ensures durable { OnOk result (Only (seen self.old) (may_leave self.new)) }
        ensures seen { seen self.new ≡ seen self.old }
        ensures crash { (c : List ℕ) → may_leave self.new c → may_leave self.old c }
        ensures time { Elapses (moment self.old) (moment self.new) (left_since self.old) (left_since self.new)
            (may_leave self.new) }
        ensures same_file { goes_on self.old self.new }
        ensures beat { OnOk result (is_written self.old ≡ true → beats self.old < beats self.new) }
        ensures beats { beats self.old ≤ beats self.new }
        ensures cause { HasCause (faults self.old) (faults self.new) result };

    /// This moment is one of those since an earlier one.
    ghost counts_now: { (file : Self) (t : ℕ) (c : List ℕ) → t ≤ moment file → may_leave file c →
        left_since file t c };

    /// Since this moment there is no other.
    ghost only_now: { (file : Self) (c : List ℕ) → left_since file (moment file) c → may_leave file c };

    /// More calls on top of more calls are more calls.
    ghost goes_on_more: { (first next last : Self) → goes_on first next → goes_on next last →
        goes_on first last };
}
