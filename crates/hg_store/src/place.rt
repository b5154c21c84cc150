//! A new file that gets the name of a store once it is whole.

ghost use Rattle.std.specs.Prelude.{◌≡◌, ◌∷◌, ◌⊎◌, [], IfErr, IfOk, OnOk, is_ok};
ghost use Rattle.std.specs.List.{AllByRecursion};
ghost use Rattle.hg_store.specs.Calls.{HasFailed, IsPlaced, IsPlacedWhole, placed};
ghost use Rattle.hg_store.specs.Head.{version_of};
ghost use Rattle.hg_store.specs.Log.{at_rest};
ghost use Rattle.hg_store.specs.Records.{IsRecord};
ghost use Rattle.hg_store.specs.declared.opening.RecoverFault.TheVariants.{Device as device_fault};
ghost use Rattle.hg_store.specs.declared.start.StoreFault.TheVariants.{Recover};

use crate::calls::Calls;
use crate::device::DeviceError;
use crate::entry::Entry;
use crate::file::told;
use crate::head::Head;
use crate::log::batch_bytes;
use crate::record::SHUT;
use crate::start::StoreFault;
use hg_types::NoMemory;
use sha1::Sha1;
use std::alloc::Allocator;
use std::io;

/// A file that has not yet the name of a store.
pub trait NewFile: Calls {
    /// Gives it that name, in the place of a file that has it, and syncs the folder.
    fn put_in_place(&mut self) -> io::Result<()>
        ensures { Self.Calls.history self.new ≡ placed (is_ok result) ∷ Self.Calls.history self.old };
}

/// Writes a new file and gives it the name of a store, once these bytes and no others are on the disk.
pub fn put_whole<N: NewFile>(file: &mut N, bytes: &[u8]) -> Result<(), DeviceError>
    requires { N.Calls.history file.old ≡ [] }
    ensures whole { IsPlacedWhole bytes.now (N.Calls.history file.new) }
    ensures placed { OnOk result (IsPlaced (N.Calls.history file.new)) }
    ensures failed { IfErr result (λ fault. (fault ≡ DeviceError.Failed)
        × HasFailed (N.Calls.history file.new)) }
{
    told(file.shorten(0))?;
    told(file.write(0, bytes))?;
    told(file.sync())?;
    told(file.put_in_place())
}

/// Writes a store with this head and no record to a new file, and gives it its name.
pub fn create_file<N: NewFile, A: Allocator + Copy>(
    alloc: A,
    new: &mut N,
    head: &Head,
) -> Result<(), StoreFault>
    requires { N.Calls.history new.old ≡ [] }
    ensures whole { IsPlacedWhole (at_rest head.now []) (N.Calls.history new.new) }
    ensures placed { OnOk result (IsPlaced (N.Calls.history new.new)) }
    ensures failed { IfErr result (λ fault. (fault ≡ Recover (device_fault DeviceError.Memory))
        ⊎ ((fault ≡ Recover (device_fault DeviceError.Failed)) × HasFailed (N.Calls.history new.new))) }
{
    let none: Vec<Entry<A>, A> = Vec::new(alloc);
    let bytes = bytes_at_rest(alloc, head, &none)?;
    put_whole(new, &bytes)?;
    Ok(())
}

/// The bytes of a store with these records and a shut gate after them.
pub fn bytes_at_rest<A: Allocator + Copy>(
    alloc: A,
    head: &Head,
    records: &[Entry<A>],
) -> Result<Vec<u8, A>, NoMemory>
    requires { AllByRecursion (IsRecord (version_of head.now)) records.now }
    ensures { IfOk result (λ bytes. bytes.items ≡ at_rest head.now records.now) }
{
    let mut bytes = Vec::new(alloc);
    head.put(&mut bytes)?;
    let (frames, _digest) = batch_bytes(alloc, head.version(), &Sha1::digest(&bytes), records)?;
    bytes.extend_from_slice(&frames)?;
    bytes.push(SHUT)?;
    Ok(bytes)
}
