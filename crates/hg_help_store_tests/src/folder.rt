//! A store in a folder that is opened whatever its records are.

ghost use Rattle.std.specs.Prelude.{IfOk, List};
ghost use Rattle.hg_store.specs.Entries.{Entry as AnyEntry};
ghost use Rattle.hg_store.specs.Log.{IsSettled};
ghost use Rattle.hg_store.specs.declared.head.Head.{Head};

use hg_store::{
    Device, HostFile, Opened, Setup, StoreFault, StoreFile, StoreFolder, begin_store, pass_records,
};
use std::alloc::{Allocator, Global};
use std::fs::{File, Files};

/// Opens the store, which is held until it is dropped.
pub fn open_store<R: Files<File = File>>(
    alloc: Global,
    folder: &mut StoreFolder<'_, R>,
    setup: &Setup,
) -> Result<Opened<HostFile>, StoreFault>
    ensures { IfOk result (λ opened. (head : Head) × (records : List AnyEntry)
        × IsSettled ⟦<StoreFile<HostFile> as Device>⟧.seen ⟦<StoreFile<HostFile> as Device>⟧.may_leave head records
        opened.log) }
{
    let mut opening = begin_store(alloc, folder, setup)?;
    pass_records(&mut opening)?;
    match opening.finish(alloc, folder) {
        Ok(opened) => Ok(opened),
        Err(left) => Err(left.fault),
    }
}
