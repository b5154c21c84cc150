//! A store in a file that is opened for more records, and why one is not made, opened or read.

ghost use Rattle.std.specs.Prelude.{◌≡◌};

use crate::calls::Calls;
use crate::device::DeviceError;
use crate::file::StoreFile;
use crate::log::Log;
use crate::noted::NotedRecords;
use crate::opening::RecoverFault;
use crate::read::ReadFault;
use hg_types::NoMemory;
use thiserror::Error;

/// Why a store is not made, opened or read.
#[derive(Clone, Copy, Debug, PartialEq, Eq, Error)]
pub enum StoreFault {
    /// There is none.
    #[error("no store")]
    Missing,
    /// There is one already.
    #[error("there is a store already")]
    Exists,
    /// Another process holds it.
    #[error("another process holds the store")]
    Held,
    /// Its name is a link, or that of another thing than a file.
    #[error("no file, or a link to one")]
    Linked,
    /// It was made with another publishing flag.
    #[error("a store of another publishing flag")]
    OtherPublishing,
    /// It was made with other limits.
    #[error("a store of other limits")]
    OtherLimits,
    /// It is not read, or torn, or the device failed, or memory was refused.
    #[error("{0}")]
    Recover(RecoverFault),
}

impl From<RecoverFault> for StoreFault {
    ghost use Rattle.std.specs.Prelude.{◌≡◌};
    ghost use Rattle.hg_store.specs.declared.start.StoreFault.TheVariants.{Recover};

    ghost from_gives = { λ fault told. told ≡ Recover fault };

    fn from(fault: RecoverFault) -> Self {
        StoreFault::Recover(fault)
    }
}

impl From<ReadFault> for StoreFault {
    ghost use Rattle.std.specs.Prelude.{◌≡◌};
    ghost use Rattle.hg_store.specs.declared.start.StoreFault.TheVariants.{Recover};
    ghost use Rattle.hg_store.specs.declared.opening.RecoverFault.TheVariants.{Read as unread};

    ghost from_gives = { λ fault told. told ≡ Recover (unread fault) };

    fn from(fault: ReadFault) -> Self {
        StoreFault::Recover(RecoverFault::Read(fault))
    }
}

impl From<DeviceError> for StoreFault {
    ghost use Rattle.std.specs.Prelude.{◌≡◌};
    ghost use Rattle.hg_store.specs.declared.start.StoreFault.TheVariants.{Recover};
    ghost use Rattle.hg_store.specs.declared.opening.RecoverFault.TheVariants.{Device as device_fault};

    ghost from_gives = { λ fault told. told ≡ Recover (device_fault fault) };

    fn from(fault: DeviceError) -> Self {
        StoreFault::Recover(RecoverFault::Device(fault))
    }
}

/// Whatever says that memory was refused.
impl<E: Into<NoMemory> + Drop> From<E> for StoreFault {
    ghost use Rattle.std.specs.Prelude.{◌≡◌};
    ghost use Rattle.hg_store.specs.declared.start.StoreFault.TheVariants.{Recover};
    ghost use Rattle.hg_store.specs.declared.opening.RecoverFault.TheVariants.{Device as device_fault};
    ghost use Rattle.hg_store.specs.declared.device.DeviceError.TheVariants.{Memory};

    ghost from_gives = { λ _ told. told ≡ Recover (device_fault Memory) };

    fn from(_refused: E) -> Self {
        StoreFault::Recover(RecoverFault::Device(DeviceError::Memory))
    }
}

/// A store that is open for more records, its name, and the records that it has.
#[derive(Drop)]
pub struct Opened<C: Calls> {
    pub log: Log<StoreFile<C>>,
    pub identity: [u8; 16],
    /// How many records it has.
    pub stored: usize,
    /// The records, which only contracts see.
    pub records: NotedRecords,
}

/// A file that is not opened, and why.
#[derive(Drop)]
pub struct Unopened<C: Calls> {
    pub fault: StoreFault,
    pub calls: C,
}

pub(crate) fn left_over<C: Calls>(fault: StoreFault, calls: C) -> Unopened<C>
    ensures { (result.fault ≡ fault) × (result.calls ≡ calls) }
{
    Unopened { fault, calls }
}
