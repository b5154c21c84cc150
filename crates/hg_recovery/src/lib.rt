//! The records of a store, run: each is a bundle, and they are run as pushes, one after the other.
//!
//! [`record_parts`] reads one of them, and [`replay_records`] runs them on a repository. [`laws`] says that the
//! repository is determined by the records, that a front of them gives the repository of the first pushes, and
//! **recovery**: any front of a store, cut anywhere, is read as the records that stand whole in it, and running these
//! gives the repository of the serial run of as many pushes.
//!
//! [`recover_store`] opens a store in a folder, or makes it, and runs its records as they are read, one by one, on the
//! empty repository, in memory for one of them. What it gives is [`Recovered`]: the log, for more records, and the
//! repository. [`OpeningFault`] says why a store is not opened: then nothing in it was changed, unless a device failed
//! at its end. Nothing here starts a thread, and nothing waits but a device.
#![tactic(auto)]

pub mod laws;
mod opening;
mod record;
mod restore;
mod running;
mod standby;

pub use opening::{IfMissing, OpeningFault, Recovered, empty_repository, recover_store};
pub use restore::{RestoreFault, record_parts, replay_record, replay_records};
pub use running::run_next;
pub use standby::Standby;
