//! A store: a file of records, each on the disk before it is acknowledged. A crash leaves whole records,
//! none skipped.
//!
//! A record is the bundle of a push, any bytes, with a stamp: when it came, and who pushed it. [`put_record`] writes
//! it after its numbers, its name and its digest, which takes in the digest of the record before; [`read_records`]
//! reads the records of a store, up to its end or to a torn record. [`laws`] says that a store is read in one way,
//! and that a front of it, cut anywhere, is read as the records that are whole in it. [`Log`] adds records on a
//! [`Device`], each with the digest of its bundle, as [`Sealed`] makes it. Nothing here starts a thread or waits.
//!
//! Numbers of several bytes have the high byte first. The head of a store has 54 bytes:
//!
//! | bytes | what |
//! |---|---|
//! | 8 | the letters `HGPUSHES` |
//! | 1 | the version, 2 |
//! | 1 | 1 where the server publishes, and else 0 |
//! | 28 | the limits, seven numbers of four bytes, from `params` to `revisions` |
//! | 16 | random bytes that name the store |
//!
//! The records follow, one after the other:
//!
//! | bytes | what |
//! |---|---|
//! | 1 | the gate: 255 where a record follows, and 0 where none does |
//! | 4 | the number of the bytes of its bundle, `size` |
//! | 8 | when it came, in milliseconds since 1970 |
//! | 1 | the number of the bytes of the name, `named` |
//! | named | the name of who pushed it |
//! | 20 | its digest: SHA-1 of the digest before, of what stands from `size` to the name, and of the SHA-1 of its
//! bundle |
//! | size | its bundle |
//!
//! The digest before the first record is the SHA-1 of the head.
//!
//! A store ends at a gate that is 0, whatever stands after it, or with the file. What stands there is kept at an
//! opening. Less than a whole record
//! after an open gate is a torn record. Another gate is damage, and so is another digest in a whole record.
//!
//! Version 1 is read, and gets no more records. There the head has the byte 1 and no name, an open gate is 1, a
//! record has no time, no number of a name and no name, and its digest takes in that of the record before and the
//! SHA-1 of its bundle.
#![tactic(auto)]

mod bundle;
mod calls;
mod device;
mod entry;
mod file;
mod folder;
mod front;
mod gates;
mod head;
mod heading;
mod history;
mod host;
mod kept;
pub mod laws;
mod log;
mod names;
mod noted;
mod numbers;
mod opening;
mod pieces;
mod place;
mod placed;
mod read;
mod record;
mod sealed;
mod standby;
mod start;
mod tail;

pub use bundle::{BundleTaker, Passing};
pub use calls::Calls;
pub use device::{Device, DeviceError};
pub use entry::{Entry, Passed, Stamp, Standing};
pub use file::StoreFile;
pub use folder::{
    begin_store, create_store, follow_store, hold_store, kept_file, make_folder, new_identity,
    new_store, open_held, store_file,
};
pub use front::{Opening, open_file, pass_records};
pub use head::{Head, HeadFault, Setup, Version};
pub use history::{Call, History};
pub use host::{Hold, HostFile, read_all};
pub use kept::KeptTail;
pub use log::Log;
pub use names::StoreFolder;
pub use noted::NotedRecords;
pub use opening::{RecoverFault, recover};
pub use pieces::{HeadStop, RecordStop, read_head, read_record};
pub use place::{NewFile, bytes_at_rest, create_file, put_whole};
pub use placed::PlacedFile;
pub use read::{Found, ReadFault, read_records};
pub use record::{NoRecord, next_record, put_record};
pub use sealed::Sealed;
pub use start::{Opened, StoreFault, Unopened};
pub use tail::{BATCH_BYTES, BATCH_RECORDS, TailFault, TailKeeper};
