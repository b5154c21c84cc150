//! A store that is read, and ended, beside the server: the report of what it holds, its pushes as bundles, and
//! a cut before one of them.
//!
//! [`send_report`], [`send_log`] and [`put_log`] are these over a store that a reader gives, in memory for one
//! record, to any writer. [`canonical_bundle`] writes of a bundle what may change a repository alone: in that
//! [`BundleForm`] the pushes of a store are given too. [`send_list`] writes a line for each push. [`brought_by`]
//! counts the changesets of a bundle, and [`date_of`] gives the date of a second. [`check_records`] goes through a
//! store and writes nothing. [`put_cut`] ends a store, of [`StoreBytes`], and [`put_upgrade`] makes one of version 2
//! of one of version 1: both write to new files as they read. [`find_start`] looks where a log from a place on begins
//! to read, by the index of a store ([`index_bytes`]), and [`send_log_on`], [`put_log_on`] and [`send_list_on`] read
//! from there on. [`laws`] says that this gives what is read from the front. [`report_store`], [`log_store`],
//! [`list_store`], [`file_log`], [`cut_store`] and [`upgrade_store`] do it with a store in a folder. [`follow_store`]
//! writes a frame for each push of a store once it is durable, and goes on while the store grows; [`send_trail`] does
//! it with any file that grows. Nothing here starts a thread, and no other call waits.
#![tactic(auto)]

mod brought;
mod bundles;
mod canonical;
mod changing;
mod check;
mod cut;
mod date;
mod fault;
mod filling;
mod folder;
mod follow;
mod following;
mod form;
mod frame;
mod host;
mod index;
pub mod laws;
mod listing;
mod marks;
mod measured;
mod notes;
mod report;
mod rest;
mod trail;
mod upgrade;
mod visit;

pub use brought::brought_by;
pub use bundles::{BundleSink, put_log, put_log_on, send_log, send_log_on};
pub use canonical::canonical_bundle;
pub use check::{check_records, check_records_on};
pub use cut::{CutFault, CutFiles, put_cut};
pub use date::{Date, date_of};
pub use fault::{ArchiveFault, Fault, NamedFile, StoreEnd, TornNote};
pub use filling::NewStore;
pub use folder::{cut_store, file_log, list_store, log_store, report_store, upgrade_store};
pub use follow::{FollowEnd, Pause, StoreTrail};
pub use following::{FollowStop, follow_store, send_trail, send_trail_on};
pub use form::BundleForm;
pub use index::{NoIndex, index_bytes, read_index};
pub use listing::{send_list, send_list_on};
pub use marks::{EACH, FoundStart, Mark, StoreStart, find_start};
pub use measured::{Measurable, Measured};
pub use report::send_report;
pub use rest::StoreBytes;
pub use trail::GrowingFile;
pub use upgrade::{OldStore, put_upgrade};
