//! Bundles that are brought into a store: each is run as a push, and its record is on the device before the next
//! one is run.
//!
//! [`import_files`] runs the bundles of files, one after the other, on the repository of a store that was opened,
//! and writes a line for each: the place of its push, once its record is on the device, or the reason that it is
//! not done. It ends at the first that is not done. An [`ImportStop`] says why. [`NamedFile`] is a file that is
//! opened once it is read, so that as many may follow one another as one likes. Nothing here starts a thread, and
//! nothing waits but a device.
#![tactic(auto)]

mod import;
mod line;
mod named;
mod pushing;
mod reading;

pub use import::{ImportStop, Times, import_files};
pub use named::NamedFile;
