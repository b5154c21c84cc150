//! Pushes that one thread runs, each from a reader.
//!
//! [`run_one`] runs the bundle of a reader on the repository that is empty at first, and writes its reply.
//! [`run_replay`] runs the bundles of several readers, one after the other, and writes a report of what the
//! repository then holds. [`seeded`] gives the repository that a bundle begins. Each is proved from the bytes
//! read to the bytes written. Nothing here starts a thread, and nothing waits but a device.
#![tactic(auto)]

mod push;
mod receiving;
mod replay;
mod report;
mod run;
mod seed;
mod status;

pub use replay::run_replay;
pub use run::{empty_repository, run_one};
pub use seed::{SeedFault, seeded};
