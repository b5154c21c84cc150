//! The commands of `hg_pushd`, as functions that give a status: all except `host`, `import` and the
//! command line itself.
//!
//! [`one`] runs a bundle from standard input, [`replay`] the bundles of files, and [`serve`] the bundles of
//! connections. [`hg_replay::run_one`] and [`hg_replay::run_replay`] are the first two from any readers to any
//! writer, proved from the bytes read to the bytes written; [`serve_on`] is the third from its seed to its report,
//! over `hg_tcp`. [`report`], [`log`], [`log_to`], [`list`], [`follow`], [`cut`] and
//! [`upgrade`] read a store, end it, and write it anew, over `hg_store_tools`.
//! [`take_closed`] is called before any file is opened, and [`device_status`] is the status of a device that failed.
#![tactic(auto)]

mod acceptor;
mod archive;
mod command_line;
mod commands;
mod report_file;
mod service;
mod standard;

pub use archive::{cut, follow, list, log, log_to, report, upgrade};
pub use command_line::{
    Hosting, Importing, Job, Serving, asked_for, job_of, line_of, tell, usage_status, words,
};
pub use commands::{one, replay, serve};
pub use service::serve_on;
pub use standard::{device_status, take_closed};
