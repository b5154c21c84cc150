//! The command line of `hg_pushd`: what its words ask for, and what is printed for the one who typed them.
//!
//! [`words`] are those that the program was started with, and [`asked_for`] says which [`Job`] they ask for.
//! Where they ask for none, as help and a bad word do, the text that goes to the user is printed, and the
//! answer is the status. [`tell`] prints the line of a status.

mod archive;
mod command;
mod hosting;
mod importing;
mod options;
mod serving;
mod telling;

pub use command::{Job, job_of, usage_status};
pub use hosting::Hosting;
pub use importing::Importing;
pub use serving::Serving;
pub use telling::{asked_for, line_of, tell, words};
