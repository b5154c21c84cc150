//! What is printed on standard output and standard error.

use crate::command_line::command::{Job, job_of, unreadable, usage_status};
use clap::Error;
use std::env::Env;

/// The line that names a status.
pub fn line_of(status: u8) -> Option<&'static str> {
    match status {
        1 => Some("hg_pushd: push aborted"),
        3 => Some("hg_pushd: device fault"),
        4 => Some("hg_pushd: out of memory"),
        _ => None,
    }
}

/// Prints the status on standard error, where it is not 0.
pub fn tell<R: Eprint>(rt: &R, status: u8) {
    if let Some(line) = line_of(status) {
        let _ = eprintln!(rt; "{line}");
    }
}

/// The words of the command line. Where they cannot be had, why is printed, and the error is the status.
pub fn words<R: Env + Print + Eprint + AllocGlobal>(rt: &R) -> Result<Vec<String>, u8> {
    match read_words(rt) {
        Ok(words) => Ok(words),
        Err(error) => Err(explain(rt, &error)),
    }
}

fn read_words<R: Env + AllocGlobal>(rt: &R) -> Result<Vec<String>, Error> {
    match std::env::args(rt) {
        Ok(words) => Ok(words.collect(rt.alloc())?),
        Err(error) => Err(unreadable(rt.alloc(), &error)),
    }
}

/// What the words ask for. Where they ask for nothing, help, the version or what is wrong with them is
/// printed, and the error is the status.
pub fn asked_for<'a, R>(rt: &R, words: &'a [String]) -> Result<Job<'a>, u8>
where
    R: Print + Eprint + AllocGlobal,
{
    match job_of(rt.alloc(), words) {
        Ok(job) => Ok(job),
        Err(error) => Err(explain(rt, &error)),
    }
}

/// Prints the help or the version that was asked for, or what is wrong with the words, and gives the status.
/// That of wrong words is the same where they cannot be printed.
fn explain<R: Print + Eprint>(rt: &R, error: &Error) -> u8 {
    let status = usage_status(error);
    if status == 4 {
        return status;
    }
    match error.print(rt) {
        Err(_) if status == 0 => 3,
        _ => status,
    }
}
