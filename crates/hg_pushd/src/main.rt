//! The program `hg_pushd`: pushes onto a repository that is empty at first.
//!
//! `hg_pushd one` reads a bundle from standard input, runs it and writes the reply bundle to standard output.
//! `hg_pushd replay` runs the bundles of files, one after the other, and writes a report of what the repository
//! then holds. `hg_pushd serve` accepts connections and serves each on a thread. `hg_pushd report`, `hg_pushd log`
//! (also as it follows one), `hg_pushd cut` and `hg_pushd upgrade` read a store, end it, and write it anew. All of
//! these are functions of `hg_commands`. `hg_pushd host` answers HTTP, and keeps each push in a store: [`host`]
//! begins it, over `hg_host`. `hg_pushd import` brings the bundles of files into a store: [`import`], over
//! `hg_import`. The command line is read by `hg_commands`.
#![tactic(auto)]

mod host;
mod import;
mod opened;
mod standby;

use hg_commands::{
    Job, asked_for, cut, device_status, follow, list, log, log_to, one, replay, report, serve,
    take_closed, tell, upgrade, words,
};
use hg_host::HostingRuntime;
use hg_store_tools::BundleForm;
use std::fs::{File, Files};
use std::hash::RandomState;
use std::io;
use std::io::Input;
use std::net::{Net, TcpListener, TcpStream};
use std::process::ExitCode;
use std::random::RandomSource;
use std::sync::Wait;
use std::thread::Threads;
use std::time::Clock;

/// Prints the status on standard error, and gives it.
fn printed<R: Eprint>(rt: &R, status: u8) -> u8 {
    tell(rt, status);
    status
}

/// Does what a job asks for, and gives the status, which is printed.
fn run<R>(rt: &R, state: RandomState, job: &Job<'_>) -> u8
where
    R: Files<File = File> + Input + Print + AllocGlobal + HostingRuntime,
{
    match job {
        Job::One { publishing } => printed(rt, one(rt, state, *publishing)),
        Job::Replay { publishing, files } => printed(rt, replay(rt, state, *publishing, files)),
        Job::Serve(serving) => printed(rt, serve(rt, state, serving)),
        Job::Host(hosting) => host::host(rt, state, hosting),
        Job::Import(importing) => import::import(rt, state, importing),
        Job::Report { store } => write_report(rt, state, store),
        Job::Log {
            store,
            from,
            list: true,
            ..
        } => list(rt, rt.alloc(), store, *from, &mut io::writer(rt)),
        Job::Log {
            store,
            from,
            form,
            to,
            list: false,
        } => write_log(rt, store, *from, *form, *to),
        Job::Follow {
            store,
            from,
            form,
            ..
        } => follow_log(rt, store, *from, *form),
        Job::Cut { store, at } => cut(rt, rt.alloc(), store, *at),
        Job::Upgrade { store } => upgrade(rt, rt.alloc(), store),
    }
}

/// Writes the report of a store to standard output.
fn write_report<R>(rt: &R, state: RandomState, store: &str) -> u8
where
    R: Files<File = File> + Print + Eprint + AllocGlobal,
{
    report(rt, rt.alloc(), state, store, &mut io::writer(rt))
}

/// Writes the pushes of a store from a place on in that form, to a folder or to standard output.
fn write_log<R>(rt: &R, store: &str, from: usize, form: BundleForm, to: Option<&str>) -> u8
where
    R: Files<File = File> + Print + Eprint + AllocGlobal,
{
    match to {
        Some(folder) => log_to(rt, rt.alloc(), store, from, form, folder),
        None => log(rt, rt.alloc(), store, from, form, &mut io::writer(rt)),
    }
}

/// Writes a frame for each push of a store from a place on in that form, to standard output, and goes on.
fn follow_log<R>(rt: &R, store: &str, from: usize, form: BundleForm) -> u8
where
    R: Files<File = File> + Print + Eprint + AllocGlobal,
{
    follow(rt, rt.alloc(), store, from, form, &mut io::writer(rt))
}

/// The same, with random bytes from the system, and with the standard descriptors that are closed taken. A system
/// that gives no random bytes is a device that failed.
fn begin<R>(rt: &R, job: &Job<'_>) -> u8
where
    R: Files<File = File> + Input + Print + AllocGlobal + HostingRuntime,
{
    let Ok(state) = RandomState::new(rt) else {
        return printed(rt, 3);
    };
    match take_closed(rt) {
        Ok(_taken) => run(rt, state, job),
        Err(error) => printed(rt, device_status(&error)),
    }
}

/// Does what these words ask for, and gives the status, which is printed.
fn obey<R>(rt: &R, words: &[String]) -> u8
where
    R: RandomSource
        + Files<File = File>
        + Input
        + Print
        + Eprint
        + AllocGlobal
        + Net<Listener = TcpListener, Stream = TcpStream>
        + Threads
        + Wait
        + Clock
        + Sync,
{
    match asked_for(rt, words) {
        Ok(job) => begin(rt, &job),
        Err(status) => printed(rt, status),
    }
}

fn main(rt: HostRuntime) -> ExitCode {
    let status = match words(&rt) {
        Ok(words) => obey(&rt, &words),
        Err(status) => printed(&rt, status),
    };
    ExitCode::from(status)
}
