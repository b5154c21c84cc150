//! The command line.

use crate::command_line::archive::{
    CUT, LOG, REPORT, UPGRADE, list_fault, read_cut, read_log, read_report, read_upgrade,
};
use crate::command_line::hosting::{HOST, Hosting, read_hosting};
use crate::command_line::importing::{IMPORT, Importing, read_importing};
use crate::command_line::options::{CommandRow, Kind, OptionRow, PUBLISHING, command_of};
use crate::command_line::serving::{SERVE, Serving, read_serving};
use clap::error::ErrorKind;
use clap::{ArgMatches, Command, Error};
use hg_store_tools::BundleForm;
use std::alloc::{AllocError, Global};
use std::io;

/// What the words ask for.
#[derive(Drop)]
pub enum Job<'a> {
    /// One bundle from standard input, and its reply to standard output.
    One {
        publishing: bool,
    },
    /// The pushes of these files, one after the other, and a report to standard output.
    Replay {
        publishing: bool,
        files: Vec<&'a str>,
    },
    /// Connections, each on a thread.
    Serve(Serving<'a>),
    /// A store, and connections over HTTP, until the process is ended.
    Host(Hosting<'a>),
    /// The pushes of files, one after the other, into a store.
    Import(Importing<'a>),
    /// What a store holds, to standard output.
    Report {
        store: &'a str,
    },
    /// The bundles of a store from a place on in that form, to standard output or each to a file of its own; or a line
    /// for each.
    Log {
        store: &'a str,
        from: usize,
        form: BundleForm,
        to: Option<&'a str>,
        list: bool,
    },
    /// A frame for each push of a store from a place on in that form, to standard output, and on as pushes become
    /// durable.
    Follow {
        store: &'a str,
        from: usize,
        form: BundleForm,
        to: Option<&'a str>,
    },
    /// The end of a store before a place.
    Cut {
        store: &'a str,
        at: usize,
    },
    /// A store of version 1 that is written as one of version 2.
    Upgrade {
        store: &'a str,
    },
}

/// The command `one`.
const ONE: CommandRow<'static> = CommandRow {
    name: "one",
    about: "Runs a bundle from standard input on the empty repository, and writes its reply",
    after: "Example: hg_pushd one < push.hg20 > reply.hg20",
    options: &[PUBLISHING],
};

/// The command `replay`.
const REPLAY: CommandRow<'static> = CommandRow {
    name: "replay",
    about: "Runs bundles from files onto the empty repository, and reports what it then holds",
    after: "Example: hg_pushd replay first.hg20 second.hg20 > report.txt",
    options: &[
        PUBLISHING,
        OptionRow {
            name: "FILES",
            kind: Kind::Words,
            value: "",
            is_required: true,
            default: &[],
            help: "Bundles, in the order in which they are pushed",
        },
    ],
};

/// The commands, in the order in which help has them.
const COMMANDS: [CommandRow<'static>; 9] = [
    ONE, REPLAY, SERVE, HOST, IMPORT, REPORT, LOG, CUT, UPGRADE,
];

/// How the program ends.
const STATUSES: &str =
    "Status: 0 where all is done, 1 where a push was aborted, 2 where the words are wrong, \
3 where a device failed or the store cannot be had, 4 where memory was refused.";

/// The program with its commands.
fn command<'a>(alloc: Global) -> Result<Command<'a>, AllocError> {
    let commands = commands_of(alloc, &COMMANDS)?;
    program(alloc).subcommands(commands)
}

/// The program without its commands.
fn program<'a>(alloc: Global) -> Command<'a> {
    Command::new(alloc, "hg_pushd")
        .version("0.1.0")
        .about("Takes pushes in Mercurial's bundle2 format onto a repository in memory")
        .after_help(STATUSES)
        .subcommand_required(true)
}

/// The commands of these rows.
fn commands_of<'a>(alloc: Global, rows: &[CommandRow<'a>]) -> Result<Vec<Command<'a>>, AllocError> {
    let mut commands = Vec::new(alloc);
    for row in rows {
        commands.push(command_of(alloc, row)?)?;
    }
    Ok(commands)
}

/// The files that are named.
pub fn files_of<'a>(alloc: Global, matches: &ArgMatches<'a>) -> Result<Vec<&'a str>, AllocError> {
    listed(alloc, matches.get_strs("FILES"))
}

fn listed<'a>(alloc: Global, files: Option<&[&'a str]>) -> Result<Vec<&'a str>, AllocError> {
    match files {
        Some(files) => Vec::from_slice(alloc, files),
        None => Ok(Vec::new(alloc)),
    }
}

fn read<'a>(alloc: Global, matches: &ArgMatches<'a>) -> Result<Job<'a>, AllocError> {
    match matches.subcommand() {
        Some((name, inner)) => read_command(alloc, name, inner),
        None => Ok(Job::One { publishing: false }),
    }
}

/// Reads what stands after the name of a command.
fn read_command<'a>(
    alloc: Global,
    name: &str,
    inner: &ArgMatches<'a>,
) -> Result<Job<'a>, AllocError> {
    match name {
        "replay" => read_replay(alloc, inner),
        "serve" => Ok(Job::Serve(read_serving(inner))),
        "host" => Ok(Job::Host(read_hosting(inner))),
        "import" => Ok(Job::Import(read_importing(alloc, inner)?)),
        "report" => Ok(read_report(inner)),
        "log" => Ok(read_log(inner)),
        "cut" => Ok(read_cut(inner)),
        "upgrade" => Ok(read_upgrade(inner)),
        _ => Ok(read_one(inner)),
    }
}

/// Reads what stands after `one`.
fn read_one<'a>(matches: &ArgMatches<'a>) -> Job<'a> {
    Job::One {
        publishing: matches.get_flag("publishing"),
    }
}

/// Reads what stands after `replay`.
fn read_replay<'a>(alloc: Global, matches: &ArgMatches<'a>) -> Result<Job<'a>, AllocError> {
    Ok(Job::Replay {
        publishing: matches.get_flag("publishing"),
        files: files_of(alloc, matches)?,
    })
}

/// Reads the words. An error has the text that goes to the user.
pub fn job_of<'a>(alloc: Global, words: &'a [String]) -> Result<Job<'a>, Error> {
    let matches = command(alloc)?.try_get_matches_from(words)?;
    let job = read(alloc, &matches)?;
    match fault_in(&job) {
        Some(text) => Err(invalid(alloc, text)),
        None => Ok(job),
    }
}

/// What is wrong with the values of its options, if something is.
fn fault_in(job: &Job<'_>) -> Option<&'static str> {
    match job {
        Job::Host(hosting) => hosting.fault(),
        Job::Follow { to: Some(_), .. } => Some("--follow and --to exclude one another"),
        Job::Log {
            form,
            to,
            list: true,
            ..
        } => list_fault(*form, *to),
        _ => None,
    }
}

/// Why the words could not be had: memory was refused for them, or one of them is not text.
pub fn unreadable(alloc: Global, error: &io::Error) -> Error {
    if error.kind() == io::ErrorKind::OutOfMemory {
        return Error::from(AllocError);
    }
    invalid(alloc, "a word of the command line is not UTF-8")
}

/// The error that says what is wrong with a word.
fn invalid(alloc: Global, text: &'static str) -> Error {
    match usage_fault(alloc, text) {
        Ok(fault) => fault,
        Err(refused) => Error::from(refused),
    }
}

fn usage_fault(alloc: Global, text: &'static str) -> Result<Error, AllocError> {
    let mut command = command(alloc)?;
    let fault = command.error(ErrorKind::InvalidValue, text);
    drop(command);
    fault
}

/// 4 where memory is refused, 0 for help or the version that was asked for, and else 2.
pub fn usage_status(error: &Error) -> u8 {
    match error.kind() {
        ErrorKind::OutOfMemory => 4,
        ErrorKind::DisplayHelp | ErrorKind::DisplayVersion => 0,
        _ => 2,
    }
}
