//! The commands that run bundles: from standard input, from files, and from connections. No contract names what
//! these give and take, so each clause says no more than which status there can be. What was run and written stands
//! in the contracts of the calls: `run_one`, `run_replay` and [`crate::service::serve_on`].

ghost use Rattle.std.specs.Prelude.{◌≡◌, IfOk, IfErr, length};
ghost use Rattle.hg_commands.specs.Commands.{IsDeviceStatus, IsRunStatus};

use crate::acceptor::Listening;
use crate::command_line::Serving;
use crate::report_file::Report;
use crate::service::serve_on;
use crate::standard::device_status;
use hg_replay::{run_one, run_replay};
use hg_tcp::ServeTerms;
use std::fs::{File, Files};
use std::hash::RandomState;
use std::io;
use std::io::Input;
use std::net::{Net, TcpListener, TcpStream};
use std::sync::Wait;
use std::thread::Threads;
use std::time::Clock;

/// The files of these names, opened in their order. Of one that does not open the status is given.
fn open_all<R: Files<File = File> + AllocGlobal>(rt: &R, names: &[&str]) -> Result<Vec<File>, u8>
    ensures ok { IfOk result (λ files. length files.items ≡ length names.now) }
    ensures err { IfErr result (λ status. IsDeviceStatus status) }
{
    let mut files = Vec::new(rt.alloc());
    for name in names {
        let file = open(rt, name)?;
        if let Err(_) = files.push(file) {
            return Err(4);
        }
    }
    Ok(files)
}

fn open<R: Files<File = File>>(rt: &R, name: &str) -> Result<File, u8>
    ensures { IfErr result (λ status. IsDeviceStatus status) }
{
    match File::open(rt, name) {
        Ok(file) => Ok(file),
        Err(error) => Err(device_status(&error)),
    }
}

/// Runs one push from standard input on the empty repository, and writes the reply to standard output.
pub fn one<R: Input + Print + AllocGlobal>(rt: &R, state: RandomState, publishing: bool) -> u8
    ensures { IsRunStatus result }
{
    let (mut reader, mut writer) = (rt.reader(), io::writer(rt));
    run_one(rt.alloc(), state, &mut reader, &mut writer, publishing)
}

/// Replays the pushes of these files, and writes the report to standard output. Where one does not open, nothing is
/// run.
pub fn replay<R: Files<File = File> + AllocGlobal + Print>(
    rt: &R,
    state: RandomState,
    publishing: bool,
    names: &[&str],
) -> u8
    ensures { IsRunStatus result }
{
    let mut writer = io::writer(rt);
    match open_all(rt, names) {
        Ok(mut files) => run_replay(rt.alloc(), state, &mut files, &mut writer, publishing),
        Err(status) => status,
    }
}

/// Opens the seed, binds, and makes the file of the report, in this order; then serves. Where the system is
/// to pick the port, the address is printed on standard output before the first accept. What fails before the
/// seed is run is the error, and so is a whole report that cannot be put in its place.
fn serve_files<R>(rt: &R, state: RandomState, serving: &Serving<'_>) -> io::Result<u8>
where
    R: Files<File = File>
        + Print
        + AllocGlobal
        + Net<Listener = TcpListener, Stream = TcpStream>
        + Threads
        + Wait
        + Clock
        + Sync,
    ensures { IfOk result (λ status. IsRunStatus status) }
{
    let mut seed = match serving.seed {
        Some(path) => Some(File::open(rt, path)?),
        None => None,
    };
    let listener = TcpListener::bind(rt, serving.listen)?;
    let mut report = Report::create(rt, serving.report)?;
    let terms = ServeTerms {
        connections: serving.connections,
        capacity: serving.capacity,
        bundles: serving.bundles,
    };
    let door = Listening::new(rt, listener, terms.connections, serving.asks_for_a_port());
    let (status, _door) = serve_on(
        rt,
        rt.alloc(),
        state,
        door,
        terms,
        serving.publishing,
        seed.as_mut(),
        &mut report,
    );
    report.keep(rt, serving.report)?;
    Ok(status)
}

/// Opens the seed, binds the address, makes the file of the report, and serves connections, in this order. What
/// fails before the seed is run gives the status of a device, and so does a whole report that is not put in its
/// place.
pub fn serve<R>(rt: &R, state: RandomState, serving: &Serving<'_>) -> u8
where
    R: Files<File = File>
        + Print
        + AllocGlobal
        + Net<Listener = TcpListener, Stream = TcpStream>
        + Threads
        + Wait
        + Clock
        + Sync,
    ensures { IsRunStatus result }
{
    match serve_files(rt, state, serving) {
        Ok(status) => status,
        Err(error) => device_status(&error),
    }
}
