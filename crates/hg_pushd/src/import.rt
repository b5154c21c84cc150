//! Bundles from files that are brought into a store, and what is printed of it.

ghost use Rattle.hg_recovery.specs.Opening.{IsOpened};

use crate::opened::{not_opened, open_store, store_failed};
use hg_commands::{Importing, tell};
use hg_import::{ImportStop, NamedFile, Times, import_files};
use hg_recovery::Recovered;
use hg_store::{Device, HostFile, StoreFile};
use std::alloc::Global;
use std::fs::{File, Files};
use std::hash::RandomState;
use std::io;
use std::time::{Clock, SystemTime, UNIX_EPOCH};

/// The clock of the system.
#[derive(Drop)]
struct SystemTimes<'a, R: Clock> {
    rt: &'a R,
}

impl<R: Clock> Times for SystemTimes<'_, R> {
    ghost says = { λ _ _. Unit {0} };

    fn millis(&self) -> u64 {
        let Ok(now) = SystemTime::now(self.rt) else {
            return 0;
        };
        match now.duration_since(UNIX_EPOCH) {
            Ok(spent) => u64::try_from(spent.as_millis()).unwrap_or(0),
            Err(_) => 0,
        }
    }
}

/// Opens the store, and brings the bundles of the files into it, one after the other. Gives the status; what ends
/// it is printed.
pub fn import<R: Files<File = File> + Print + Eprint + AllocGlobal + Clock>(
    rt: &R,
    state: RandomState,
    importing: &Importing<'_>,
) -> u8 {
    let Ok(mut files) = named_files(rt, &importing.files) else {
        tell(rt, 4);
        return 4;
    };
    let opened = open_store(
        rt,
        state,
        importing.store,
        importing.publishing,
        importing.existing,
    );
    match opened {
        Ok(recovered) => import_into(rt, recovered, &mut files),
        Err(fault) => not_opened(rt, importing.store, &fault),
    }
}

/// The files of these names.
fn named_files<'a, R: Files<File = File> + AllocGlobal>(
    rt: &'a R,
    names: &[&'a str],
) -> Result<Vec<NamedFile<'a, R>>, std::alloc::AllocError> {
    let mut files = Vec::new(rt.alloc());
    for name in names {
        files.push(NamedFile::new(rt, name))?;
    }
    Ok(files)
}

/// Brings the bundles of the files into a store that was opened.
fn import_into<R: Files<File = File> + Print + Eprint + AllocGlobal + Clock>(
    rt: &R,
    recovered: Recovered<StoreFile<HostFile>>,
    files: &mut [NamedFile<'_, R>],
) -> u8
    requires { IsOpened ⟦<StoreFile<HostFile> as Device>⟧.seen
        ⟦<StoreFile<HostFile> as Device>⟧.may_leave recovered }
{
    let Recovered {
        mut repo,
        mut log,
        stored,
        ..
    } = recovered;
    let (place, stop) = import_files(
        rt.alloc(),
        &SystemTimes { rt },
        &mut repo,
        &mut log,
        stored,
        files,
        &mut io::writer(rt),
    );
    let is_foreign = log.device.calls().is_foreign();
    match stop {
        None => 0,
        Some(stop) => match place.checked_sub(stored) {
            Some(at) if at < files.len() => stopped(rt, &files[at], &stop, is_foreign),
            _ => printed(rt, stop.status()),
        },
    }
}

/// A status, which is printed.
fn printed<R: Eprint>(rt: &R, status: u8) -> u8 {
    tell(rt, status);
    status
}

/// The status where not all files were brought in, which is printed. Where the store failed, another may have
/// changed it.
fn stopped<R: Files<File = File> + Eprint>(
    rt: &R,
    file: &NamedFile<'_, R>,
    stop: &ImportStop<Global>,
    is_foreign: bool,
) -> u8 {
    let status = stop.status();
    let name = file.name();
    match (stop, file.failure()) {
        (ImportStop::StoreFailed(_), _) if status == 3 => store_failed(rt, is_foreign),
        (_, Some(kind)) => {
            let error = io::Error::from(kind);
            let _ = eprintln!(rt; "hg_pushd: {name}: {error}");
        }
        _ if status == 1 => {
            let _ = eprintln!(rt; "hg_pushd: {name}: push aborted");
        }
        _ => tell(rt, status),
    }
    status
}
