//! A store that is read, and ended, beside the server that fills it.
//!
//! Each call gives the status, and prints on standard error what is to be said of it.

ghost use Rattle.std.specs.Prelude.{◌≡◌, ◌≢◌};
ghost use Rattle.hg_commands.specs.Archive.{FollowsStore, ListsStore, LogsStore, ReportsStore};
ghost use Rattle.hg_commands.specs.Commands.{IsDeviceStatus, IsStoreStatus};

use crate::command_line::tell;
use hg_connection::Writer;
use hg_store_tools::{
    ArchiveFault, BundleForm, FollowStop, StoreEnd, TornNote, cut_store, file_log, follow_store,
    list_store, log_store, report_store, upgrade_store,
};
use std::alloc::Global;
use std::fs::{File, Files};
use std::hash::RandomState;

/// Writes the report of a store. The status 0 says that the writer took the report of a file, whole.
pub fn report<R: Files<File = File> + Eprint, W: Writer>(
    rt: &R,
    alloc: Global,
    state: RandomState,
    store: &str,
    writer: &mut W,
) -> u8
    ensures { result ≡ 0 → ReportsStore Global (W.told writer.old) (W.told writer.new) }
{
    match report_store(rt, alloc, state, store, writer) {
        Ok(ending) => read(rt, store, ending),
        Err(fault) => refused(rt, &fault),
    }
}

/// Writes the bundles of a store from a place on in that form. The status 0 says that the writer took those of a store,
/// one after the other.
pub fn log<R: Files<File = File> + Eprint, W: Writer>(
    rt: &R,
    alloc: Global,
    store: &str,
    from: usize,
    form: BundleForm,
    writer: &mut W,
) -> u8
    ensures { result ≡ 0 → LogsStore Global from form (W.told writer.old).taken (W.told writer.new).taken }
{
    match log_store(rt, alloc, store, from, form, writer) {
        Ok(ending) => read(rt, store, ending),
        Err(fault) => refused(rt, &fault),
    }
}

/// Writes the bundles of a store from a place on in that form, each to a file of its own in a folder.
pub fn log_to<R: Files<File = File> + Eprint>(
    rt: &R,
    alloc: Global,
    store: &str,
    from: usize,
    form: BundleForm,
    folder: &str,
) -> u8
    ensures { IsStoreStatus result }
{
    match file_log(rt, alloc, store, from, form, folder) {
        Ok(ending) => read(rt, store, ending),
        Err(fault) => refused(rt, &fault),
    }
}

/// Writes a line for each push of a store from a place on. The status 0 says that the writer took those of a store, one
/// after the other.
pub fn list<R: Files<File = File> + Eprint, W: Writer>(
    rt: &R,
    alloc: Global,
    store: &str,
    from: usize,
    writer: &mut W,
) -> u8
    ensures { result ≡ 0 → ListsStore Global from (W.told writer.old).taken (W.told writer.new).taken }
{
    match list_store(rt, alloc, store, from, writer) {
        Ok(ending) => read(rt, store, ending),
        Err(fault) => refused(rt, &fault),
    }
}

/// The descriptor of standard output.
const STANDARD_OUTPUT: i32 = 1;

/// Writes a frame for each push of a store from a place on, with its bundle in that form, and goes on as pushes become
/// durable. The writer is standard output. The status 0 says that nobody reads there any more.
pub fn follow<R: Files<File = File> + Eprint, W: Writer>(
    rt: &R,
    alloc: Global,
    store: &str,
    from: usize,
    form: BundleForm,
    writer: &mut W,
) -> u8
    ensures status { IsStoreStatus result }
    ensures frames { FollowsStore Global from form (W.told writer.old).taken (W.told writer.new).taken }
{
    match follow_store(rt, alloc, store, from, form, STANDARD_OUTPUT, writer) {
        Ok(FollowStop::ReaderGone) => 0,
        Ok(FollowStop::Replaced) => {
            let _ = eprintln!(rt;
                "hg_pushd: {store}/pushes: another file has this name, or none: follow it anew"
            );
            3
        }
        Err(fault) => refused(rt, &fault),
    }
}

/// Ends a store before a place.
pub fn cut<R: Files<File = File> + Eprint>(rt: &R, alloc: Global, store: &str, at: usize) -> u8
    ensures { IsStoreStatus result }
{
    match cut_store(rt, alloc, store, at) {
        Ok(()) => 0,
        Err(fault) => refused(rt, &fault),
    }
}

/// Writes a store of version 1 as one of version 2.
pub fn upgrade<R: Files<File = File> + Eprint>(rt: &R, alloc: Global, store: &str) -> u8
    ensures { IsStoreStatus result }
{
    match upgrade_store(rt, alloc, store) {
        Ok(()) => 0,
        Err(fault) => refused(rt, &fault),
    }
}

/// The status of a store that was read. Of a torn one it is printed that it is torn.
fn read<R: Eprint>(rt: &R, store: &str, ending: StoreEnd) -> u8
    ensures { result ≡ 0 }
{
    if let StoreEnd::Torn(whole) = ending {
        let note = TornNote {
            folder: store,
            whole,
        };
        let _ = eprintln!(rt; "hg_pushd: {note}");
    }
    0
}

/// The status of a fault, which is printed: refused memory by its own line, and any other by one that names the
/// file.
fn refused<R: Eprint>(rt: &R, fault: &ArchiveFault<'_>) -> u8
    ensures fails { result ≢ 0 }
    ensures status { IsDeviceStatus result }
{
    if fault.status() == 4 {
        tell(rt, 4);
        return 4;
    }
    let _ = eprintln!(rt; "hg_pushd: {fault}");
    3
}
