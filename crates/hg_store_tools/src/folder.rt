//! A store in its folder.

ghost use Rattle.std.specs.Prelude.{◌≤◌, ℕ, List, IfOk};
ghost use Rattle.hg_connection.specs.declared.sending.Sending.TheVariants.{Whole as sent_whole};
ghost use Rattle.hg_connection.specs.Sent.{Sends};
ghost use Rattle.hg_store.specs.Head.{IsHead};
ghost use Rattle.hg_store_tools.specs.Listing.{ListsFrom};
ghost use Rattle.hg_store_tools.specs.Logging.{LogsFrom};
ghost use Rattle.hg_store_tools.specs.Reporting.{Reports};

use crate::bundles::{put_log_on, send_log_on};
use crate::cut::{CutFault, CutFiles, put_cut};
use crate::fault::{ArchiveFault, Fault, NamedFile, StoreEnd};
use crate::filling::NewStore;
use crate::form::BundleForm;
use crate::host::{
    FolderShelf, StoreLink, StoreReads, checked_start, fault_of_store, find_place, first_reader,
    store_reader,
};
use crate::listing::send_list_on;
use crate::marks::StoreStart;
use crate::measured::Measured;
use crate::report::send_report;
use crate::upgrade::put_upgrade;
use hg_connection::Writer;
use hg_store::{
    StoreFault, StoreFolder, kept_file, make_folder, new_identity, new_store, open_held,
};
use std::alloc::Allocator;
use std::fs::{File, Files};
use std::hash::RandomState;
use std::io::BufReader;

/// Writes the report of the store in a folder, as [`send_report`] does, also while another process holds it.
/// Nothing is changed, and nothing is held.
pub fn report_store<'a, R: Files<File = File>, A: Allocator + Copy, W: Writer>(
    files: &R,
    alloc: A,
    state: RandomState,
    folder: &'a str,
    writer: &mut W,
) -> Result<StoreEnd, ArchiveFault<'a>>
    ensures { IfOk result (λ ending. (file : List ℕ) × (text : List ℕ) × (count : ℕ)
        × Reports A file ending text
        × Sends sent_whole count (W.told writer.old) (W.told writer.new) text) }
{
    let mut reader = about(store_reader(files, alloc, folder), NamedFile::Store(folder))?;
    match send_report(alloc, state, &mut reader, writer) {
        Ok(ending) => Ok(ending),
        Err(fault) => Err(sending_fault(folder, fault)),
    }
}

/// Writes the bundles of the store in a folder, from a place on, in that form, as [`send_log`] does, also while another
/// process holds it. Nothing is changed but its index, and nothing is held. The store is read twice, from the last mark
/// before that place on that its index has: of one that is damaged there nothing is written.
pub fn log_store<'a, R: Files<File = File>, A: Allocator + Copy, W: Writer>(
    files: &R,
    alloc: A,
    folder: &'a str,
    from: usize,
    form: BundleForm,
    writer: &mut W,
) -> Result<StoreEnd, ArchiveFault<'a>>
    ensures { IfOk result (λ ending. LogsFrom form A from ending (W.told writer.old).taken (W.told writer.new).taken) }
{
    let (start, mut reader) = log_start(files, alloc, folder, from)?;
    match send_log_on(alloc, &start, &mut reader, from, form, writer) {
        Ok(ending) => Ok(ending),
        Err(fault) => Err(sending_fault(folder, fault)),
    }
}

/// Writes a line for each push of the store in a folder, from a place on, as [`send_list`] does, also while another
/// process holds it. Nothing is changed but its index, and nothing is held. The store is read twice, from the last mark
/// before that place on that its index has: of one that is damaged there nothing is written.
pub fn list_store<'a, R: Files<File = File>, A: Allocator + Copy, W: Writer>(
    files: &R,
    alloc: A,
    folder: &'a str,
    from: usize,
    writer: &mut W,
) -> Result<StoreEnd, ArchiveFault<'a>>
    ensures { IfOk result (λ ending. ListsFrom A from ending (W.told writer.old).taken (W.told writer.new).taken) }
{
    let (start, mut reader) = log_start(files, alloc, folder, from)?;
    match send_list_on(alloc, &start, &mut reader, from, writer) {
        Ok(ending) => Ok(ending),
        Err(fault) => Err(sending_fault(folder, fault)),
    }
}

/// The bundles of the store in a folder as [`log_store`] writes them, each in a file of its own in another folder,
/// named by its place in ten digits. That
/// folder is made if it is not there, and not for a damaged store. A file that is there is not written over: of those
/// from it on none is made.
pub fn file_log<'a, R: Files<File = File>, A: Allocator + Copy>(
    files: &R,
    alloc: A,
    folder: &'a str,
    from: usize,
    form: BundleForm,
    to: &'a str,
) -> Result<StoreEnd, ArchiveFault<'a>> {
    let (start, mut reader) = log_start(files, alloc, folder, from)?;
    about_store(make_folder(files, alloc, to), NamedFile::Folder(to))?;
    let mut shelf = FolderShelf::of(files, alloc, to);
    match put_log_on(alloc, &start, &mut reader, from, form, &mut shelf) {
        Ok(ending) => Ok(ending),
        Err(fault) => Err(ArchiveFault {
            file: shelf_name(folder, to, shelf.place, fault),
            fault,
        }),
    }
}

/// Ends the store in a folder before a place, as [`put_cut`] does. The pushes that it leaves out are kept in the file
/// `pushes.cut-N` of the folder, where N is the place; one that is there is not written over. What stands after the
/// whole records, unless it is only zeros, is kept before that in the file `pushes.tail-N`, where N is how many these
/// are, as an opening keeps it. A store that another process holds is refused. It is read twice: where it has no such
/// place, nothing is made. Of an `Err` the store is as it was, except where the new file failed: then the old store
/// is there, or the new one is.
pub fn cut_store<'a, R: Files<File = File>, A: Allocator + Copy>(
    files: &R,
    alloc: A,
    folder: &'a str,
    at: usize,
) -> Result<(), ArchiveFault<'a>> {
    let store = NamedFile::Store(folder);
    let file = about_store(open_held(files, alloc, folder), store)?;
    let reads = StoreReads::of(&file, alloc);
    about(find_place(alloc, &reads, at), store)?;
    let kept_name = NamedFile::Kept(folder, at);
    let name = about(cut_name(alloc, at), kept_name)?;
    let mut beside = StoreFolder::new(files, folder);
    let kept = match kept_file(files, alloc, folder, name.as_str()) {
        Ok(file) => file,
        Err(fault) => return about_store(Err(fault), kept_name),
    };
    let new = match new_store(alloc, &mut beside) {
        Ok(file) => file,
        Err(fault) => {
            kept.remove();
            return about_store(Err(fault), NamedFile::New(folder));
        }
    };
    let mut made = CutFiles::of(kept, new);
    match put_cut(alloc, &reads, at, &mut beside, &mut made) {
        Ok(()) => Ok(()),
        Err(fault) => {
            made.kept().remove();
            made.new_store().remove();
            Err(named(fault, folder, kept_name))
        }
    }
}

/// Writes the store of version 1 in a folder as one of version 2, with a name of random bytes, as [`put_upgrade`]
/// does. The old file is kept as `pushes.1` of the folder; one that is there is not written over. A store that
/// another process holds is refused, and so is a torn one. Of an `Err` the store is as it was, except where the new
/// file failed: then the old store is there, or the new one is.
pub fn upgrade_store<'a, R: Files<File = File>, A: Allocator + Copy>(
    files: &R,
    alloc: A,
    folder: &'a str,
) -> Result<(), ArchiveFault<'a>> {
    let store = NamedFile::Store(folder);
    let file = about_store(open_held(files, alloc, folder), store)?;
    let mut reader = about(first_reader(&file, alloc), store)?;
    let mut old = about(StoreLink::of(files, alloc, folder), store)?;
    let identity = about_store(new_identity(files), store)?;
    let new = match new_store(alloc, &mut StoreFolder::new(files, folder)) {
        Ok(file) => file,
        Err(fault) => return about_store(Err(fault), NamedFile::New(folder)),
    };
    let mut made = NewStore::of(new);
    match put_upgrade(alloc, &mut reader, identity, &mut old, &mut made) {
        Ok(()) => Ok(()),
        Err(fault) => {
            made.file().remove();
            Err(named(fault, folder, NamedFile::Old(folder)))
        }
    }
}

/// Where a log of the store in a folder that begins at that place begins to read, as [`checked_start`] says.
fn log_start<'a, R: Files<File = File>, A: Allocator + Copy>(
    files: &R,
    alloc: A,
    folder: &'a str,
    from: usize,
) -> Result<(StoreStart, BufReader<Measured<File>, A>), ArchiveFault<'a>>
    ensures head { IfOk result (λ found. IsHead found.0.head) }
    ensures mark { IfOk result (λ found. found.0.mark.place ≤ from) }
{
    match checked_start(files, alloc, folder, from) {
        Ok(found) => Ok(found),
        Err(fault) => Err(ArchiveFault {
            file: NamedFile::Store(folder),
            fault,
        }),
    }
}

/// The same outcome; a fault with the file that it is about.
fn about<'a, T>(outcome: Result<T, Fault>, file: NamedFile<'a>) -> Result<T, ArchiveFault<'a>> {
    match outcome {
        Ok(value) => Ok(value),
        Err(fault) => Err(ArchiveFault { file, fault }),
    }
}

/// The same of a store.
fn about_store<'a, T>(
    outcome: Result<T, StoreFault>,
    file: NamedFile<'a>,
) -> Result<T, ArchiveFault<'a>> {
    match outcome {
        Ok(value) => Ok(value),
        Err(fault) => Err(ArchiveFault {
            file,
            fault: fault_of_store(fault),
        }),
    }
}

/// A fault where bytes of a store were sent.
pub(crate) fn sending_fault(folder: &str, fault: Fault) -> ArchiveFault<'_> {
    let file = match fault {
        Fault::Unsent => NamedFile::Output,
        _ => NamedFile::Store(folder),
    };
    ArchiveFault { file, fault }
}

/// The file that a fault is about where bundles of a store were put on a shelf, the last at that place.
fn shelf_name<'a>(folder: &'a str, to: &'a str, place: usize, fault: Fault) -> NamedFile<'a> {
    match fault {
        Fault::Exists | Fault::Failed => NamedFile::Push(to, place),
        _ => NamedFile::Store(folder),
    }
}

/// A fault of a cut or an upgrade, with the file that it is about.
fn named<'a>(fault: CutFault, folder: &'a str, kept: NamedFile<'a>) -> ArchiveFault<'a> {
    match fault {
        CutFault::Store(fault) => ArchiveFault {
            file: NamedFile::Store(folder),
            fault,
        },
        CutFault::Tail(whole, fault) => ArchiveFault {
            file: NamedFile::Tail(folder, whole),
            fault,
        },
        CutFault::Kept(fault) => ArchiveFault { file: kept, fault },
        CutFault::New => ArchiveFault {
            file: NamedFile::New(folder),
            fault: Fault::Failed,
        },
    }
}

/// The name of the file of what a cut leaves out.
fn cut_name<A: Allocator>(alloc: A, at: usize) -> Result<String<A>, Fault> {
    Ok(format!(in alloc; "pushes.cut-{at}")?)
}
