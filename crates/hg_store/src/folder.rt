//! A store in its folder: a file `pushes`, and `pushes.new` while that is made. No link is followed to either.

ghost use Rattle.std.specs.Prelude.{◌≡◌, ◌⊎◌, [], ◌∷◌, IfErr, IfOk, MatchResult, length};
ghost use Rattle.hg_store.specs.Calls.{renewed};
ghost use Rattle.hg_store.specs.Folders.{IsMadeAtMost, IsMissedFor};
ghost use Rattle.hg_store.specs.Openings.{HasRead, IsOfFolder, IsUnopened};
ghost use Rattle.hg_store.specs.Standbys.{IsAskedFor};
ghost use Rattle.hg_store.specs.declared.head.Setup.{Setup as AnySetup};

use crate::calls::Calls;
use crate::device::DeviceError;
use crate::front::Opening;
use crate::head::{Head, Setup};
use crate::history::Call;
use crate::host::{Hold, HostFile, device_error};
use crate::names::StoreFolder;
use crate::place::create_file;
use crate::placed::{Access, PlacedFile, hold, open_plain, path_in, sync_folder};
use crate::start::StoreFault;
use std::alloc::Allocator;
use std::fs::{File, Files};
use std::io::Read;
use std::{fs, io};

/// The name of the file.
const NAME: &str = "pushes";

/// Where the system gives random bytes.
const RANDOM: &str = "/dev/urandom";

/// Its name while it is made.
const NEW_NAME: &str = "pushes.new";

/// Makes a store with no record, and with a name of random bytes, in a folder, which is made if it is not there. Where a
/// store is there it is refused, and nothing is changed.
pub fn create_store<R: Files<File = File>, A: Allocator + Copy>(
    alloc: A,
    folder: &mut StoreFolder<'_, R>,
    setup: &Setup,
) -> Result<(), StoreFault>
    ensures err { IfErr result IsOfFolder }
    ensures names { IsMadeAtMost folder.old folder.new }
{
    make_folder(folder.files(), alloc, folder.path())?;
    let head = setup.head(new_identity(folder.files())?);
    let mut new = new_store(alloc, folder)?;
    let result = create_in(folder.files(), alloc, &mut new, &head);
    if result.is_err() {
        new.remove();
    }
    result
}

fn create_in<R: Files<File = File>, A: Allocator + Copy>(
    files: &R,
    alloc: A,
    new: &mut PlacedFile<'_, R, A>,
    head: &Head,
) -> Result<(), StoreFault>
    requires { new.old.host.history.events ≡ [] }
    ensures { IfErr result IsOfFolder }
{
    match fs::exists(files, new.name()) {
        Ok(false) => create_file(alloc, new, head),
        Ok(true) => Err(StoreFault::Exists),
        Err(error) => Err(store_fault(error)),
    }
}

/// Random bytes of the system, as the name of a store.
pub fn new_identity<R: Files<File = File>>(files: &R) -> Result<[u8; 16], StoreFault>
    ensures size { IfOk result (λ identity. length identity ≡ 16) }
    ensures err { IfErr result IsOfFolder }
{
    match random_bytes(files) {
        Ok(identity) => Ok(identity),
        Err(error) => Err(store_fault(error)),
    }
}

/// Begins to read the store in a folder, and holds it against other processes until it is dropped. The folder is synced,
/// since whoever gave the file its name may have ended before that; where this fails the store is not opened.
pub fn begin_store<R: Files<File = File>, A: Allocator + Copy>(
    alloc: A,
    folder: &mut StoreFolder<'_, R>,
    setup: &Setup,
) -> Result<Opening<HostFile, A>, StoreFault>
    ensures read { IfOk result (HasRead ⟦<HostFile as Calls>⟧.drawn setup.now []) }
    ensures none { IfOk result (λ opening. (opening.records.entries ≡ [])
        × (⟦<HostFile as Calls>⟧.history opening.calls ≡ [])) }
    ensures err { IfErr result (λ fault. IsOfFolder fault ⊎ ((read : HostFile)
        × (⟦<HostFile as Calls>⟧.history read ≡ [])
        × IsUnopened fault setup.now (⟦<HostFile as Calls>⟧.drawn read) [] (⟦<HostFile as Calls>⟧.history read))) }
    ensures names { MatchResult result (λ _. folder.new ≡ folder.old)
        (λ fault. IsMissedFor fault folder.old folder.new) }
{
    let file = find(alloc, folder)?;
    sync_names(folder.files(), alloc, folder.path())?;
    match Opening::begin(alloc, HostFile::new(file), setup) {
        Ok(opening) => Ok(opening),
        Err(left) => Err(left.fault),
    }
}

fn random_bytes<R: Files<File = File>>(files: &R) -> io::Result<[u8; 16]>
    ensures { IfOk result (λ bytes. length bytes ≡ 16) }
{
    let mut bytes = [0; 16];
    File::open(files, RANDOM)?.read_exact(&mut bytes)?;
    Ok(bytes)
}

/// Begins to read the store in a folder, which another process may hold, and does not hold it. Nothing is synced.
pub fn follow_store<R: Files<File = File>, A: Allocator + Copy>(
    alloc: A,
    folder: &mut StoreFolder<'_, R>,
    setup: &Setup,
) -> Result<Opening<HostFile, A>, StoreFault>
    ensures read { IfOk result (HasRead ⟦<HostFile as Calls>⟧.drawn setup.now []) }
    ensures none { IfOk result (λ opening. (opening.records.entries ≡ [])
        × (⟦<HostFile as Calls>⟧.history opening.calls ≡ [])) }
    ensures err { IfErr result (λ fault. IsOfFolder fault ⊎ ((read : HostFile)
        × (⟦<HostFile as Calls>⟧.history read ≡ [])
        × IsUnopened fault setup.now (⟦<HostFile as Calls>⟧.drawn read) [] (⟦<HostFile as Calls>⟧.history read))) }
    ensures names { folder.new ≡ folder.old }
{
    let file = open_unheld(folder.files(), alloc, folder.path())?;
    match Opening::begin(alloc, HostFile::followed(file), setup) {
        Ok(opening) => Ok(opening),
        Err(left) => Err(left.fault),
    }
}

/// Asks for a store that is followed, and holds it against other processes where it is the file of its name still, and
/// has all that was read of it. Its folder is synced then, as where a store is begun.
pub fn hold_store<R: Files<File = File>, A: Allocator + Copy>(
    alloc: A,
    folder: &mut StoreFolder<'_, R>,
    opening: &mut Opening<HostFile, A>,
) -> Result<Hold, StoreFault>
    ensures read { (setup : AnySetup) → HasRead ⟦<HostFile as Calls>⟧.drawn setup [] opening.old →
        HasRead ⟦<HostFile as Calls>⟧.drawn setup [] opening.new }
    ensures records { (opening.new.records ≡ opening.old.records)
        × (opening.new.identity ≡ opening.old.identity) }
    ensures held { IfOk result (λ hold. IsAskedFor hold (⟦<HostFile as Calls>⟧.history opening.old.calls)
        (⟦<HostFile as Calls>⟧.history opening.new.calls)) }
    ensures err { IfErr result IsOfFolder }
    ensures names { folder.new ≡ folder.old }
{
    let name = path_in(alloc, folder.path(), NAME)?;
    let hold = match opening.calls.hold(folder.files(), name.as_str()) {
        Ok(hold) => hold,
        Err(error) => return Err(store_fault(error)),
    };
    if hold == Hold::Held {
        sync_names(folder.files(), alloc, folder.path())?;
    }
    Ok(hold)
}

/// The file of the store, which is held. Where there is none, that is noted.
fn find<R: Files<File = File>, A: Allocator + Copy>(
    alloc: A,
    folder: &mut StoreFolder<'_, R>,
) -> Result<File, StoreFault>
    ensures err { IfErr result IsOfFolder }
    ensures names { MatchResult result (λ _. folder.new ≡ folder.old)
        (λ fault. IsMissedFor fault folder.old folder.new) }
{
    match open_held(folder.files(), alloc, folder.path()) {
        Ok(file) => Ok(file),
        Err(StoreFault::Missing) => {
            folder.note(&Call::Missed);
            Err(StoreFault::Missing)
        }
        Err(fault) => Err(fault),
    }
}

/// The file of the store in a folder, to be read, also while another process holds it. Nothing is changed, and nothing
/// is held.
pub fn store_file<R: Files<File = File>, A: Allocator + Copy>(
    files: &R,
    alloc: A,
    folder: &str,
) -> Result<File, StoreFault>
    ensures { IfErr result IsOfFolder }
{
    let name = path_in(alloc, folder, NAME)?;
    match open_plain(files, Access::Read, name.as_str()) {
        Ok(Some(file)) => Ok(file),
        Ok(None) => Err(StoreFault::Linked),
        Err(error) => Err(store_fault(error)),
    }
}

/// Makes the folder and syncs the one that has it, unless it is there.
pub fn make_folder<R: Files<File = File>, A: Allocator + Copy>(
    files: &R,
    alloc: A,
    folder: &str,
) -> Result<(), StoreFault>
    ensures { IfErr result IsOfFolder }
{
    match fs::create_dir(files, folder) {
        Ok(()) => {
            let above = path_in(alloc, folder, "..")?;
            sync_folder(files, above.as_str()).map_err(store_fault)
        }
        Err(error) if error.kind() == io::ErrorKind::AlreadyExists => Ok(()),
        Err(error) => Err(store_fault(error)),
    }
}

/// The error of the system as a fault of a store.
fn store_fault(error: io::Error) -> StoreFault
    ensures { IsOfFolder result }
{
    match error.kind() {
        io::ErrorKind::NotFound => StoreFault::Missing,
        _ => StoreFault::from(device_error(error)),
    }
}

/// Syncs a folder, and the one that has it where that can be opened and synced.
fn sync_names<R: Files<File = File>, A: Allocator + Copy>(
    files: &R,
    alloc: A,
    folder: &str,
) -> Result<(), DeviceError> {
    let above = path_in(alloc, folder, "..")?;
    let _above = sync_folder(files, above.as_str());
    sync_folder(files, folder).map_err(device_error)
}

/// Opens the file of the store in a folder for reading and writing, and does not hold it.
fn open_unheld<R: Files<File = File>, A: Allocator + Copy>(
    files: &R,
    alloc: A,
    folder: &str,
) -> Result<File, StoreFault>
    ensures { IfErr result IsOfFolder }
{
    let name = path_in(alloc, folder, NAME)?;
    match open_plain(files, Access::Change, name.as_str()) {
        Ok(Some(file)) => Ok(file),
        Ok(None) => Err(StoreFault::Linked),
        Err(error) => Err(store_fault(error)),
    }
}

/// Opens the file of the store in a folder for reading and writing, and holds it.
pub fn open_held<R: Files<File = File>, A: Allocator + Copy>(
    files: &R,
    alloc: A,
    folder: &str,
) -> Result<File, StoreFault>
    ensures { IfErr result IsOfFolder }
{
    let name = path_in(alloc, folder, NAME)?;
    let name = name.as_str();
    match open_plain(files, Access::Change, name) {
        Ok(Some(file)) => held(files, file, name),
        Ok(None) => Err(StoreFault::Linked),
        Err(error) => Err(store_fault(error)),
    }
}

/// The file, once it is held.
fn held<R: Files<File = File>>(files: &R, file: File, name: &str) -> Result<File, StoreFault>
    ensures { IfErr result IsOfFolder }
{
    match hold(files, &file, name) {
        Ok(true) => Ok(file),
        Ok(false) => Err(StoreFault::Held),
        Err(error) => Err(store_fault(error)),
    }
}

/// The file of a new store in a folder, which is held, and takes the place of one that is there.
pub fn new_store<'a, R: Files<File = File>, A: Allocator + Copy>(
    alloc: A,
    folder: &mut StoreFolder<'a, R>,
) -> Result<PlacedFile<'a, R, A>, StoreFault>
    ensures ok { IfOk result (λ new. ⟦<PlacedFile<'a, R, A> as Calls>⟧.history new ≡ []) }
    ensures err { IfErr result IsOfFolder }
    ensures names { folder.new ≡ renewed ∷ folder.old }
{
    folder.note(&Call::Renewed);
    let beside = path_in(alloc, folder.path(), NEW_NAME)?;
    let name = path_in(alloc, folder.path(), NAME)?;
    placed_file(folder.files(), folder.path(), beside, name, true)
}

/// A new file of a folder that is kept beside the store, which is held. One of its name is not written over.
pub fn kept_file<'a, R: Files<File = File>, A: Allocator + Copy>(
    files: &'a R,
    alloc: A,
    folder: &'a str,
    name: &str,
) -> Result<PlacedFile<'a, R, A>, StoreFault>
    ensures ok { IfOk result (λ new. ⟦<PlacedFile<'a, R, A> as Calls>⟧.history new ≡ []) }
    ensures err { IfErr result IsOfFolder }
{
    let name = path_in(alloc, folder, name)?;
    match fs::exists(files, name.as_str()) {
        Ok(false) => {}
        Ok(true) => return Err(StoreFault::Exists),
        Err(error) => return Err(store_fault(error)),
    }
    let mut beside = String::from_str(alloc, name.as_str())?;
    beside.push_str(".new")?;
    placed_file(files, folder, beside, name, false)
}

/// A file beside its place, which is held.
fn placed_file<'a, R: Files<File = File>, A: Allocator + Copy>(
    files: &'a R,
    folder: &'a str,
    beside: String<A>,
    name: String<A>,
    replaces: bool,
) -> Result<PlacedFile<'a, R, A>, StoreFault>
    ensures ok { IfOk result (λ new. ⟦<PlacedFile<'a, R, A> as Calls>⟧.history new ≡ []) }
    ensures err { IfErr result IsOfFolder }
{
    match PlacedFile::make(files, folder, beside, name, replaces) {
        Ok(Some(new)) => Ok(new),
        Ok(None) => Err(StoreFault::Held),
        Err(error) => Err(store_fault(error)),
    }
}
