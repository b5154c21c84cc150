//! A store that is opened, and the repository that its records lead to.

ghost use Rattle.std.specs.Prelude.{◌≡◌, ◌⊎◌, [], IfErr, IfOk, IsErrOf, MatchResult, OnOk};
ghost use Rattle.hg_recovery.specs.declared.restore.RestoreFault.{RestoreFault as AnyRestoreFault};
ghost use Rattle.hg_store.specs.Openings.{HasEnded, HasRead, IsFound, IsOfFolder, IsUnopened};
ghost use Rattle.hg_store.specs.Tails.{LosesNothing, tails_in};
ghost use Rattle.hg_store.specs.declared.start.StoreFault.{StoreFault as AnyStoreFault};
ghost use Rattle.hg_recovery.specs.Faults.{status_of, whole_before_torn};
ghost use Rattle.hg_recovery.specs.Opening.{empty_repository, head_of, setup_for, AreNamesIf, IsBegunIf, IsOpened};
ghost use Rattle.hg_recovery.specs.Opening.{IsRecovered, StopsRead};
ghost use Rattle.hg_types.specs.Limits.{IsAllowed};
ghost use Rattle.hg_recovery.specs.declared.opening.OpeningFault.TheVariants.{Restore as unrestored, Store as no_store};

use crate::restore::RestoreFault;
use crate::running::run_next;
use hg_repo::Repo;
use hg_store::{
    Calls, Device, DeviceError, HostFile, Log, NotedRecords, Opened, Opening, ReadFault,
    RecoverFault, Setup, StoreFault, StoreFile, StoreFolder, TailFault, begin_store, create_store,
};
use hg_types::{Limits, Settings};
use std::alloc::{Allocator, Global};
use std::fs::{File, Files};
use std::hash::RandomState;
use thiserror::Error;

/// Why a store is not opened. A place counts from 0.
#[derive(Clone, Copy, Debug, PartialEq, Eq, Error)]
pub enum OpeningFault {
    /// The file is not opened: it is no store, or damaged, torn, held, or set up in another way.
    #[error("{0}")]
    Store(StoreFault),
    /// A record is not run again.
    #[error("damage: {0}")]
    Restore(RestoreFault),
}

impl OpeningFault {
    /// The status of the program: 4 where memory was refused, and else 3.
    pub fn status(&self) -> u8
        ensures { result ≡ status_of self.now }
    {
        match self {
            OpeningFault::Restore(RestoreFault::NoMemory) => 4,
            OpeningFault::Store(StoreFault::Recover(RecoverFault::Device(DeviceError::Memory))) =>
                4,
            OpeningFault::Store(StoreFault::Recover(RecoverFault::Read(ReadFault::NoMemory))) => 4,
            OpeningFault::Store(StoreFault::Recover(RecoverFault::Tail(TailFault::NoMemory))) => 4,
            _ => 3,
        }
    }

    /// How many pushes are whole, where the store is torn after them.
    pub fn whole_before_torn(&self) -> Option<usize>
        ensures { result ≡ whole_before_torn self.now }
    {
        match self {
            OpeningFault::Store(StoreFault::Recover(RecoverFault::Torn(whole))) => Some(*whole),
            _ => None,
        }
    }
}

impl From<StoreFault> for OpeningFault {
    ghost from_gives = { λ fault told. told ≡ no_store fault };

    fn from(fault: StoreFault) -> Self {
        OpeningFault::Store(fault)
    }
}

impl From<RestoreFault> for OpeningFault {
    ghost from_gives = { λ fault told. told ≡ unrestored fault };

    fn from(fault: RestoreFault) -> Self {
        OpeningFault::Restore(fault)
    }
}

/// A store that is open for more records, and the repository that its records lead to.
#[derive(Drop)]
pub struct Recovered<D: Device> {
    /// Whether its server publishes.
    pub publishing: bool,
    /// The name of the store.
    pub identity: [u8; 16],
    /// The repository that its records lead to.
    pub repo: Repo,
    /// The store, which is open for more records.
    pub log: Log<D>,
    /// How many records the store has.
    pub stored: usize,
    /// Its records, which only contracts see.
    pub records: NotedRecords,
}

/// What is done where a folder has no store.
#[derive(Clone, Copy, Debug, PartialEq, Eq)]
pub enum IfMissing {
    /// One is made.
    Create,
    /// That is refused, and none is made.
    Refuse,
}

/// Opens the store in a folder: its records are read and run, one by one, on the empty repository, in memory for one of
/// them. Where there is none it is made, or missing. It is held against other processes. A store that is refused is as
/// it was, also where one of its records is not run. What one had after its last whole record is kept in a file beside
/// it before it is cut off, unless each byte of it is 0.
pub fn recover_store<R: Files<File = File>>(
    alloc: Global,
    state: RandomState,
    folder: &mut StoreFolder<'_, R>,
    publishing: bool,
    if_missing: IfMissing,
) -> Result<Recovered<StoreFile<HostFile>>, OpeningFault>
    ensures ok { IfOk result (λ recovered. IsOpened ⟦<StoreFile<HostFile> as Device>⟧.seen
        ⟦<StoreFile<HostFile> as Device>⟧.may_leave recovered × (recovered.publishing ≡ publishing)) }

    // What is served is what the bytes give that were found: they stand for its records, and so does what a crash
    // leaves at any moment since they were read.
    ensures found { IfOk result (λ recovered. IsFound (head_of publishing recovered.identity)
        recovered.records.entries [] (⟦<HostFile as Calls>⟧.history recovered.log.device.calls)) }

    // No byte of the file is lost: what it had after its last whole record is only zeros, or was kept in the folder
    // before it was cut off.
    ensures tail { IfOk result (λ recovered. LosesNothing [] (⟦<HostFile as Calls>⟧.history recovered.log.device.calls)
        folder.new) }

    // No new store takes the place of one that is there; and where that is refused, none is made.
    ensures names { AreNamesIf if_missing folder.old folder.new }

    // A record that is not run is found before anything is changed and before a tail is kept.
    ensures stops { (fault : AnyRestoreFault) → IsErrOf result (unrestored fault) → (read : HostFile)
        × (⟦<HostFile as Calls>⟧.history read ≡ []) × (tails_in folder.new ≡ tails_in folder.old)
        × StopsRead Global publishing (⟦<HostFile as Calls>⟧.drawn read) fault }
    ensures unopened { (fault : AnyStoreFault) → IsErrOf result (no_store fault) → IsOfFolder fault
        ⊎ ((read : HostFile) × IsUnopened fault (setup_for publishing) (⟦<HostFile as Calls>⟧.drawn read) []
        (⟦<HostFile as Calls>⟧.history read)
        × LosesNothing [] (⟦<HostFile as Calls>⟧.history read) folder.new) }
{
    let mut opening = begin_in(alloc, folder, &setup_for(publishing), if_missing)?;
    let repo = run_records(alloc, state, publishing, &mut opening)?;
    let opened = match opening.finish(alloc, folder) {
        Ok(opened) => opened,
        Err(left) => return Err(OpeningFault::Store(left.fault)),
    };
    let Opened {
        log,
        identity,
        stored,
        records,
    } = opened;
    Ok(Recovered {
        publishing,
        identity,
        repo,
        log,
        stored,
        records,
    })
}

/// How a server is set up that publishes, or does not.
pub(crate) fn setup_for(publishing: bool) -> Setup
    ensures { result ≡ setup_for publishing }
{
    Setup {
        publishing,
        limits: Limits::standard(),
    }
}

/// The repository without changesets, of a server that is set up in this way.
pub fn empty_repository<A: Allocator + Copy>(alloc: A, state: RandomState, setup: &Setup) -> Repo<A>
    requires { IsAllowed setup.now.limits }
    ensures { result ≡ empty_repository setup.now }
{
    Repo::new(
        alloc,
        Settings {
            publishing: setup.publishing,
            limits: setup.limits,
            first_push: 0,
        },
        state,
    )
}

/// Begins to read the store of a folder. Where there is none it is made, or missing.
fn begin_in<R: Files<File = File>>(
    alloc: Global,
    folder: &mut StoreFolder<'_, R>,
    setup: &Setup,
    if_missing: IfMissing,
) -> Result<Opening<HostFile>, StoreFault>
    ensures read { IfOk result (HasRead ⟦<HostFile as Calls>⟧.drawn setup.now []) }
    ensures none { IfOk result (λ opening. (opening.records.entries ≡ [])
        × (⟦<HostFile as Calls>⟧.history opening.calls ≡ [])) }
    ensures err { IfErr result (λ fault. IsOfFolder fault ⊎ ((read : HostFile)
        × (⟦<HostFile as Calls>⟧.history read ≡ [])
        × IsUnopened fault setup.now (⟦<HostFile as Calls>⟧.drawn read) [] (⟦<HostFile as Calls>⟧.history read))) }
    ensures kept { tails_in folder.new ≡ tails_in folder.old }
    ensures names { MatchResult result (λ _. IsBegunIf if_missing folder.old folder.new)
        (λ _. AreNamesIf if_missing folder.old folder.new) }
{
    match if_missing {
        IfMissing::Create => begin_or_create(alloc, folder, setup),
        IfMissing::Refuse => begin_store(alloc, folder, setup),
    }
}

/// Begins to read the store, which is made first where there is none.
fn begin_or_create<R: Files<File = File>>(
    alloc: Global,
    folder: &mut StoreFolder<'_, R>,
    setup: &Setup,
) -> Result<Opening<HostFile>, StoreFault>
    ensures read { IfOk result (HasRead ⟦<HostFile as Calls>⟧.drawn setup.now []) }
    ensures none { IfOk result (λ opening. (opening.records.entries ≡ [])
        × (⟦<HostFile as Calls>⟧.history opening.calls ≡ [])) }
    ensures err { IfErr result (λ fault. IsOfFolder fault ⊎ ((read : HostFile)
        × (⟦<HostFile as Calls>⟧.history read ≡ [])
        × IsUnopened fault setup.now (⟦<HostFile as Calls>⟧.drawn read) [] (⟦<HostFile as Calls>⟧.history read))) }
    ensures kept { tails_in folder.new ≡ tails_in folder.old }
    ensures names { MatchResult result (λ _. IsBegunIf IfMissing.Create folder.old folder.new)
        (λ _. AreNamesIf IfMissing.Create folder.old folder.new) }
{
    match begin_store(alloc, folder, setup) {
        Err(StoreFault::Missing) => {
            create_store(alloc, folder, setup)?;
            begin_store(alloc, folder, setup)
        }
        begun => begun,
    }
}

/// Reads the records of a store, and runs each on the empty repository as it comes. An `Err` says why one of them is
/// not read or not run.
fn run_records(
    alloc: Global,
    state: RandomState,
    publishing: bool,
    opening: &mut Opening<HostFile>,
) -> Result<Repo, OpeningFault>
    requires read { HasRead ⟦<HostFile as Calls>⟧.drawn (setup_for publishing) [] opening.old }
    requires none { opening.old.records.entries ≡ [] }
    ensures ended { OnOk result (HasEnded ⟦<HostFile as Calls>⟧.drawn (setup_for publishing) opening.new) }
    ensures ran { IfOk result (λ repo. IsRecovered publishing (head_of publishing opening.new.identity)
        opening.new.records.entries repo) }
    ensures stops { (fault : AnyRestoreFault) → IsErrOf result (unrestored fault) →
        StopsRead Global publishing (⟦<HostFile as Calls>⟧.drawn opening.new.calls) fault }
    ensures unopened { (fault : AnyStoreFault) → IsErrOf result (no_store fault) →
        IsUnopened fault (setup_for publishing) (⟦<HostFile as Calls>⟧.drawn opening.new.calls)
        (⟦<HostFile as Calls>⟧.history opening.old.calls) (⟦<HostFile as Calls>⟧.history opening.new.calls) }
    ensures same { ⟦<HostFile as Calls>⟧.history opening.new.calls ≡ ⟦<HostFile as Calls>⟧.history opening.old.calls }
{
    let mut repo = empty_repository(alloc, state, &setup_for(publishing));
    for _ in 0..usize::MAX {
        if !run_next(alloc, &mut repo, opening)? {
            return Ok(repo);
        }
    }
    Err(OpeningFault::Store(StoreFault::from(DeviceError::Failed)))
}
