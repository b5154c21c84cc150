//! A store that another process holds, which is followed: its records are run as they come, and it is taken over where
//! nobody holds it any more.

ghost use Rattle.std.specs.Prelude.{◌≡◌, ◌⊎◌, ◌∷◌, ◌++◌, [], Bool, List, IfOk, IfSome, IsErrOf, Ok, None, OnOk};
ghost use Rattle.hg_recovery.specs.Opening.{IsOpened, StopsRead, head_of, setup_for};
ghost use Rattle.hg_recovery.specs.Standbys.{IsFollowed, IsOneMore, IsOpenedOn, IsTakenOver, WereRun};
ghost use Rattle.hg_recovery.specs.declared.opening.OpeningFault.TheVariants.{Restore as unrestored, Store as no_store};
ghost use Rattle.hg_recovery.specs.declared.restore.RestoreFault.{RestoreFault as AnyRestoreFault};
ghost use Rattle.hg_store.specs.Calls.{Event, was_held};
ghost use Rattle.hg_store.specs.Entries.{Entry as AnyEntry};
ghost use Rattle.hg_store.specs.Openings.{HasEnded, IsOfFolder, IsUnopened};
ghost use Rattle.hg_store.specs.Standbys.{IsAskedFor, LooksOnly};
ghost use Rattle.hg_store.specs.Tails.{IsKeptAtMost, LosesNothing, tails_in};
ghost use Rattle.hg_store.specs.declared.start.StoreFault.{StoreFault as AnyStoreFault};

use crate::opening::{OpeningFault, Recovered, empty_repository, setup_for};
use crate::running::run_next;
use hg_repo::Repo;
use hg_store::{
    Calls, Device, DeviceError, Hold, HostFile, Opened, Opening, StoreFault, StoreFile,
    StoreFolder, follow_store, hold_store,
};
use std::alloc::Global;
use std::fs::{File, Files};
use std::hash::RandomState;

/// A store that another process may hold, and the repository that its records lead to that were read so far.
#[derive(Drop)]
pub struct Standby {
    /// Whether its server publishes.
    pub publishing: bool,
    /// What was read of the store.
    pub opening: Opening<HostFile>,
    /// The repository that the records lead to.
    pub repo: Repo,
}

impl Standby {
    /// Begins to follow the store in a folder, of which nothing is run yet. It is neither held nor changed. Where there
    /// is none it is missing.
    pub fn begin<R: Files<File = File>>(
        alloc: Global,
        state: RandomState,
        folder: &mut StoreFolder<'_, R>,
        publishing: bool,
    ) -> Result<Standby, OpeningFault>
        ensures ok { IfOk result (λ standby. IsFollowed ⟦<HostFile as Calls>⟧.drawn publishing standby.opening
            standby.repo × (standby.publishing ≡ publishing)) }
        ensures none { IfOk result (λ standby. (standby.opening.records.entries ≡ [])
            × (⟦<HostFile as Calls>⟧.history standby.opening.calls ≡ [])) }
        ensures unrun { (fault : AnyRestoreFault) → IsErrOf result (unrestored fault) → ⊥ }
        ensures unopened { (fault : AnyStoreFault) → IsErrOf result (no_store fault) → IsOfFolder fault
            ⊎ ((read : HostFile) × (⟦<HostFile as Calls>⟧.history read ≡ [])
            × IsUnopened fault (setup_for publishing) (⟦<HostFile as Calls>⟧.drawn read) [] []) }
        ensures names { folder.new ≡ folder.old }
    {
        let setup = setup_for(publishing);
        let opening = follow_store(alloc, folder, &setup)?;
        let repo = empty_repository(alloc, state, &setup);
        Ok(Standby {
            publishing,
            opening,
            repo,
        })
    }

    /// Reads the next record and runs it, and says whether there is one. There may be one later. After an `Err` it is
    /// followed no more.
    pub fn follow(&mut self, alloc: Global) -> Result<bool, OpeningFault>
        requires { IsFollowed ⟦<HostFile as Calls>⟧.drawn self.old.publishing self.old.opening self.old.repo }
        ensures ok { OnOk result (IsFollowed ⟦<HostFile as Calls>⟧.drawn self.new.publishing self.new.opening
            self.new.repo) }
        ensures one { IfOk result (λ more. IsOneMore more self.old.opening.records.entries
            self.new.opening.records.entries) }
        ensures same { (self.new.publishing ≡ self.old.publishing)
            × (⟦<HostFile as Calls>⟧.history self.new.opening.calls
            ≡ ⟦<HostFile as Calls>⟧.history self.old.opening.calls) }
        ensures stops { (fault : AnyRestoreFault) → IsErrOf result (unrestored fault) →
            StopsRead Global self.old.publishing (⟦<HostFile as Calls>⟧.drawn self.new.opening.calls) fault }
        ensures unopened { (fault : AnyStoreFault) → IsErrOf result (no_store fault) →
            IsUnopened fault (setup_for self.old.publishing) (⟦<HostFile as Calls>⟧.drawn self.new.opening.calls)
            (⟦<HostFile as Calls>⟧.history self.old.opening.calls)
            (⟦<HostFile as Calls>⟧.history self.new.opening.calls) }
    {
        if run_next(alloc, &mut self.repo, &mut self.opening)? {
            return Ok(true);
        }
        match self.opening.go_back() {
            Ok(()) => Ok(false),
            Err(error) => Err(OpeningFault::Store(StoreFault::from(error))),
        }
    }

    /// Asks for the store, once.
    pub fn hold<R: Files<File = File>>(
        &mut self,
        alloc: Global,
        folder: &mut StoreFolder<'_, R>,
    ) -> Result<Hold, OpeningFault>
        requires { IsFollowed ⟦<HostFile as Calls>⟧.drawn self.old.publishing self.old.opening self.old.repo }
        ensures ok { IsFollowed ⟦<HostFile as Calls>⟧.drawn self.new.publishing self.new.opening self.new.repo }
        ensures same { (self.new.publishing ≡ self.old.publishing)
            × (self.new.opening.records ≡ self.old.opening.records) }
        ensures held { IfOk result (λ hold. IsAskedFor hold
            (⟦<HostFile as Calls>⟧.history self.old.opening.calls)
            (⟦<HostFile as Calls>⟧.history self.new.opening.calls)) }
        ensures unrun { (fault : AnyRestoreFault) → IsErrOf result (unrestored fault) → ⊥ }
        ensures unheld { (fault : AnyStoreFault) → IsErrOf result (no_store fault) → IsOfFolder fault }
        ensures names { folder.new ≡ folder.old }
    {
        match hold_store(alloc, folder, &mut self.opening) {
            Ok(hold) => Ok(hold),
            Err(fault) => Err(OpeningFault::Store(fault)),
        }
    }

    /// Opens the store, which is held now: where the records that were run stand there still, those behind them are read
    /// and run, and it is opened as a store is that was read from its front. Else nothing is done, and it has to be read
    /// from there.
    pub fn take_over<R: Files<File = File>>(
        self,
        alloc: Global,
        folder: &mut StoreFolder<'_, R>,
    ) -> Result<Option<Recovered<StoreFile<HostFile>>>, OpeningFault>
        requires followed { IsFollowed ⟦<HostFile as Calls>⟧.drawn self.publishing self.opening self.repo }
        requires held { ⟦<HostFile as Calls>⟧.history self.opening.calls ≡ was_held ∷ [] }
        ensures ok { IfOk result (λ taken. IfSome taken (λ recovered.
            IsOpened ⟦<StoreFile<HostFile> as Device>⟧.seen ⟦<StoreFile<HostFile> as Device>⟧.may_leave recovered
            × (recovered.publishing ≡ self.publishing))) }

        // What is served is what the bytes give that were found once it was held; and what had been run stands there
        // still.
        ensures found { IfOk result (λ taken. IfSome taken (λ recovered.
            IsTakenOver (head_of self.publishing recovered.identity) self.opening.records.entries
            recovered.records.entries folder.new
            (⟦<HostFile as Calls>⟧.history recovered.log.device.calls))) }
        ensures kept { IsKeptAtMost folder.old folder.new }
        ensures none { result ≡ Ok None → folder.new ≡ folder.old }
        ensures stops { (fault : AnyRestoreFault) → IsErrOf result (unrestored fault) → (read : HostFile)
            × LooksOnly (was_held ∷ []) (⟦<HostFile as Calls>⟧.history read)
            × (tails_in folder.new ≡ tails_in folder.old)
            × StopsRead Global self.publishing (⟦<HostFile as Calls>⟧.drawn read) fault }
        ensures unopened { (fault : AnyStoreFault) → IsErrOf result (no_store fault) → (read : HostFile)
            × (before : List Event) × LooksOnly (was_held ∷ []) before
            × IsUnopened fault (setup_for self.publishing) (⟦<HostFile as Calls>⟧.drawn read) before
            (⟦<HostFile as Calls>⟧.history read)
            × LosesNothing before (⟦<HostFile as Calls>⟧.history read) folder.new }
    {
        let mut standby = self;
        match standby.opening.still_stands() {
            Ok(true) => {}
            Ok(false) => return Ok(None),
            Err(error) => return Err(OpeningFault::Store(StoreFault::from(error))),
        }
        Ok(Some(open_followed(alloc, folder, standby)?))
    }
}

/// Opens a store the first records of which were run: those behind them are read and run too.
fn open_followed<R: Files<File = File>>(
    alloc: Global,
    folder: &mut StoreFolder<'_, R>,
    standby: Standby,
) -> Result<Recovered<StoreFile<HostFile>>, OpeningFault>
    requires { IsFollowed ⟦<HostFile as Calls>⟧.drawn standby.publishing standby.opening standby.repo }
    ensures ok { IfOk result (λ recovered. IsOpened ⟦<StoreFile<HostFile> as Device>⟧.seen
        ⟦<StoreFile<HostFile> as Device>⟧.may_leave recovered × (recovered.publishing ≡ standby.publishing)) }
    ensures found { IfOk result (λ recovered. IsOpenedOn (head_of standby.publishing recovered.identity)
        standby.opening.records.entries recovered.records.entries (⟦<HostFile as Calls>⟧.history standby.opening.calls)
        (⟦<HostFile as Calls>⟧.history recovered.log.device.calls) folder.new) }
    ensures name { IfOk result (λ recovered. recovered.identity ≡ standby.opening.identity) }
    ensures kept { IsKeptAtMost folder.old folder.new }
    ensures stops { (fault : AnyRestoreFault) → IsErrOf result (unrestored fault) → (read : HostFile)
        × (⟦<HostFile as Calls>⟧.history read ≡ ⟦<HostFile as Calls>⟧.history standby.opening.calls)
        × (tails_in folder.new ≡ tails_in folder.old)
        × StopsRead Global standby.publishing (⟦<HostFile as Calls>⟧.drawn read) fault }
    ensures unopened { (fault : AnyStoreFault) → IsErrOf result (no_store fault) → (read : HostFile)
        × IsUnopened fault (setup_for standby.publishing) (⟦<HostFile as Calls>⟧.drawn read)
        (⟦<HostFile as Calls>⟧.history standby.opening.calls) (⟦<HostFile as Calls>⟧.history read)
        × LosesNothing (⟦<HostFile as Calls>⟧.history standby.opening.calls) (⟦<HostFile as Calls>⟧.history read) folder.new }
{
    let mut standby = standby;
    run_rest(alloc, &mut standby.repo, &mut standby.opening)?;
    let Standby {
        publishing,
        opening,
        repo,
    } = standby;
    let opened = match opening.finish(alloc, folder) {
        Ok(opened) => opened,
        Err(left) => return Err(OpeningFault::Store(left.fault)),
    };
    let Opened {
        log,
        identity,
        stored,
        records,
    } = opened;
    Ok(Recovered {
        publishing,
        identity,
        repo,
        log,
        stored,
        records,
    })
}

/// Reads the records of a store that were not read yet, and runs each.
fn run_rest(
    alloc: Global,
    repo: &mut Repo,
    opening: &mut Opening<HostFile>,
) -> Result<(), OpeningFault>
    requires { (publishing : Bool) × IsFollowed ⟦<HostFile as Calls>⟧.drawn publishing opening.old repo.old }
    ensures ended { (publishing : Bool) → IsFollowed ⟦<HostFile as Calls>⟧.drawn publishing opening.old repo.old →
        OnOk result (HasEnded ⟦<HostFile as Calls>⟧.drawn (setup_for publishing) opening.new
        × WereRun publishing opening.new.records.entries repo.new) }
    ensures more { OnOk result ((more : List AnyEntry)
        × (opening.new.records.entries ≡ opening.old.records.entries ++ more)) }
    ensures same { (⟦<HostFile as Calls>⟧.history opening.new.calls ≡ ⟦<HostFile as Calls>⟧.history opening.old.calls)
        × (opening.new.identity ≡ opening.old.identity) }
    ensures stops { (publishing : Bool) → IsFollowed ⟦<HostFile as Calls>⟧.drawn publishing opening.old repo.old →
        (fault : AnyRestoreFault) → IsErrOf result (unrestored fault) →
        StopsRead Global publishing (⟦<HostFile as Calls>⟧.drawn opening.new.calls) fault }
    ensures unopened { (publishing : Bool) → IsFollowed ⟦<HostFile as Calls>⟧.drawn publishing opening.old repo.old →
        (fault : AnyStoreFault) → IsErrOf result (no_store fault) →
        IsUnopened fault (setup_for publishing) (⟦<HostFile as Calls>⟧.drawn opening.new.calls)
        (⟦<HostFile as Calls>⟧.history opening.old.calls) (⟦<HostFile as Calls>⟧.history opening.new.calls) }
{
    for _ in 0..usize::MAX {
        if !run_next(alloc, repo, opening)? {
            return Ok(());
        }
    }
    Err(OpeningFault::Store(StoreFault::from(DeviceError::Failed)))
}
