//! A standby: it follows the store that another server has, and takes it over once that is gone.

ghost use Rattle.std.specs.Prelude.{◌≡◌, ◌∷◌, [], IfOk, OnOk};
ghost use Rattle.hg_recovery.specs.Opening.{IsOpened};
ghost use Rattle.hg_recovery.specs.Standbys.{IsFollowed};
ghost use Rattle.hg_store.specs.Calls.{was_held};

use crate::host::{bind, not_bound, open, printed, serve_opened};
use crate::opened::{not_opened, tell_kept};
use hg_commands::Hosting;
use hg_host::{HostingRuntime, answer_as_standby};
use hg_recovery::{OpeningFault, Recovered, Standby};
use hg_store::{Calls, Device, Hold, HostFile, StoreFault, StoreFile, StoreFolder};
use std::fs::{File, Files};
use std::hash::RandomState;
use std::io;
use std::net::TcpListener;
use std::time::{Duration, Instant};

/// The store is asked for once in so many milliseconds.
const TURN: u64 = 1_000;

/// For so many milliseconds of a turn records are run, where there are so many.
const RUNNING: u64 = 500;

/// A store that could not be followed is left alone for so many turns at most, before it is read again from its front.
const LONGEST: u64 = 256;

/// Why a store is followed no more, and not taken over.
#[derive(Clone, Copy, Debug, PartialEq, Eq)]
enum Left {
    /// It is another one than was followed, or was not taken over as it was.
    Other,
    /// It cannot be followed now, and was for so many turns.
    Unread(u64),
    /// The program ends, with this status, which was printed.
    Ended(u8),
}

/// Why a turn is not spent.
#[derive(Drop)]
enum Stop {
    /// The store cannot be followed.
    Store(OpeningFault),
    /// The listener or the clock failed.
    System(io::Error),
}

/// Binds the address, and follows the store until no other process has it. Who connects meanwhile is told so. Then it
/// is served.
pub fn stand_by<R: Files<File = File> + AllocGlobal + HostingRuntime>(
    rt: &R,
    hosting: &Hosting<'_>,
) -> u8 {
    let (listener, address) = match bind(rt, hosting.listen) {
        Ok(bound) => bound,
        Err(error) => return not_bound(rt, hosting.listen, &error),
    };
    let _ = eprintln!(rt; "hg_pushd: standby on http://{address}/");
    let mut resting = 0u64;
    let mut pause = 1u64;
    'asking: for _ in rt.forever() {
        let Ok(state) = RandomState::new(rt) else {
            return printed(rt, 3);
        };
        match open(rt, state, hosting) {
            Err(OpeningFault::Store(StoreFault::Held)) => {}
            Err(fault) => return not_opened(rt, hosting.store, &fault),
            Ok(recovered) => return serve_opened(rt, hosting, &listener, address, recovered),
        }
        if resting > 0 {
            resting -= 1;
            if let Err(error) = answer_as_standby(rt, &listener, Duration::from_millis(TURN)) {
                return not_bound(rt, hosting.listen, &error);
            }
            continue;
        }
        match follow(rt, hosting, &listener) {
            Ok(recovered) => return serve_opened(rt, hosting, &listener, address, recovered),
            Err(Left::Other) => {}
            Err(Left::Unread(turns)) => {
                resting = pause_after(turns, pause);
                pause = LONGEST.min(resting.saturating_mul(2));
            }
            Err(Left::Ended(status)) => return status,
        }
    }
    unreachable!()
}

/// For how many turns a store is left alone that was followed for so many, where it would be for that long: one that was
/// followed for long is read again soon.
fn pause_after(turns: u64, pause: u64) -> u64 {
    if turns >= LONGEST { 1 } else { pause }
}

/// Follows the store, and asks for it once in a turn, until it is taken over.
fn follow<R: Files<File = File> + AllocGlobal + HostingRuntime>(
    rt: &R,
    hosting: &Hosting<'_>,
    listener: &TcpListener,
) -> Result<Recovered<StoreFile<HostFile>>, Left>
    ensures { IfOk result (λ recovered. IsOpened ⟦<StoreFile<HostFile> as Device>⟧.seen
        ⟦<StoreFile<HostFile> as Device>⟧.may_leave recovered) }
{
    let Ok(state) = RandomState::new(rt) else {
        return Err(Left::Ended(printed(rt, 3)));
    };
    let mut folder = StoreFolder::new(rt, hosting.store);
    let mut standby = match Standby::begin(rt.alloc(), state, &mut folder, hosting.publishing) {
        Ok(standby) => standby,
        Err(OpeningFault::Store(StoreFault::Missing)) => return Err(Left::Unread(0)),
        Err(fault) => return Err(Left::Ended(not_opened(rt, hosting.store, &fault))),
    };
    for turns in 0..u64::MAX {
        if let Err(stop) = spend_turn(rt, listener, &mut standby) {
            return Err(stopped(rt, hosting, &stop, turns));
        }
        match standby.hold(rt.alloc(), &mut folder) {
            Ok(Hold::Waits) => {}
            Ok(Hold::Gone) => return Err(other(rt, hosting)),
            Ok(Hold::Held) => return take_over(rt, hosting, &mut folder, standby),
            Err(fault) => return Err(not_held(rt, hosting, &fault)),
        }
    }
    Err(Left::Unread(u64::MAX))
}

/// Opens the store that was followed and is held now.
fn take_over<R: Files<File = File> + AllocGlobal + HostingRuntime>(
    rt: &R,
    hosting: &Hosting<'_>,
    folder: &mut StoreFolder<'_, R>,
    standby: Standby,
) -> Result<Recovered<StoreFile<HostFile>>, Left>
    requires followed { IsFollowed ⟦<HostFile as Calls>⟧.drawn standby.publishing standby.opening standby.repo }
    requires held { ⟦<HostFile as Calls>⟧.history standby.opening.calls ≡ was_held ∷ [] }
    ensures { IfOk result (λ recovered. IsOpened ⟦<StoreFile<HostFile> as Device>⟧.seen
        ⟦<StoreFile<HostFile> as Device>⟧.may_leave recovered) }
{
    let has_run = standby.opening.stored > 0;
    let taken = standby.take_over(rt.alloc(), folder);
    tell_kept(rt, hosting.store, folder.kept());
    match taken {
        Ok(Some(recovered)) => Ok(recovered),
        Ok(None) if has_run => Err(other(rt, hosting)),
        Ok(None) => Err(Left::Other),
        Err(fault) => Err(Left::Ended(not_opened(rt, hosting.store, &fault))),
    }
}

/// Prints that another store is there than was followed.
fn other<R: Eprint>(rt: &R, hosting: &Hosting<'_>) -> Left {
    let store = hosting.store;
    let _ = eprintln!(rt;
        "hg_pushd: {store}/pushes: not as it was followed, and read from its front"
    );
    Left::Other
}

/// Runs the records that came, for a while at most, and answers who connects for the rest of a turn.
fn spend_turn<R: AllocGlobal + HostingRuntime>(
    rt: &R,
    listener: &TcpListener,
    standby: &mut Standby,
) -> Result<(), Stop>
    requires { IsFollowed ⟦<HostFile as Calls>⟧.drawn standby.old.publishing standby.old.opening standby.old.repo }
    ensures followed { OnOk result (IsFollowed ⟦<HostFile as Calls>⟧.drawn standby.new.publishing
        standby.new.opening standby.new.repo) }
    ensures same { OnOk result (⟦<HostFile as Calls>⟧.history standby.new.opening.calls
        ≡ ⟦<HostFile as Calls>⟧.history standby.old.opening.calls) }
{
    let start = match Instant::now(rt) {
        Ok(start) => start,
        Err(error) => return Err(Stop::System(error)),
    };
    let spent = run_for_a_while(rt, start, standby)?;
    let left = Duration::from_millis(TURN).saturating_sub(spent);
    match answer_as_standby(rt, listener, left) {
        Ok(()) => Ok(()),
        Err(error) => Err(Stop::System(error)),
    }
}

/// Runs the records that came, for a while at most, and gives how much of the turn is spent.
fn run_for_a_while<R: AllocGlobal + HostingRuntime>(
    rt: &R,
    start: Instant,
    standby: &mut Standby,
) -> Result<Duration, Stop>
    requires { IsFollowed ⟦<HostFile as Calls>⟧.drawn standby.old.publishing standby.old.opening standby.old.repo }
    ensures followed { OnOk result (IsFollowed ⟦<HostFile as Calls>⟧.drawn standby.new.publishing
        standby.new.opening standby.new.repo) }
    ensures same { OnOk result (⟦<HostFile as Calls>⟧.history standby.new.opening.calls
        ≡ ⟦<HostFile as Calls>⟧.history standby.old.opening.calls) }
{
    let most = Duration::from_millis(RUNNING);
    for _ in 0..u64::MAX {
        let spent = match start.elapsed(rt) {
            Ok(spent) => spent,
            Err(error) => return Err(Stop::System(error)),
        };
        if spent >= most {
            return Ok(most);
        }
        match standby.follow(rt.alloc()) {
            Ok(true) => {}
            Ok(false) => return Ok(spent),
            Err(fault) => return Err(Stop::Store(fault)),
        }
    }
    Ok(most)
}

/// What comes of a store that was asked for in vain: it is opened from its front, if it can be.
fn not_held<R: Eprint>(rt: &R, hosting: &Hosting<'_>, fault: &OpeningFault) -> Left {
    let store = hosting.store;
    let _ = eprintln!(rt; "hg_pushd: {store}/pushes: not taken over as it was followed: {fault}");
    Left::Other
}

/// What comes of a turn that was not spent, after so many.
fn stopped<R: Eprint>(rt: &R, hosting: &Hosting<'_>, stop: &Stop, turns: u64) -> Left {
    match stop {
        Stop::System(error) => Left::Ended(not_bound(rt, hosting.listen, error)),
        Stop::Store(fault) => unread(rt, hosting, fault, turns),
    }
}

/// What comes of a store that was followed for so many turns, and is not followed on: the program ends where memory was
/// refused.
fn unread<R: Eprint>(rt: &R, hosting: &Hosting<'_>, fault: &OpeningFault, turns: u64) -> Left {
    if fault.status() == 4 {
        return Left::Ended(not_opened(rt, hosting.store, fault));
    }
    let store = hosting.store;
    let _ = eprintln!(rt; "hg_pushd: {store}/pushes: not followed now: {fault}");
    Left::Unread(turns)
}
