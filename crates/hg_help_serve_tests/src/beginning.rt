//! How a server over a store begins, and begins again.

ghost use Rattle.std.specs.Prelude.{[], IfSome};
ghost use Rattle.hg_types.specs.Limits.{IsAllowed};
ghost use Rattle.hg_store.specs.Log.{IsSettled};
ghost use Rattle.hg_help_serve_tests.specs.Beginning.{first_head};

use hg_help_store_tests::device::Memory;
use hg_help_store_tests::drawer::Drawer;
use hg_recovery::replay_records;
use hg_repo::Repo;
use hg_serve::Closed;
use hg_store::{Device, Head, Log, recover};
use hg_types::{Limits, Settings};
use std::alloc::Global;
use std::hash::RandomState;
use std::random::RandomSource;

pub fn settings() -> Settings
    ensures { IsAllowed result.limits }
{
    Settings {
        publishing: false,
        limits: Limits::standard(),
        first_push: 0,
    }
}

/// A log without records, on a device that fails after so many calls. `None` where it fails before that.
pub fn new_log(alloc: Global, calls: usize) -> Option<Log<Memory>>
    ensures { IfSome result (λ log.
        IsSettled ⟦<Memory as Device>⟧.seen ⟦<Memory as Device>⟧.may_leave first_head [] log) }
{
    let head = Head {
        publishing: false,
        limits: Limits::standard(),
        identity: Some(*b"a store of tests"),
    };
    let mut file = Vec::new(alloc);
    head.put(&mut file).ok()?;
    let mut device = Memory::new(alloc, &file, calls).ok()?;
    let found = recover(alloc, &mut device, &mut Drawer::new(alloc)).ok()?;
    if found.head != head || !found.records.is_empty() {
        return None;
    }
    let end = found.end;
    let digest = found.digest;
    drop(found);
    Some(Log {
        device,
        end,
        digest,
    })
}

/// Starts again from what a crash leaves of a device. As many pushes as are known to be kept are there, and they are
/// the first of the journal, in its order. Each brought one marker. Gives how many are there, and `None` where it is
/// not so.
pub fn starts_again<R: RandomSource>(
    rt: &R,
    alloc: Global,
    device: &Memory,
    part: usize,
    closed: &Closed,
    kept: usize,
) -> Option<usize> {
    let file = device.crashed(part).ok()?;
    let mut device = Memory::new(alloc, &file, 9).ok()?;
    let found = recover(alloc, &mut device, &mut Drawer::new(alloc)).ok()?;
    let mut repo = Repo::new(alloc, settings(), RandomState::new(rt).ok()?);
    replay_records(alloc, &mut repo, found.records.as_slice()).ok()?;
    let count = found.records.len();
    let (markers, all) = (repo.markers(), closed.repo.markers());
    let mut is_front = kept <= count && count <= all.len() && markers.len() == count;
    for (again, first) in markers.iter().zip(all) {
        is_front = is_front && again.predecessor == first.predecessor;
    }
    if is_front { Some(count) } else { None }
}
