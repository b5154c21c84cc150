//! A store that is followed: the frame of each push is written once it is durable.

ghost use Rattle.std.specs.Prelude.{◌≡◌, ◌+◌, ◌++◌, [], ℕ, List, IfErr, IfOk, OnErr, OnOk, length};
ghost use Rattle.hg_store.specs.Entries.{Entry as AnyEntry};
ghost use Rattle.hg_store_tools.specs.Trails.{EndsSync, EndsTrail, Follows, HasFollowed, SendsFrame, SendsFrames};
ghost use Rattle.hg_store_tools.specs.Trails.{SendsNoFrame, StopsFollowing, StopsSending, with_next};

use crate::bundles::Logging;
use crate::fault::Fault;
use crate::form::in_form;
use crate::frame::send_frame;
use hg_connection::Writer;
use hg_store::Entry;
use std::alloc::Allocator;

/// How many records are found before a sync at most.
const MOST: usize = 1_024;

/// How many bytes of bundles they have beyond which no more are found before a sync.
const ENOUGH: usize = 4_194_304;

/// A store that grows while it is read, as the one that follows it sees it.
pub trait StoreTrail<A: Allocator> {
    /// The records that were found in it, in their order, each behind an open gate.
    ghost found: { Self → List AnyEntry };

    /// The place of the first of them.
    ghost first: { Self → ℕ };

    /// Those of them that are durable: they were found before a sync that answered Ok.
    ghost durable: { Self → List AnyEntry };

    /// The record after those that were found; none where its gate is not open yet.
    fn find(&mut self) -> Result<Option<Entry<A>>, Fault>
        ensures found { IfOk result (λ next. found self.new ≡ with_next (found self.old) next) }
        ensures none { OnErr result (found self.new ≡ found self.old) }
        ensures durable { durable self.new ≡ durable self.old }
        ensures first { first self.new ≡ first self.old }
        ensures why { IfErr result (λ fault. EndsTrail fault (first self.old + length (found self.old))) };

    /// Brings the file to the device, whoever wrote it.
    fn sync(&mut self) -> Result<(), Fault>
        ensures durable { OnOk result (durable self.new ≡ found self.old) }
        ensures not { OnErr result (durable self.new ≡ durable self.old) }
        ensures found { found self.new ≡ found self.old }
        ensures first { first self.new ≡ first self.old }
        ensures why { IfErr result EndsSync };
}

/// Records that were found.
#[derive(Drop)]
struct MoreRecords<A: Allocator> {
    records: Vec<Entry<A>, A>,
    /// Whether it was not seen that no other stands behind them.
    may_go_on: bool,
}

/// Finds more records: so many that it is worth a sync, or those that are there. One that cannot be read is an `Err`
/// where none was found before it.
fn find_more<T: StoreTrail<A>, A: Allocator + Copy>(
    alloc: A,
    trail: &mut T,
) -> Result<MoreRecords<A>, Fault>
    ensures found { IfOk result (λ more. T.found trail.new ≡ T.found trail.old ++ more.records.items) }
    ensures some { (more : List AnyEntry) × (T.found trail.new ≡ T.found trail.old ++ more) }
    ensures durable { T.durable trail.new ≡ T.durable trail.old }
    ensures first { T.first trail.new ≡ T.first trail.old }
    ensures why { IfErr result (λ fault. EndsTrail fault (T.first trail.old + length (T.found trail.old))) }
{
    let mut records = Vec::new(alloc);
    let mut size = 0usize;
    let mut may_go_on = true;
    'finding: for _ in 0..MOST {
        if size > ENOUGH {
            break 'finding;
        }
        match trail.find() {
            Ok(Some(entry)) => {
                size = size.saturating_add(entry.bundle().len());
                if records.push(entry).is_err() {
                    return Err(Fault::NoMemory);
                }
            }
            Ok(None) => {
                may_go_on = false;
                break 'finding;
            }
            Err(fault) => {
                if records.is_empty() {
                    return Err(fault);
                }
                break 'finding;
            }
        }
    }
    Ok(MoreRecords { records, may_go_on })
}

/// Writes the frame of the record at a place, unless it stands before those that are asked for.
fn write_frame<W: Writer, A: Allocator + Copy>(
    log: &Logging<A>,
    place: usize,
    entry: &Entry<A>,
    writer: &mut W,
) -> Result<(), Fault>
    ensures ok { OnOk result (SendsFrame A log.now place entry.now (W.told writer.old).taken (W.told writer.new).taken) }
    ensures err { IfErr result (λ fault. SendsNoFrame A log.now place entry.now fault
        (W.told writer.old).taken (W.told writer.new).taken) }
{
    if place < log.from {
        return Ok(());
    }
    match in_form(log.alloc, log.limits, log.form, place, entry.bundle()) {
        Ok(bundle) => send_frame(log.alloc, place, entry.stamp(), bundle.bytes(), writer),
        Err(fault) => Err(fault),
    }
}

/// Writes the frames of records, the first of which is at this place, one after the other, and gives the place after
/// them.
fn write_frames<W: Writer, A: Allocator + Copy>(
    log: &Logging<A>,
    place: usize,
    records: &[Entry<A>],
    writer: &mut W,
) -> Result<usize, Fault>
    ensures ok { IfOk result (λ next. SendsFrames A log.now place records.now next
        (W.told writer.old).taken (W.told writer.new).taken) }
    ensures err { IfErr result (λ fault. StopsSending A log.now place records.now fault
        (W.told writer.old).taken (W.told writer.new).taken) }
{
    let mut next = place;
    for entry in records {
        match write_frame(log, next, entry, writer) {
            Ok(()) => {}
            Err(fault) => return Err(fault),
        }
        if next == usize::MAX {
            return Err(Fault::Failed);
        }
        next += 1;
    }
    Ok(next)
}

/// What came of a look at a store that is followed.
#[derive(Clone, Copy)]
pub(crate) struct Look {
    /// The place behind the records that were found.
    pub next: usize,
    /// Whether it was not seen that no other stands behind them.
    pub may_go_on: bool,
}

/// Writes the frames of all records that are found behind those that were found so far, of which there are so many:
/// they are found, then the file is synced, and then the frames are written. Gives how many there are now; where none
/// was found, as many as before.
pub(crate) fn follow_on<T: StoreTrail<A>, W: Writer, A: Allocator + Copy>(
    trail: &mut T,
    log: &Logging<A>,
    place: usize,
    writer: &mut W,
) -> Result<Look, Fault>
    requires { place ≡ T.first trail.old + length (T.found trail.old) }
    ensures first { T.first trail.new ≡ T.first trail.old }
    ensures ok { IfOk result (λ look. Follows A log.now (T.first trail.old) look.next (T.found trail.old) (T.durable trail.old)
        (T.found trail.new) (T.durable trail.new) (W.told writer.old).taken (W.told writer.new).taken) }
    ensures err { IfErr result (λ fault. StopsFollowing A log.now (T.first trail.old) fault (T.found trail.old) (T.durable trail.old)
        (T.found trail.new) (T.durable trail.new) (W.told writer.old).taken (W.told writer.new).taken) }
{
    let more = match find_more(log.alloc, trail) {
        Ok(more) => more,
        Err(fault) => return Err(fault),
    };
    if more.records.is_empty() {
        return Ok(Look {
            next: place,
            may_go_on: false,
        });
    }
    match trail.sync() {
        Ok(()) => {}
        Err(fault) => return Err(fault),
    }
    match write_frames(log, place, more.records.as_slice(), writer) {
        Ok(next) => Ok(Look {
            next,
            may_go_on: more.may_go_on,
        }),
        Err(fault) => Err(fault),
    }
}

/// What the one that follows a store does where no record is there.
pub trait Pause {
    /// Looks whether the store is to be followed on. At a `true` it first waits, where all was found that was there.
    fn goes_on(&mut self, is_idle: bool) -> bool;
}

/// Why a store is followed no more.
#[derive(Clone, Copy, Debug, PartialEq, Eq)]
pub enum FollowEnd {
    /// It is not to be followed on.
    Left,
    /// No more can be read, or written.
    Stopped(Fault),
}

/// Follows a store in which nothing was found yet, until that is not to go on, or cannot: it writes the frames of its
/// records, the first of which is at this place, each once they are durable.
pub(crate) fn follow<T: StoreTrail<A>, W: Writer, P: Pause, A: Allocator + Copy>(
    trail: &mut T,
    log: &Logging<A>,
    first: usize,
    writer: &mut W,
    pause: &mut P,
) -> FollowEnd
    requires first { T.first trail.old ≡ first }
    requires found { T.found trail.old ≡ [] }
    requires durable { T.durable trail.old ≡ [] }
    ensures { HasFollowed A log.now first result (T.found trail.new) (T.durable trail.new)
        (W.told writer.old).taken (W.told writer.new).taken }
{
    let mut place = first;
    let mut is_idle = false;
    'following: for _ in 0..u64::MAX {
        if !pause.goes_on(is_idle) {
            return FollowEnd::Left;
        }
        match follow_on(trail, log, place, writer) {
            Ok(look) => {
                is_idle = !look.may_go_on;
                place = look.next;
            }
            Err(fault) => return FollowEnd::Stopped(fault),
        }
    }
    FollowEnd::Stopped(Fault::Failed)
}
