//! `obsmarkers`: obsolescence markers that join those that are there.
//!
//! The payload is marker data of version 0 (Mercurial's `internals.bundle2`, "Bundle2 Part Types",
//! "obsmarkers"); what is none is a fault of format. Each marker that is not there yet is added, in order.
//! The reply `reply:obsmarkers` has in `new` how many these are.

ghost use Rattle.std.specs.Prelude.{◌≡◌, IfOk, IfSome};
ghost use Rattle.hg_parts.specs.Handled.{Handles};
ghost use Rattle.hg_parts.specs.Replies.{reply_where, IsReply};
ghost use Rattle.hg_parts.specs.Store.{repository_of, IsSound};
ghost use Rattle.hg_parts.specs.parts.Obsmarkers.{reply_to_markers, read_obsmarkers, handle_markers};

use crate::copies::clone_of;
use crate::prepared::Reading;
use crate::refusal::Refusal;
use crate::replies::reply_part;
use crate::store::Store;
use crate::turn::Turn;
use hg_obs::{Marker, MarkerFault, markers_stay_lawful, read_markers};
use hg_types::{BoxedSeq, NoMemory, Part, TryClone};
use std::alloc::{Allocator, Global};
use std::marker::Model;

/// Markers that marker data may have, which contracts see as their list.
#[derive(Drop)]
pub struct MarkerData<A: Allocator = Global> {
    list: BoxedSeq<Marker<A>, A>,
}

impl<A: Allocator> Model for MarkerData<A> {
    ghost use Rattle.std.specs.Prelude.{List};
    ghost use Rattle.std.specs.List.{AllByRecursion};
    ghost use Rattle.hg_obs.specs.declared.marker.Marker.{Marker as MarkerValue};
    ghost use Rattle.hg_obs.specs.Marker.{IsMarker};

    ghost Value = { List (MarkerValue A) };

    ghost view = { λ m. m.list };

    ghost invariant = { λ m. AllByRecursion IsMarker m.list };
}

impl<A: Allocator + Copy> TryClone<A> for MarkerData<A> {
    fn try_clone(&self, alloc: A) -> Result<Self, NoMemory> {
        let list = clone_of(alloc, &self.list)?;
        Ok(MarkerData { list })
    }
}

/// Reads the payload. One that is no marker data is a fault of the format.
pub fn read_obsmarkers<A: Allocator + Copy>(
    alloc: A,
    part: &Part<A>,
) -> Result<Reading<A>, NoMemory>
    ensures { IfOk result (λ reading. reading ≡ read_obsmarkers part.now) }
{
    match read_markers(alloc, part.payload.as_slice()) {
        Ok(list) => {
            let list = BoxedSeq::new(alloc, list)?;
            Ok(Reading::Obsmarkers(MarkerData { list }))
        }
        Err(MarkerFault::NoMemory) => Err(NoMemory),
        Err(
            MarkerFault::BadVersion
            | MarkerFault::Short
            | MarkerFault::BadMetadata
            | MarkerFault::NullSuccessor,
        ) => Ok(Reading::Malformed),
    }
}

/// Merges the markers that were read, and gives the reply.
pub fn handle_markers<A: Allocator + Copy>(
    alloc: A,
    store: &mut Store<A>,
    turn: Turn,
    part: &Part<A>,
    markers: MarkerData<A>,
) -> Result<Option<Part<A>>, Refusal<A>>
    requires { IsSound turn.settings store.old }
    ensures { Handles turn
        (handle_markers (repository_of turn.settings store.old) turn.replying turn.place part.now markers)
        store.old store.new result }
{
    markers_stay_lawful::<A>();
    let MarkerData { list } = markers;
    let count = store.markers.merge(list.into_seq())?;
    let reply = reply_to_markers(alloc, turn.replying, part.id, count)?;
    Ok(reply)
}

/// The reply, where the client reads one.
fn reply_to_markers<A: Allocator + Copy>(
    alloc: A,
    replying: bool,
    id: u32,
    count: u64,
) -> Result<Option<Part<A>>, NoMemory>
    ensures value { IfOk result (λ reply. reply ≡ reply_where replying (reply_to_markers id count)) }
    ensures reply { IfOk result (λ reply. IfSome reply IsReply) }
{
    if !replying {
        return Ok(None);
    }
    let text = format!(in alloc; "{count}")?;
    let reply = reply_part(alloc, b"reply:obsmarkers", id, b"new", text.as_bytes())?;
    Ok(Some(reply))
}
