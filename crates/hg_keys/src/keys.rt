//! Pushkey: a key of a namespace is set to a new value.

ghost use Rattle.std.specs.Prelude.{◌≡◌, ◌⊎◌, ◌≤◌, length, false, Ok, Err, IfOk, IfErr, OnErr, MatchResult};
ghost use Rattle.std.specs.Prelude.{take};
ghost use Rattle.hg_phases.specs.Phases.{AreFor};
ghost use Rattle.hg_obs.specs.Markers.{AreLawful};
ghost use Rattle.hg_keys.specs.declared.fault.KeyFault.TheVariants.{NoMemory as Refused};
ghost use Rattle.hg_keys.specs.Known.{AreOnKnown};
ghost use Rattle.hg_keys.specs.PushKey.{bookmark_pushed, is_settable as settable_test, key_pushed};
ghost use Rattle.hg_keys.specs.PushKey.{markers_pushed, moved_from, phase_pushed};

use crate::bookmarks::Bookmarks;
use crate::fault::KeyFault;
use crate::key_text::{
    are_same, is_divergent, is_known_target, is_value, node_in_hex, phase_in_text, target_in_text,
};
use crate::known::phase_of_node;
use hg_log::Changelog;
use hg_obs::{Markers, base85_decode, markers_stay_lawful, read_markers};
use hg_phases::Phases;
use hg_types::{NoMemory, Node, Phase, Seq};
use std::alloc::{Allocator, Global};

/// A call of pushkey, as the parameters of its part are: the namespace, the key, the value that the client
/// thinks it has, and the value that it is to have. All are bytes.
#[derive(Drop)]
pub struct KeyCall<A: Allocator = Global> {
    pub namespace: Seq<u8, A>,
    pub key: Seq<u8, A>,
    pub old: Seq<u8, A>,
    pub new: Seq<u8, A>,
}

/// Sets a key of a namespace to a new value, and says whether it took effect, as the head of this crate
/// reports it.
///
/// In the namespace `obsolete`, text that is not base-85 (`BadBase85`) and bytes that are no marker data
/// (`BadMarkers`) are refused. Nothing is changed after a fault, nor where the answer is false.
#[tactic(auto, unfolding(crate::specs::PushKey::key_pushed))]
pub fn push_key<A: Allocator + Copy>(
    alloc: A,
    log: &Changelog<A>,
    phases: &mut Phases<A>,
    markers: &mut Markers<A>,
    bookmarks: &mut Bookmarks<A>,
    call: &KeyCall<A>,
) -> Result<bool, KeyFault>
    requires fits { AreFor log.now.rows phases.old.current }
    requires count { length phases.old.current.phases ≡ length log.now.rows }
    ensures done { IfOk result (λ done. key_pushed log.now.rows (record {
      phases = phases.old.current.phases;
      markers = markers.old;
      bookmarks = bookmarks.old.current;
    }) call.now
        ≡ Ok (
          record {
            phases = phases.new.current.phases;
            markers = markers.new;
            bookmarks = bookmarks.new.current;
          },
          done,
        )) }
    ensures fault { IfErr result (λ fault. (fault ≡ Refused) ⊎ (key_pushed log.now.rows (record {
      phases = phases.old.current.phases;
      markers = markers.old;
      bookmarks = bookmarks.old.current;
    }) call.now ≡ Err fault)) }
    ensures phases { MatchResult result (λ done. done ≡ false →
        phases.new ≡ phases.old) (λ fault. phases.new ≡ phases.old) }
    ensures markers { MatchResult result (λ done. done ≡ false →
        markers.new ≡ markers.old) (λ fault. markers.new ≡ markers.old) }
    ensures bookmarks { MatchResult result (λ done. done ≡ false →
        bookmarks.new ≡ bookmarks.old) (λ fault. bookmarks.new ≡ bookmarks.old) }
    ensures fits { AreFor log.now.rows phases.new.current }
    ensures count { length phases.new.current.phases ≡ length log.now.rows }
    ensures phases_saved { phases.new.saved ≡ phases.old.saved }
    ensures bookmarks_saved { bookmarks.new.saved ≡ bookmarks.old.saved }
    // Lawful markers stay so, and bookmarks on known changesets. Markers come at the end.
    ensures lawful { AreLawful markers.old → AreLawful markers.new }
    ensures within { length markers.old ≤ length markers.new }
    ensures front { take (length markers.old) markers.new ≡ markers.old }
    ensures known { AreOnKnown log.now.rows bookmarks.old.current →
        AreOnKnown log.now.rows bookmarks.new.current }
{
    let namespace = call.namespace.as_slice();
    let (key, old, new) = (
        call.key.as_slice(),
        call.old.as_slice(),
        call.new.as_slice(),
    );
    if namespace == b"phases".as_slice() {
        let done = push_phase(alloc, log, phases, key, old, new)?;
        return Ok(done);
    }
    if namespace == b"bookmarks".as_slice() {
        let done = push_bookmark(alloc, log, bookmarks, key, old, new)?;
        return Ok(done);
    }
    if namespace == b"obsolete".as_slice() {
        let done = push_markers(alloc, markers, key, old, new)?;
        return Ok(done);
    }
    Ok(false)
}

/// Moves a changeset to a lower phase.
fn push_phase<A: Allocator + Copy>(
    alloc: A,
    log: &Changelog<A>,
    phases: &mut Phases<A>,
    key: &[u8],
    old: &[u8],
    new: &[u8],
) -> Result<bool, NoMemory>
    requires fits { AreFor log.now.rows phases.old.current }
    requires count { length phases.old.current.phases ≡ length log.now.rows }
    ensures done { IfOk result
        (λ done. phase_pushed log.now.rows phases.old.current.phases key.now old.now new.now
        ≡ (phases.new.current.phases, done)) }
    ensures stays { IfOk result (λ done. done ≡ false → phases.new ≡ phases.old) }
    ensures err { OnErr result (phases.new ≡ phases.old) }
    ensures fits { AreFor log.now.rows phases.new.current }
    ensures count { length phases.new.current.phases ≡ length log.now.rows }
    ensures saved { phases.new.saved ≡ phases.old.saved }
{
    let Some(node) = node_in_hex(key) else {
        return Ok(false)
    };
    let Some(old) = phase_in_text(old) else {
        return Ok(false)
    };
    let Some(new) = phase_in_text(new) else {
        return Ok(false)
    };
    let Some(current) = phase_of_node(log, phases, &node) else {
        return Ok(false)
    };
    move_from(alloc, log, phases, &node, old, new, current)
}

/// Moves a changeset to a phase, where that is below the present one, which is as the client thinks.
fn move_from<A: Allocator + Copy>(
    alloc: A,
    log: &Changelog<A>,
    phases: &mut Phases<A>,
    node: &Node,
    old: Phase,
    new: Phase,
    current: Phase,
) -> Result<bool, NoMemory>
    requires fits { AreFor log.now.rows phases.old.current }
    requires count { length phases.old.current.phases ≡ length log.now.rows }
    ensures done { IfOk result
        (λ done. moved_from log.now.rows phases.old.current.phases node.now old new current
        ≡ (phases.new.current.phases, done)) }
    ensures stays { IfOk result (λ done. done ≡ false → phases.new ≡ phases.old) }
    ensures err { OnErr result (phases.new ≡ phases.old) }
    ensures fits { AreFor log.now.rows phases.new.current }
    ensures count { length phases.new.current.phases ≡ length log.now.rows }
    ensures saved { phases.new.saved ≡ phases.old.saved }
{
    if current.number() == old.number() && new.number() < old.number() {
        match log.rev(node) {
            Some(rev) => phases.advance(alloc, log, new, &[rev])?,
            None => phases.advance(alloc, log, new, &[])?,
        }
        return Ok(true);
    }
    Ok(current.number() == new.number())
}

/// Sets a bookmark, or deletes it.
fn push_bookmark<A: Allocator + Copy>(
    alloc: A,
    log: &Changelog<A>,
    bookmarks: &mut Bookmarks<A>,
    key: &[u8],
    old: &[u8],
    new: &[u8],
) -> Result<bool, NoMemory>
    ensures done { IfOk result
        (λ done. bookmark_pushed log.now.rows bookmarks.old.current key.now old.now new.now
        ≡ (bookmarks.new.current, done)) }
    ensures stays { IfOk result (λ done. done ≡ false → bookmarks.new ≡ bookmarks.old) }
    ensures err { OnErr result (bookmarks.new ≡ bookmarks.old) }
    ensures saved { bookmarks.new.saved ≡ bookmarks.old.saved }
    ensures known { AreOnKnown log.now.rows bookmarks.old.current →
        AreOnKnown log.now.rows bookmarks.new.current }
{
    if is_divergent(key) {
        return Ok(false);
    }
    let Some(target) = target_in_text(new) else {
        return Ok(false)
    };
    if !is_settable(log, bookmarks.get(key), old, target) {
        return Ok(false);
    }
    bookmarks.set(alloc, key, target)?;
    Ok(true)
}

/// Whether a bookmark is as the client thinks, or as it wants it, and what it wants is known.
fn is_settable<A: Allocator>(
    log: &Changelog<A>,
    present: Option<Node>,
    old: &[u8],
    target: Option<Node>,
) -> bool
    ensures { result ≡ settable_test log.now.rows present old.now target }
{
    (is_value(old, present) || are_same(present, target)) && is_known_target(log, target)
}

/// Merges a dump of markers.
fn push_markers<A: Allocator + Copy>(
    alloc: A,
    markers: &mut Markers<A>,
    key: &[u8],
    old: &[u8],
    new: &[u8],
) -> Result<bool, KeyFault>
    ensures done { IfOk result (λ done. markers_pushed markers.old key.now old.now new.now
        ≡ Ok (markers.new, done)) }
    ensures fault { IfErr result (λ fault. (fault ≡ Refused)
        ⊎ (markers_pushed markers.old key.now old.now new.now ≡ Err fault)) }
    ensures stays { IfOk result (λ done. done ≡ false → markers.new ≡ markers.old) }
    ensures err { OnErr result (markers.new ≡ markers.old) }
    ensures lawful { AreLawful markers.old → AreLawful markers.new }
    ensures within { length markers.old ≤ length markers.new }
    ensures front { take (length markers.old) markers.new ≡ markers.old }
{
    if !key.starts_with(b"dump".as_slice()) || !old.is_empty() {
        return Ok(false);
    }
    let bytes = base85_decode(alloc, new)?;
    let added = read_markers(alloc, bytes.as_slice())?;
    // markers that were read, merged into lawful ones, leave lawful ones
    markers_stay_lawful::<A>();
    markers.merge(added)?;
    Ok(true)
}
