//! `changegroup`: changesets that join the changelog.
//!
//! The payload is a changegroup of version 01 or 02 (Mercurial's `internals.bundle2`, "Bundle2 Part Types",
//! "changegroup"). Three parameters are known.
//!
//! | name | value |
//! |---|---|
//! | `version` | `01` or `02`; `01` where it is absent |
//! | `targetphase` | the phase that a seed registers at, `0`, `1` or `2`; draft where it is absent |
//! | `nbchanges` | not looked at |
//!
//! Its entries are added in order, and each new row is registered at the phase of its source: a push has
//! that of the server, public where it publishes and draft else. A push then advances all changesets of the
//! group to that phase, those that were known too. The reply `reply:changegroup` has in `return` one more
//! than the heads that came, or, where heads went, one less than their number below zero (Mercurial's
//! `internals.wireprotocol`, "Commands", "unbundle").

ghost use Rattle.std.specs.Prelude.{◌≡◌, ◌<◌, ◌^◌, ◌++◌, All, length, string_bytes, IfOk, IfSome, IsTrue, OnOk};
ghost use Rattle.std.specs.Option.{option_to_list};
ghost use Rattle.hg_log.specs.Answer.{answer_of};
ghost use Rattle.hg_log.specs.Parents.{rev_of};
ghost use Rattle.hg_log.specs.Rows.{AreLawful, HasNode};
ghost use Rattle.hg_phases.specs.Phases.{AreFor};
ghost use Rattle.hg_parts.specs.Handled.{Handles};
ghost use Rattle.hg_parts.specs.Replies.{IsReply};
ghost use Rattle.hg_parts.specs.Store.{repository_of, IsSound, IsGrown};
ghost use Rattle.hg_parts.specs.parts.Changegroup.{target_of, version_of, phase_for, grown_by, add_each};
ghost use Rattle.hg_parts.specs.parts.Changegroup.{revs_of, phases_after, result_text, reply_to_group};
ghost use Rattle.hg_parts.specs.parts.Changegroup.{read_changegroup, handle_group};
ghost use Rattle.hg_parts.specs.code.Changegroup.{grown_of, refusal_for, AddGives, AreOfSameIds, AreOthersSame};

use crate::params::value_of;
use crate::prepared::Reading;
use crate::refusal::Refusal;
use crate::replies::reply_part;
use crate::source::Source;
use crate::store::Store;
use crate::turn::Turn;
use hg_cgroup::{GroupFault, decode};
use hg_keys::phase_in_text;
use hg_log::{AddFault, Added, Changelog};
use hg_phases::Phases;
use hg_types::{BoxedSeq, Entry, NoMemory, Node, Param, Part, Phase, Settings};
use std::alloc::Allocator;

/// Reads the payload and the parameters. Faults of the format are another version, another `targetphase` and
/// a payload that is no changegroup.
pub fn read_changegroup<A: Allocator + Copy>(
    alloc: A,
    part: &Part<A>,
) -> Result<Reading<A>, NoMemory>
    ensures { IfOk result (λ reading. reading ≡ read_changegroup part.now) }
{
    let Some(target) = target_of(part.params.as_slice()) else {
        return Ok(Reading::Malformed);
    };
    let version = version_of(part.params.as_slice());
    match decode(alloc, version, &part.payload) {
        Ok(entries) => {
            let entries = BoxedSeq::new(alloc, entries)?;
            Ok(Reading::ChangeGroup { target, entries })
        }
        Err(GroupFault::NoMemory) => Err(NoMemory),
        Err(_) => Ok(Reading::Malformed),
    }
}

/// Adds the changesets that were read, and gives the reply. Refused is the first that the changelog doesn't
/// add (`BadChangeset`). The changelog may have taken their deltas over.
pub fn handle_group<A: Allocator + Copy>(
    alloc: A,
    store: &mut Store<A>,
    turn: Turn,
    part: &Part<A>,
    target: Phase,
    entries: &mut [Entry<A>],
) -> Result<Option<Part<A>>, Refusal<A>>
    requires { IsSound turn.settings store.old }
    ensures { Handles turn
        (handle_group turn.source (repository_of turn.settings store.old) turn.replying turn.place part.now
        target entries.old)
        store.old store.new result }
{
    let t = phase_for(turn.source, &turn.settings, target);
    let before = store.log.head_count();
    make_room(store, entries.len());
    match add_each(store, &turn.settings, t, entries) {
        Err(fault) => return Err(refusal_for(turn.place, fault)),
        Ok(()) => (),
    }
    advance_group(
        alloc,
        &store.log,
        &mut store.phases,
        turn.source,
        t,
        entries,
    )?;
    let reply = reply_to_group(
        alloc,
        turn.replying,
        part.id,
        before,
        store.log.head_count(),
    )?;
    Ok(reply)
}

/// Makes room in the changelog for so many changesets, where there are several.
fn make_room<A: Allocator + Copy>(store: &mut Store<A>, count: usize)
    ensures { store.new ≡ store.old }
{
    if count > 1 {
        store.log.reserve(count);
    }
}

/// The refusal of an entry that is not added.
fn refusal_for<A: Allocator>(place: u32, fault: AddFault) -> Refusal<A>
    ensures { result ≡ refusal_for place fault }
{
    match fault {
        AddFault::NoMemory => Refusal::NoMemory,
        fault => Refusal::BadChangeset { place, fault },
    }
}

/// Advances the changesets of a group that was pushed, those that were known too.
fn advance_group<A: Allocator + Copy>(
    alloc: A,
    log: &Changelog<A>,
    phases: &mut Phases<A>,
    source: Source,
    t: Phase,
    entries: &[Entry<A>],
) -> Result<(), NoMemory>
    requires fits { AreFor log.now.rows phases.old.current }
    requires count { length phases.old.current.phases ≡ length log.now.rows }
    ensures ok { OnOk result
        (phases.new.current.phases
        ≡ phases_after source t entries.now
        (record { rows = log.now.rows; phases = phases.old.current.phases })) }
    ensures fits { AreFor log.now.rows phases.new.current }
    ensures count { OnOk result (length phases.new.current.phases ≡ length log.now.rows) }
    ensures saved { phases.new.saved ≡ phases.old.saved }
{
    match source {
        Source::Seed => Ok(()),
        Source::Push => {
            let revs = revs_of(alloc, log, entries)?;
            phases.advance(alloc, log, t, revs.as_slice())?;
            Ok(())
        }
    }
}

/// Adds the entries in order, and registers each new row. Their ids stay as they were.
fn add_each<A: Allocator + Copy>(
    store: &mut Store<A>,
    settings: &Settings,
    t: Phase,
    entries: &mut [Entry<A>],
) -> Result<(), AddFault>
    requires { IsSound settings.now store.old }
    ensures grown { IsGrown store.old store.new }
    ensures sound { OnOk result (IsSound settings.now store.new) }
    ensures others { OnOk result (AreOthersSame store.old store.new) }
    ensures gives { AddGives
        (add_each settings.now.limits t entries.old (grown_of store.old)) (grown_of store.new) result }
    ensures ids { OnOk result (AreOfSameIds entries.old entries.new) }
{
    'entries: for number in 0..entries.len() {
        add_one(store, settings, t, &mut entries[number])?;
    }
    Ok(())
}

/// Adds one entry, and registers it where it is a new row.
fn add_one<A: Allocator + Copy>(
    store: &mut Store<A>,
    settings: &Settings,
    t: Phase,
    entry: &mut Entry<A>,
) -> Result<(), AddFault>
    requires { IsSound settings.now store.old }
    ensures grown { IsGrown store.old store.new }
    ensures sound { OnOk result (IsSound settings.now store.new) }
    ensures others { OnOk result (AreOthersSame store.old store.new) }
    ensures gives { AddGives
        (grown_by t store.old.phases.current.phases (answer_of store.old.log entry.old))
        (grown_of store.new) result }
    ensures id { entry.new.node ≡ entry.old.node }
{
    match store.log.add(entry) {
        Err(fault) => Err(fault),
        Ok(Added::Known) => Ok(()),
        Ok(Added::New(rev)) => {
            // for the proof: the rows are lawful with the new one too
            let _lawful = store.log.len();
            match store.phases.register(&store.log, rev, t) {
                Ok(()) => Ok(()),
                Err(NoMemory) => Err(AddFault::NoMemory),
            }
        }
    }
}

/// The numbers of the changesets of a group, which was added before: where all of it is new, its rows are the last.
#[tactic(auto, unfolding(crate::specs::parts::Changegroup::revs_of))]
fn revs_of<A: Allocator + Copy>(
    alloc: A,
    log: &Changelog<A>,
    entries: &[Entry<A>],
) -> Result<Vec<u32, A>, NoMemory>
    ensures revs { IfOk result (λ revs. revs.items ≡ revs_of log.now.rows entries.now) }
    ensures within { IfOk result (λ revs. All (λ rev. rev < length log.now.rows) revs.items) }
{
    let mut revs = Vec::new(alloc);
    revs.reserve(entries.len())?;
    let mut likely = log.len().saturating_sub(entries.len());
    for entry in entries {
        let rev = rev_of(log, &entry.node, likely);
        push_some(&mut revs, rev)?;
        likely = likely.saturating_add(1);
    }
    Ok(revs)
}

/// The number of a changeset, which is looked for at a likely one first: its id need not be hashed then.
fn rev_of<A: Allocator>(log: &Changelog<A>, node: &Node, likely: usize) -> Option<u32>
    ensures found { IfSome result (λ rev. HasNode log.now.rows rev node.now.0) }
    ensures value { result ≡ rev_of log.now.rows node.now.0 }
{
    if has_at(log, node, likely) {
        return Some(likely as u32);
    }
    log.rev(node)
}

/// Whether the changeset of that number is there and has that id.
fn has_at<A: Allocator>(log: &Changelog<A>, node: &Node, rev: usize) -> bool
    ensures has { IsTrue result → HasNode log.now.rows rev node.now.0 }
    ensures few { IsTrue result → rev < 2 ^ 32 }
    ensures lawful { AreLawful log.now.rows }
{
    rev < log.len() && log.node(rev as u32) == *node
}

/// Adds a number, where there is one.
pub fn push_some<A: Allocator>(
    numbers: &mut Vec<u32, A>,
    number: Option<u32>,
) -> Result<(), NoMemory>
    ensures { OnOk result (numbers.new.items ≡ numbers.old.items ++ option_to_list number) }
{
    if let Some(number) = number {
        numbers.push(number)?;
    }
    Ok(())
}

/// The phase that `targetphase` names.
#[tactic(auto, unfolding(crate::specs::parts::Changegroup::target_of))]
fn target_of<A: Allocator>(params: &[Param<A>]) -> Option<Phase>
    ensures { result ≡ target_of params.now }
{
    match value_of(params, b"targetphase") {
        None => Some(Phase::Draft),
        Some(value) => phase_in_text(value),
    }
}

/// The version of the changegroup.
#[tactic(auto, unfolding(crate::specs::parts::Changegroup::version_of))]
fn version_of<'p, A: Allocator>(params: &'p [Param<A>]) -> &'p [u8]
    ensures { result.now ≡ version_of params.now }
{
    match value_of(params, b"version") {
        Some(version) => version,
        None => b"01",
    }
}

/// The phase that new changesets are registered at.
fn phase_for(source: Source, settings: &Settings, target: Phase) -> Phase
    ensures { result ≡ phase_for source settings.now target }
{
    match source {
        Source::Push => {
            if settings.publishing {
                Phase::Public
            } else {
                Phase::Draft
            }
        }
        Source::Seed => target,
    }
}

/// What the reply says of the numbers of heads before and after.
#[tactic(auto, unfolding(crate::specs::parts::Changegroup::result_text))]
fn result_text<A: Allocator + Copy>(
    alloc: A,
    before: usize,
    after: usize,
) -> Result<String<A>, NoMemory>
    requires before { before < 2 ^ 32 }
    requires after { after < 2 ^ 32 }
    ensures { IfOk result (λ text. string_bytes text ≡ result_text before after) }
{
    let text = if before <= after {
        let more = after - before + 1;
        format!(in alloc; "{more}")?
    } else {
        let fewer = before - after + 1;
        format!(in alloc; "-{fewer}")?
    };
    Ok(text)
}

/// The reply, where the client reads one.
fn reply_to_group<A: Allocator + Copy>(
    alloc: A,
    replying: bool,
    id: u32,
    before: usize,
    after: usize,
) -> Result<Option<Part<A>>, NoMemory>
    requires before { before < 2 ^ 32 }
    requires after { after < 2 ^ 32 }
    ensures value { IfOk result (λ reply. reply ≡ reply_to_group replying id before after) }
    ensures reply { IfOk result (λ reply. IfSome reply IsReply) }
{
    if !replying {
        return Ok(None);
    }
    let text = result_text(alloc, before, after)?;
    let reply = reply_part(alloc, b"reply:changegroup", id, b"return", text.as_bytes())?;
    Ok(Some(reply))
}
