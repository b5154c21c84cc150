//! The line of a push, and that of a request that was refused before one was opened.

ghost use Rattle.std.specs.Prelude.{◌≡◌, ◌++◌, codes, IfOk, OnOk, string_bytes};
ghost use Rattle.hg_status.specs.Line.{cost_text, outcome_text, reason_text, refused_text, waits_text};
ghost use Rattle.hg_status.specs.Line.{IsDismissalLine, IsLine};
ghost use Rattle.hg_status.specs.Page.{day_text, time_text};

use crate::date::{Date, date_of, push_day, push_time};
use crate::dismissed::name;
use crate::numbers::push_millis;
use crate::push::{AbortReason, Push, ShownOutcome};
use hg_queries::Dismissal;
use hg_types::{NoMemory, Seq};
use std::alloc::Allocator;

/// The line of a push: when it was answered, its place or the reason, its changesets, its bytes, and the
/// milliseconds that it held the lock and waited for the disk. A line feed ends it.
pub fn log_line<A: Allocator + Copy>(alloc: A, push: &Push) -> Result<Seq<u8, A>, NoMemory>
    ensures { IfOk result (λ line. IsLine push.now line) }
{
    let mut line = String::new(alloc);
    let date = date_of(push.time);
    push_date(&mut line, &date)?;
    line.push_str("Z ")?;
    push_outcome(&mut line, push.outcome)?;
    push_cost(&mut line, push)?;
    Ok(Seq::from_vec(line.into_bytes()))
}

/// The line of a request that was refused before a push was opened: when, and why. A line feed ends it.
pub fn dismissal_line<A: Allocator + Copy>(
    alloc: A,
    time: u64,
    why: Dismissal,
) -> Result<Seq<u8, A>, NoMemory>
    ensures { IfOk result (λ line. IsDismissalLine why line) }
{
    let mut line = String::new(alloc);
    let date = date_of(time);
    push_date(&mut line, &date)?;
    line.push_str("Z ")?;
    push_refusal(&mut line, why)?;
    Ok(Seq::from_vec(line.into_bytes()))
}

/// Adds a date, as `2026-11-25T06:12:03`.
fn push_date<A: Allocator>(line: &mut String<A>, date: &Date) -> Result<(), NoMemory>
    ensures { OnOk result (string_bytes line.new
        ≡ string_bytes line.old ++ (day_text date.now ++ (codes "T" ++ time_text date.now))) }
{
    push_day(line, date)?;
    line.push_str("T")?;
    push_time(line, date)?;
    Ok(())
}

/// Adds why a request was refused.
#[tactic(auto, unfolding(crate::specs::Line::refused_text))]
fn push_refusal<A: Allocator>(line: &mut String<A>, why: Dismissal) -> Result<(), NoMemory>
    ensures { OnOk result (string_bytes line.new ≡ string_bytes line.old ++ refused_text why) }
{
    line.push_str("refused, ")?;
    line.push_str(name(why))?;
    line.push_str("\n")?;
    Ok(())
}

/// Adds what a push brought, and what it cost.
#[tactic(auto, unfolding(crate::specs::Line::cost_text))]
fn push_cost<A: Allocator>(line: &mut String<A>, push: &Push) -> Result<(), NoMemory>
    ensures { OnOk result (string_bytes line.new ≡ string_bytes line.old ++ cost_text push.now) }
{
    let changesets = push.changesets;
    let bytes = push.bytes;
    write!(line, ": {changesets} changesets, {bytes} bytes, ")?;
    push_waits(line, push, " ms in the lock, ", " ms for the disk\n")
}

/// Adds the milliseconds that a push held the lock, and those that it waited for the disk.
pub fn push_waits<A: Allocator>(
    text: &mut String<A>,
    push: &Push,
    between: &str,
    behind: &str,
) -> Result<(), NoMemory>
    ensures { OnOk result (string_bytes text.new
        ≡ string_bytes text.old ++ waits_text push.now between.now behind.now) }
{
    push_millis(text, push.locked)?;
    text.push_str(between)?;
    push_millis(text, push.synced)?;
    text.push_str(behind)?;
    Ok(())
}

/// Adds how a push ended: its place, or the reason.
fn push_outcome<A: Allocator>(line: &mut String<A>, outcome: ShownOutcome) -> Result<(), NoMemory>
    ensures { OnOk result (string_bytes line.new ≡ string_bytes line.old ++ outcome_text outcome) }
{
    match outcome {
        ShownOutcome::Done(place) => write!(line, "push {place} done")?,
        ShownOutcome::Aborted(reason) => {
            line.push_str("aborted, ")?;
            push_reason(line, reason)?;
        }
    }
    Ok(())
}

/// Adds a reason, with the number of a stream fault.
pub fn push_reason<A: Allocator>(text: &mut String<A>, reason: AbortReason) -> Result<(), NoMemory>
    ensures { OnOk result (string_bytes text.new ≡ string_bytes text.old ++ reason_text reason) }
{
    text.push_str(reason.name())?;
    match reason {
        AbortReason::StreamFault(fault) => write!(text, " {fault}")?,
        _ => {}
    }
    Ok(())
}
