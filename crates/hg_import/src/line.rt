//! The line of a file: the place of its push, or the reason that it is not done.

ghost use Rattle.std.specs.Prelude.{◌≡◌, ◌++◌, IfOk, OnOk, string_bytes};
ghost use Rattle.hg_import.specs.Lines.{cut_text, place_line, race_text, reason_line, reason_text, refusal_text};

use hg_parts::{CutReason, RaceText};
use hg_push::Reason;
use hg_repo::Refusal;
use hg_types::NoMemory;
use std::alloc::Allocator;

/// The line of a push that is done: its place in the store.
pub fn place_line<A: Allocator>(alloc: A, place: usize) -> Result<String<A>, NoMemory>
    ensures { IfOk result (λ line. string_bytes line ≡ place_line place) }
{
    let mut line = String::new(alloc);
    write!(line, "{place}\n")?;
    Ok(line)
}

/// The line of a push that is not done: the reason, in the words of its reply.
pub fn reason_line<A: Allocator>(
    alloc: A,
    reason: &Reason<Refusal<A>>,
) -> Result<String<A>, NoMemory>
    ensures { IfOk result (λ line. string_bytes line ≡ reason_line reason.now) }
{
    let mut line = String::new(alloc);
    push_reason(&mut line, reason)?;
    line.push_str("\n")?;
    Ok(line)
}

/// Adds why a push was aborted.
fn push_reason<A: Allocator>(
    line: &mut String<A>,
    reason: &Reason<Refusal<A>>,
) -> Result<(), NoMemory>
    ensures { OnOk result (string_bytes line.new ≡ string_bytes line.old ++ reason_text reason.now) }
{
    match reason {
        Reason::Refused(refusal) => push_refusal(line, refusal)?,
        Reason::Cut(cut) => push_cut(line, *cut)?,
        Reason::WrongIndex => line.push_str("bad end mark")?,
        Reason::NoMemory => line.push_str("out of memory")?,
    }
    Ok(())
}

/// Adds why the run of a push was refused.
fn push_refusal<A: Allocator>(line: &mut String<A>, refusal: &Refusal<A>) -> Result<(), NoMemory>
    ensures { OnOk result (string_bytes line.new ≡ string_bytes line.old ++ refusal_text refusal.now) }
{
    match refusal {
        Refusal::Unsupported { place, .. } => write!(line, "part {place} is not supported")?,
        Refusal::Raced { text, .. } => push_race(line, *text)?,
        Refusal::KeyFailed { place, .. } => write!(line, "part {place} did not set its key")?,
        Refusal::BadPart { place } => write!(line, "part {place} is malformed")?,
        Refusal::BadChangeset { place, .. } => write!(line, "part {place} holds a bad changeset")?,
        Refusal::UnknownNode { place } => write!(line, "part {place} names an unknown node")?,
        Refusal::ClientAbort { .. } => line.push_str("client aborted")?,
        Refusal::NoMemory => line.push_str("out of memory")?,
    }
    Ok(())
}

/// Adds why a push was cut off.
fn push_cut<A: Allocator>(line: &mut String<A>, cut: CutReason) -> Result<(), NoMemory>
    ensures { OnOk result (string_bytes line.new ≡ string_bytes line.old ++ cut_text cut) }
{
    match cut {
        CutReason::Stream(fault) => write!(line, "stream fault {fault}")?,
        CutReason::ReadFailed => line.push_str("read failed")?,
        CutReason::GaveUp => line.push_str("push dropped")?,
    }
    Ok(())
}

/// Adds what was not as the client saw it.
fn push_race<A: Allocator>(line: &mut String<A>, race: RaceText) -> Result<(), NoMemory>
    ensures { OnOk result (string_bytes line.new ≡ string_bytes line.old ++ race_text race) }
{
    match race {
        RaceText::HeadsChanged => line.push_str("heads changed")?,
        RaceText::PhasesChanged => line.push_str("phases changed")?,
        RaceText::BookmarksChanged => line.push_str("bookmarks changed")?,
    }
    Ok(())
}
