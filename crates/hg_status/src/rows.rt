//! The rows of the page's tables.

ghost use Rattle.std.specs.Prelude.{◌≡◌, ◌++◌, flat_map, IfOk, OnOk, string_bytes};
ghost use Rattle.hg_status.specs.Page.{cost_cells, outcome_cell, when_cell, IsPushRow};
ghost use Rattle.hg_status.specs.Rows.{bookmark_cell, bookmark_text, branch_cell, branch_text, id_cell, id_text};
ghost use Rattle.hg_status.specs.Rows.{more_text, name_text, phase_cell, phase_text, row_of};

use crate::date::{Date, date_of, push_day, push_time};
use crate::holdings::ShownHead;
use crate::line::{push_reason, push_waits};
use crate::name::{Name, push_shown};
use crate::push::{Push, ShownOutcome};
use hg_types::{NoMemory, Node, Phase};
use std::alloc::Allocator;

/// The row of a head: its id, its phase, its branch and its bookmarks.
#[tactic(auto, unfolding(crate::specs::Rows::row_of))]
pub fn head_row<A: Allocator + Copy>(alloc: A, head: &ShownHead<A>) -> Result<String<A>, NoMemory>
    ensures { IfOk result (λ row. string_bytes row ≡ row_of head.now) }
{
    let mut row = String::new(alloc);
    push_id_cell(alloc, &mut row, &head.node)?;
    push_phase_cell(&mut row, head.phase)?;
    push_branch_cell(alloc, &mut row, &head.branch)?;
    push_bookmark_cell(alloc, &mut row, head)?;
    Ok(row)
}

#[tactic(auto, unfolding(crate::specs::Rows::id_cell))]
fn push_id_cell<A: Allocator + Copy>(
    alloc: A,
    row: &mut String<A>,
    node: &Node,
) -> Result<(), NoMemory>
    ensures { OnOk result (string_bytes row.new ≡ string_bytes row.old ++ id_cell node.now.0) }
{
    row.push_str("<tr><td><code>")?;
    push_id(alloc, row, node)?;
    Ok(())
}

#[tactic(auto, unfolding(crate::specs::Rows::phase_cell))]
fn push_phase_cell<A: Allocator>(row: &mut String<A>, phase: Phase) -> Result<(), NoMemory>
    ensures { OnOk result (string_bytes row.new ≡ string_bytes row.old ++ phase_cell phase) }
{
    row.push_str("</code><td class=")?;
    push_phase(row, phase)?;
    Ok(())
}

#[tactic(auto, unfolding(crate::specs::Rows::branch_cell))]
fn push_branch_cell<A: Allocator + Copy>(
    alloc: A,
    row: &mut String<A>,
    branch: &Option<Name<A>>,
) -> Result<(), NoMemory>
    ensures { OnOk result (string_bytes row.new ≡ string_bytes row.old ++ branch_cell branch.now) }
{
    row.push_str("<td>")?;
    push_branch(alloc, row, branch)?;
    Ok(())
}

#[tactic(auto, unfolding(crate::specs::Rows::bookmark_cell))]
fn push_bookmark_cell<A: Allocator + Copy>(
    alloc: A,
    row: &mut String<A>,
    head: &ShownHead<A>,
) -> Result<(), NoMemory>
    ensures { OnOk result (string_bytes row.new ≡ string_bytes row.old
        ++ bookmark_cell head.now.bookmarks head.now.more) }
{
    row.push_str("<td>")?;
    push_bookmarks(alloc, row, head.bookmarks.as_slice())?;
    push_more(row, head.more)?;
    row.push_str("\n")?;
    Ok(())
}

/// Adds the 40 digits of an id, of which the first twelve stand out.
#[tactic(auto, unfolding(crate::specs::Rows::id_text))]
fn push_id<A: Allocator + Copy>(alloc: A, row: &mut String<A>, node: &Node) -> Result<(), NoMemory>
    ensures { OnOk result (string_bytes row.new ≡ string_bytes row.old ++ id_text node.now.0) }
{
    let first = hex::encode(alloc, &node.0[..6])?;
    let rest = hex::encode(alloc, &node.0[6..])?;
    write!(row, "{first}<i>{rest}</i>")?;
    Ok(())
}

/// Adds the class of a phase, the end of the tag, and its name.
fn push_phase<A: Allocator>(row: &mut String<A>, phase: Phase) -> Result<(), NoMemory>
    ensures { OnOk result (string_bytes row.new ≡ string_bytes row.old ++ phase_text phase) }
{
    match phase {
        Phase::Public => row.push_str("p0>public")?,
        Phase::Draft => row.push_str("p1>draft")?,
        Phase::Secret => row.push_str("p2>secret")?,
    }
    Ok(())
}

/// Adds a branch, where it is known.
fn push_branch<A: Allocator + Copy>(
    alloc: A,
    row: &mut String<A>,
    branch: &Option<Name<A>>,
) -> Result<(), NoMemory>
    ensures { OnOk result (string_bytes row.new ≡ string_bytes row.old ++ branch_text branch.now) }
{
    match branch {
        Some(name) => push_name(alloc, row, name)?,
        None => row.push_str("<i>not read</i>")?,
    }
    Ok(())
}

/// Adds bookmarks.
fn push_bookmarks<A: Allocator + Copy>(
    alloc: A,
    row: &mut String<A>,
    bookmarks: &[Name<A>],
) -> Result<(), NoMemory>
    ensures { OnOk result (string_bytes row.new ≡ string_bytes row.old ++ flat_map bookmark_text bookmarks.now) }
{
    for name in bookmarks {
        push_bookmark(alloc, row, name)?;
    }
    Ok(())
}

#[tactic(auto, unfolding(crate::specs::Rows::bookmark_text))]
fn push_bookmark<A: Allocator + Copy>(
    alloc: A,
    row: &mut String<A>,
    name: &Name<A>,
) -> Result<(), NoMemory>
    ensures { OnOk result (string_bytes row.new ≡ string_bytes row.old ++ bookmark_text name.now) }
{
    row.push_str("<b>")?;
    push_name(alloc, row, name)?;
    row.push_str("</b> ")?;
    Ok(())
}

/// Adds how many more there are, where there are.
#[tactic(auto, unfolding(crate::specs::Rows::more_text))]
fn push_more<A: Allocator>(row: &mut String<A>, more: u64) -> Result<(), NoMemory>
    ensures { OnOk result (string_bytes row.new ≡ string_bytes row.old ++ more_text more) }
{
    if more != 0 {
        write!(row, "<i>and {more} more</i>")?;
    }
    Ok(())
}

/// Adds a name as it is shown, in a place of its own for the direction of its letters.
#[tactic(auto, unfolding(crate::specs::Rows::name_text))]
fn push_name<A: Allocator + Copy>(
    alloc: A,
    row: &mut String<A>,
    name: &Name<A>,
) -> Result<(), NoMemory>
    ensures { OnOk result (string_bytes row.new ≡ string_bytes row.old ++ name_text name.now) }
{
    row.push_str("<bdi>")?;
    push_shown(alloc, row, name.bytes.as_slice())?;
    row.push_str("</bdi>")?;
    if name.is_cut {
        row.push_str("&hellip;")?;
    }
    Ok(())
}

/// The row of a push: when it was answered, its place or the reason, its changesets, its bytes, and the
/// milliseconds in the lock and for the disk.
#[tactic(auto, unfolding(crate::specs::Page::push_row_of))]
pub fn push_row<A: Allocator + Copy>(alloc: A, push: &Push) -> Result<String<A>, NoMemory>
    ensures { IfOk result (λ row. IsPushRow push.now (string_bytes row)) }
{
    let mut row = String::new(alloc);
    let date = date_of(push.time);
    push_when(&mut row, &date)?;
    push_outcome(&mut row, push.outcome)?;
    push_costs(&mut row, push)?;
    Ok(row)
}

/// Adds the cell that says when a push was answered.
#[tactic(auto, unfolding(crate::specs::Page::when_cell))]
fn push_when<A: Allocator>(row: &mut String<A>, date: &Date) -> Result<(), NoMemory>
    ensures { OnOk result (string_bytes row.new ≡ string_bytes row.old ++ when_cell date.now) }
{
    row.push_str("<tr><td><i>")?;
    push_day(row, date)?;
    row.push_str("</i> ")?;
    push_time(row, date)?;
    Ok(())
}

/// Adds the cell that says how a push ended.
fn push_outcome<A: Allocator>(row: &mut String<A>, outcome: ShownOutcome) -> Result<(), NoMemory>
    ensures { OnOk result (string_bytes row.new ≡ string_bytes row.old ++ outcome_cell outcome) }
{
    match outcome {
        ShownOutcome::Done(place) => write!(row, "<td>{place}")?,
        ShownOutcome::Aborted(reason) => {
            row.push_str("<td class=no>")?;
            push_reason(row, reason)?;
        }
    }
    Ok(())
}

/// Adds the cells that say what a push brought and what it cost.
#[tactic(auto, unfolding(crate::specs::Page::cost_cells))]
fn push_costs<A: Allocator>(row: &mut String<A>, push: &Push) -> Result<(), NoMemory>
    ensures { OnOk result (string_bytes row.new ≡ string_bytes row.old ++ cost_cells push.now) }
{
    let changesets = push.changesets;
    let bytes = push.bytes;
    write!(row, "<td>{changesets}<td>{bytes}<td>")?;
    push_waits(row, push, "<td>", "\n")
}
