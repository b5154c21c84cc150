//! How many requests were refused before a push was opened, on the page.

ghost use Rattle.std.specs.Prelude.{◌≡◌, ◌++◌, OnOk, string_bytes};
ghost use Rattle.hg_status.specs.Page.{dismissed_item, dismissed_items, refusals_line, refusals_text, refused_item};
ghost use Rattle.hg_status.specs.Page.{unread_items, untaken_items};

use crate::dismissed::{name, place};
use crate::push_counts::Counters;
use hg_queries::Dismissal;
use hg_types::NoMemory;
use std::alloc::Allocator;

/// Adds how many were refused for each reason, or that none was.
#[tactic(auto, unfolding(crate::specs::Page::refusals_text))]
pub fn push_refusals<A: Allocator + Copy>(
    alloc: A,
    text: &mut String<A>,
    counters: &Counters,
) -> Result<(), NoMemory>
    ensures { OnOk result (string_bytes text.new ≡ string_bytes text.old ++ refusals_text counters.now) }
{
    text.push_str("<h2>Refused requests <i>before a push was opened</i></h2>\n")?;
    let mut items = String::new(alloc);
    push_items(&mut items, counters)?;
    push_line(text, items.as_str())?;
    Ok(())
}

/// Adds a line of them, or that there were none.
#[tactic(auto, unfolding(crate::specs::Page::refusals_line))]
fn push_line<A: Allocator>(text: &mut String<A>, items: &str) -> Result<(), NoMemory>
    ensures { OnOk result (string_bytes text.new ≡ string_bytes text.old ++ refusals_line items.now) }
{
    if items.is_empty() {
        text.push_str("<p><i>None since the start.</i></p>\n")?;
        return Ok(());
    }
    text.push_str("<p class=k>")?;
    text.push_str(items)?;
    text.push_str("</p>\n")?;
    Ok(())
}

/// Adds how many were refused for each reason.
#[tactic(auto, unfolding(crate::specs::Page::dismissed_items))]
fn push_items<A: Allocator>(items: &mut String<A>, counters: &Counters) -> Result<(), NoMemory>
    ensures { OnOk result (string_bytes items.new ≡ string_bytes items.old ++ dismissed_items counters.now) }
{
    push_unread(items, counters)?;
    push_untaken(items, counters)?;
    Ok(())
}

/// Adds how many were not read whole, or found no room.
#[tactic(auto, unfolding(crate::specs::Page::unread_items))]
fn push_unread<A: Allocator>(items: &mut String<A>, counters: &Counters) -> Result<(), NoMemory>
    ensures { OnOk result (string_bytes items.new ≡ string_bytes items.old ++ unread_items counters.now) }
{
    push_dismissed(items, counters, Dismissal::LongBody)?;
    push_dismissed(items, counters, Dismissal::LongHead)?;
    push_dismissed(items, counters, Dismissal::NoRequest)?;
    push_dismissed(items, counters, Dismissal::Lost)?;
    push_dismissed(items, counters, Dismissal::NoRoom)?;
    Ok(())
}

/// Adds how many were refused for what they ask.
#[tactic(auto, unfolding(crate::specs::Page::untaken_items))]
fn push_untaken<A: Allocator>(items: &mut String<A>, counters: &Counters) -> Result<(), NoMemory>
    ensures { OnOk result (string_bytes items.new ≡ string_bytes items.old ++ untaken_items counters.now) }
{
    push_dismissed(items, counters, Dismissal::OtherServer)?;
    push_dismissed(items, counters, Dismissal::NotFound)?;
    push_dismissed(items, counters, Dismissal::Unclear)?;
    push_dismissed(items, counters, Dismissal::Forbidden)?;
    push_dismissed(items, counters, Dismissal::NotTaken)?;
    push_dismissed(items, counters, Dismissal::NotOpened)?;
    Ok(())
}

/// Adds how many were refused for a reason.
#[tactic(auto, unfolding(crate::specs::Page::dismissed_item))]
fn push_dismissed<A: Allocator>(
    items: &mut String<A>,
    counters: &Counters,
    why: Dismissal,
) -> Result<(), NoMemory>
    ensures { OnOk result (string_bytes items.new ≡ string_bytes items.old ++ dismissed_item counters.now why) }
{
    let count = counters.dismissed[place(why)];
    push_item(items, count, name(why))
}

/// Adds how many there were, if there were any.
fn push_item<A: Allocator>(items: &mut String<A>, count: u64, reason: &str) -> Result<(), NoMemory>
    ensures { OnOk result (string_bytes items.new ≡ string_bytes items.old ++ refused_item count reason.now) }
{
    if count == 0 {
        return Ok(());
    }
    write!(items, "<span class=no><b>{count} {reason}</b></span>\n")?;
    Ok(())
}
