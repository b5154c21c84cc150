//! The numbers in the text form that Prometheus reads.

ghost use Rattle.std.specs.Prelude.{◌≡◌, ◌++◌, IfOk, OnOk, codes, decimal, string_bytes};
ghost use Rattle.hg_status.specs.Metrics.{aborted_line, cost_lines, cut_lines, denied_lines, dismissed_line};
ghost use Rattle.hg_status.specs.Metrics.{dismissed_lines, head_lines, unread_lines, untaken_lines};
ghost use Rattle.hg_status.specs.Metrics.{holdings_lines, labelled_line, metrics_of, phase_line, phase_lines};
ghost use Rattle.hg_status.specs.Metrics.{number_lines, push_lines, refused_lines, value_line};
ghost use Rattle.hg_status.specs.Numbers.{seconds};

use crate::dismissed::{name, place};
use crate::numbers::push_seconds;
use crate::push::AbortReason;
use crate::push_counts::Counters;
use crate::summary::Summary;
use hg_phases::PhaseCounts;
use hg_queries::Dismissal;
use hg_types::{NoMemory, Seq};
use std::alloc::Allocator;

/// The numbers of a summary in the text form that Prometheus reads, version 0.0.4: of each a line that says
/// what it is, one with its type, and its value.
pub fn metrics_text<A: Allocator + Copy>(
    alloc: A,
    summary: &Summary<A>,
) -> Result<Seq<u8, A>, NoMemory>
    ensures { IfOk result (λ text. text ≡ metrics_of summary.now) }
{
    let mut text = String::new(alloc);
    push_holdings(&mut text, summary)?;
    push_phases(&mut text, &summary.phases)?;
    push_pushes(&mut text, &summary.counters)?;
    push_dismissals(&mut text, &summary.counters)?;
    push_costs(&mut text, &summary.counters)?;
    Ok(Seq::from_vec(text.into_bytes()))
}

/// Adds what the repository and its store hold, and how many connections are open.
#[tactic(auto, unfolding(crate::specs::Metrics::holdings_lines))]
fn push_holdings<A: Allocator>(text: &mut String<A>, summary: &Summary<A>) -> Result<(), NoMemory>
    ensures { OnOk result (string_bytes text.new ≡ string_bytes text.old ++ holdings_lines summary.now) }
{
    push_number(
        text,
        "gauge",
        "changesets",
        "Changesets in the repository.",
        summary.holdings.changesets,
    )?;
    push_number(
        text,
        "gauge",
        "heads",
        "Changesets that are nobody's parent.",
        summary.holdings.heads,
    )?;
    push_number(
        text,
        "gauge",
        "bookmarks",
        "Bookmarks.",
        summary.holdings.bookmarks,
    )?;
    push_number(
        text,
        "gauge",
        "markers",
        "Obsolescence markers.",
        summary.holdings.markers,
    )?;
    push_number(
        text,
        "gauge",
        "store_bytes",
        "Bytes of the store.",
        summary.store,
    )?;
    push_number(
        text,
        "gauge",
        "store_pushes",
        "Pushes in the store, each durable.",
        summary.stored,
    )?;
    push_number(
        text,
        "gauge",
        "connections",
        "Open connections.",
        summary.connections,
    )?;
    Ok(())
}

/// Adds how many changesets are in each phase.
#[tactic(auto, unfolding(crate::specs::Metrics::phase_lines))]
fn push_phases<A: Allocator>(text: &mut String<A>, counts: &PhaseCounts) -> Result<(), NoMemory>
    ensures { OnOk result (string_bytes text.new ≡ string_bytes text.old ++ phase_lines counts.now) }
{
    push_head(
        text,
        "phase_changesets",
        "gauge",
        "Changesets in each phase.",
    )?;
    push_phase(text, "public", counts.public)?;
    push_phase(text, "draft", counts.draft)?;
    push_phase(text, "secret", counts.secret)?;
    Ok(())
}

fn push_phase<A: Allocator>(text: &mut String<A>, phase: &str, count: u64) -> Result<(), NoMemory>
    ensures { OnOk result (string_bytes text.new ≡ string_bytes text.old ++ phase_line phase.now count) }
{
    push_labelled(text, "phase_changesets", "phase", phase, count)
}

/// Adds when the server started, and how many pushes were done and aborted.
#[tactic(auto, unfolding(crate::specs::Metrics::push_lines))]
fn push_pushes<A: Allocator>(text: &mut String<A>, counters: &Counters) -> Result<(), NoMemory>
    ensures { OnOk result (string_bytes text.new ≡ string_bytes text.old ++ push_lines counters.now) }
{
    push_number(
        text,
        "gauge",
        "start_time_seconds",
        "When the server started, in seconds since 1970.",
        counters.start,
    )?;
    push_head(
        text,
        "pushes_aborted_total",
        "counter",
        "Pushes that were aborted, by reason.",
    )?;
    push_refused(text, counters)?;
    push_cut(text, counters)?;
    push_denied(text, counters)?;
    push_number(
        text,
        "counter",
        "pushes_done_total",
        "Pushes that were done.",
        counters.done,
    )?;
    Ok(())
}

/// Adds how many pushes were refused, by reason.
#[tactic(auto, unfolding(crate::specs::Metrics::refused_lines))]
fn push_refused<A: Allocator>(text: &mut String<A>, counters: &Counters) -> Result<(), NoMemory>
    ensures { OnOk result (string_bytes text.new ≡ string_bytes text.old ++ refused_lines counters.now) }
{
    push_aborted(text, counters, AbortReason::HeadsChanged)?;
    push_aborted(text, counters, AbortReason::PhasesChanged)?;
    push_aborted(text, counters, AbortReason::BookmarksChanged)?;
    push_aborted(text, counters, AbortReason::Unsupported)?;
    push_aborted(text, counters, AbortReason::KeyFailed)?;
    push_aborted(text, counters, AbortReason::BadPart)?;
    push_aborted(text, counters, AbortReason::BadChangeset)?;
    push_aborted(text, counters, AbortReason::UnknownNode)?;
    push_aborted(text, counters, AbortReason::ClientAborted)?;
    Ok(())
}

/// Adds how many pushes were cut off or met a lack of memory, by reason.
#[tactic(auto, unfolding(crate::specs::Metrics::cut_lines))]
fn push_cut<A: Allocator>(text: &mut String<A>, counters: &Counters) -> Result<(), NoMemory>
    ensures { OnOk result (string_bytes text.new ≡ string_bytes text.old ++ cut_lines counters.now) }
{
    push_aborted(text, counters, AbortReason::BadEnd)?;
    push_aborted(text, counters, AbortReason::StreamFault(0))?;
    push_aborted(text, counters, AbortReason::ConnectionLost)?;
    push_aborted(text, counters, AbortReason::Dropped)?;
    push_aborted(text, counters, AbortReason::NoMemory)?;
    Ok(())
}

/// Adds how many pushes did not run, since the hook did not let them, by reason.
#[tactic(auto, unfolding(crate::specs::Metrics::denied_lines))]
fn push_denied<A: Allocator>(text: &mut String<A>, counters: &Counters) -> Result<(), NoMemory>
    ensures { OnOk result (string_bytes text.new ≡ string_bytes text.old ++ denied_lines counters.now) }
{
    push_aborted(text, counters, AbortReason::NotLet)?;
    push_aborted(text, counters, AbortReason::NoHook)?;
    Ok(())
}

/// Adds how many pushes were aborted for a reason.
#[tactic(auto, unfolding(crate::specs::Metrics::aborted_line))]
fn push_aborted<A: Allocator>(
    text: &mut String<A>,
    counters: &Counters,
    reason: AbortReason,
) -> Result<(), NoMemory>
    ensures { OnOk result (string_bytes text.new ≡ string_bytes text.old ++ aborted_line counters.now reason) }
{
    let count = counters.aborted[reason.place()];
    push_labelled(text, "pushes_aborted_total", "reason", reason.name(), count)
}

/// Adds how many requests were refused before a push was opened, by reason.
#[tactic(auto, unfolding(crate::specs::Metrics::dismissed_lines))]
fn push_dismissals<A: Allocator>(text: &mut String<A>, counters: &Counters) -> Result<(), NoMemory>
    ensures { OnOk result (string_bytes text.new ≡ string_bytes text.old ++ dismissed_lines counters.now) }
{
    push_head(
        text,
        "requests_refused_total",
        "counter",
        "Requests that were refused before a push was opened, by reason.",
    )?;
    push_unread(text, counters)?;
    push_untaken(text, counters)?;
    Ok(())
}

/// Adds how many requests were refused that were not read whole, or found no room.
#[tactic(auto, unfolding(crate::specs::Metrics::unread_lines))]
fn push_unread<A: Allocator>(text: &mut String<A>, counters: &Counters) -> Result<(), NoMemory>
    ensures { OnOk result (string_bytes text.new ≡ string_bytes text.old ++ unread_lines counters.now) }
{
    push_dismissed(text, counters, Dismissal::LongBody)?;
    push_dismissed(text, counters, Dismissal::LongHead)?;
    push_dismissed(text, counters, Dismissal::NoRequest)?;
    push_dismissed(text, counters, Dismissal::Lost)?;
    push_dismissed(text, counters, Dismissal::NoRoom)?;
    Ok(())
}

/// Adds how many requests were refused for what they ask.
#[tactic(auto, unfolding(crate::specs::Metrics::untaken_lines))]
fn push_untaken<A: Allocator>(text: &mut String<A>, counters: &Counters) -> Result<(), NoMemory>
    ensures { OnOk result (string_bytes text.new ≡ string_bytes text.old ++ untaken_lines counters.now) }
{
    push_dismissed(text, counters, Dismissal::OtherServer)?;
    push_dismissed(text, counters, Dismissal::NotFound)?;
    push_dismissed(text, counters, Dismissal::Unclear)?;
    push_dismissed(text, counters, Dismissal::Forbidden)?;
    push_dismissed(text, counters, Dismissal::NotTaken)?;
    push_dismissed(text, counters, Dismissal::NotOpened)?;
    Ok(())
}

/// Adds how many requests were refused for a reason.
#[tactic(auto, unfolding(crate::specs::Metrics::dismissed_line))]
fn push_dismissed<A: Allocator>(
    text: &mut String<A>,
    counters: &Counters,
    why: Dismissal,
) -> Result<(), NoMemory>
    ensures { OnOk result (string_bytes text.new ≡ string_bytes text.old ++ dismissed_line counters.now why) }
{
    let count = counters.dismissed[place(why)];
    push_labelled(text, "requests_refused_total", "reason", name(why), count)
}

/// Adds what pushes brought, and how long they held the lock and waited for the disk.
#[tactic(auto, unfolding(crate::specs::Metrics::cost_lines))]
fn push_costs<A: Allocator>(text: &mut String<A>, counters: &Counters) -> Result<(), NoMemory>
    ensures { OnOk result (string_bytes text.new ≡ string_bytes text.old ++ cost_lines counters.now) }
{
    push_number(
        text,
        "counter",
        "pushed_changesets_total",
        "Changesets that pushes added.",
        counters.changesets,
    )?;
    push_number(
        text,
        "counter",
        "pushed_bytes_total",
        "Bytes of the bundles of pushes.",
        counters.bytes,
    )?;
    push_time(
        text,
        "lock_seconds_total",
        "Seconds that pushes held the lock.",
        counters.locked,
    )?;
    push_time(
        text,
        "sync_seconds_total",
        "Seconds that pushes waited for the disk.",
        counters.synced,
    )?;
    Ok(())
}

/// Adds a number: a gauge goes up and down, and a counter only up.
#[tactic(auto, unfolding(crate::specs::Metrics::number_lines, crate::specs::Metrics::value_line))]
fn push_number<A: Allocator>(
    text: &mut String<A>,
    kind: &str,
    name: &str,
    help: &str,
    value: u64,
) -> Result<(), NoMemory>
    ensures { OnOk result (string_bytes text.new
        ≡ string_bytes text.old ++ number_lines kind.now name.now help.now (decimal value)) }
{
    push_head(text, name, kind, help)?;
    writeln!(text, "hg_pushd_{name} {value}")?;
    Ok(())
}

/// Adds microseconds that only go up, as seconds.
#[tactic(auto, unfolding(crate::specs::Metrics::number_lines, crate::specs::Metrics::value_line))]
fn push_time<A: Allocator>(
    text: &mut String<A>,
    name: &str,
    help: &str,
    micros: u64,
) -> Result<(), NoMemory>
    ensures { OnOk result (string_bytes text.new
        ≡ string_bytes text.old ++ number_lines (codes "counter") name.now help.now (seconds micros)) }
{
    push_head(text, name, "counter", help)?;
    write!(text, "hg_pushd_{name} ")?;
    push_seconds(text, micros)?;
    text.push_str("\n")?;
    Ok(())
}

/// Adds what a number is, and its type.
#[tactic(auto, unfolding(crate::specs::Metrics::head_lines))]
fn push_head<A: Allocator>(
    text: &mut String<A>,
    name: &str,
    kind: &str,
    help: &str,
) -> Result<(), NoMemory>
    ensures { OnOk result (string_bytes text.new
        ≡ string_bytes text.old ++ head_lines name.now kind.now help.now) }
{
    write!(
        text,
        "# HELP hg_pushd_{name} {help}\n# TYPE hg_pushd_{name} {kind}\n"
    )?;
    Ok(())
}

/// Adds the value of a number for one value of a label.
#[tactic(auto, unfolding(crate::specs::Metrics::labelled_line))]
fn push_labelled<A: Allocator>(
    text: &mut String<A>,
    name: &str,
    label: &str,
    of: &str,
    value: u64,
) -> Result<(), NoMemory>
    ensures { OnOk result (string_bytes text.new
        ≡ string_bytes text.old ++ labelled_line name.now label.now of.now value) }
{
    writeln!(text, "hg_pushd_{name}{{{label}=\"{of}\"}} {value}")?;
    Ok(())
}
