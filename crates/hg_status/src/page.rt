//! The page.

ghost use Rattle.std.specs.Prelude.{◌≡◌, ◌≤◌, ◌++◌, length, IfOk, OnOk, string_bytes};
ghost use Rattle.hg_status.specs.Page.{end_text, held_text, moment_text, numbers_text, phases_text, publishing_text, put};
ghost use Rattle.hg_status.specs.Page.{title_text, with_head_rows, with_head_table, with_heads, with_left_out};
ghost use Rattle.hg_status.specs.Page.{refusals_text, HasEnd, HasPushes, HasPushRows, IsPageOf};

use crate::date::{Date, date_of, push_day, push_time};
use crate::holdings::{Holdings, ShownHead};
use crate::push::Push;
use crate::push_counts::Counters;
use crate::refusals::push_refusals;
use crate::room::Page;
use crate::rows::{head_row, push_row};
use crate::summary::Summary;
use hg_types::{NoMemory, Seq};
use std::alloc::Allocator;

/// How long the page is at most after the heads, so that the pushes have room.
const HEADS_END: usize = 36_000;

/// How long it is at most after the pushes, so that its end has room.
const PUSHES_END: usize = 64_000;

/// Everything before the first number. It has its style inside, and asks for nothing from elsewhere.
const TOP: &str = "<!DOCTYPE html>
<html lang=en><meta charset=utf-8>
<meta name=viewport content=\"width=device-width,initial-scale=1\">
<meta name=color-scheme content=\"light dark\">
<title>hg_pushd</title>
<style>
:root{--ink:#1d2126;--dim:#69727d;--line:#e2e5e9;--paper:#fff;--back:#f5f6f8;--tag:#eef1f5;
--p0:#2c7a52;--p1:#a86a10;--p2:#8a3d83;--no:#b0362d}
@media(prefers-color-scheme:dark){:root{--ink:#e4e7ea;--dim:#949daa;--line:#2a2f37;--paper:#191c21;--back:#111317;
--tag:#262b33;--p0:#6cc796;--p1:#e0ad58;--p2:#d18ccb;--no:#ef8b81}}
*{box-sizing:border-box}
body{margin:0;background:var(--back);color:var(--ink);font:15px/1.5 system-ui,-apple-system,'Segoe UI',Roboto,
'Helvetica Neue',sans-serif;font-variant-numeric:tabular-nums}
main{max-width:64rem;margin:0 auto;padding:2rem 1rem 3rem}
h1{font-size:1.4rem;line-height:1.2;margin:0}
h2{font-size:1rem;margin:2.2rem 0 .6rem}
h2 i,h1+p,p i,td i{font-style:normal;font-weight:400;color:var(--dim)}
h1+p{margin:.2rem 0 1.4rem}
p{margin:.6rem 0}
.n,.t{background:var(--paper);border:1px solid var(--line);border-radius:10px;overflow:auto hidden}
.n{display:grid;grid-template-columns:repeat(4,1fr)}
.n div{padding:.8rem 1rem;border-left:1px solid var(--line);color:var(--dim)}
.n div:first-child{border:0}
.n b{display:block;font-size:1.6rem;line-height:1.25;font-weight:600;color:var(--ink)}
.bar{display:flex;gap:2px;height:6px;border-radius:3px;overflow:hidden;margin:1.2rem 0 .5rem;background:var(--line)}
.bar i{min-width:0}
.bar .p0{background:var(--p0)}.bar .p1{background:var(--p1)}.bar .p2{background:var(--p2)}
.k span{margin-right:1.4rem;white-space:nowrap}
.k span:before{content:'';display:inline-block;width:.6rem;height:.6rem;border-radius:50%;background:currentColor;
margin-right:.45rem}
.k b{font-weight:400;color:var(--ink)}
.p0{color:var(--p0)}.p1{color:var(--p1)}.p2{color:var(--p2)}.no{color:var(--no)}
table{border-collapse:collapse;width:100%}
th,td{padding:.4rem 1rem;text-align:left;vertical-align:baseline}
th{font-weight:400;color:var(--dim);font-size:.85rem;padding-top:.6rem}
tr+tr td,tbody td{border-top:1px solid var(--line)}
code{font:.9em ui-monospace,SFMono-Regular,Menlo,Consolas,'DejaVu Sans Mono',monospace}
td b{display:inline-block;font-weight:400;background:var(--tag);border-radius:5px;padding:0 .45rem;margin:0 .15rem .15rem 0;
overflow-wrap:anywhere}
bdi{overflow-wrap:anywhere}
.u td:nth-child(n+3),.u th:nth-child(n+3){text-align:right}
footer{color:var(--dim);font-size:.85rem;margin-top:2.2rem}
@media(max-width:46rem){
main{padding:1.2rem .7rem 2rem}
.n div{padding:.6rem .7rem;font-size:.85rem}.n b{font-size:1.25rem}
code i,.u td i,.h th{display:none}
.h tr{display:grid;grid-template-columns:auto 4.5rem 1fr;gap:0 .6rem;padding:.45rem .7rem;border-top:1px solid var(--line)}
.h thead{display:none}.h tr:first-child{border:0}
.h td{padding:0;border:0}.h td:nth-child(4){grid-column:1/4;padding-top:.2rem}.h td:empty{display:none}
.u{font-size:.8rem}.u th,.u td{padding:.35rem .3rem}
.u th:first-child,.u td:first-child{padding-left:.7rem}.u th:last-child,.u td:last-child{padding-right:.7rem}
}
</style>
<main>
";

/// The beginning of the table of heads.
const HEADS_TABLE: &str =
    "<div class=t><table class=h><thead><tr><th>Id<th>Phase<th>Branch<th>Bookmarks<tbody>\n";

/// The beginning of the table of pushes.
const PUSHES_TABLE: &str =
    "<div class=t><table class=u><thead><tr><th>Time<th>Place or reason<th>Change&shy;sets<th>Bytes<th>Lock ms<th>Disk ms<tbody>\n";

/// The end of a table.
const TABLE_END: &str = "</table></div>\n";

/// The page of a summary: one document with its style inside, without scripts, and with nothing from
/// elsewhere. Names of bookmarks and branches are escaped. It has at most 65,535 bytes: what does not fit is
/// named by its number.
pub fn page_text<A: Allocator + Copy>(
    alloc: A,
    summary: &Summary<A>,
) -> Result<Seq<u8, A>, NoMemory>
    ensures short { IfOk result (λ text. length text ≤ 65535) }
    ensures shown { IfOk result (IsPageOf TOP.now summary.now) }
{
    let mut page = Page::new(alloc);
    page.put(TOP)?;
    put_head(alloc, &mut page, summary)?;
    put_numbers(alloc, &mut page, summary)?;
    put_phases(alloc, &mut page, summary)?;
    put_heads(alloc, &mut page, summary)?;
    put_pushes(alloc, &mut page, summary.recent.as_slice())?;
    put_refusals(alloc, &mut page, &summary.counters)?;
    put_end(alloc, &mut page, &summary.counters, summary.time)?;
    Ok(Seq::from_vec(page.into_text().into_bytes()))
}

/// Puts the title.
#[tactic(auto, unfolding(crate::specs::Page::title_text))]
fn put_head<A: Allocator + Copy>(
    alloc: A,
    page: &mut Page<A>,
    summary: &Summary<A>,
) -> Result<(), NoMemory>
    ensures { OnOk result (string_bytes page.new.text ≡ put (string_bytes page.old.text) (title_text summary.now)) }
{
    let mut text = String::from_str(alloc, "<h1>hg_pushd</h1>\n<p>")?;
    push_publishing(&mut text, summary.publishing)?;
    let connections = summary.connections;
    let store = summary.store;
    write!(
        text,
        "{connections} open connections, a store of {store} bytes</p>\n"
    )?;
    page.put(text.as_str())?;
    Ok(())
}

/// Adds whether what is pushed becomes public.
fn push_publishing<A: Allocator>(text: &mut String<A>, publishing: bool) -> Result<(), NoMemory>
    ensures { OnOk result (string_bytes text.new ≡ string_bytes text.old ++ publishing_text publishing) }
{
    if publishing {
        text.push_str("Publishing, ")?;
    }
    Ok(())
}

/// Puts how much the repository holds.
#[tactic(auto, unfolding(crate::specs::Page::numbers_text))]
fn put_numbers<A: Allocator + Copy>(
    alloc: A,
    page: &mut Page<A>,
    summary: &Summary<A>,
) -> Result<(), NoMemory>
    ensures { OnOk result (string_bytes page.new.text ≡ put (string_bytes page.old.text) (numbers_text summary.now.holdings)) }
{
    let holdings = &summary.holdings;
    let mut text = String::from_str(alloc, "<div class=n>")?;
    push_held(&mut text, holdings.changesets, "changesets")?;
    push_held(&mut text, holdings.heads, "heads")?;
    push_held(&mut text, holdings.bookmarks, "bookmarks")?;
    push_held(&mut text, holdings.markers, "markers")?;
    text.push_str("</div>\n")?;
    page.put(text.as_str())?;
    Ok(())
}

/// Adds how many there are of something.
#[tactic(auto, unfolding(crate::specs::Page::held_text))]
fn push_held<A: Allocator>(text: &mut String<A>, count: u64, of: &str) -> Result<(), NoMemory>
    ensures { OnOk result (string_bytes text.new ≡ string_bytes text.old ++ held_text count of.now) }
{
    write!(text, "<div><b>{count}</b>{of}</div>")?;
    Ok(())
}

/// Puts how many changesets are in each phase, as a bar and in numbers.
#[tactic(auto, unfolding(crate::specs::Page::phases_text))]
fn put_phases<A: Allocator + Copy>(
    alloc: A,
    page: &mut Page<A>,
    summary: &Summary<A>,
) -> Result<(), NoMemory>
    ensures { OnOk result (string_bytes page.new.text ≡ put (string_bytes page.old.text) (phases_text summary.now.phases)) }
{
    let public = summary.phases.public;
    let draft = summary.phases.draft;
    let secret = summary.phases.secret;
    let mut text = String::from_str(alloc, "<div class=bar>")?;
    write!(
        text,
        "<i class=p0 style=\"flex:{public}\"></i><i class=p1 style=\"flex:{draft}\"></i>"
    )?;
    write!(
        text,
        "<i class=p2 style=\"flex:{secret}\"></i></div>\n<p class=k>"
    )?;
    write!(
        text,
        "<span class=p0><b>{public} public</b></span><span class=p1><b>{draft} draft</b></span>"
    )?;
    write!(text, "<span class=p2><b>{secret} secret</b></span></p>\n")?;
    page.put(text.as_str())?;
    Ok(())
}

/// Puts the heads that there is room for, and how many are left out.
#[tactic(auto, unfolding(crate::specs::Page::with_heads))]
fn put_heads<A: Allocator + Copy>(
    alloc: A,
    page: &mut Page<A>,
    summary: &Summary<A>,
) -> Result<(), NoMemory>
    ensures { OnOk result (string_bytes page.new.text ≡ with_heads summary.now.holdings (string_bytes page.old.text)) }
{
    page.put("<h2>Heads <i>the latest first</i></h2>\n")?;
    if summary.holdings.shown.is_empty() {
        page.put("<p><i>No changesets yet.</i></p>\n")?;
    } else {
        put_head_table(alloc, page, &summary.holdings)?;
    }
    Ok(())
}

/// Puts the table of heads, and how much is left out of it.
fn put_head_table<A: Allocator + Copy>(
    alloc: A,
    page: &mut Page<A>,
    holdings: &Holdings<A>,
) -> Result<(), NoMemory>
    ensures { OnOk result (string_bytes page.new.text ≡ with_head_table holdings.now (string_bytes page.old.text)) }
{
    page.put(HEADS_TABLE)?;
    let shown = put_head_rows(alloc, page, holdings.shown.as_slice())?;
    page.put(TABLE_END)?;
    let hidden = holdings.heads.saturating_sub(shown);
    put_left_out(alloc, page, hidden, "heads are not shown")?;
    let unseen = holdings.bookmarks.saturating_sub(holdings.looked_at);
    put_left_out(alloc, page, unseen, "bookmarks were not looked at")?;
    Ok(())
}

/// Puts the rows of heads while there is room, and says how many there were.
fn put_head_rows<A: Allocator + Copy>(
    alloc: A,
    page: &mut Page<A>,
    heads: &[ShownHead<A>],
) -> Result<u64, NoMemory>
    ensures { IfOk result (λ shown. (string_bytes page.new.text, shown)
        ≡ with_head_rows heads.now (string_bytes page.old.text) 0) }
{
    let mut shown = 0u64;
    for head in heads {
        let row = head_row(alloc, head)?;
        if !page.add(row.as_str(), HEADS_END)? {
            return Ok(shown);
        }
        shown = shown.saturating_add(1);
    }
    Ok(shown)
}

/// Puts how many of something are left out, where some are.
#[tactic(auto, unfolding(crate::specs::Page::with_left_out, crate::specs::Page::left_out_text))]
fn put_left_out<A: Allocator + Copy>(
    alloc: A,
    page: &mut Page<A>,
    count: u64,
    what: &str,
) -> Result<(), NoMemory>
    ensures { OnOk result (string_bytes page.new.text ≡ with_left_out (string_bytes page.old.text) count what.now) }
{
    if count == 0 {
        return Ok(());
    }
    let text = format!(in alloc; "<p><i>{count} more {what}.</i></p>\n")?;
    page.put(text.as_str())?;
    Ok(())
}

/// Puts the last pushes, the last first.
fn put_pushes<A: Allocator + Copy>(
    alloc: A,
    page: &mut Page<A>,
    pushes: &[Push],
) -> Result<(), NoMemory>
    ensures { OnOk result (HasPushes pushes.now (string_bytes page.old.text) (string_bytes page.new.text)) }
{
    page.put("<h2>Pushes <i>the latest first</i></h2>\n")?;
    if pushes.is_empty() {
        page.put("<p><i>None since the start.</i></p>\n")?;
        return Ok(());
    }
    page.put(PUSHES_TABLE)?;
    put_push_rows(alloc, page, pushes)?;
    page.put(TABLE_END)?;
    Ok(())
}

/// Puts the rows of pushes that there is room for.
fn put_push_rows<A: Allocator + Copy>(
    alloc: A,
    page: &mut Page<A>,
    pushes: &[Push],
) -> Result<(), NoMemory>
    ensures { OnOk result (HasPushRows (string_bytes page.old.text) (string_bytes page.new.text)) }
{
    for push in pushes.iter().rev() {
        let row = push_row(alloc, push)?;
        page.put_within(row.as_str(), PUSHES_END)?;
    }
    Ok(())
}

/// Puts how many requests were refused before a push was opened, by reason.
fn put_refusals<A: Allocator + Copy>(
    alloc: A,
    page: &mut Page<A>,
    counters: &Counters,
) -> Result<(), NoMemory>
    ensures { OnOk result (string_bytes page.new.text ≡ put (string_bytes page.old.text) (refusals_text counters.now)) }
{
    let mut text = String::new(alloc);
    push_refusals(alloc, &mut text, counters)?;
    page.put(text.as_str())?;
    Ok(())
}

/// Puts what the pushes come to, and when the page was made.
fn put_end<A: Allocator + Copy>(
    alloc: A,
    page: &mut Page<A>,
    counters: &Counters,
    time: u64,
) -> Result<(), NoMemory>
    ensures { OnOk result (HasEnd counters.now (string_bytes page.old.text) (string_bytes page.new.text)) }
{
    let aborted = total(counters.aborted.as_slice());
    let start = date_of(counters.start);
    let now = date_of(time);
    let mut text = String::new(alloc);
    push_end(&mut text, counters, aborted, &start, &now)?;
    page.put(text.as_str())?;
    Ok(())
}

/// Adds the end.
fn push_end<A: Allocator>(
    text: &mut String<A>,
    counters: &Counters,
    aborted: u64,
    start: &Date,
    time: &Date,
) -> Result<(), NoMemory>
    ensures { OnOk result (string_bytes text.new
        ≡ string_bytes text.old ++ end_text counters.now aborted start.now time.now) }
{
    let done = counters.done;
    let changesets = counters.changesets;
    let bytes = counters.bytes;
    text.push_str("<footer>Since ")?;
    push_moment(text, start)?;
    write!(text, " {done} pushes were done and {aborted} aborted, ")?;
    write!(
        text,
        "with {changesets} changesets and {bytes} bytes. This page is of "
    )?;
    push_moment(text, time)?;
    text.push_str(", in coordinated universal time.</footer></main></html>\n")?;
    Ok(())
}

/// Adds a moment, as `2026-11-25 06:12:03`.
#[tactic(auto, unfolding(crate::specs::Page::moment_text))]
fn push_moment<A: Allocator>(text: &mut String<A>, date: &Date) -> Result<(), NoMemory>
    ensures { OnOk result (string_bytes text.new ≡ string_bytes text.old ++ moment_text date.now) }
{
    push_day(text, date)?;
    text.push_str(" ")?;
    push_time(text, date)?;
    Ok(())
}

/// The sum of numbers, or the greatest number where it would pass it.
fn total(numbers: &[u64]) -> u64 {
    let mut sum = 0u64;
    for number in numbers {
        sum = sum.saturating_add(*number);
    }
    sum
}
