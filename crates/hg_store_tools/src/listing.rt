//! The pushes of a store, a line for each.

ghost use Rattle.std.specs.Prelude.{◌≡◌, ◌≤◌, ◌++◌, ℕ, List, IfErr, IfOk, OnOk, length, string_bytes};
ghost use Rattle.hg_types.specs.Limits.{IsAllowed};
ghost use Rattle.hg_repo.specs.Report.{escaped};
ghost use Rattle.hg_store.specs.Head.{IsHead};
ghost use Rattle.hg_store.specs.Pieces.{HasToGive};
ghost use Rattle.hg_store_tools.specs.Canonical.{IsUncanonical};
ghost use Rattle.hg_store_tools.specs.Listing.{IsLine, IsListed, IsListedOn, IsUnlisted, IsWhen, line_text, who_text};

use crate::brought::brought_by;
use crate::date::{date_of, push_date};
use crate::fault::{Fault, StoreEnd};
use crate::marks::StoreStart;
use crate::report::sent;
use crate::visit::{Beginning, RecordVisit, begin, visit_from, visit_records};
use hg_connection::Writer;
use hg_store::Entry;
use hg_types::{Limits, NoMemory};
use percent_encoding::{NON_ALPHANUMERIC, percent_encode};
use std::alloc::Allocator;
use std::io::Read;
use std::marker::Model;

/// Which pushes of a store have a line.
#[derive(Drop)]
struct Listing<A: Allocator> {
    alloc: A,
    limits: Limits,
    from: usize,
}

impl<A: Allocator> Model for Listing<A> {
    ghost use Rattle.hg_types.specs.Limits.{IsAllowed};
    ghost use Rattle.hg_store_tools.specs.Listing.{ListForm};

    ghost Value = { ListForm };

    ghost view = { λ l. record { limits = l.limits; from = l.from } };

    ghost invariant = { λ l. IsAllowed l.limits };
}

impl<W: Writer, A: Allocator + Copy> RecordVisit<W, A> for Listing<A> {
    ghost use Rattle.std.specs.Prelude.{⊤};
    ghost use Rattle.hg_store_tools.specs.Listing.{ListsRecord, ListsNoRecord};

    ghost takes = { λ _ entry. ⊤ };

    ghost visits = { λ s place entry before after. ListsRecord A s place entry (W.told before).taken (W.told after).taken };

    ghost fails = { λ s place entry fault before after.
        ListsNoRecord A s place entry fault (W.told before).taken (W.told after).taken };

    fn visit(&self, place: usize, entry: &Entry<A>, target: &mut W) -> Result<(), Fault> {
        if place < self.from {
            return Ok(());
        }
        match line_of(self.alloc, self.limits, place, entry) {
            Ok(line) => sent(target, line.as_slice()),
            Err(fault) => Err(fault),
        }
    }
}

/// Writes a line for each push of a store that the reader gives, from a place on: its place, when it was pushed, by
/// whom, how many changesets its bundle brings, and how many bytes that has. A torn store gives those that are whole,
/// and says so, and a damaged one those before the damage; so does one with a record that is no bundle.
pub fn send_list<R: Read, W: Writer, A: Allocator + Copy>(
    alloc: A,
    reader: &mut R,
    from: usize,
    writer: &mut W,
) -> Result<StoreEnd, Fault>
    ensures ok { IfOk result (λ ending. (file : List ℕ) × HasToGive (R.remaining reader.old) file
        × IsListed A file from ending (W.told writer.old).taken (W.told writer.new).taken) }
    ensures err { IfErr result (λ fault. (file : List ℕ) × HasToGive (R.remaining reader.old) file
        × IsUnlisted A file from (W.told writer.old).taken (W.told writer.new).taken fault) }
{
    let begun = match begin(alloc, reader) {
        Ok(begun) => begun,
        Err(fault) => return Err(fault),
    };
    let listing = Listing {
        alloc,
        limits: begun.head.limits,
        from,
    };
    visit_records(alloc, &begun, reader, &listing, writer)
}

/// Writes a line for each push of a store that the reader gives from a mark on, as [`send_list`] does.
pub fn send_list_on<R: Read, W: Writer, A: Allocator + Copy>(
    alloc: A,
    start: &StoreStart,
    reader: &mut R,
    from: usize,
    writer: &mut W,
) -> Result<StoreEnd, Fault>
    requires head { IsHead start.now.head }
    requires mark { start.now.mark.place ≤ from }
    ensures { IfOk result (λ ending. (rest : List ℕ) × HasToGive (R.remaining reader.old) rest
        × IsListedOn A start.now.head start.now.mark rest from ending (W.told writer.old).taken
        (W.told writer.new).taken) }
{
    let listing = Listing {
        alloc,
        limits: start.head.limits,
        from,
    };
    let begun = Beginning {
        head: start.head,
        digest: start.mark.digest,
    };
    visit_from(alloc, &begun, start.mark.place, reader, &listing, writer)
}

/// The line of the push at a place. An `Err` says that its bundle is none within the limits, or that memory was
/// refused.
fn line_of<A: Allocator + Copy>(
    alloc: A,
    limits: Limits,
    place: usize,
    entry: &Entry<A>,
) -> Result<Vec<u8, A>, Fault>
    requires { IsAllowed limits }
    ensures ok { IfOk result (λ line. IsLine A limits place entry.now line.items) }
    ensures err { IfErr result (λ fault. IsUncanonical A fault place limits entry.now.bundle) }
{
    let count = match brought_by(alloc, limits, place, entry.bundle()) {
        Ok(count) => count,
        Err(fault) => return Err(fault),
    };
    match line_from(alloc, place, entry, count) {
        Ok(line) => Ok(line),
        Err(_) => Err(Fault::NoMemory),
    }
}

/// The line of a push that brings so many changesets.
fn line_from<A: Allocator + Copy>(
    alloc: A,
    place: usize,
    entry: &Entry<A>,
    count: u128,
) -> Result<Vec<u8, A>, NoMemory>
    ensures { IfOk result (λ line. (when : List ℕ) × IsWhen entry.now.stamp.time when × (line.items
        ≡ line_text place when (who_text entry.now.stamp.name) count (length entry.now.bundle))) }
{
    let stamp = entry.stamp();
    let when = when_text(alloc, stamp.time())?;
    let bytes = entry.bundle().len();
    line_with(alloc, place, when.as_str(), stamp.name(), count, bytes)
}

/// The line of these words.
#[tactic(auto, unfolding(crate::specs::Listing::line_text))]
fn line_with<A: Allocator + Copy>(
    alloc: A,
    place: usize,
    when: &str,
    name: &[u8],
    count: u128,
    bytes: usize,
) -> Result<Vec<u8, A>, NoMemory>
    ensures { IfOk result (λ line. line.items ≡ line_text place when.now (who_text name.now) count bytes) }
{
    let mut line = String::new(alloc);
    write!(line, "{place} {when} ")?;
    push_who(&mut line, name)?;
    write!(line, " {count} {bytes}\n")?;
    Ok(line.into_bytes())
}

/// The date of a time in milliseconds since 1970: `-` where it is 0, and not known, or after the year 9999.
fn when_text<A: Allocator + Copy>(alloc: A, time: u64) -> Result<String<A>, NoMemory>
    ensures { IfOk result (λ text. IsWhen time (string_bytes text)) }
{
    let mut text = String::new(alloc);
    if time == 0 {
        text.push_str("-")?;
        return Ok(text);
    }
    let Some(date) = date_of(time / 1_000) else {
        text.push_str("-")?;
        return Ok(text);
    };
    push_date(&mut text, &date)?;
    Ok(text)
}

/// Adds the name of who pushed: `-` where it is not known.
fn push_who<A: Allocator>(line: &mut String<A>, name: &[u8]) -> Result<(), NoMemory>
    ensures { OnOk result (string_bytes line.new ≡ string_bytes line.old ++ who_text name.now) }
{
    if name.is_empty() {
        line.push_str("-")?;
        return Ok(());
    }
    push_name(line, name)
}

/// Adds a name, in which every byte but ASCII letters and digits is written `%` and two upper case hexadecimal digits.
fn push_name<A: Allocator>(line: &mut String<A>, name: &[u8]) -> Result<(), NoMemory>
    ensures { OnOk result (string_bytes line.new ≡ string_bytes line.old ++ escaped name.now) }
{
    let name = percent_encode(name, NON_ALPHANUMERIC);
    write!(line, "{name}")?;
    Ok(())
}
