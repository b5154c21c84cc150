//! The report of what a store holds, to any writer.

ghost use Rattle.std.specs.Prelude.{◌≡◌, ℕ, List, IfErr, IfOk, OnOk};
ghost use Rattle.hg_connection.specs.declared.sending.Sending.{Sending as AnySending};
ghost use Rattle.hg_connection.specs.declared.sending.Sending.TheVariants.{Whole as sent_whole};
ghost use Rattle.hg_connection.specs.Sent.{Sends};
ghost use Rattle.hg_store.specs.Pieces.{HasToGive};
ghost use Rattle.hg_store_tools.specs.Reporting.{IsUnreported, IsUntold, Reports};
ghost use Rattle.hg_store_tools.specs.Reporting.{report_text, sending_fault, unrun_fault};

use crate::fault::{Fault, StoreEnd};
use crate::visit::{RecordVisit, begin, visit_records};
use hg_connection::{Sending, Writer, send};
use hg_recovery::{RestoreFault, empty_repository, replay_record};
use hg_repo::{Repo, add_journal_lines};
use hg_store::Entry;
use hg_types::NoMemory;
use std::alloc::Allocator;
use std::hash::RandomState;
use std::io::Read;
use std::marker::Model;

/// The repository that the records so far lead to, and how many they are.
#[derive(Drop)]
struct Replayed<A: Allocator> {
    repo: Repo<A>,
    count: usize,
}

impl<A: Allocator> Model for Replayed<A> {
    ghost use Rattle.hg_types.specs.Limits.{IsAllowed};
    ghost use Rattle.hg_store_tools.specs.Reporting.{Replayed as AnyReplayed};

    ghost Value = { AnyReplayed A };

    ghost view = { λ r. record { repo = r.repo; count = r.count } };

    ghost invariant = { λ r. IsAllowed r.repo.settings.limits };
}

/// Runs each record of a store as a push.
#[derive(Drop)]
struct Replaying<A: Allocator> {
    alloc: A,
}

impl<A: Allocator + Copy> RecordVisit<Replayed<A>, A> for Replaying<A> {
    ghost use Rattle.std.specs.Prelude.{⊤};
    ghost use Rattle.hg_store_tools.specs.Reporting.{ReplaysNoRecord, ReplaysRecord};

    ghost takes = { λ _ entry. ⊤ };

    ghost visits = { λ _ place entry before after. ReplaysRecord place entry before after };

    ghost fails = { λ _ place entry fault before after. ReplaysNoRecord place entry fault before };

    fn visit(&self, place: usize, entry: &Entry<A>, target: &mut Replayed<A>) -> Result<(), Fault> {
        match replay_record(self.alloc, &mut target.repo, place, entry.bundle()) {
            Ok(()) => {
                target.count = place + 1;
                Ok(())
            }
            Err(fault) => Err(unrun_fault(fault)),
        }
    }
}

/// Runs the records of a store that the reader gives, one by one, on the repository that is empty at first, and
/// writes the report of what it then holds, and after it a line `J n` for each of them, n from 0. A torn
/// store gives the records that are whole, and says so. A damaged one is refused, and so is one with a record
/// that is not done when it is run again: then nothing is written. The state is to be random.
pub fn send_report<R: Read, W: Writer, A: Allocator + Copy>(
    alloc: A,
    state: RandomState,
    reader: &mut R,
    writer: &mut W,
) -> Result<StoreEnd, Fault>
    ensures ok { IfOk result (λ ending. (file : List ℕ) × HasToGive (R.remaining reader.old) file
        × (text : List ℕ) × (count : ℕ) × Reports A file ending text
        × Sends sent_whole count (W.told writer.old) (W.told writer.new) text) }
    ensures err { IfErr result (λ fault. (file : List ℕ) × HasToGive (R.remaining reader.old) file
        × IsUnreported A file (W.told writer.old) (W.told writer.new) fault) }
{
    let (ending, text) = match report_text(alloc, state, reader) {
        Ok(told) => told,
        Err(fault) => return Err(fault),
    };
    match sent(writer, &text) {
        Ok(()) => {}
        Err(fault) => return Err(fault),
    }
    Ok(ending)
}

/// The report of what the records give, and the lines of the journal.
fn report_text<R: Read, A: Allocator + Copy>(
    alloc: A,
    state: RandomState,
    reader: &mut R,
) -> Result<(StoreEnd, Vec<u8, A>), Fault>
    ensures ok { IfOk result (λ told. (file : List ℕ) × HasToGive (R.remaining reader.old) file
        × Reports A file told.0 told.1.items) }
    ensures err { IfErr result (λ fault. (file : List ℕ) × HasToGive (R.remaining reader.old) file
        × IsUntold A file fault) }
{
    let begun = match begin(alloc, reader) {
        Ok(begun) => begun,
        Err(fault) => return Err(fault),
    };
    let mut replayed = Replayed {
        repo: empty_repository(alloc, state, &begun.head.setup()),
        count: 0,
    };
    let replaying = Replaying { alloc };
    let ending = match visit_records(alloc, &begun, reader, &replaying, &mut replayed) {
        Ok(ending) => ending,
        Err(fault) => {
            drop(replayed);
            return Err(fault);
        }
    };
    let Replayed { repo, count } = replayed;
    told_text(alloc, repo, count, ending)
}

/// Why records do not run to their end, as a fault of the store.
pub(crate) fn unrun_fault(fault: RestoreFault) -> Fault
    ensures { result ≡ unrun_fault fault }
{
    match fault {
        RestoreFault::NoBundle(place) => Fault::NoBundle(place),
        RestoreFault::Refused(place) => Fault::Refused(place),
        RestoreFault::NoMemory => Fault::NoMemory,
    }
}

/// How a store ends, with the report of the repository and a line for each of so many pushes.
fn told_text<A: Allocator + Copy>(
    alloc: A,
    repo: Repo<A>,
    count: usize,
    ending: StoreEnd,
) -> Result<(StoreEnd, Vec<u8, A>), Fault>
    ensures ok { IfOk result (λ told. (told.0 ≡ ending) × (told.1.items ≡ report_text repo count)) }
    ensures err { IfErr result (λ fault. fault ≡ Fault.NoMemory) }
{
    let text = lines_of(alloc, &repo, count);
    drop(repo);
    match text {
        Ok(text) => Ok((ending, text)),
        Err(_) => Err(Fault::NoMemory),
    }
}

/// The report of the repository, and a line for each of so many pushes.
fn lines_of<A: Allocator + Copy>(
    alloc: A,
    repo: &Repo<A>,
    count: usize,
) -> Result<Vec<u8, A>, NoMemory>
    ensures { IfOk result (λ text. text.items ≡ report_text repo.now count) }
{
    let mut text = repo.report()?;
    add_journal_lines(alloc, &mut text, count)?;
    Ok(text)
}

/// Writes the bytes and flushes.
pub(crate) fn sent<W: Writer>(writer: &mut W, bytes: &[u8]) -> Result<(), Fault>
    ensures ok { OnOk result ((count : ℕ)
        × Sends sent_whole count (W.told writer.old) (W.told writer.new) bytes.now) }
    ensures err { IfErr result (λ fault. (sending : AnySending) × (count : ℕ) × (fault ≡ sending_fault sending)
        × Sends sending count (W.told writer.old) (W.told writer.new) bytes.now) }
{
    let (sending, _count) = send(writer, bytes);
    match sending {
        Sending::Whole => Ok(()),
        Sending::Broken => Err(Fault::Unsent),
        Sending::NoMemory => Err(Fault::NoMemory),
    }
}
