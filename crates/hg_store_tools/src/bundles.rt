//! The pushes of a store, each as its bundle: one after the other to a writer, or each to a place of its own.

ghost use Rattle.std.specs.Prelude.{◌≡◌, ◌≤◌, ◌∷◌, [], ℕ, List, Option, IfErr, IfOk, OnErr, OnOk};
ghost use Rattle.hg_connection.specs.Devices.{TellsMore};
ghost use Rattle.hg_store.specs.Head.{IsHead};
ghost use Rattle.hg_store.specs.Pieces.{HasToGive};
ghost use Rattle.hg_store_tools.specs.Logging.{IsLogged, IsLoggedOn, IsShelved, IsShelvedOn, IsUnlogged};

use crate::fault::{Fault, StoreEnd};
use crate::form::{BundleForm, in_form};
use crate::marks::StoreStart;
use crate::report::sent;
use crate::visit::{Beginning, RecordVisit, begin, visit_from, visit_records};
use hg_connection::Writer;
use hg_store::Entry;
use hg_types::Limits;
use std::alloc::Allocator;
use std::io::Read;
use std::marker::Model;

/// A place for the bundles of pushes.
pub trait BundleSink {
    /// The places so far with their bundles, in order. It may report none.
    ghost has: { Self → Option (List (ℕ × List ℕ)) };

    /// Puts the bundle of the push at a place. One that is there already is not written over: that is
    /// refused.
    fn put(&mut self, place: usize, bundle: &[u8]) -> Result<(), Fault>
        ensures put { OnOk result (TellsMore (has self.old) (has self.new) ((place, bundle.now) ∷ [])) }
        ensures refused { OnErr result (has self.new ≡ has self.old) };
}

/// Which bundles of a store are written, and in which form.
#[derive(Drop)]
pub(crate) struct Logging<A: Allocator> {
    pub(crate) alloc: A,
    pub(crate) limits: Limits,
    pub(crate) from: usize,
    pub(crate) form: BundleForm,
}

impl<A: Allocator> Model for Logging<A> {
    ghost use Rattle.hg_types.specs.Limits.{IsAllowed};
    ghost use Rattle.hg_store_tools.specs.Logging.{LogForm};

    ghost Value = { LogForm };

    ghost view = { λ l. record { limits = l.limits; from = l.from; form = l.form } };

    ghost invariant = { λ l. IsAllowed l.limits };
}

impl<W: Writer, A: Allocator + Copy> RecordVisit<W, A> for Logging<A> {
    ghost use Rattle.std.specs.Prelude.{⊤};
    ghost use Rattle.hg_store_tools.specs.Logging.{SendsRecord, SendsNoRecord};

    ghost takes = { λ _ entry. ⊤ };

    ghost visits = { λ s place entry before after.
        SendsRecord A s place entry (W.told before).taken (W.told after).taken };

    ghost fails = { λ s place entry fault before after.
        SendsNoRecord A s place entry fault (W.told before).taken (W.told after).taken };

    fn visit(&self, place: usize, entry: &Entry<A>, target: &mut W) -> Result<(), Fault> {
        if place < self.from {
            return Ok(());
        }
        match in_form(self.alloc, self.limits, self.form, place, entry.bundle()) {
            Ok(bundle) => sent(target, bundle.bytes()),
            Err(fault) => Err(fault),
        }
    }
}

/// The bundles of a store that are put on a shelf.
#[derive(Drop)]
struct Shelving<A: Allocator> {
    log: Logging<A>,
}

impl<S: BundleSink, A: Allocator + Copy> RecordVisit<S, A> for Shelving<A> {
    ghost use Rattle.std.specs.Prelude.{⊤};
    ghost use Rattle.hg_store_tools.specs.Logging.{PutsRecord};

    ghost takes = { λ _ entry. ⊤ };

    ghost visits = { λ s place entry before after. PutsRecord A s.log place entry (S.has before) (S.has after) };

    ghost fails = { λ s place entry fault before after. S.has after ≡ S.has before };

    fn visit(&self, place: usize, entry: &Entry<A>, target: &mut S) -> Result<(), Fault> {
        let log = &self.log;
        if place < log.from {
            return Ok(());
        }
        match in_form(log.alloc, log.limits, log.form, place, entry.bundle()) {
            Ok(bundle) => target.put(place, bundle.bytes()),
            Err(fault) => Err(fault),
        }
    }
}

/// Writes the bundles of a store that the reader gives, from a place on and in that form, one after the other, each as
/// it was read and found right. After the last record there is none. A torn store gives those that are whole, and says
/// so, and a damaged one those before the damage.
pub fn send_log<R: Read, W: Writer, A: Allocator + Copy>(
    alloc: A,
    reader: &mut R,
    from: usize,
    form: BundleForm,
    writer: &mut W,
) -> Result<StoreEnd, Fault>
    ensures ok { IfOk result (λ ending. (file : List ℕ) × HasToGive (R.remaining reader.old) file
        × IsLogged form A file from ending (W.told writer.old).taken (W.told writer.new).taken) }
    ensures err { IfErr result (λ fault. (file : List ℕ) × HasToGive (R.remaining reader.old) file
        × IsUnlogged form A file from (W.told writer.old).taken (W.told writer.new).taken fault) }
{
    let begun = match begin(alloc, reader) {
        Ok(begun) => begun,
        Err(fault) => return Err(fault),
    };
    let logging = Logging {
        alloc,
        limits: begun.head.limits,
        from,
        form,
    };
    visit_records(alloc, &begun, reader, &logging, writer)
}

/// Writes the bundles of a store that the reader gives from a mark on, as [`send_log`] writes them. Each stands behind
/// the mark, whole, and goes on from its digest.
pub fn send_log_on<R: Read, W: Writer, A: Allocator + Copy>(
    alloc: A,
    start: &StoreStart,
    reader: &mut R,
    from: usize,
    form: BundleForm,
    writer: &mut W,
) -> Result<StoreEnd, Fault>
    requires { IsHead start.now.head }
    ensures { IfOk result (λ ending. (rest : List ℕ) × HasToGive (R.remaining reader.old) rest
        × IsLoggedOn form A start.now.head start.now.mark rest from ending (W.told writer.old).taken
        (W.told writer.new).taken) }
{
    let logging = Logging {
        alloc,
        limits: start.head.limits,
        from,
        form,
    };
    let begun = Beginning {
        head: start.head,
        digest: start.mark.digest,
    };
    visit_from(alloc, &begun, start.mark.place, reader, &logging, writer)
}

/// Puts the bundles of a store that the reader gives on a shelf, as [`send_log`] writes them.
pub fn put_log<R: Read, S: BundleSink, A: Allocator + Copy>(
    alloc: A,
    reader: &mut R,
    from: usize,
    form: BundleForm,
    shelf: &mut S,
) -> Result<StoreEnd, Fault>
    ensures ok { IfOk result (λ ending. (file : List ℕ) × HasToGive (R.remaining reader.old) file
        × IsShelved form A file from ending (S.has shelf.old) (S.has shelf.new)) }
{
    let begun = match begin(alloc, reader) {
        Ok(begun) => begun,
        Err(fault) => return Err(fault),
    };
    let log = Logging {
        alloc,
        limits: begun.head.limits,
        from,
        form,
    };
    visit_records(alloc, &begun, reader, &Shelving { log }, shelf)
}

/// Puts the bundles of a store that the reader gives from a mark on, as [`put_log`] puts them.
pub fn put_log_on<R: Read, S: BundleSink, A: Allocator + Copy>(
    alloc: A,
    start: &StoreStart,
    reader: &mut R,
    from: usize,
    form: BundleForm,
    shelf: &mut S,
) -> Result<StoreEnd, Fault>
    requires head { IsHead start.now.head }
    requires mark { start.now.mark.place ≤ from }
    ensures { IfOk result (λ ending. (rest : List ℕ) × HasToGive (R.remaining reader.old) rest
        × IsShelvedOn form A start.now.head start.now.mark rest from ending (S.has shelf.old) (S.has shelf.new)) }
{
    let log = Logging {
        alloc,
        limits: start.head.limits,
        from,
        form,
    };
    let begun = Beginning {
        head: start.head,
        digest: start.mark.digest,
    };
    let shelving = Shelving { log };
    visit_from(alloc, &begun, start.mark.place, reader, &shelving, shelf)
}
