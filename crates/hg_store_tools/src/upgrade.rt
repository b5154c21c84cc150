//! A store of version 1 that is written as one of version 2.

ghost use Rattle.std.specs.Prelude.{◌≡◌, ◌⊎◌, [], ℕ, List, Bool, IfErr, OnOk, true};
ghost use Rattle.hg_store.specs.Calls.{IsPlaced};
ghost use Rattle.hg_store.specs.Entries.{Entry as AnyEntry};
ghost use Rattle.hg_store.specs.Files.{StandsFor};
ghost use Rattle.hg_store.specs.Head.{head_for, setup_of, version_of};
ghost use Rattle.hg_store.specs.Pieces.{HasToGive};
ghost use Rattle.hg_store.specs.declared.head.Head.{Head as AnyHead};
ghost use Rattle.hg_store.specs.declared.head.Version.TheVariants.{First};
ghost use Rattle.hg_store_tools.specs.Filling.{HasRecords, IsUnplaced};
ghost use Rattle.hg_store_tools.specs.Upgrading.{IsNotUpgraded, IsToldOfNew, IsUpgradedInto, LeavesStore};

use crate::cut::CutFault;
use crate::fault::{Fault, StoreEnd};
use crate::filling::NewStore;
use crate::visit::{Beginning, RecordVisit, begin, visit_records};
use hg_store::laws::records_are_read_back;
use hg_store::{Entry, NewFile, Version};
use std::alloc::Allocator;
use std::io::Read;

/// A store that gets a second name, under which it is kept.
pub trait OldStore {
    /// Whether it has that name.
    ghost is_kept: { Self → Bool };

    /// Gives it that name, unless another file has it, and syncs the folder.
    fn keep(&mut self) -> Result<(), Fault>
        ensures { OnOk result (is_kept self.new ≡ true) };
}

/// Writes each record of a store of version 1 to one of version 2.
#[derive(Drop)]
struct Upgrading<A: Allocator> {
    alloc: A,
}

impl<N: NewFile, A: Allocator + Copy> RecordVisit<NewStore<N>, A> for Upgrading<A> {
    ghost use Rattle.hg_store.specs.Records.{IsRecord};
    ghost use Rattle.hg_store.specs.declared.head.Version.TheVariants.{First as first};
    ghost use Rattle.hg_store_tools.specs.Upgrading.{UpgradesNoRecord, UpgradesRecord};

    ghost takes = { λ _ entry. IsRecord first entry };

    ghost visits = { λ _ place entry before after. UpgradesRecord entry before after };

    ghost fails = { λ _ place entry fault before after. UpgradesNoRecord fault before after };

    fn visit(
        &self,
        _place: usize,
        entry: &Entry<A>,
        target: &mut NewStore<N>,
    ) -> Result<(), Fault> {
        target.add(self.alloc, Version::Second, entry)
    }
}

/// Upgrades a store of version 1 that the reader gives: a store of version 2 is written, of that name and with the same
/// records, each of the time 0 and without a name. A store of version 2 is refused, and so is a torn one. The new store
/// gets its name once it is on the disk, and not before the old one is kept under a second name.
pub fn put_upgrade<R: Read, O: OldStore, N: NewFile, A: Allocator + Copy>(
    alloc: A,
    reader: &mut R,
    identity: [u8; 16],
    old: &mut O,
    new: &mut NewStore<N>,
) -> Result<(), CutFault>
    requires { new.old.file.calls ≡ [] }
    ensures upgraded { (file : List ℕ) × HasToGive (R.remaining reader.old) file
        × IsUpgradedInto file identity new.new.file.calls }
    ensures kept_first { IsUnplaced new.new.file.calls ⊎ (O.is_kept old.new ≡ true) }
    ensures placed { OnOk result (IsPlaced new.new.file.calls) }
    ensures err { IfErr result (λ fault. LeavesStore fault new.new.file.calls
        × (file : List ℕ) × HasToGive (R.remaining reader.old) file × IsNotUpgraded fault file) }
{
    records_are_read_back();
    match upgrade_records(alloc, reader, identity, new) {
        Ok(()) => {}
        Err(fault) => return Err(fault),
    }
    match old.keep() {
        Ok(()) => {}
        Err(fault) => return Err(CutFault::Kept(fault)),
    }
    match new.place() {
        Ok(()) => Ok(()),
        Err(_) => Err(CutFault::New),
    }
}

/// Writes the records of a store of version 1 to one of version 2, which gets no name.
fn upgrade_records<R: Read, N: NewFile, A: Allocator + Copy>(
    alloc: A,
    reader: &mut R,
    identity: [u8; 16],
    new: &mut NewStore<N>,
) -> Result<(), CutFault>
    requires { new.old.file.calls ≡ [] }
    ensures ok { OnOk result ((file : List ℕ) × HasToGive (R.remaining reader.old) file
        × (head : AnyHead) × (records : List AnyEntry) × StandsFor head records file
        × (version_of head ≡ First) × HasRecords (head_for (setup_of head) identity) records new.new) }
    ensures err { IfErr result (λ fault. IsUnplaced new.new.file.calls
        × (file : List ℕ) × HasToGive (R.remaining reader.old) file × IsNotUpgraded fault file) }
{
    let begun = match begin(alloc, reader) {
        Ok(begun) => begun,
        Err(fault) => return Err(CutFault::Store(fault)),
    };
    match begun.head.version() {
        Version::First => {}
        Version::Second => return Err(CutFault::Store(Fault::Upgraded)),
    }
    match new.begin(alloc, &begun.head.setup().head(identity)) {
        Ok(()) => {}
        Err(fault) => return Err(of_new(fault)),
    }
    match visit_records(alloc, &begun, reader, &Upgrading { alloc }, new) {
        Ok(StoreEnd::Whole) => Ok(()),
        Ok(StoreEnd::Torn(whole)) => Err(CutFault::Store(Fault::Torn(whole))),
        Err(fault) => Err(of_new(fault)),
    }
}

/// The fault of a store, or of the new file that did not take its bytes.
fn of_new(fault: Fault) -> CutFault
    ensures { IsToldOfNew fault result }
{
    match fault {
        Fault::Unsent => CutFault::New,
        fault => CutFault::Store(fault),
    }
}
