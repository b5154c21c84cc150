//! A store that is ended before one of its records, and what is kept of those that it loses.

ghost use Rattle.std.specs.Prelude.{◌≡◌, ◌≢◌, ◌⊎◌, ◌<◌, ◌≤◌, ◌+◌, ◌^◌, [], ℕ, List, IfErr, IfOk, OnOk};
ghost use Rattle.std.specs.Prelude.{drop, length, take};
ghost use Rattle.hg_store.specs.Calls.{IsPlaced, IsPlacedWhole};
ghost use Rattle.hg_store.specs.Log.{at_rest};
ghost use Rattle.hg_store.specs.Entries.{Entry as AnyEntry};
ghost use Rattle.hg_store.specs.Pieces.{HasToGive};
ghost use Rattle.hg_store.specs.Records.{IsRecord, digest_of, frame};
ghost use Rattle.hg_store.specs.declared.head.Head.{Head as AnyHead};
ghost use Rattle.hg_store_tools.specs.Cutting.{AreNew, AreUnplaced, CutsNoRecord, CutsRecord, HasCut, HasPlace};
ghost use Rattle.hg_store_tools.specs.Cutting.{IsCutInto, IsFront, IsOfFiles, IsToldAs, IsUncut, LeavesBy};
ghost use Rattle.hg_store_tools.specs.Cutting.{joined};
ghost use Rattle.hg_store_tools.specs.Filling.{AddsRecord, FillsMore, IsUnplaced};
ghost use Rattle.hg_store_tools.specs.declared.cut.CutFault.TheVariants.{Kept as kept_failed};

use crate::fault::Fault;
use crate::filling::{Filling, NewStore};
use crate::rest::{
    StoreBytes, StoreRest, fault_of_device, has_place, keep_rest, read_rest, stop_of,
};
use crate::visit::{RecordVisit, begin, visit_records};
use hg_store::{Entry, Head, NewFile, TailKeeper, Version, put_record};
use std::alloc::Allocator;
use std::io::Read;
use std::marker::Model;

/// The two new files of a cut, how many records were read, where they end in the old store, and the digest of the last.
#[derive(Drop)]
pub struct CutFiles<K: NewFile, N: NewFile> {
    kept: Filling<K>,
    left: NewStore<N>,
    count: usize,
    end: usize,
    digest: [u8; 20],
}

impl<K: NewFile, N: NewFile> Model for CutFiles<K, N> {
    ghost use Rattle.hg_store_tools.specs.Cutting.{CutSoFar};

    ghost Value = { CutSoFar };

    ghost view = { λ f. record {
      kept = f.kept;
      left = f.left;
      count = f.count;
      end = f.end;
      digest = f.digest;
    } };
}

impl<K: NewFile, N: NewFile> CutFiles<K, N> {
    /// What is kept goes to one file, and the new store to the other. No call was made on either.
    pub fn of(kept: K, left: N) -> Self
        ensures kept { result.kept.calls ≡ K.Calls.history kept }
        ensures left { result.left.file.calls ≡ N.Calls.history left }
    {
        CutFiles {
            kept: Filling::of(kept),
            left: NewStore::of(left),
            count: 0,
            end: 0,
            digest: [0; 20],
        }
    }

    /// The file of what is kept.
    pub fn kept(&self) -> &K
        ensures { self.now.kept.calls ≡ K.Calls.history result.now }
    {
        self.kept.file()
    }

    /// The file of the new store.
    pub fn new_store(&self) -> &N
        ensures { self.now.left.file.calls ≡ N.Calls.history result.now }
    {
        self.left.file()
    }

    /// The fault of the cut where the next record was not written to one of the files.
    fn fault_by(&self, at: usize, fault: Fault) -> CutFault
        ensures { IsToldAs fault result }
    {
        match fault {
            Fault::Unsent if self.count < at => CutFault::New,
            Fault::Unsent => CutFault::Kept(Fault::Failed),
            fault => CutFault::Store(fault),
        }
    }

    /// Writes the head of the new store.
    fn begin<A: Allocator + Copy>(&mut self, alloc: A, head: &Head) -> Result<(), CutFault>
        requires { AreNew self.old }
        ensures begun { OnOk result ((at : ℕ) → HasCut head.now at [] self.new) }
        ensures err { IfErr result (λ fault. IsOfFiles fault × AreUnplaced self.new) }
    {
        self.count = 0;
        match self.kept.clear() {
            Ok(()) => {}
            Err(_) => return Err(CutFault::Kept(Fault::Failed)),
        }
        match self.left.begin(alloc, head) {
            Ok(()) => {
                self.end = self.left.end();
                self.digest = self.left.digest();
                Ok(())
            }
            Err(Fault::NoMemory) => Err(CutFault::Store(Fault::NoMemory)),
            Err(_) => Err(CutFault::New),
        }
    }

    /// Writes the record at a place to the new store, where it stands as in the old one.
    fn leave<A: Allocator + Copy>(
        &mut self,
        alloc: A,
        version: Version,
        place: usize,
        entry: &Entry<A>,
    ) -> Result<(), Fault>
        requires place { place + 1 < 2 ^ 64 }
        requires entry { IsRecord version entry.now }
        ensures left { OnOk result (AddsRecord version entry.now self.old.left self.new.left
            × (self.new.kept ≡ self.old.kept) × (self.new.count ≡ place + 1)) }
        ensures end { OnOk result ((self.new.end ≡ self.new.left.file.end) × (self.new.digest ≡ self.new.left.digest)) }
        ensures err { IfErr result (λ fault. CutsNoRecord fault self.old self.new) }
    {
        match self.left.add(alloc, version, entry) {
            Ok(()) => {
                self.count = place + 1;
                self.end = self.left.end();
                self.digest = self.left.digest();
                Ok(())
            }
            Err(fault) => Err(fault),
        }
    }

    /// Writes the bundle of the record at a place to the file beside it.
    fn keep<A: Allocator + Copy>(
        &mut self,
        alloc: A,
        version: Version,
        place: usize,
        entry: &Entry<A>,
    ) -> Result<(), Fault>
        requires place { place + 1 < 2 ^ 64 }
        requires entry { IsRecord version entry.now }
        ensures kept { OnOk result (FillsMore self.old.kept self.new.kept entry.now.bundle
            × (self.new.left ≡ self.old.left) × (self.new.count ≡ place + 1)) }
        ensures end { OnOk result ((self.new.end ≡ self.old.end + length (frame version self.old.digest entry.now))
            × (self.new.digest ≡ digest_of version self.old.digest entry.now)) }
        ensures err { IfErr result (λ fault. CutsNoRecord fault self.old self.new) }
    {
        match self.pass(alloc, version, entry) {
            Ok(()) => {}
            Err(fault) => return Err(fault),
        }
        match self.kept.add(entry.bundle()) {
            Ok(()) => {
                self.count = place + 1;
                Ok(())
            }
            Err(fault) => Err(fault),
        }
    }

    /// Passes over the next record of the old store.
    fn pass<A: Allocator + Copy>(
        &mut self,
        alloc: A,
        version: Version,
        entry: &Entry<A>,
    ) -> Result<(), Fault>
        requires { IsRecord version entry.now }
        ensures end { OnOk result ((self.new.end ≡ self.old.end + length (frame version self.old.digest entry.now))
            × (self.new.digest ≡ digest_of version self.old.digest entry.now)) }
        ensures same { (self.new.kept ≡ self.old.kept) × (self.new.left ≡ self.old.left) }
        ensures err { IfErr result (λ fault. (fault ≡ Fault.Unsent) ⊎ (fault ≡ Fault.NoMemory)) }
    {
        let mut bytes = Vec::new(alloc);
        let digest = match put_record(&mut bytes, version, &self.digest, entry) {
            Ok(digest) => digest,
            Err(_) => return Err(Fault::NoMemory),
        };
        let Some(end) = self.end.checked_add(bytes.len()) else {
            return Err(Fault::Unsent);
        };
        self.end = end;
        self.digest = digest;
        Ok(())
    }

    /// Gives each file its name, once it is on the disk: the new store not before the other.
    fn place(&mut self) -> Result<(), CutFault>
        ensures whole { (head : AnyHead) (at : ℕ) (records : List AnyEntry) → HasCut head at records self.old →
            IsPlacedWhole (joined (drop at records)) self.new.kept.calls
            × IsPlacedWhole (at_rest head (take at records)) self.new.left.file.calls }
        ensures kept_first { IsUnplaced self.old.left.file.calls →
            IsUnplaced self.new.left.file.calls ⊎ IsPlaced self.new.kept.calls }
        ensures placed { OnOk result (IsPlaced self.new.left.file.calls) }
        ensures err { IfErr result (λ fault. ((fault ≡ kept_failed Fault.Failed) × (self.new.left ≡ self.old.left))
            ⊎ (fault ≡ CutFault.New)) }
    {
        match self.kept.place() {
            Ok(()) => {}
            Err(_) => return Err(CutFault::Kept(Fault::Failed)),
        }
        match self.left.place() {
            Ok(()) => Ok(()),
            Err(_) => Err(CutFault::New),
        }
    }
}

/// Writes each record of a store to one of the two files of a cut before that place.
#[derive(Drop)]
struct Cutting<A: Allocator> {
    alloc: A,
    version: Version,
    at: usize,
}

impl<K: NewFile, N: NewFile, A: Allocator + Copy> RecordVisit<CutFiles<K, N>, A> for Cutting<A> {
    ghost use Rattle.hg_store.specs.Records.{IsRecord};
    ghost use Rattle.hg_store_tools.specs.Cutting.{CutsNoRecord, CutsRecord};

    ghost takes = { λ c entry. IsRecord c.version entry };

    ghost visits = { λ c place entry before after. CutsRecord c.version c.at place entry before after };

    ghost fails = { λ _ place entry fault before after. CutsNoRecord fault before after };

    fn visit(
        &self,
        place: usize,
        entry: &Entry<A>,
        target: &mut CutFiles<K, N>,
    ) -> Result<(), Fault> {
        if place < self.at {
            return target.leave(self.alloc, self.version, place, entry);
        }
        target.keep(self.alloc, self.version, place, entry)
    }
}

/// Cuts a store before a place: the records before it are written to a new store, and the bundles of the others, one
/// after the other, to a file beside it. Where no record stands there, and after the whole records nothing but bytes
/// that are 0, or no byte, it is refused. What else stands after the whole records is kept first. Then each file gets
/// its name once it is on the disk: so at any moment the old store or the new one is there, and the new one not
/// before what it leaves out is kept. The store is in memory for two records, and then for what stands after them.
pub fn put_cut<
    R: Read + Drop,
    S: StoreBytes<R>,
    T: TailKeeper,
    K: NewFile,
    N: NewFile,
    A: Allocator + Copy,
>(
    alloc: A,
    store: &S,
    at: usize,
    keeper: &mut T,
    files: &mut CutFiles<K, N>,
) -> Result<(), CutFault>
    requires { AreNew files.old }
    ensures cut { (file : List ℕ) × HasToGive (S.bytes store.now) file
        × IsCutInto file at (T.done keeper.old) (T.done keeper.new) files.new }
    ensures placed { OnOk result (IsPlaced files.new.left.file.calls) }
    ensures err { IfErr result (λ fault. LeavesBy fault files.new
        × (file : List ℕ) × HasToGive (S.bytes store.now) file × IsUncut fault file at) }
{
    let rest = match cut_records(alloc, store, at, files) {
        Ok(rest) => rest,
        Err(fault) => return Err(fault),
    };
    let whole = files.count;
    match keep_rest(alloc, keeper, whole, &rest.tail) {
        Ok(()) => files.place(),
        Err(fault) => Err(CutFault::Tail(whole, fault)),
    }
}

/// Writes the records of a store to the two files of a cut before that place, and gives what stands after them. Neither
/// file gets a name.
fn cut_records<R: Read + Drop, S: StoreBytes<R>, K: NewFile, N: NewFile, A: Allocator + Copy>(
    alloc: A,
    store: &S,
    at: usize,
    files: &mut CutFiles<K, N>,
) -> Result<StoreRest<A>, CutFault>
    requires { AreNew files.old }
    ensures ok { IfOk result (λ rest. (file : List ℕ) × HasToGive (S.bytes store.now) file
        × (head : AnyHead) × (records : List AnyEntry) × IsFront file head records rest.stop rest.tail.items
        × HasPlace at (length records) rest.stop rest.tail.items × HasCut head at records files.new) }
    ensures err { IfErr result (λ fault. AreUnplaced files.new
        × (file : List ℕ) × HasToGive (S.bytes store.now) file × IsUncut fault file at) }
{
    let mut reader = match store.reader_from(0) {
        Ok(reader) => reader,
        Err(error) => return Err(CutFault::Store(fault_of_device(error))),
    };
    let begun = match begin(alloc, &mut reader) {
        Ok(begun) => begun,
        Err(fault) => return Err(CutFault::Store(fault)),
    };
    match files.begin(alloc, &begun.head) {
        Ok(()) => {}
        Err(fault) => return Err(fault),
    }
    let version = begun.head.version();
    let cutting = Cutting { alloc, version, at };
    match stop_of(visit_records(alloc, &begun, &mut reader, &cutting, files)) {
        Ok(_) => {}
        Err(fault) => return Err(files.fault_by(at, fault)),
    }
    let rest = match read_rest(alloc, store, version, &files.digest, files.end) {
        Ok(rest) => rest,
        Err(fault) => return Err(CutFault::Store(fault)),
    };
    let count = files.count;
    if !has_place(at, count, rest.stop, &rest.tail) {
        return Err(CutFault::Store(Fault::NoPlace(count)));
    }
    Ok(rest)
}

/// Why a store is not cut.
#[derive(Clone, Copy, Debug, PartialEq, Eq)]
pub enum CutFault {
    /// The store is not read, or has no such place: it is as it was.
    Store(Fault),
    /// What stands after so many whole records is not kept: the store is as it was.
    Tail(usize, Fault),
    /// What is kept has not got its name: the store is as it was.
    Kept(Fault),
    /// The file of the new store failed: the old one or the new one is there.
    New,
}
