//! A store that is gone through once, before a log of it is written.

ghost use Rattle.std.specs.Prelude.{ℕ, List, IfErr, IfOk};
ghost use Rattle.hg_store.specs.Entries.{Entry as AnyEntry};
ghost use Rattle.hg_store.specs.Pieces.{HasToGive};
ghost use Rattle.hg_store.specs.declared.head.Head.{Head as AnyHead};
ghost use Rattle.hg_store_tools.specs.Places.{IsReadOn, IsUnreadOn};
ghost use Rattle.hg_store_tools.specs.Reading.{IsRead, IsUnread};

use crate::fault::{Fault, StoreEnd};
use crate::marks::StoreStart;
use crate::visit::{Beginning, RecordVisit, begin, visit_from, visit_records};
use hg_store::Entry;
use std::alloc::Allocator;
use std::io::Read;

/// Nothing is done with a record.
struct Passing;

impl<A: Allocator> RecordVisit<(), A> for Passing {
    ghost use Rattle.std.specs.Prelude.{⊤};

    ghost takes = { λ _ entry. ⊤ };

    ghost visits = { λ _ place entry before after. ⊤ };

    ghost fails = { λ _ place entry fault before after. ⊥ };

    fn visit(&self, _place: usize, _entry: &Entry<A>, _target: &mut ()) -> Result<(), Fault> {
        Ok(())
    }
}

/// Reads all records of a store that the reader gives, and tells how they end. An `Err` says that it has no head, or
/// where it is damaged.
pub fn check_records<R: Read, A: Allocator + Copy>(
    alloc: A,
    reader: &mut R,
) -> Result<StoreEnd, Fault>
    ensures ok { IfOk result (λ ending. (file : List ℕ) × HasToGive (R.remaining reader.old) file
        × (head : AnyHead) × (records : List AnyEntry) × IsRead file head records ending) }
    ensures err { IfErr result (λ fault. (file : List ℕ) × HasToGive (R.remaining reader.old) file
        × IsUnread fault file) }
{
    let begun = match begin(alloc, reader) {
        Ok(begun) => begun,
        Err(fault) => return Err(fault),
    };
    visit_records(alloc, &begun, reader, &Passing, &mut ())
}

/// Reads all records of a store that the reader gives from a mark on, as [`check_records`] does.
pub fn check_records_on<R: Read, A: Allocator + Copy>(
    alloc: A,
    start: &StoreStart,
    reader: &mut R,
) -> Result<StoreEnd, Fault>
    ensures ok { IfOk result (λ ending. (rest : List ℕ) × HasToGive (R.remaining reader.old) rest
        × (records : List AnyEntry) × IsReadOn start.now.head start.now.mark rest records ending) }
    ensures err { IfErr result (λ fault. (rest : List ℕ) × HasToGive (R.remaining reader.old) rest
        × IsUnreadOn start.now.head start.now.mark rest fault) }
{
    let begun = Beginning {
        head: start.head,
        digest: start.mark.digest,
    };
    visit_from(alloc, &begun, start.mark.place, reader, &Passing, &mut ())
}
