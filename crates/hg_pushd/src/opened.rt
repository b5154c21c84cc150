//! A store that is opened, and what is printed of it.

ghost use Rattle.std.specs.Prelude.{IfOk};
ghost use Rattle.hg_recovery.specs.Opening.{IsOpened};

use hg_commands::tell;
use hg_recovery::{IfMissing, OpeningFault, Recovered, recover_store};
use hg_store::{Device, HostFile, KeptTail, StoreFile, StoreFolder};
use hg_store_tools::TornNote;
use std::fs::{File, Files};
use std::hash::RandomState;

/// Opens the store in a folder. Where none is there it is made, or refused if it has to be there. What it had after
/// its last whole record is kept, and that is printed.
pub fn open_store<R: Files<File = File> + AllocGlobal + Eprint>(
    rt: &R,
    state: RandomState,
    store: &str,
    publishing: bool,
    existing: bool,
) -> Result<Recovered<StoreFile<HostFile>>, OpeningFault>
    ensures { IfOk result (λ recovered. IsOpened ⟦<StoreFile<HostFile> as Device>⟧.seen
        ⟦<StoreFile<HostFile> as Device>⟧.may_leave recovered) }
{
    let mut folder = StoreFolder::new(rt, store);
    let if_missing = if existing {
        IfMissing::Refuse
    } else {
        IfMissing::Create
    };
    let recovered = recover_store(rt.alloc(), state, &mut folder, publishing, if_missing);
    tell_kept(rt, store, folder.kept());
    recovered
}

/// Prints where the tail of a store is kept, where one is.
pub fn tell_kept<R: Eprint>(rt: &R, folder: &str, kept: Option<KeptTail>) {
    if let Some(kept) = kept {
        print_kept(rt, folder, kept);
    }
}

fn print_kept<R: Eprint>(rt: &R, folder: &str, kept: KeptTail) {
    let size = kept.size;
    let place = kept.place;
    let _ = eprintln!(rt;
        "hg_pushd: {folder}/pushes: {place} pushes are whole; {size} bytes behind them are kept in {folder}/{kept}"
    );
}

/// The status where the store was not opened, which is printed.
pub fn not_opened<R: Eprint>(rt: &R, folder: &str, fault: &OpeningFault) -> u8 {
    let status = fault.status();
    if status == 4 {
        tell(rt, status);
    } else if let Some(whole) = fault.whole_before_torn() {
        let note = TornNote { folder, whole };
        let _ = eprintln!(rt; "hg_pushd: {note}");
    } else {
        let _ = eprintln!(rt; "hg_pushd: {folder}/pushes: {fault}");
    }
    status
}

/// Prints that the store failed, perhaps since it was changed by another.
pub fn store_failed<R: Eprint>(rt: &R, is_foreign: bool) {
    if is_foreign {
        let _ = eprintln!(rt; "hg_pushd: the store was changed by another");
    } else {
        let _ = eprintln!(rt; "hg_pushd: the store failed");
    }
}
