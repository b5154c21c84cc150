//! A store that is followed: it is read while another process holds it, and taken over once that is gone.

ghost use Rattle.std.specs.Prelude.{◌≡◌, [], List, ℕ, IfOk, OnOk, true};
ghost use Rattle.hg_store.specs.Again.{HasGates};
ghost use Rattle.hg_store.specs.Entries.{Entry as AnyEntry};
ghost use Rattle.hg_store.specs.Head.{head_for};
ghost use Rattle.hg_store.specs.Openings.{HasEnded, HasRead};
ghost use Rattle.hg_store.specs.Standbys.{AreOpen, HasHeading, LooksOnly, StandsStill};
ghost use Rattle.hg_store.specs.declared.head.Head.{Head as AnyHead};
ghost use Rattle.hg_store.specs.declared.head.Setup.{Setup as AnySetup};

use crate::calls::Calls;
use crate::device::DeviceError;
use crate::front::Opening;
use crate::head::{OPEN, Version, is_same, read_byte};
use crate::numbers::{SECOND, read_numbers};
use crate::record::DIGEST;
use std::alloc::Allocator;

/// How many bytes stand before the bundle of a record, at most: its gate, its numbers, the longest name and its digest.
const HEADING: usize = 1 + SECOND + 255 + DIGEST;

impl<C: Calls, A: Allocator + Copy> Opening<C, A> {
    /// Goes back to the end of the records, where no other was found. There may be one later.
    pub fn go_back(&mut self) -> Result<(), DeviceError>
        requires { (setup : AnySetup) × HasEnded C.Calls.drawn setup self.old }
        ensures read { (setup : AnySetup) → HasEnded C.Calls.drawn setup self.old →
            OnOk result (HasRead C.Calls.drawn setup [] self.new) }
        ensures same { C.Calls.history self.new.calls ≡ C.Calls.history self.old.calls }
        ensures records { (self.new.records ≡ self.old.records) × (self.new.identity ≡ self.old.identity) }
    {
        self.calls.go_back(self.end)?;
        Ok(())
    }

    /// Whether the records that were read stand there still, of which at least one is asked for: each gate that is known
    /// is looked at again and is open, and the digest of the last record is looked at again, which takes in all records
    /// before it, and is its digest still.
    pub fn still_stands(&mut self) -> Result<bool, DeviceError>
        requires { (setup : AnySetup) × HasRead C.Calls.drawn setup [] self.old }
        ensures read { (setup : AnySetup) → HasRead C.Calls.drawn setup [] self.old →
            OnOk result (HasRead C.Calls.drawn setup [] self.new) }
        ensures records { (self.new.records ≡ self.old.records) × (self.new.identity ≡ self.old.identity) }
        ensures still { (setup : AnySetup) → HasRead C.Calls.drawn setup [] self.old →
            IfOk result (λ stands. stands ≡ true → StandsStill (head_for setup self.old.identity)
            self.old.records.entries (C.Calls.history self.old.calls) (C.Calls.history self.new.calls)) }
        ensures looks { LooksOnly (C.Calls.history self.old.calls) (C.Calls.history self.new.calls) }
    {
        let count = self.gates.len();
        if count == 0 {
            return Ok(false);
        }
        let last = self.gates[count - 1];
        if !are_open(&mut self.calls, self.gates.as_slice(), &mut self.frame)? {
            return Ok(false);
        }
        self.frame.clear();
        self.calls.look(last, HEADING, &mut self.frame)?;
        Ok(has_digest(&self.digest, &self.frame))
    }
}

/// Whether each of the gates is open, as they are looked at again.
fn are_open<C: Calls, A: Allocator>(
    calls: &mut C,
    gates: &[usize],
    bytes: &mut Vec<u8, A>,
) -> Result<bool, DeviceError>
    ensures same { OnOk result (C.Calls.drawn calls.new ≡ C.Calls.drawn calls.old) }
    ensures opened { (head : AnyHead) (records : List AnyEntry) → HasGates head records gates.now →
        IfOk result (λ are. are ≡ true → AreOpen head records (C.Calls.history calls.old)
        (C.Calls.history calls.new)) }
    ensures looks { LooksOnly (C.Calls.history calls.old) (C.Calls.history calls.new) }
{
    let mut next = 0;
    'gates: while next < gates.len() {
        bytes.clear();
        calls.look(gates[next], 1, bytes)?;
        if !is_same(bytes.as_slice(), &[OPEN]) {
            return Ok(false);
        }
        next += 1;
    }
    Ok(true)
}

/// Whether a record begins so that has that digest.
fn has_digest(digest: &[u8; 20], bytes: &[u8]) -> bool
    ensures { result ≡ true → HasHeading digest.now bytes.now }
{
    if bytes.is_empty() {
        return false;
    }
    let (gate, behind) = read_byte(bytes);
    if gate != OPEN {
        return false;
    }
    let Some((numbers, rest)) = read_numbers(Version::Second, behind) else {
        return false;
    };
    let named = numbers.named as usize;
    if rest.len() < named + DIGEST {
        return false;
    }
    let (_name, rest) = rest.split_at(named);
    let (told, _bundle) = rest.split_at(DIGEST);
    is_same(told, digest.as_slice())
}
