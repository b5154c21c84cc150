//! The frame of a push, as a follower of a store writes it.

ghost use Rattle.std.specs.Prelude.{◌≡◌, ◌<◌, ◌^◌, IfErr, IfOk, OnOk, length};
ghost use Rattle.std.specs.Io.KnownBytes.{Appends};
ghost use Rattle.hg_store_tools.specs.PushFrames.{SendsFront, frame_front, push_frame};

use crate::fault::Fault;
use crate::report::sent;
use hg_connection::Writer;
use hg_store::Stamp;
use hg_types::NoMemory;
use sha1::Sha1;
use std::alloc::Allocator;

/// What stands in a frame before the bundle: the place as eight bytes, the time of the push as eight, the length of the
/// name as one, the name, the length of the bundle as four, and the SHA-1 of the bundle. Numbers have the high byte
/// first.
fn frame_front<A: Allocator, B: Allocator>(
    alloc: A,
    place: usize,
    stamp: &Stamp<B>,
    bundle: &[u8],
) -> Result<Vec<u8, A>, NoMemory>
    requires bundle { length bundle.now < 2 ^ 32 }
    requires name { length stamp.now.name < 2 ^ 8 }
    ensures { IfOk result (λ front. front.items ≡ frame_front place stamp.now bundle.now) }
{
    let name = stamp.name();
    let mut front = Vec::new(alloc);
    front.extend_from_slice(&(place as u64).to_be_bytes())?;
    front.extend_from_slice(&stamp.time().to_be_bytes())?;
    front.push(name.len() as u8)?;
    front.extend_from_slice(name)?;
    front.extend_from_slice(&(bundle.len() as u32).to_be_bytes())?;
    front.extend_from_slice(&Sha1::digest(bundle))?;
    Ok(front)
}

/// Writes the frame of the push at a place, with that stamp and that bundle. An `Err` says that a part of it was
/// written, or nothing. A bundle whose length has no four bytes is refused.
pub(crate) fn send_frame<W: Writer, A: Allocator, B: Allocator>(
    alloc: A,
    place: usize,
    stamp: &Stamp<B>,
    bundle: &[u8],
    writer: &mut W,
) -> Result<(), Fault>
    ensures ok { OnOk result (Appends (W.told writer.old).taken (W.told writer.new).taken
        (push_frame place stamp.now bundle.now)) }
    ensures err { IfErr result (λ fault. SendsFront fault place (push_frame place stamp.now bundle.now)
        (W.told writer.old).taken (W.told writer.new).taken) }
{
    if bundle.len() > u32::MAX as usize || stamp.name().len() > u8::MAX as usize {
        return Err(Fault::NoBundle(place));
    }
    let front = match frame_front(alloc, place, stamp, bundle) {
        Ok(front) => front,
        Err(_) => return Err(Fault::NoMemory),
    };
    match sent(writer, &front) {
        Ok(()) => {}
        Err(fault) => return Err(fault),
    }
    sent(writer, bundle)
}
