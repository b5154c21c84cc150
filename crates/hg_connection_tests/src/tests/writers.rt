//! Writers that fail.

use super::*;

/// Twice the changeset of the empty text.
fn root_twice(alloc: Global) -> Result<Vec<u8>, Fail> {
    let mut bytes = Vec::from_slice(alloc, ROOT)?;
    bytes.extend_from_slice(ROOT)?;
    Ok(bytes)
}

/// Whether the first reply breaks off after so many bytes: the writer is not used again, no more is read, and
/// the push is done.
fn breaks<R: RandomSource + Wait + Abort>(
    rt: &R,
    alloc: Global,
    bundles: &[u8],
    writer: &mut Sink<Global>,
    taken: usize,
) -> bool {
    let mut reader = Source::in_pieces(bundles, ROOT.len());
    let told = connected(rt, alloc, &mut reader, writer, 9);
    let fault = Some(ConnFault::WriteFailed);
    let is = Told {
        bundles: 1,
        written: taken as u64,
        fault,
        done: 1,
        report: ROOT_REPORT,
    };
    told == is && ROOT_REPLY.get(..taken) == Some(writer.bytes()) && reader.reads() == 1
}

/// After each number of bytes of the reply a write fails, or takes nothing; or the flush fails.
/// `A A`; the writer fails, or takes nothing, after each number of bytes below 67; or its flush
/// fails. Result: so many bytes were taken, and the writer is not used again; WriteFailed; nothing
/// more is read; the push is done.
#[test]
fn a_writer_fails_after_some_bytes(rt: HostRuntime) -> Result<(), Fail> {
    let bundles = root_twice(rt.alloc())?;
    let mut right = true;
    for taken in 0..ROOT_REPLY.len() {
        let mut fails = Sink::failing(rt.alloc(), taken, true);
        let mut stops = Sink::failing(rt.alloc(), taken, false);
        right = right
            && breaks(&rt, rt.alloc(), &bundles, &mut fails, taken)
            && breaks(&rt, rt.alloc(), &bundles, &mut stops, taken);
    }
    let mut unflushed = Sink::without_flush(rt.alloc());
    let last = breaks(&rt, rt.alloc(), &bundles, &mut unflushed, ROOT_REPLY.len());
    assert!(rt; right && last);
    Ok(())
}

/// The fault that came first is told: that of the bytes, though the writer failed as well.
/// Bytes of another kind, and a writer that fails. Result: Stream(BadMagic).
#[test]
fn the_first_fault_is_told(rt: HostRuntime) {
    let mut reader = Source::new(b"HG10");
    let mut writer = Sink::failing(rt.alloc(), 5, true);
    let told = connected(&rt, rt.alloc(), &mut reader, &mut writer, 9);
    let fault = Some(ConnFault::Stream(StreamFault::BadMagic));
    assert!(rt;
        told == Told {
            bundles: 1,
            written: 5,
            fault,
            done: 0,
            report: 0,
        }
    );
}
