//! Growths that are refused, over heaps of every size.

use super::*;
use linked_list_allocator::LocalHeap;

/// The reply to a push that was aborted for lack of memory.
const REFUSED_REPLY: &[u8] =
    b"HG20\0\0\0\0\0\0\0\x28\x0bERROR:ABORT\0\0\0\0\x01\0\x07\x0dmessageout of memory\0\0\0\0\0\0\0\0";

/// The reply to a bundle of which a part was not kept, for lack of memory.
const UNREAD_REPLY: &[u8] =
    b"HG20\0\0\0\0\0\0\0\x2a\x0bERROR:ABORT\0\0\0\0\x01\0\x07\x0fmessagestream fault 11\0\0\0\0\0\0\0\0";

/// whether the bytes report out of memory. They are empty where there was no memory to tell it.
fn tells_want_of_memory(bytes: &[u8]) -> bool {
    bytes.is_empty() || bytes == REFUSED_REPLY || bytes == UNREAD_REPLY
}

/// One growth after another is refused, until none is. The answer comes or memory is wanting: there is no
/// third.
fn grows<R: RandomSource + Abort>(
    rt: &R,
    alloc: Global,
    bundle: &[u8],
    status: u8,
    reply: &[u8],
) -> Result<(), Fail> {
    let (mut answered, mut refused) = (0u32, 0u32);
    for sixteens in 1..512usize {
        let heap = LocalHeap::new(alloc, sixteens * 16)?;
        let mut reader = Source::new(bundle);
        let mut writer = Sink::new(alloc);
        let answer = run_one(&heap, state(rt), &mut reader, &mut writer, false);
        if answer == 4 {
            assert!(*rt; tells_want_of_memory(writer.bytes()));
            refused = refused.saturating_add(1);
            continue;
        }
        assert_eq!(*rt; answer, status);
        assert_eq!(*rt; writer.bytes(), reply);
        answered = answered.saturating_add(1);
    }
    assert!(*rt; answered > 0);
    assert!(*rt; refused > 0);
    Ok(())
}

/// Each worked example.
/// Each of these examples with one reply, but the long names, over heaps of 16 to 8,176 bytes; of
/// the fronts those of 3, 11 and 80 bytes. Reply and status: the answer, or 4 with no reply, the 60
/// bytes `out of memory` or the 62 bytes `stream fault 11`; no fourth. Both the answer and 4 occur.
#[test]
fn a_growth_is_refused(rt: HostRuntime) -> Result<(), Fail> {
    assert_eq!(rt; REFUSED_REPLY.len(), 60);
    assert_eq!(rt; UNREAD_REPLY.len(), 62);
    let examples: [(&[u8], u8, &[u8]); 16] = [
        (EMPTY, 0, EMPTY),
        (FIRST_PUSH, 0, EMPTY),
        (ROOT, 0, ROOT_REPLY),
        (INTERRUPTED, 0, EMPTY),
        (TWICE_INTERRUPTED, 1, TWICE_INTERRUPTED_REPLY),
        (UNKNOWN_INTERRUPTION, 1, UNKNOWN_INTERRUPTION_REPLY),
        (RACE, 1, RACE_REPLY),
        (ADVISORY, 0, EMPTY),
        (MANDATORY, 1, MANDATORY_REPLY),
        (PARAMETER, 1, PARAMETER_REPLY),
        (CLIENT_ABORT, 1, CLIENT_ABORT_REPLY),
        (FOREIGN, 1, FOREIGN_REPLY),
        (&EMPTY[..3], 1, TRUNCATED_REPLY),
        (&EMPTY[..11], 1, TRUNCATED_REPLY),
        (&FIRST_PUSH[..80], 1, TRUNCATED_REPLY),
        (WITH_MORE, 0, EMPTY),
    ];
    for (bundle, status, reply) in examples {
        grows(&rt, rt.alloc(), bundle, status, reply)?;
    }
    Ok(())
}

/// Where memory is wanting and a read fails, the status tells the read. Nothing is read where the push is not
/// opened.
/// The first push, of which the third read of 4 bytes fails, over heaps of 16 to 4,080 bytes. Reply
/// and status: 3; or 4 with no reply, where the push is not opened.
#[test]
fn a_failed_read_comes_before_want_of_memory(rt: HostRuntime) -> Result<(), Fail> {
    let mut lost = 0u32;
    for sixteens in 1..256usize {
        let heap = LocalHeap::new(rt.alloc(), sixteens * 16)?;
        let mut reader = Source::failing(FIRST_PUSH, 4, 2, true);
        let mut writer = Sink::new(rt.alloc());
        let status = run_one(&heap, state(&rt), &mut reader, &mut writer, false);
        if status == 3 {
            lost = lost.saturating_add(1);
        } else {
            assert_eq!(rt; (status, reader.reads()), (4, 0));
            assert!(rt; writer.bytes().is_empty());
        }
    }
    assert!(rt; lost > 0);
    Ok(())
}
