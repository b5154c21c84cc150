//! Many reads, a long reply, a large payload, many readers, a long report and a seed of many parts.

use super::*;
use hg_help_tests::bundles::{large_output, many_parts, many_replies};
use hg_replay::{run_replay, seeded};
use linked_list_allocator::LocalHeap;

/// A bundle that comes at once and byte by byte, by 90,000 reads, and a reply of 150,000 bytes.
#[test]
fn many_parts_and_a_long_reply(rt: HostRuntime) -> Result<(), Fail> {
    let reply = many_replies(rt.alloc())?;
    check(&rt, rt.alloc(), &many_parts(rt.alloc())?, 0, &reply);
    Ok(())
}

/// `output` with a payload of 33 MiB.
#[test]
fn a_large_payload(rt: HostRuntime) -> Result<(), Fail> {
    let bundle = large_output(rt.alloc())?;
    let mut reader = Source::new(&bundle);
    let mut writer = Sink::new(rt.alloc());
    let status = run_one(rt.alloc(), state(&rt), &mut reader, &mut writer, false);
    assert!(rt; status == 0 && writer.bytes() == EMPTY);
    Ok(())
}

/// The seed of those parts, byte by byte.
#[test]
fn a_seed_of_many_parts(rt: HostRuntime) -> Result<(), Fail> {
    let bundle = many_parts(rt.alloc())?;
    let mut reader = Source::in_pieces(&bundle, 1);
    let seed = seeded(rt.alloc(), state(&rt), &mut reader, false);
    assert!(rt; seed.is_ok() && reader.reads() == bundle.len());
    Ok(())
}

/// A thousand pushes are replayed.
#[test]
fn many_readers(rt: HostRuntime) -> Result<(), Fail> {
    let mut readers = Vec::new(rt.alloc());
    for _ in 0..1_000 {
        readers.push(Source::new(FIRST_PUSH))?;
    }
    let mut writer = Sink::new(rt.alloc());
    let status = run_replay(rt.alloc(), state(&rt), &mut readers, &mut writer, false);
    assert!(rt; status == 0 && writer.bytes().is_empty());
    assert!(rt; readers.iter().all(|reader| reader.reads() == 1));
    Ok(())
}

/// A marker with 40,000 bytes of metadata, colons all of them; its report is written 1,000 bytes at a time.
#[test]
fn a_long_report(rt: HostRuntime) -> Result<(), Fail> {
    let mut bundle = Vec::from_slice(
        rt.alloc(),
        b"HG20\0\0\0\0\0\0\0\x11\x0aOBSMARKERS\0\0\0\0\0\0\0\0\x9c\x5b\0\0\0\0\x9c\x40\0",
    )?;
    bundle.extend_from_slice(&[1; 20])?;
    bundle.resize(bundle.len().saturating_add(40_000), b':')?;
    bundle.extend_from_slice(&[0; 8])?;
    let mut writer = Sink::in_pieces(rt.alloc(), 1_000);
    let mut readers = [Source::new(&bundle)];
    let status = run_replay(rt.alloc(), state(&rt), &mut readers, &mut writer, false);
    let report = writer.bytes();
    assert!(rt; status == 0 && report.len() == 80_055);
    assert!(rt; report.starts_with(b"O 0000009c4000") && report.ends_with(b"3a3a\n"));
    Ok(())
}

/// The report takes more memory than its push: over heaps of rising size it is refused, and the status says
/// so.
#[test]
fn memory_is_refused_for_a_report(rt: HostRuntime) -> Result<(), Fail> {
    let mut bundle = Vec::from_slice(
        rt.alloc(),
        b"HG20\0\0\0\0\0\0\0\x11\x0aOBSMARKERS\0\0\0\0\0\0\0\0\x04\x1b\0\0\0\0\x04\0\0",
    )?;
    bundle.extend_from_slice(&[1; 20])?;
    bundle.resize(bundle.len().saturating_add(1_024), b':')?;
    bundle.extend_from_slice(&[0; 8])?;
    let (mut done, mut refused) = (0u32, 0u32);
    for sixteens in 1..1_024usize {
        let heap = LocalHeap::new(rt.alloc(), sixteens * 16)?;
        let mut writer = Sink::new(rt.alloc());
        let mut readers = [Source::new(&bundle)];
        let status = run_replay(&heap, state(&rt), &mut readers, &mut writer, false);
        match (status, writer.bytes().len()) {
            (0, 2_103) => done = done.saturating_add(1),
            (4, 0) => refused = refused.saturating_add(1),
            other => assert!(rt; false, "{other:?}"),
        }
    }
    assert!(rt; done > 0 && refused > 0);
    Ok(())
}
