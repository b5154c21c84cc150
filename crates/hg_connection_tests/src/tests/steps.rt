//! The steps of a connection, each on its own.

ghost use Rattle.hg_serve.specs.Desks.{OpensWith};

use super::*;
use hg_connection::{
    BundleEnd, Inbox, Next, Sending, Served, fault_of, mark, next_bundle, receive_kept,
};
use hg_parts::CutReason;
use hg_push::{OpenFault, Outcome, Reason};
use hg_serve::Answer;
use hg_stream::Unbundler;
use hg_stream::laws::streams_are_settled_once;

// How a bundle ended, and what became of its reply: each of four with each of three. Result: no fault where
// both are whole; that of the bundle, where it has one, whatever became of the reply; else that of the reply.
#[test]
fn faults_of_a_bundle_and_its_reply(rt: HostRuntime) {
    let sendings = [Sending::Whole, Sending::Broken, Sending::NoMemory];
    let of_whole = [
        None,
        Some(ConnFault::WriteFailed),
        Some(ConnFault::NoMemory),
    ];
    for (sending, fault) in sendings.into_iter().zip(of_whole) {
        assert_eq!(rt; fault_of(BundleEnd::Whole, sending), fault);
        let magic = ConnFault::Stream(StreamFault::BadMagic);
        assert_eq!(rt;
            fault_of(BundleEnd::Fault(StreamFault::BadMagic), sending),
            Some(magic)
        );
        let truncated = ConnFault::Stream(StreamFault::Truncated);
        assert_eq!(rt; fault_of(BundleEnd::InputEnded, sending), Some(truncated));
        assert_eq!(rt;
            fault_of(BundleEnd::ReadFailed, sending),
            Some(ConnFault::ReadFailed)
        );
    }
}

// Nothing yet. Result: no bundle, no answer, no byte and no fault. Three bundles that were answered, of 70
// bytes, and then a fault; and another one. Result: the same, with the fault, and with the other one.
#[test]
fn a_connection_that_failed(rt: HostRuntime) {
    let served: Served = Served::new();
    assert_eq!(rt;
        (served.bundles, served.written, served.fault),
        (0, 0, None)
    );
    assert!(rt; served.last.is_none());
    let last: Option<Answer> = Some(Answer {
        outcome: Outcome::Aborted(Reason::WrongIndex),
        takes: 5,
    });
    let served = Served {
        bundles: 3,
        last,
        written: 70,
        fault: None,
    };
    let open = ConnFault::Open(OpenFault::Exhausted);
    let served = served.failed(open);
    assert_eq!(rt;
        (served.bundles, served.written, served.fault),
        (3, 70, Some(open))
    );
    let served = served.failed(ConnFault::ReadFailed);
    assert_eq!(rt; served.fault, Some(ConnFault::ReadFailed));
    assert!(rt; matches!(served.last, Some(Answer { takes: 5, .. })));
}

/// Drops the first so many of the bytes that wait, where there are so many.
fn drops(inbox: &mut Inbox, count: usize) -> bool {
    if count > inbox.pending().len() {
        return false;
    }
    inbox.skip(count);
    true
}

// The first bundle, from a reader that fails; a later one, with a byte that waits, without one from a reader
// that gives one, has none, and fails. Result: it comes, without a read; so does the later one; after one
// read it comes; the input ends; it fails.
#[test]
fn what_comes_after_a_bundle(rt: HostRuntime) {
    let mut failing = Source::failing(b"HG", 1, 0, true);
    let mut inbox = Inbox::new();
    assert_eq!(rt; next_bundle(0, &mut inbox, &mut failing), Next::Comes);
    assert_eq!(rt; (failing.reads(), inbox.is_empty()), (0, true));
    for number in [1, 9_999, u32::MAX] {
        let mut inbox = Inbox::new();
        let mut failing = Source::failing(b"HG", 1, 1, true);
        assert_eq!(rt; next_bundle(number, &mut inbox, &mut failing), Next::Comes);
        assert_eq!(rt; failing.reads(), 1);
        assert_eq!(rt; inbox.pending(), b"H".as_slice());
        assert_eq!(rt; next_bundle(number, &mut inbox, &mut failing), Next::Comes);
        assert_eq!(rt; failing.reads(), 1);
        assert_eq!(rt; inbox.pending(), b"H".as_slice());
        assert!(rt; drops(&mut inbox, 1));
        assert_eq!(rt;
            next_bundle(number, &mut inbox, &mut failing),
            Next::ReadFailed
        );
        assert_eq!(rt; (failing.reads(), inbox.is_empty()), (2, true));
        let mut ended = Source::new(b"");
        assert_eq!(rt;
            next_bundle(number, &mut inbox, &mut ended),
            Next::InputEnded
        );
        assert_eq!(rt; (ended.reads(), inbox.is_empty()), (1, true));
    }
}

/// How a push without parts ends that is marked so.
fn ends<J: Naming<Global>, R: Wait + Abort>(
    rt: &R,
    alloc: Global,
    queue: PartQueue,
    taker: Taker,
    repo: Repo,
    ending: BundleEnd,
) -> Outcome
    requires { OpensWith J.table J.capacity J.first queue taker repo }
{
    let server = Server::<J>::new(alloc, repo, queue, taker);
    let client = match server.client(rt) {
        Ok(client) => client,
        Err(_) => panic!(rt; "no client"),
    };
    let sender = match server.open(rt, client) {
        Ok(sender) => sender,
        Err((_client, _)) => panic!(rt; "no opening"),
    };
    let ended = mark(&server, rt, sender, ending, &mut NoProbe);
    let (answer, client) = server.answer(rt, ended, &mut NoProbe);
    let mut clients = Vec::new(alloc);
    match clients.push(client) {
        Ok(()) => {}
        Err(AllocFailed { value: _client, .. }) => panic!(rt; "no memory for a client"),
    }
    let _closed = server.close(clients);
    let Answer { outcome, takes: _ } = answer;
    outcome
}

/// The same, on a server of an empty repository.
fn marked<R: RandomSource + Wait + Abort>(rt: &R, alloc: Global, ending: BundleEnd) -> Outcome {
    match PartQueue::new(alloc, 1) {
        Ok((queue, taker)) => {
            let repo = Repo::new(alloc, settings(0), state(rt));
            ends::<Brand, R>(rt, alloc, queue, taker, repo, ending)
        }
        Err(_) => panic!(rt; "no memory for a server"),
    }
}

// A push without parts whose bundle is whole, has the faults 1 and 11, ended early, and was not read on.
// Result: done; cut off by the faults 1, 11 and 10, and by the read.
#[test]
fn marks_of_bundles(rt: HostRuntime) {
    let alloc = rt.alloc();
    assert!(rt; matches!(marked(&rt, alloc, BundleEnd::Whole), Outcome::Done(_)));
    let cuts = [
        (
            BundleEnd::Fault(StreamFault::BadMagic),
            CutReason::Stream(1),
        ),
        (
            BundleEnd::Fault(StreamFault::NoMemory),
            CutReason::Stream(11),
        ),
        (BundleEnd::InputEnded, CutReason::Stream(10)),
        (BundleEnd::ReadFailed, CutReason::ReadFailed),
    ];
    for (ending, reason) in cuts {
        match marked(&rt, alloc, ending) {
            Outcome::Aborted(Reason::Cut(cut)) => assert_eq!(rt; cut, reason),
            _ => panic!(rt; "not cut off"),
        }
    }
}

/// A bundle that was received: how it ended, what was kept, what waits, and whether its push is done.
#[derive(Drop)]
struct Received {
    ending: BundleEnd,
    kept: Vec<u8>,
    waiting: Vec<u8>,
    is_done: bool,
}

/// Receives a bundle on a server of that name.
fn receives<J: Naming<Global>, R: Wait + Abort, I: Reader>(
    rt: &R,
    alloc: Global,
    queue: PartQueue,
    taker: Taker,
    repo: Repo,
    reader: &mut I,
) -> Received
    requires { OpensWith J.table J.capacity J.first queue taker repo }
{
    streams_are_settled_once::<Global>();
    let server = Server::<J>::new(alloc, repo, queue, taker);
    let client = match server.client(rt) {
        Ok(client) => client,
        Err(_) => panic!(rt; "no client"),
    };
    let mut sender = match server.open(rt, client) {
        Ok(sender) => sender,
        Err((_client, _)) => panic!(rt; "no opening"),
    };
    let mut bundle = Unbundler::new(alloc, *server.limits());
    let mut inbox = Inbox::new();
    let mut kept = Vec::new(alloc);
    let ending = receive_kept(
        &server,
        rt,
        &mut sender,
        &mut bundle,
        &mut inbox,
        reader,
        &mut kept,
        &mut NoProbe,
    );
    let ended = mark(&server, rt, sender, ending, &mut NoProbe);
    let (answer, client) = server.answer(rt, ended, &mut NoProbe);
    let mut clients = Vec::new(alloc);
    match clients.push(client) {
        Ok(()) => {}
        Err(AllocFailed { value: _client, .. }) => panic!(rt; "no memory for a client"),
    }
    let _closed = server.close(clients);
    let waiting = match inbox.pending().to_vec(alloc) {
        Ok(waiting) => waiting,
        Err(_) => panic!(rt; "no memory for bytes"),
    };
    Received {
        ending,
        kept,
        waiting,
        is_done: matches!(answer.outcome, Outcome::Done(_)),
    }
}

/// The same, on a server of an empty repository.
fn received_alone<R: RandomSource + Wait + Abort>(
    rt: &R,
    alloc: Global,
    reader: &mut Source<'_>,
) -> Received {
    match PartQueue::new(alloc, 1) {
        Ok((queue, taker)) => {
            let repo = Repo::new(alloc, settings(0), state(rt));
            receives::<Brand, R, _>(rt, alloc, queue, taker, repo, reader)
        }
        Err(_) => panic!(rt; "no memory for a server"),
    }
}

// The root changeset's bundle of 193 bytes, the same of 222 with an interruption, and the one without parts,
// each with 9 bytes of another after it, in pieces of 1, 7, 4,096 and all. Result: whole and done; the bytes
// of the bundle are kept, with the interruption and its end mark and without those after it, of which wait
// those that were read with it.
#[test]
fn bytes_of_a_whole_bundle_are_kept(rt: HostRuntime) -> Result<(), Fail> {
    let alloc = rt.alloc();
    let bundles = [
        (ROOT, [0usize, 3, 9, 9]),
        (INTERRUPTED_ROOT, [0, 2, 9, 9]),
        (EMPTY, [0, 2, 9, 9]),
    ];
    for (bundle, waits) in bundles {
        let mut bytes = Vec::from_slice(alloc, bundle)?;
        bytes.extend_from_slice(b"HG20 more")?;
        for (step, wait) in [1, 7, 4_096, usize::MAX].into_iter().zip(waits) {
            let mut reader = Source::in_pieces(&bytes, step);
            let received = received_alone(&rt, alloc, &mut reader);
            assert_eq!(rt; received.ending, BundleEnd::Whole);
            assert!(rt; received.is_done);
            assert_eq!(rt; received.kept.as_slice(), bundle);
            let waiting = received.waiting.as_slice();
            assert!(rt; b"HG20 more".get(..wait) == Some(waiting));
        }
    }
    Ok(())
}

// The root changeset's bundle without its last byte; read for 100 bytes, where the next read fails; `HG10`.
// Result: the input ended, with all of it kept; a read failed, with 100 bytes; the fault 1. None is done.
#[test]
fn bundles_that_are_not_whole(rt: HostRuntime) {
    let alloc = rt.alloc();
    let mut cut = Source::in_pieces(&ROOT[..192], 50);
    let received_cut = received_alone(&rt, alloc, &mut cut);
    assert_eq!(rt; received_cut.ending, BundleEnd::InputEnded);
    assert_eq!(rt; received_cut.kept.as_slice(), &ROOT[..192]);
    let mut failing = Source::failing(ROOT, 50, 2, true);
    let received_failing = received_alone(&rt, alloc, &mut failing);
    assert_eq!(rt; received_failing.ending, BundleEnd::ReadFailed);
    assert_eq!(rt; received_failing.kept.as_slice(), &ROOT[..100]);
    let mut foreign = Source::new(b"HG10");
    let received_foreign = received_alone(&rt, alloc, &mut foreign);
    assert_eq!(rt;
        received_foreign.ending,
        BundleEnd::Fault(StreamFault::BadMagic)
    );
    assert!(rt; !received_cut.is_done && !received_failing.is_done && !received_foreign.is_done);
}
