//! Two pushes on one thread: the order of their items decides nothing but which is done first.

use super::*;
use hg_push::reply_bytes;

/// Puts a part after one turn, since the queue of one place is full.
fn put_behind<J: Naming<Global>, R: Wait + Abort>(
    rt: &R,
    server: &Server<J>,
    sender: &mut Sender<J>,
    part: SentPart,
) {
    match server.try_put(rt, sender, part) {
        Err(PutFault::Full(back)) => {
            assert!(rt; server.turn(rt, &mut NoProbe));
            assert!(rt; server.try_put(rt, sender, back).is_ok());
        }
        _ => panic!(rt; "the queue was full"),
    }
}

/// A0 B0 A1 B1, B's end mark, A's end mark. Both clients have seen the other's items then.
pub fn alternating<J: Naming<Global>, R: Wait + Abort>(
    rt: &R,
    alloc: Global,
    server: &Server<J>,
) -> Vec<Client<J>> {
    let mut a = open(rt, server, client(rt, server));
    let mut b = open(rt, server, client(rt, server));
    assert!(rt;
        server
            .try_put(rt, &mut a, part(rt, alloc, b"REPLYCAPS", b""))
            .is_ok()
    );
    put_behind(rt, server, &mut b, part(rt, alloc, b"REPLYCAPS", b""));
    put_behind(rt, server, &mut a, part(rt, alloc, b"CHECK:HEADS", b""));
    put_behind(rt, server, &mut b, part(rt, alloc, b"CHECK:HEADS", &NULL));
    let b = server.end(rt, b, &mut NoProbe);
    let a = server.end(rt, a, &mut NoProbe);
    let (of_b, b) = server.answer(rt, b, &mut NoProbe);
    let (of_a, a) = server.answer(rt, a, &mut NoProbe);
    assert!(rt; is_done(&of_b, 2));
    assert!(rt; is_race(&of_a, 1));
    let mut clients = Vec::new(alloc);
    add(rt, &mut clients, a);
    add(rt, &mut clients, b);
    clients
}

// One thread; A and B open; in this order A0 `REPLYCAPS`, B0 `REPLYCAPS`, A1 `CHECK:HEADS` with an
// empty payload, B1 `CHECK:HEADS` with Z, B's end mark, A's end mark; B's answer, A's answer.
// Result: each part but the first finds the queue full, and is put after one turn; B is done, A is
// aborted as raced at place 1; the journal is [1].
#[test]
fn two_pushes_at_capacity_one(rt: HostRuntime) -> Result<(), Fail> {
    let closed = played(&rt, rt.alloc(), 1, settings(0, 1_024), Scene::Alternating);
    assert_eq!(rt; closed.journal.as_slice(), [1].as_slice());
    Ok(())
}

/// A is cut off after its third part. B is done as without it, and so is a push of the client that got B's
/// answer.
pub fn dropped<J: Naming<Global>, R: Wait + Abort>(
    rt: &R,
    alloc: Global,
    server: &Server<J>,
) -> Vec<Client<J>> {
    let mut a = open(rt, server, client(rt, server));
    let mut b = open(rt, server, client(rt, server));
    for _ in 0..3 {
        put(rt, server, &mut a, part(rt, alloc, b"REPLYCAPS", b""));
    }
    put(rt, server, &mut b, part(rt, alloc, b"CHECK:HEADS", &NULL));
    let a = server.cut(rt, a, CutReason::GaveUp, &mut NoProbe);
    let (of_b, b) = finish(rt, server, b);
    assert!(rt; is_done(&of_b, 1));
    let mut next = open(rt, server, b);
    put(
        rt,
        server,
        &mut next,
        part(rt, alloc, b"CHECK:HEADS", &NULL),
    );
    let (of_next, next) = finish(rt, server, next);
    assert!(rt; is_done(&of_next, 1));
    let (of_a, a) = server.answer(rt, a, &mut NoProbe);
    match reply_bytes(alloc, &of_a.outcome) {
        Ok(reply) => assert_eq!(rt; reply.len(), 59),
        Err(_) => panic!(rt; "no memory for a reply"),
    }
    let mut clients = Vec::new(alloc);
    add(rt, &mut clients, a);
    add(rt, &mut clients, next);
    clients
}

// A puts three parts and is cut because its sender gave up; B pushes `CHECK:HEADS` with Z; then the
// client that got B's answer pushes it again; then A's answer. Result: both are done; A's reply has
// 59 bytes (`push dropped`); the journal is [1, 2].
#[test]
fn a_push_dropped_after_its_third_part(rt: HostRuntime) -> Result<(), Fail> {
    let closed = played(&rt, rt.alloc(), 8, settings(0, 1_024), Scene::Dropped);
    assert_eq!(rt; closed.journal.as_slice(), [1, 2].as_slice());
    Ok(())
}
