//! A put does not wait for the lock.

use super::*;
use std::sync::atomic::{AtomicBool, Ordering};
use std::thread;
use std::thread::join_mut;

/// Holds a thread at the lock until it may go, and notes where that took too long.
#[derive(Drop)]
struct HoldsBack<'a> {
    go: &'a AtomicBool,
    late: &'a AtomicBool,
}

impl Probe for HoldsBack<'_> {
    fn at(&mut self, point: Point) {
        if point != Point::Locked {
            return;
        }
        for _ in 0..1_000_000 {
            if self.go.load(Ordering::SeqCst) {
                return;
            }
            thread::yield_now();
        }
        self.late.store(true, Ordering::SeqCst);
    }
}

/// Puts three parts, and then lets the other go. It is false where one was not put.
fn put_three<J: Naming<Global>, R: Wait + Abort>(
    rt: &R,
    alloc: Global,
    server: &Server<J>,
    sender: &mut Sender<J>,
    go: &AtomicBool,
) -> bool {
    let mut all = true;
    for _ in 0..3 {
        if server
            .try_put(rt, sender, part(rt, alloc, b"REPLYCAPS", b""))
            .is_err()
        {
            all = false;
        }
    }
    go.store(true, Ordering::SeqCst);
    all
}

/// A turn stands inside the lock until another thread's three puts have returned, and then takes the first.
pub fn held<J: Naming<Global> + Send + Sync, R: Threads + Wait + Abort + Sync>(
    rt: &R,
    alloc: Global,
    server: &Server<J>,
) -> Vec<Client<J>> {
    let mut sender = open(rt, server, client(rt, server));
    let go = AtomicBool::new(false);
    let late = AtomicBool::new(false);
    let (may_go, too_late) = (&go, &late);
    let (turned, put) = join_mut(
        rt,
        &mut || {
            let mut probe = HoldsBack {
                go: may_go,
                late: too_late,
            };
            server.turn(rt, &mut probe)
        },
        &mut || put_three(rt, alloc, server, &mut sender, may_go),
    );
    assert!(rt; !late.load(Ordering::SeqCst));
    assert!(rt; turned);
    assert!(rt; put);
    let (answer, client) = finish(rt, server, sender);
    assert!(rt; is_done(&answer, 3));
    assert_eq!(rt; answer.takes, 3);
    let mut clients = Vec::new(alloc);
    add(rt, &mut clients, client);
    clients
}

// Capacity 8: a turn stands inside the lock until three `try_put` of another thread have returned.
// Result: the puts return; the turn takes the first part; the answer after it takes 3.
#[test]
fn a_turn_held_at_locked_lets_puts_through(rt: HostRuntime) -> Result<(), Fail> {
    let closed = played(&rt, rt.alloc(), 8, settings(0, 1_024), Scene::Held);
    assert_eq!(rt; closed.journal.as_slice(), [0].as_slice());
    Ok(())
}
