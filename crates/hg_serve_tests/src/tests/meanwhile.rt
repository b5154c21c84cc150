//! Puts and a mark do not wait for the lock.

use super::*;
use std::sync::Mutex;
use std::sync::atomic::{AtomicBool, Ordering};
use std::thread;

/// What two threads tell each other: that a push is open, that the lock is held, that all was put, and that
/// one of them waited too long.
#[derive(Drop)]
struct Signs {
    open: AtomicBool,
    locked: AtomicBool,
    put: AtomicBool,
    late: AtomicBool,
}

impl Signs {
    fn new() -> Signs {
        Signs {
            open: AtomicBool::new(false),
            locked: AtomicBool::new(false),
            put: AtomicBool::new(false),
            late: AtomicBool::new(false),
        }
    }

    /// Waits for a sign, and notes where that took too long.
    fn wait_for(&self, sign: &AtomicBool) {
        for _ in 0..1_000_000 {
            if sign.load(Ordering::SeqCst) {
                return;
            }
            thread::yield_now();
        }
        self.late.store(true, Ordering::SeqCst);
    }
}

/// Holds a thread inside the lock until all was put.
#[derive(Drop)]
struct HoldsLock<'a> {
    signs: &'a Signs,
}

impl Probe for HoldsLock<'_> {
    fn at(&mut self, point: Point) {
        if point == Point::Locked {
            self.signs.locked.store(true, Ordering::SeqCst);
            self.signs.wait_for(&self.signs.put);
        }
    }
}

/// Puts three parts and the mark of a push while the lock is held, and leaves its client in the list.
fn push_meanwhile<J: Naming<Global>, R: Wait + Abort>(
    rt: &R,
    alloc: Global,
    server: &Server<J>,
    clients: &Mutex<Vec<Client<J>>>,
    signs: &Signs,
) {
    let mut sender = open(rt, server, client(rt, server));
    signs.open.store(true, Ordering::SeqCst);
    signs.wait_for(&signs.locked);
    for _ in 0..3 {
        put(rt, server, &mut sender, part(rt, alloc, b"REPLYCAPS", b""));
    }
    let ended = server.end(rt, sender, &mut NoProbe);
    signs.put.store(true, Ordering::SeqCst);
    let (answer, mine) = server.answer(rt, ended, &mut NoProbe);
    assert!(rt; is_done(&answer, 3));
    let mut list = clients.lock(rt);
    add(rt, &mut *list, mine);
}

/// Turns, once a push is open, and stands inside the lock until its parts and its mark were put.
fn turn_held<J: Naming<Global>, R: Wait + Abort>(rt: &R, server: &Server<J>, signs: &Signs) {
    signs.wait_for(&signs.open);
    assert!(rt; server.turn(rt, &mut HoldsLock { signs }));
}

/// A thread puts parts and a mark while another one stands inside the lock.
pub fn held_puts<J: Naming<Global> + Send + Sync, R: Threads + Wait + Abort + Sync>(
    rt: &R,
    alloc: Global,
    server: &Server<J>,
) -> Vec<Client<J>> {
    let clients = Mutex::new(Vec::new(alloc));
    let signs = Signs::new();
    let (list, shown) = (&clients, &signs);
    thread::scope(thread::scope_env(), rt, |both| {
        let pushes = both.spawn(move || push_meanwhile(rt, alloc, server, list, shown));
        let turns = both.spawn(move || turn_held(rt, server, shown));
        assert!(rt; pushes.is_ok() && turns.is_ok());
    });
    assert!(rt; !signs.late.load(Ordering::SeqCst));
    clients.into_inner()
}

// Capacity 8: a turn is held inside the lock until another thread has put three parts and the mark.
// Result: the puts return, and the push is done with 3 parts.
#[test]
fn puts_and_a_mark_pass_a_held_turn(rt: HostRuntime) -> Result<(), Fail> {
    let closed = played(&rt, rt.alloc(), 8, settings(0, 1_024), Scene::HeldPuts);
    assert_eq!(rt; closed.journal.as_slice(), [0].as_slice());
    Ok(())
}
