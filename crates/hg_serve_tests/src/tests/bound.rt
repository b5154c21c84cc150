//! How many items an answer takes.

use super::*;

/// Counts how often a thread came to a take.
#[derive(Drop)]
struct Counts {
    locked: u32,
}

impl Probe for Counts {
    fn at(&mut self, point: Point) {
        if point == Point::Locked {
            self.locked = self.locked.saturating_add(1);
        }
    }
}

/// After that many parts of another push and after that many turns, the answer to a push without parts takes
/// so many items.
pub fn takes<J: Naming<Global>, R: Wait + Abort>(
    rt: &R,
    alloc: Global,
    server: &Server<J>,
    parts: u32,
    turns: u32,
    takes: u32,
) -> Vec<Client<J>> {
    let mut other = open(rt, server, client(rt, server));
    let mine = open(rt, server, client(rt, server));
    for _ in 0..parts {
        put(rt, server, &mut other, part(rt, alloc, b"REPLYCAPS", b""));
    }
    let mine = server.end(rt, mine, &mut NoProbe);
    for _ in 0..turns {
        assert!(rt; server.turn(rt, &mut NoProbe));
    }
    let mut probe = Counts { locked: 0 };
    let (answer, mine) = server.answer(rt, mine, &mut probe);
    assert!(rt; is_done(&answer, 0));
    assert_eq!(rt; (answer.takes, probe.locked), (takes, takes));
    let (_answer, other) = finish(rt, server, other);
    let mut clients = Vec::new(alloc);
    add(rt, &mut clients, mine);
    add(rt, &mut clients, other);
    clients
}

// Capacity 4: three parts of another push, then the end mark of a push without parts, and its
// answer; the same after four turns; capacity 1 with one part. Result: 4 takes; 0; 1; each time the
// probe was told of as many.
#[test]
fn as_many_takes_as_the_queue_has_places(rt: HostRuntime) -> Result<(), Fail> {
    let all = settings(0, 1_024);
    let full = played(&rt, rt.alloc(), 4, all, Scene::Takes);
    assert_eq!(rt; full.journal.as_slice(), [1, 0].as_slice());
    let none = played(&rt, rt.alloc(), 4, all, Scene::TakesNone);
    assert_eq!(rt; none.journal.as_slice(), [1, 0].as_slice());
    let one = played(&rt, rt.alloc(), 1, all, Scene::TakesOne);
    assert_eq!(rt; one.journal.as_slice(), [1, 0].as_slice());
    Ok(())
}

/// At each take it puts a part of another push.
#[derive(Drop)]
struct Puts<'a, J: Naming<Global>, R: Wait + Abort> {
    rt: &'a R,
    alloc: Global,
    server: &'a Server<J>,
    sender: &'a mut Sender<J>,
    locked: u32,
}

impl<J: Naming<Global>, R: Wait + Abort> Probe for Puts<'_, J, R> {
    fn at(&mut self, point: Point) {
        if point == Point::Locked {
            self.locked = self.locked.saturating_add(1);
            let part = part(self.rt, self.alloc, b"REPLYCAPS", b"");
            let _put = self.server.try_put(self.rt, self.sender, part);
        }
    }
}

/// Another push goes on while the answer takes: the answer stops at its own mark, and leaves the other's
/// parts in the queue.
pub fn puts_meanwhile<J: Naming<Global>, R: Wait + Abort>(
    rt: &R,
    alloc: Global,
    server: &Server<J>,
) -> Vec<Client<J>> {
    let mut other = open(rt, server, client(rt, server));
    let mine = open(rt, server, client(rt, server));
    for _ in 0..3 {
        put(rt, server, &mut other, part(rt, alloc, b"REPLYCAPS", b""));
    }
    let mine = server.end(rt, mine, &mut NoProbe);
    let mut probe = Puts {
        rt,
        alloc,
        server,
        sender: &mut other,
        locked: 0,
    };
    let (answer, mine) = server.answer(rt, mine, &mut probe);
    assert_eq!(rt; (answer.takes, probe.locked), (4, 4));
    assert!(rt; server.turn(rt, &mut NoProbe));
    let (of_other, other) = finish(rt, server, other);
    assert!(rt; is_done(&of_other, 6));
    let mut clients = Vec::new(alloc);
    add(rt, &mut clients, mine);
    add(rt, &mut clients, other);
    clients
}

// As the first of these, and at each take the probe puts a part of the other push. Result: 4 takes;
// a turn after the answer finds an item; the other push is done with its 6 parts.
#[test]
fn an_answer_stops_at_its_mark(rt: HostRuntime) -> Result<(), Fail> {
    let closed = played(&rt, rt.alloc(), 4, settings(0, 1_024), Scene::PutsMeanwhile);
    assert_eq!(rt; closed.journal.as_slice(), [1, 0].as_slice());
    Ok(())
}
