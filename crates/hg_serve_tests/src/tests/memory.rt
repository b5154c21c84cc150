//! Memory that is refused, over a heap without any left.

ghost use Rattle.hg_serve.specs.Desks.{OpensWith};

use super::*;
use hg_serve::Awaiting;
use hg_types::{Node, Param, Part, Payload, Short};
use linked_list_allocator::LocalHeap;

/// Takes all memory that is left, in blocks of 16 bytes, and gives some of them back, or all. A call can pick
/// a name only where no bound names a lifetime, so what plays under a name knows a heap by this alone.
trait Hoard {
    fn fill(&mut self);

    fn give(&mut self, count: usize);

    fn free(&mut self);
}

/// Blocks of a heap.
#[derive(Drop)]
struct Blocks<'a> {
    heap: &'a LocalHeap,
    blocks: Vec<Vec<u8, &'a LocalHeap>>,
}

impl Hoard for Blocks<'_> {
    fn fill(&mut self) {
        for _ in 0..self.heap.free() {
            let Ok(block) = Vec::with_capacity(self.heap, 1) else {
                return;
            };
            if self.blocks.push(block).is_err() {
                return;
            }
        }
    }

    fn give(&mut self, count: usize) {
        for _ in 0..count {
            let _block = self.blocks.pop();
        }
    }

    fn free(&mut self) {
        self.blocks.clear();
    }
}

/// The changegroup of one changeset without text and without a second parent.
fn changeset(node: [u8; 20], parent: [u8; 20]) -> [u8; 116] {
    let mut bytes = [0; 116];
    bytes[3] = 104;
    for at in 0..20 {
        bytes[4 + at] = node[at];
        bytes[24 + at] = parent[at];
        bytes[84 + at] = node[at];
    }
    bytes
}

fn version<A: Allocator + Copy>(alloc: A) -> Result<Seq<Param<A>, A>, NoMemory> {
    let mut params = Seq::new(alloc);
    params.push(Param {
        mandatory: true,
        key: Short::copy_of(alloc, b"version")?,
        value: Short::copy_of(alloc, b"02")?,
    })?;
    Ok(params)
}

fn try_changegroup<A: Allocator + Copy>(
    alloc: A,
    node: [u8; 20],
    parent: [u8; 20],
) -> Result<BoxedPart<A>, NoMemory> {
    let part = Part {
        kind: Short::copy_of(alloc, b"CHANGEGROUP")?,
        id: 0,
        params: version(alloc)?,
        payload: Payload::of(Seq::copy_of(alloc, &changeset(node, parent))?),
    };
    BoxedPart::new(alloc, part)
}

fn changegroup<A: Allocator + Copy, R: Abort>(
    rt: &R,
    alloc: A,
    node: [u8; 20],
    parent: [u8; 20],
) -> SentPart<A> {
    SentPart::as_it_came(made(rt, try_changegroup(alloc, node, parent)))
}

/// The changeset without text and parents, and the child of it without text.
const ROOT: [u8; 20] = [
    0xb8, 0x0d, 0xe5, 0xd1, 0x38, 0x75, 0x85, 0x41, 0xc5, 0xf0, 0x52, 0x65, 0xad, 0x14, 0x4a, 0xb9,
    0xfa, 0x86, 0xd1, 0xdb,
];

const CHILD: [u8; 20] = [
    0x37, 0xc4, 0x2b, 0xd6, 0xcc, 0x03, 0x3b, 0x33, 0x08, 0x62, 0x91, 0xc0, 0x07, 0xc3, 0xaa, 0x12,
    0x70, 0x7a, 0x8b, 0xb4,
];

/// One push of a changeset.
fn pushes<J: Naming<A>, A: Allocator + Copy, R: Wait + Abort>(
    rt: &R,
    alloc: A,
    server: &Server<J, A>,
    client: Client<J, A>,
    node: [u8; 20],
    parent: [u8; 20],
) -> (bool, Client<J, A>) {
    let mut sender = open(rt, server, client);
    put(rt, server, &mut sender, part(rt, alloc, b"REPLYCAPS", b""));
    let group = changegroup(rt, alloc, node, parent);
    put(rt, server, &mut sender, group);
    let (answer, client) = finish(rt, server, sender);
    (is_done(&answer, 2), client)
}

/// A turn that memory is refused for.
fn turns_without_memory<J: Naming<A>, A: Allocator + Copy, H: Hoard, R: Wait>(
    rt: &R,
    hoard: &mut H,
    server: &Server<J, A>,
) -> bool {
    hoard.fill();
    let turned = server.turn(rt, &mut NoProbe);
    hoard.free();
    turned
}

fn is_without_memory<A: Allocator>(answer: &Answer<A>) -> bool {
    matches!(&answer.outcome, Outcome::Aborted(Reason::NoMemory))
}

/// Puts three parts, of which the second is a changegroup, and the end mark. Memory is refused at the take of
/// the second, in reading it.
fn refused_at_a_take<J: Naming<A>, A: Allocator + Copy, H: Hoard, R: Wait + Abort>(
    rt: &R,
    alloc: A,
    hoard: &mut H,
    server: &Server<J, A>,
) -> (bool, Awaiting<J, A>) {
    let mut a = open(rt, server, client(rt, server));
    put(rt, server, &mut a, part(rt, alloc, b"REPLYCAPS", b""));
    put(rt, server, &mut a, changegroup(rt, alloc, ROOT, NULL));
    put(rt, server, &mut a, part(rt, alloc, b"REPLYCAPS", b""));
    let a = server.end(rt, a, &mut NoProbe);
    let turned = server.turn(rt, &mut NoProbe);
    (turned && turns_without_memory(rt, hoard, server), a)
}

/// The rest of A is dropped, and A is told so; B is done as without A, and the client that got B's answer
/// pushes a child of B's changeset.
fn at_a_take<J: Naming<A>, A: Allocator + Copy, H: Hoard, R: Wait + Abort>(
    rt: &R,
    alloc: A,
    hoard: &mut H,
    server: &Server<J, A>,
) -> Vec<Client<J, A>, A> {
    let (turned, a) = refused_at_a_take(rt, alloc, hoard, server);
    let (is_b_done, b) = pushes(rt, alloc, server, client(rt, server), ROOT, NULL);
    let (is_child_done, b) = pushes(rt, alloc, server, b, CHILD, ROOT);
    let (of_a, a) = server.answer(rt, a, &mut NoProbe);
    let mut clients = Vec::new(alloc);
    add(rt, &mut clients, a);
    add(rt, &mut clients, b);
    assert!(rt; turned && is_b_done && is_child_done && is_without_memory(&of_a));
    clients
}

/// A is told so at once, without a take: its third part and its end mark are in the queue still.
fn left_in_the_queue<J: Naming<A>, A: Allocator + Copy, H: Hoard, R: Wait + Abort>(
    rt: &R,
    alloc: A,
    hoard: &mut H,
    server: &Server<J, A>,
) -> Vec<Client<J, A>, A> {
    let (turned, a) = refused_at_a_take(rt, alloc, hoard, server);
    let (of_a, a) = server.answer(rt, a, &mut NoProbe);
    let mut clients = Vec::new(alloc);
    add(rt, &mut clients, a);
    assert!(rt; turned && is_without_memory(&of_a) && of_a.takes == 0);
    clients
}

/// Opens over a full heap, each time with 16 bytes more that are free. Says how often that was refused.
fn opened_in_turn<J: Naming<A>, A: Allocator + Copy, H: Hoard, R: Wait + Abort>(
    rt: &R,
    hoard: &mut H,
    server: &Server<J, A>,
) -> (u32, Sender<J, A>) {
    hoard.fill();
    let mut client = client(rt, server);
    let mut refused = 0u32;
    'openings: for _ in rt.forever() {
        match server.open(rt, client) {
            Ok(sender) => return (refused, sender),
            Err((back, fault)) => {
                assert!(rt; fault == OpenFault::NoMemory);
                client = back;
                refused = refused.saturating_add(1);
                hoard.give(1);
            }
        }
    }
    unreachable!()
}

/// The client that was refused opens its push in the end, and is answered. A client takes no memory.
fn at_openings<J: Naming<A>, A: Allocator + Copy, H: Hoard, R: Wait + Abort>(
    rt: &R,
    alloc: A,
    hoard: &mut H,
    server: &Server<J, A>,
) -> Vec<Client<J, A>, A> {
    let (refused, sender) = opened_in_turn(rt, hoard, server);
    hoard.free();
    let (answer, client) = finish(rt, server, sender);
    let mut clients = Vec::new(alloc);
    add(rt, &mut clients, client);
    assert!(rt; refused > 0 && is_done(&answer, 0));
    clients
}

/// How often pushes of two parts were done, aborted for lack of memory, and anything else.
#[derive(Clone, Copy)]
struct Tally {
    done: u32,
    refused: u32,
    other: u32,
}

impl Tally {
    fn count<A: Allocator>(&mut self, answer: &Answer<A>) {
        if is_done(answer, 2) {
            self.done = self.done.saturating_add(1);
        } else if is_without_memory(answer) {
            self.refused = self.refused.saturating_add(1);
        } else {
            self.other = self.other.saturating_add(1);
        }
    }
}

/// A push of a changeset, which is taken and answered where so many blocks of a full heap are free.
fn answered_with<J: Naming<A>, A: Allocator + Copy, H: Hoard, R: Wait + Abort>(
    rt: &R,
    alloc: A,
    hoard: &mut H,
    server: &Server<J, A>,
    client: Client<J, A>,
    blocks: usize,
) -> (Answer<A>, Client<J, A>) {
    let mut sender = open(rt, server, client);
    put(rt, server, &mut sender, part(rt, alloc, b"REPLYCAPS", b""));
    put(rt, server, &mut sender, changegroup(rt, alloc, ROOT, NULL));
    let ended = server.end(rt, sender, &mut NoProbe);
    hoard.fill();
    hoard.give(blocks);
    let answered = server.answer(rt, ended, &mut NoProbe);
    hoard.free();
    answered
}

/// Pushes one after another, each with 16 bytes more that are free: refused or done.
fn at_answers<J: Naming<A>, A: Allocator + Copy, H: Hoard, R: Wait + Abort>(
    rt: &R,
    alloc: A,
    hoard: &mut H,
    server: &Server<J, A>,
) -> Vec<Client<J, A>, A> {
    let mut tally = Tally {
        done: 0,
        refused: 0,
        other: 0,
    };
    let mut client = client(rt, server);
    for blocks in 0..MOST_BLOCKS {
        let (answer, back) = answered_with(rt, alloc, hoard, server, client, blocks);
        tally.count(&answer);
        client = back;
    }
    let mut clients = Vec::new(alloc);
    add(rt, &mut clients, client);
    assert!(rt; tally.refused > 0 && tally.done > 0 && tally.other == 0);
    clients
}

/// So many blocks of 16 bytes are enough for the push of a changeset.
const MOST_BLOCKS: usize = 300;

/// Where memory is refused.
#[derive(Clone, Copy)]
enum Want {
    AtATake,
    LeftInTheQueue,
    AtOpenings,
    AtAnswers,
}

/// Plays that on a server of that name, and closes it.
fn play_without<J: Naming<A>, A: Allocator + Copy, H: Hoard, R: Wait + Abort>(
    rt: &R,
    alloc: A,
    hoard: &mut H,
    queue: PartQueue<A>,
    taker: Taker<A>,
    repo: Repo<A>,
    want: Want,
) -> Closed<A>
    requires { OpensWith J.table J.capacity J.first queue taker repo }
{
    let server = Server::<J, A>::new(alloc, repo, queue, taker);
    let clients = match want {
        Want::AtATake => at_a_take(rt, alloc, hoard, &server),
        Want::LeftInTheQueue => left_in_the_queue(rt, alloc, hoard, &server),
        Want::AtOpenings => at_openings(rt, alloc, hoard, &server),
        Want::AtAnswers => at_answers(rt, alloc, hoard, &server),
    };
    server.close(clients)
}

/// Whether that is the only head.
fn is_head<A: Allocator + Copy>(repo: &Repo<A>, node: [u8; 20]) -> bool {
    match repo.heads() {
        Ok(heads) => heads.as_slice() == [Node(node)].as_slice(),
        Err(_) => false,
    }
}

/// Plays that over a heap, in a queue of 8 places. `None` where no server was made.
fn closed_without<'a, R: Wait + RandomSource + Abort>(
    rt: &R,
    alloc: Global,
    heap: &'a LocalHeap,
    want: Want,
) -> Option<Closed<&'a LocalHeap>> {
    let mut hoard = Blocks {
        heap,
        blocks: Vec::new(alloc),
    };
    match PartQueue::new(heap, 8) {
        Ok((queue, taker)) => {
            let repo = Repo::new(heap, settings(0, 1_024), state(rt));
            let closed = play_without::<Brand, _, _, _>(
                rt, heap, &mut hoard, queue, taker, repo, want,
            );
            Some(closed)
        }
        Err(_) => None,
    }
}

/// Whether it was closed with that journal and that only head.
fn is_closed_with(closed: &Option<Closed<&LocalHeap>>, journal: &[u32], head: [u8; 20]) -> bool {
    match closed {
        Some(closed) => closed.journal.as_slice() == journal && is_head(&closed.repo, head),
        None => false,
    }
}

// A puts `REPLYCAPS`, the `CHANGEGROUP` 02 of the root changeset, `REPLYCAPS` and its end mark;
// after one turn the heap is filled, and one more turn made; B pushes the root changeset, and B's
// client a child of it; then A's answer. Result: A is aborted for lack of memory, the rest of it
// dropped; B's pushes are done; the journal is [1, 2], and the one head is the child.
#[test]
fn memory_refused_at_a_take(rt: HostRuntime) -> Result<(), Fail> {
    let heap = LocalHeap::new(rt.alloc(), 1 << 15)?;
    let closed = closed_without(&rt, rt.alloc(), &heap, Want::AtATake);
    assert!(rt; is_closed_with(&closed, &[1, 2], CHILD));
    Ok(())
}

/// The journal is without the push whose items are dropped with the queue.
/// The same, but A's answer comes at once and no B. Result: A is aborted for lack of memory,
/// without a take; the journal is empty, and so is the repository.
#[test]
fn closed_with_items_in_the_queue(rt: HostRuntime) -> Result<(), Fail> {
    let heap = LocalHeap::new(rt.alloc(), 1 << 15)?;
    let closed = closed_without(&rt, rt.alloc(), &heap, Want::LeftInTheQueue);
    assert!(rt; is_closed_with(&closed, &[], NULL));
    Ok(())
}

/// The number that a refused opening would have got is the next one's.
/// Over a full heap a client is made and opens a push, each time with 16 bytes more that are free.
/// Result: NoMemory and the client back, until it is opened; the journal is [0].
#[test]
fn memory_refused_at_an_opening(rt: HostRuntime) -> Result<(), Fail> {
    let heap = LocalHeap::new(rt.alloc(), 1 << 15)?;
    let closed = closed_without(&rt, rt.alloc(), &heap, Want::AtOpenings);
    assert!(rt; is_closed_with(&closed, &[0], NULL));
    Ok(())
}

/// Each push from the first one on that memory was enough for is done, and no earlier one.
/// 300 pushes of the root changeset one after another, each taken and answered over a full heap of
/// which so many times 16 bytes are free. Result: aborted for lack of memory, or done; both occur,
/// and the done ones are the last.
#[test]
fn memory_refused_at_each_growth_of_an_answer(rt: HostRuntime) -> Result<(), Fail> {
    let heap = LocalHeap::new(rt.alloc(), 1 << 15)?;
    let is = match closed_without(&rt, rt.alloc(), &heap, Want::AtAnswers) {
        Some(closed) => {
            let done = closed.journal.len();
            let first = closed.journal.as_slice().first().copied();
            first == u32::try_from(MOST_BLOCKS.saturating_sub(done)).ok()
                && is_head(&closed.repo, ROOT)
        }
        None => false,
    };
    assert!(rt; is);
    Ok(())
}
