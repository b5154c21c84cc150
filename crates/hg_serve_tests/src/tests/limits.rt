//! Openings that are refused, by the limit on rows and after the last number; as many parts as a push may
//! have; and as many pushes as may be open.

use super::*;

/// Opens a push that is refused, and gives the client back.
fn refused_as<J: Naming<Global>, R: Wait + Abort>(
    rt: &R,
    server: &Server<J>,
    client: Client<J>,
    fault: OpenFault,
) -> Client<J> {
    match server.open(rt, client) {
        Ok(_sender) => panic!(rt; "an opening"),
        Err((client, told)) => {
            assert_eq!(rt; told, fault);
            client
        }
    }
}

/// With one row, a second opening is refused until the first push is answered. Then the last number is given,
/// and after it none is left.
pub fn refused<J: Naming<Global>, R: Wait + Abort>(
    rt: &R,
    alloc: Global,
    server: &Server<J>,
) -> Vec<Client<J>> {
    let a = open(rt, server, client(rt, server));
    let b = refused_as(rt, server, client(rt, server), OpenFault::TooManyOpen);
    let (of_a, a) = finish(rt, server, a);
    assert!(rt; is_done(&of_a, 0));
    let (of_b, b) = finish(rt, server, open(rt, server, b));
    assert!(rt; is_done(&of_b, 0));
    let a = refused_as(rt, server, a, OpenFault::Exhausted);
    let mut clients = Vec::new(alloc);
    add(rt, &mut clients, a);
    add(rt, &mut clients, b);
    clients
}

// `first_push` 4,294,967,293 and one row: A opens, B opens; A is answered, B opens and is answered;
// A's client opens. Result: B's client comes back with TooManyOpen, and later gets 4,294,967,294;
// at last A's client comes back with Exhausted.
#[test]
fn one_row_and_two_numbers(rt: HostRuntime) -> Result<(), Fail> {
    let closed = played(
        &rt,
        rt.alloc(),
        1,
        settings(4_294_967_293, 1),
        Scene::Limits,
    );
    assert_eq!(rt;
        closed.journal.as_slice(),
        [4_294_967_293, 4_294_967_294].as_slice()
    );
    Ok(())
}

/// Puts a part that found the queue full, after one turn.
fn put_behind_a_turn<J: Naming<Global>, R: Wait>(
    rt: &R,
    server: &Server<J>,
    sender: &mut Sender<J>,
    part: SentPart,
) -> bool {
    let turned = server.turn(rt, &mut NoProbe);
    let tried = server.try_put(rt, sender, part);
    turned && tried.is_ok()
}

/// Puts 10,000 parts, each after one turn where the queue is full.
fn put_most<J: Naming<Global>, R: Wait + Abort>(
    rt: &R,
    alloc: Global,
    server: &Server<J>,
    sender: &mut Sender<J>,
) -> bool {
    let mut all = true;
    for _ in 0..10_000 {
        let put = match server.try_put(rt, sender, part(rt, alloc, b"output", b"")) {
            Ok(()) => true,
            Err(PutFault::Full(back)) => put_behind_a_turn(rt, server, sender, back),
            Err(PutFault::TooMany(_back)) => false,
        };
        all = put && all;
    }
    all
}

/// Whether that part comes back, since its push has as many as it may.
fn is_too_many(tried: &Result<(), PutFault>, payload: &[u8]) -> bool {
    match tried {
        Err(PutFault::TooMany(part)) => part
            .whole()
            .is_some_and(|part| part.payload.as_slice() == payload),
        _ => false,
    }
}

/// One part more than 10,000 comes back, and the push is done with the others.
pub fn most_parts<J: Naming<Global>, R: Wait + Abort>(
    rt: &R,
    alloc: Global,
    server: &Server<J>,
) -> Vec<Client<J>> {
    let mut sender = open(rt, server, client(rt, server));
    let all = put_most(rt, alloc, server, &mut sender);
    let more = part(rt, alloc, b"output", b"more");
    let tried = server.try_put(rt, &mut sender, more);
    let (answer, client) = finish(rt, server, sender);
    let mut clients = Vec::new(alloc);
    add(rt, &mut clients, client);
    assert!(rt; all && is_too_many(&tried, b"more") && is_done(&answer, 10_000));
    clients
}

// Capacity 64: 10,000 parts `output` by `try_put`, with a turn where the queue is full; one more;
// the end mark. Result: the last comes back as one too many; the push is done with the others.
#[test]
fn as_many_parts_as_a_push_may_have(rt: HostRuntime) -> Result<(), Fail> {
    let closed = played(&rt, rt.alloc(), 64, settings(0, 1), Scene::MostParts);
    assert_eq!(rt; closed.journal.as_slice(), [0].as_slice());
    Ok(())
}

/// Opens 1,024 pushes.
fn open_most<J: Naming<Global>, R: Wait + Abort>(
    rt: &R,
    alloc: Global,
    server: &Server<J>,
) -> Vec<Sender<J>> {
    let mut senders = Vec::new(alloc);
    for _ in 0..1_024 {
        let sender = open(rt, server, client(rt, server));
        match senders.push(sender) {
            Ok(()) => {}
            Err(AllocFailed { value: _sender, .. }) => panic!(rt; "no memory for a sender"),
        }
    }
    senders
}

/// Ends the pushes, the last one first, and says whether each is done.
fn answer_all<J: Naming<Global>, R: Wait + Abort>(
    rt: &R,
    server: &Server<J>,
    senders: Vec<Sender<J>>,
    clients: &mut Vec<Client<J>>,
) -> bool {
    let mut senders = senders;
    let mut all = true;
    'answering: while let Some(sender) = senders.pop() {
        let (answer, client) = finish(rt, server, sender);
        all = is_done(&answer, 0) && all;
        add(rt, clients, client);
    }
    senders.destroy_empty();
    all
}

/// While 1,024 pushes are open, the next one is refused; each of them is answered.
pub fn most_open<J: Naming<Global>, R: Wait + Abort>(
    rt: &R,
    alloc: Global,
    server: &Server<J>,
) -> Vec<Client<J>> {
    let senders = open_most(rt, alloc, server);
    let next = refused_as(rt, server, client(rt, server), OpenFault::TooManyOpen);
    let mut clients = Vec::new(alloc);
    add(rt, &mut clients, next);
    let all = answer_all(rt, server, senders, &mut clients);
    assert!(rt; all);
    clients
}

// `hg_serve`: 1,024 pushes that are open at once; the next one is refused, and each of them is done
// (`as_many_pushes_as_may_be_open`).
#[test]
fn as_many_pushes_as_may_be_open(rt: HostRuntime) -> Result<(), Fail> {
    let closed = played(&rt, rt.alloc(), 64, settings(0, 1_024), Scene::MostOpen);
    assert_eq!(rt; closed.journal.len(), 1_024);
    Ok(())
}
