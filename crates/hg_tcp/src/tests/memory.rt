//! Memory that is refused for a connection, and for the report, over heaps of rising size.

ghost use Rattle.std.specs.Prelude.{◌≡◌, ◌≤◌};
ghost use Rattle.hg_serve.specs.Desks.{OpensWith};

use super::*;
use crate::clients::ServedClients;
use crate::closing::send_closing;
use crate::naming::ServiceNaming;
use crate::service::SharedServer;
use hg_connection::Sending;
use hg_queue::{PartQueue, Taker};
use linked_list_allocator::LocalHeap;
use std::alloc::Allocator;
use std::marker::Brand;
use std::sync::Wait;
use std::time::Clock;

/// `output` with a payload of 96 bytes.
const LONG: &[u8] = b"HG20\0\0\0\0\
        \0\0\0\x0d\x06output\0\0\0\0\0\0\0\0\0\x60\
        aaaaaaaaaaaaaaaaaaaaaaaaaaaaaaaaaaaaaaaaaaaaaaaaaaaaaaaaaaaaaaaaaaaaaaaaaaaaaaaaaaaaaaaaaaaa\
        aaaa\0\0\0\0\0\0\0\0";

/// The replies to a push that memory was refused for: in its run, and in the reading of its bundle.
const REFUSED_REPLY: &[u8] =
    b"HG20\0\0\0\0\0\0\0\x28\x0bERROR:ABORT\0\0\0\0\x01\0\x07\x0dmessageout of memory\0\0\0\0\0\0\0\0";

const UNREAD_REPLY: &[u8] =
    b"HG20\0\0\0\0\0\0\0\x2a\x0bERROR:ABORT\0\0\0\0\x01\0\x07\x0fmessagestream fault 11\0\0\0\0\0\0\0\0";

/// One connection of one bundle.
const ONE: ServeTerms = ServeTerms {
    connections: 1,
    capacity: 1,
    bundles: 1,
};

/// What became of a connection, as its client and the service tell it.
#[derive(Clone, Copy, PartialEq, Eq)]
enum Told {
    /// Nothing was served: there was no room for the queue.
    Nothing,
    /// The client got nothing, and the service says that memory was refused.
    Refused,
    /// The reply says that memory was refused.
    Aborted,
    /// The push is done, and the client knows.
    Done,
    /// Something else came than should.
    Wrong,
}

/// Serves one connection on this thread, on a server of that name, and says whether memory was refused for
/// it, and how many pushes are done.
fn served<J: ServiceNaming<A>, A: Allocator + Copy, R: Wait + Clock>(
    rt: &R,
    alloc: A,
    stream: TcpStream,
    queue: PartQueue<A>,
    taker: Taker<A>,
    repo: Repo<A>,
    terms: ServeTerms,
) -> Option<(bool, usize)>
    requires begins { OpensWith J.table J.capacity J.first queue taker repo }
    requires terms { (terms.capacity ≡ J.capacity) × (terms.bundles ≡ J.bundles) × (1 ≤ terms.bundles)
        × (terms.bundles ≤ 10000) }
{
    let Ok(clients) = ServedClients::with_room(alloc, 1) else {
        return None;
    };
    let service = SharedServer::<J, A>::new(alloc, repo, queue, taker, clients, terms);
    service.connect(rt, alloc, stream);
    let no_memory = service.missed_memory();
    let (server, clients) = service.into_parts();
    Some((no_memory, clients.close(server).journal.len()))
}

/// The same, on a server of an empty repository.
fn served_over<R: RandomSource + Wait + Clock + Abort>(
    rt: &R,
    heap: &LocalHeap,
    stream: TcpStream,
) -> Option<(bool, usize)> {
    let Ok((queue, taker)) = PartQueue::new(heap, 1) else {
        return None;
    };
    let repo = empty_repository(rt, heap);
    served::<Brand, _, _>(rt, heap, stream, queue, taker, repo, ONE)
}

/// A client of a server over a heap pushes. What became of it.
fn pushed<R>(rt: &R, alloc: Global, heap: &LocalHeap, listener: &TcpListener) -> Told
where
    R: Net<Listener = TcpListener, Stream = TcpStream> + RandomSource + Wait + Clock + Abort,
{
    let sender = client(rt, listener, LONG);
    let Ok((stream, _)) = listener.accept() else {
        return Told::Wrong;
    };
    match served_over(rt, heap, stream) {
        None => Told::Nothing,
        Some((true, _)) if was_sent(alloc, &sender, b"") => Told::Refused,
        Some((false, 1)) if was_sent(alloc, &sender, EMPTY) => Told::Done,
        Some((false, 0)) if is_refusal(alloc, &sender) => Told::Aborted,
        Some(_) => Told::Wrong,
    }
}

/// Whether the client was sent a reply that says that memory was refused.
fn is_refusal(alloc: Global, stream: &TcpStream) -> bool {
    let mut got = Vec::new(alloc);
    let mut reader = stream;
    reader.read_to_end(&mut got).is_ok()
        && (got.as_slice() == REFUSED_REPLY || got.as_slice() == UNREAD_REPLY)
}

/// Memory is refused for an opening, a part or a reply: the service says so, or the reply does. There is no
/// third.
#[test]
fn memory_is_refused_for_a_connection(rt: HostRuntime) -> Result<(), Fail> {
    let listener = listener(&rt);
    let (mut refused, mut done, mut wrong) = (false, false, false);
    for sixteens in 64..256usize {
        let heap = LocalHeap::new(rt.alloc(), sixteens * 16)?;
        match pushed(&rt, rt.alloc(), &heap, &listener) {
            Told::Nothing | Told::Aborted => {}
            Told::Refused => refused = true,
            Told::Done => done = true,
            Told::Wrong => wrong = true,
        }
    }
    assert!(rt; refused && done && !wrong);
    Ok(())
}

/// What is told of an empty repository and a done push, over a heap.
fn told_over<R: RandomSource + Abort>(rt: &R, alloc: Global, heap: &LocalHeap) -> Told {
    let mut report = Vec::new(alloc);
    match send_closing(heap, &empty_repository(rt, heap), &[7], &mut report) {
        (Sending::NoMemory, 0) if report.is_empty() => Told::Refused,
        (Sending::Whole, 4) if report.as_slice() == b"J 7\n".as_slice() => Told::Done,
        _ => Told::Wrong,
    }
}

/// Memory is refused for the report, and no byte of it goes out; or it is written whole.
#[test]
fn memory_is_refused_for_the_report(rt: HostRuntime) -> Result<(), Fail> {
    let (mut refused, mut done, mut wrong) = (false, false, false);
    for sixteens in 1..32usize {
        let heap = LocalHeap::new(rt.alloc(), sixteens * 16)?;
        match told_over(&rt, rt.alloc(), &heap) {
            Told::Refused => refused = true,
            Told::Done => done = true,
            _ => wrong = true,
        }
    }
    assert!(rt; refused && done && !wrong);
    Ok(())
}

/// A journal of 200,000 lines is written whole.
#[test]
fn a_long_journal(rt: HostRuntime) -> Result<(), Fail> {
    let journal = vec![in rt.alloc(); 7u32; 200_000]?;
    let repo = empty_repository(&rt, rt.alloc());
    let mut report = Vec::new(rt.alloc());
    let told = send_closing(rt.alloc(), &repo, &journal, &mut report);
    assert!(rt; told == (Sending::Whole, 800_000) && report.ends_with(b"J 7\nJ 7\n"));
    Ok(())
}
