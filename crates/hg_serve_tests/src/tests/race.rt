//! Two pushes that race for the first root, item by item: A0 B0 A1 B1, B's end mark, A's end mark. The first
//! part of each checks that there is no changeset, the second is a changegroup of one root.

use super::*;
use hg_parts::{Item, What};
use hg_push::{Book, Standing};
use hg_repo::Spent;
use hg_types::{Param, Short};

/// The ids of the changesets without parents whose text is `a`, and `b`: SHA-1 of 40 zeros and the letter.
const A_ROOT: [u8; 20] = [
    0x04, 0x7b, 0x75, 0xc6, 0xd7, 0xa3, 0xef, 0x6a, 0x22, 0x43, 0xbd, 0x0e, 0x99, 0xf9, 0x4f, 0x6e,
    0xa6, 0x68, 0x35, 0x97,
];

const B_ROOT: [u8; 20] = [
    0x62, 0x45, 0x28, 0x55, 0x51, 0x2f, 0x5b, 0x81, 0x52, 0x2a, 0xa3, 0x89, 0x58, 0x92, 0x76, 0x0b,
    0xb8, 0xda, 0x9f, 0x3f,
];

/// The report of a repository with B's root alone.
const B_REPORT: &[u8] = b"C 0 62452855512f5b81522aa3895892760bb8da9f3f 1 0\n";

/// The changegroup 02 of a changeset of one letter without parents.
fn root_group(node: [u8; 20], letter: u8) -> [u8; 129] {
    let mut bytes = [0; 129];
    bytes[3] = 117;
    for at in 0..20 {
        bytes[4 + at] = node[at];
        bytes[84 + at] = node[at];
    }
    // a hunk of one byte, after which the text ends
    bytes[115] = 1;
    bytes[116] = letter;
    bytes
}

fn try_group(alloc: Global, payload: &[u8]) -> Result<BoxedPart, NoMemory> {
    let mut group = part_of(alloc, b"CHANGEGROUP", 0, payload)?;
    group.params.push(Param {
        mandatory: true,
        key: Short::copy_of(alloc, b"version")?,
        value: Short::copy_of(alloc, b"02")?,
    })?;
    BoxedPart::new(alloc, group)
}

/// A part of a changegroup 02.
pub fn group<R: Abort>(rt: &R, alloc: Global, payload: &[u8]) -> BoxedPart {
    made(rt, try_group(alloc, payload))
}

fn no_heads<R: Abort>(rt: &R, alloc: Global) -> BoxedPart {
    boxed(rt, alloc, b"CHECK:HEADS", &NULL)
}

pub fn a_root<R: Abort>(rt: &R, alloc: Global) -> BoxedPart {
    group(rt, alloc, &root_group(A_ROOT, b'a'))
}

pub fn b_root<R: Abort>(rt: &R, alloc: Global) -> BoxedPart {
    group(rt, alloc, &root_group(B_ROOT, b'b'))
}

/// Whether that is the repository that B's push gives on the empty one, and the report tells B's root.
fn has_b_alone<R: RandomSource + Abort>(rt: &R, alloc: Global, repo: &Repo) -> bool {
    let mut only_b = Repo::new(alloc, settings(0, 1_024), state(rt));
    let parts = [
        no_heads(rt, alloc).into_part(),
        b_root(rt, alloc).into_part(),
    ];
    let ran = only_b.run(Source::Push, &parts).is_ok();
    match repo.report() {
        Ok(report) => ran && repo.is_same(&only_b) && report.as_slice() == B_REPORT,
        Err(_) => false,
    }
}

/// Puts it into the queue of one place; where that is full, one item is taken before.
fn put_next<J: Naming<Global>, R: Wait + Abort>(
    rt: &R,
    server: &Server<J>,
    sender: &mut Sender<J>,
    part: BoxedPart,
) {
    match server.try_put(rt, sender, SentPart::read_ahead(part)) {
        Ok(()) => {}
        Err(PutFault::Full(back)) => {
            assert!(rt; server.turn(rt, &mut NoProbe));
            assert!(rt; server.try_put(rt, sender, back).is_ok());
        }
        Err(PutFault::TooMany(_back)) => panic!(rt; "too many parts"),
    }
}

/// The race through the server.
pub fn roots<J: Naming<Global>, R: Wait + Abort>(
    rt: &R,
    alloc: Global,
    server: &Server<J>,
) -> Vec<Client<J>> {
    let mut a = open(rt, server, client(rt, server));
    let mut b = open(rt, server, client(rt, server));
    put_next(rt, server, &mut a, no_heads(rt, alloc));
    put_next(rt, server, &mut b, no_heads(rt, alloc));
    put_next(rt, server, &mut a, a_root(rt, alloc));
    put_next(rt, server, &mut b, b_root(rt, alloc));
    let b = server.end(rt, b, &mut NoProbe);
    let a = server.end(rt, a, &mut NoProbe);
    let (of_a, a) = server.answer(rt, a, &mut NoProbe);
    let (of_b, b) = server.answer(rt, b, &mut NoProbe);
    assert!(rt; is_done(&of_b, 2) && is_race(&of_a, 0));
    let mut clients = Vec::new(alloc);
    add(rt, &mut clients, a);
    add(rt, &mut clients, b);
    clients
}

#[test]
fn two_roots_through_the_server(rt: HostRuntime) -> Result<(), Fail> {
    let closed = played(&rt, rt.alloc(), 1, settings(0, 1_024), Scene::Roots);
    assert_eq!(rt; closed.journal.as_slice(), [1].as_slice());
    assert!(rt; has_b_alone(&rt, rt.alloc(), &closed.repo));
    Ok(())
}

/// A part that is as it came.
fn sent(part: BoxedPart) -> What {
    What::Part(SentPart::as_it_came(part))
}

/// The race through a book.
/// `two_roots_through_a_book`, `two_roots_through_the_server`: A and B check with Z that there is
/// no changeset, and bring one each, without parents, whose text is `a`, and `b`: A0 B0 A1 B1, B's
/// end mark, A's end mark; by steps of a book, and by a server with one place. Result: B is done, A
/// is raced at place 0; the journal is [1]; the report is `C 0
/// 62452855512f5b81522aa3895892760bb8da9f3f 1 0`.
#[test]
fn two_roots_through_a_book(rt: HostRuntime) -> Result<(), Fail> {
    let alloc = rt.alloc();
    let mut book = Book::new(alloc, Repo::new(alloc, settings(0, 1_024), state(&rt)));
    let opened = book.open() == Ok(0) && book.open() == Ok(1);
    let items = [
        (0, 0, sent(no_heads(&rt, alloc))),
        (1, 0, sent(no_heads(&rt, alloc))),
        (0, 1, sent(a_root(&rt, alloc))),
        (1, 1, sent(b_root(&rt, alloc))),
        (1, 2, What::End),
        (0, 2, What::End),
    ];
    let mut kept = opened;
    for (push, index, what) in items {
        kept = !book.step(Item { push, index, what }, &mut Spent::new()) && kept;
    }
    let told = book.standing(0) == Standing::Aborted && book.standing(1) == Standing::Done;
    let (repo, journal) = book.into_parts();
    assert_eq!(rt; journal.as_slice(), [1].as_slice());
    assert!(rt; kept && told && has_b_alone(&rt, alloc, &repo));
    Ok(())
}
