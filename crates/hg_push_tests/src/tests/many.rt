//! As many parts as a push may have, and thousands of pushes and of calls, over heaps that are ample.

use super::*;
use hg_push::calls::{Answer, Call, make_calls};
use hg_push::reply_bytes;
use linked_list_allocator::LocalHeap;
use std::test::*;

/// As many parts as a push may have.
const PARTS: u32 = 10_000;

/// Puts a `replycaps`, and after it parts `obsmarkers` without a marker, each of which leaves a reply.
fn put_all<A: Allocator + Copy>(alloc: A, book: &mut Book<A>) -> bool {
    let mut all = put(book, 0, 0, part(alloc, b"REPLYCAPS", b""));
    for index in 1..PARTS {
        all = put(book, 0, index, part(alloc, b"OBSMARKERS", b"\0")) && all;
    }
    all
}

/// The size of the reply to that push.
fn size_of_reply<A: Allocator + Copy>(alloc: A, book: &mut Book<A>) -> Option<usize> {
    match book.take_reply(0) {
        Some(outcome) => match reply_bytes(alloc, &outcome) {
            Ok(reply) => Some(reply.len()),
            Err(NoMemory) => None,
        },
        None => None,
    }
}

/// Whether the push of all parts is told in as many bytes as its reply should have.
fn all_are_done<A: Allocator + Copy>(alloc: A, state: RandomState) -> bool {
    let mut book = empty_book(alloc, state);
    let put = book.open() == Ok(0) && put_all(alloc, &mut book) && end(&mut book, 0, PARTS);
    let size = size_of_reply(alloc, &mut book);
    drop(book);
    put && size == Some(509_961)
}

/// All parts are staged and run, and each but the first leaves a reply, which takes 51 bytes of a bundle. The
/// bundle has 12 more.
#[test]
fn as_many_parts_as_a_push_may_have(rt: HostRuntime) -> Result<(), Fail> {
    let state = RandomState::new(&rt)?;
    let heap = LocalHeap::new(rt.alloc(), 1 << 25)?;
    let done = all_are_done(&heap, state);
    assert!(rt; done && heap.free() > 1 << 24);
    Ok(())
}

/// Opens and ends pushes one after another, and takes the reply of each.
fn are_done<A: Allocator + Copy>(book: &mut Book<A>) -> bool {
    let mut all = true;
    for push in 0..10_000 {
        let is_done = book.open() == Ok(push) && end(book, push, 0) && tells_done(book, push, 0);
        all = is_done && all;
    }
    all && book.journal().len() == 10_000
}

/// As many calls, each of which asks for the reply of a push that was never opened.
fn many_calls<A: Allocator + Copy>(alloc: A) -> Result<Vec<Call<A>, A>, NoMemory> {
    let mut calls = Vec::new(alloc);
    for push in 0..20_000 {
        calls.push(Call::TakeReply(push))?;
    }
    Ok(calls)
}

/// Whether each of as many calls has that answer.
fn are_answered<A: Allocator + Copy>(alloc: A, book: &mut Book<A>) -> Result<bool, NoMemory> {
    let answers = make_calls(alloc, book, many_calls(alloc)?)?;
    let all = answers
        .as_slice()
        .iter()
        .all(|answer| matches!(answer, Answer::Reply(None)));
    Ok(all && answers.len() == 20_000)
}

/// Whether the calls are answered and the pushes done.
fn all_are_answered<A: Allocator + Copy>(alloc: A, state: RandomState) -> bool {
    let mut book = empty_book(alloc, state);
    let answered = are_answered(alloc, &mut book) == Ok(true) && are_done(&mut book);
    drop(book);
    answered
}

/// Thousands of pushes that are done join the journal, and thousands of calls are answered.
#[test]
fn many_pushes_and_many_calls(rt: HostRuntime) -> Result<(), Fail> {
    let state = RandomState::new(&rt)?;
    let heap = LocalHeap::new(rt.alloc(), 1 << 24)?;
    let answered = all_are_answered(&heap, state);
    assert!(rt; answered && heap.free() > 1 << 23);
    Ok(())
}
