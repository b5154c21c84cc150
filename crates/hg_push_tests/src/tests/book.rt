//! Pushes through a book.

use super::*;
use hg_push::calls::{Answer, Call, make_call, make_calls};
use hg_push::{OpenFault, Standing};
use hg_types::TryClone;
use std::test::*;

/// Puts a clone of the part's item, where the part was made. It is false where memory was refused.
fn put_clone<A: Allocator + Copy>(
    alloc: A,
    book: &mut Book<A>,
    push: u32,
    index: u32,
    part: Result<BoxedPart<A>, NoMemory>,
) -> bool {
    match part {
        Ok(part) => match a_part(push, index, part).try_clone(alloc) {
            Ok(item) => !book.step(item, &mut Spent::new()),
            Err(NoMemory) => false,
        },
        Err(NoMemory) => false,
    }
}

/// Whether the journal names these pushes.
fn has_journal<A: Allocator + Copy>(book: &Book<A>, pushes: &[u32]) -> bool {
    book.journal() == pushes
}

/// Whether the first push is aborted and the second is done.
fn second_is_done<A: Allocator + Copy>(book: &Book<A>) -> bool {
    book.standing(0) == Standing::Aborted && book.standing(1) == Standing::Done
}

/// Whether the book hands out the repository and a journal of that push alone.
fn is_handed_out<A: Allocator + Copy>(book: Book<A>, push: u32) -> bool {
    let (repo, journal) = book.into_parts();
    journal.as_slice() == [push].as_slice() && !repo.settings().publishing
}

/// A0 B0 A1 B1 B end A end, where the second part of A is a race on heads, and that of B is none. The items
/// are clones, and an advisory parameter of B's first part is ignored.
fn interleave<A: Allocator + Copy>(alloc: A, book: &mut Book<A>) -> bool {
    let (caps, heads) = (b"REPLYCAPS".as_slice(), b"CHECK:HEADS".as_slice());
    let first = put_clone(alloc, book, 0, 0, part(alloc, caps, b""));
    let other = put_clone(alloc, book, 1, 0, part_with(alloc, caps, false, b"x", b"1"));
    let raced = put_clone(alloc, book, 0, 1, part(alloc, heads, b""));
    let checked = put_clone(alloc, book, 1, 1, part(alloc, heads, &NULL));
    first && other && raced && checked && end(book, 1, 2) && end(book, 0, 2)
}

/// Whether A is told as a race and B as done, before and after the replies are taken.
fn second_is_told<A: Allocator + Copy>(book: &mut Book<A>) -> bool {
    let before = has_journal(book, &[1]) && second_is_done(book);
    let told = tells_race(book, 0, 1) && tells_done(book, 1, 2);
    before && told && second_is_done(book) && tells_nothing(book, 0)
}

// A0 B0 A1 B1 B-end A-end: `REPLYCAPS` from each (B's with an advisory parameter `x` = `1`), then
// `CHECK:HEADS` without ids from A and with Z from B. Result: B is done, A is aborted, raced at
// place 1; journal [1]; both are told after their replies were taken too.
#[test]
fn two_pushes_interleaved(rt: HostRuntime) -> Result<(), Fail> {
    let state = RandomState::new(&rt)?;
    let mut book = empty_book(rt.alloc(), state);
    let opened = book.open() == Ok(0) && book.open() == Ok(1);
    let told = opened && interleave(rt.alloc(), &mut book) && second_is_told(&mut book);
    assert!(rt; is_handed_out(book, 1) && told);
    Ok(())
}

/// Whether each push has its place: 2 and 0 are done in this order, 1 is aborted between them, 3 is open.
fn have_places<A: Allocator + Copy>(book: &Book<A>) -> bool {
    let done = book.place(2) == Some(0) && book.place(0) == Some(1);
    done && book.place(1).is_none() && book.place(3).is_none() && book.place(4).is_none()
}

/// Places, before a reply is taken and after.
/// Four openings, the end of 2, an end mark of 1 with a wrong index, the end of 0. Result: places 0
/// of 2 and 1 of 0, none of the others; the same after two replies were taken.
#[test]
fn places_of_pushes(rt: HostRuntime) -> Result<(), Fail> {
    let state = RandomState::new(&rt)?;
    let mut book = empty_book(rt.alloc(), state);
    let mut opened = true;
    for push in 0..4 {
        opened = book.open() == Ok(push) && opened;
    }
    let ended = end(&mut book, 2, 0) && end(&mut book, 1, 7) && end(&mut book, 0, 0);
    assert!(rt; opened && ended && have_places(&book));
    let told = tells_done(&mut book, 0, 0) && tells_wrong_index(&mut book, 1);
    assert!(rt; told && have_places(&book));
    Ok(())
}

/// Whether a push without parts is done.
fn is_empty_done<A: Allocator + Copy>(book: &mut Book<A>) -> bool {
    let opened = book.open() == Ok(0) && book.standing(0) == Standing::Open;
    let ended = tells_nothing(book, 0) && end(book, 0, 0);
    opened && ended && tells_done(book, 0, 0) && has_journal(book, &[0])
}

/// The empty bundle is a push without parts.
/// An end mark with index 0. Result: done, nothing handled; journal [0].
#[test]
fn empty_bundle(rt: HostRuntime) -> Result<(), Fail> {
    let state = RandomState::new(&rt)?;
    let mut book = empty_book(rt.alloc(), state);
    let told = is_empty_done(&mut book);
    drop(book);
    assert!(rt; told);
    Ok(())
}

/// Whether a check of other heads than those of the empty repository is told as a race.
fn is_raced<A: Allocator + Copy>(alloc: A, book: &mut Book<A>) -> bool {
    let opened = book.open() == Ok(0);
    let checked = put(book, 0, 0, part(alloc, b"CHECK:HEADS", b"")) && end(book, 0, 1);
    opened && checked && tells_race(book, 0, 0) && has_journal(book, &[])
}

/// Whether nothing is in the book's repository.
fn has_empty_repo<A: Allocator + Copy>(alloc: A, state: RandomState, book: &Book<A>) -> bool {
    let empty = Repo::new(alloc, settings(0, 1), state);
    let is_same = book.repo().is_same(&empty);
    drop(empty);
    is_same
}

#[test]
fn race_on_heads(rt: HostRuntime) -> Result<(), Fail> {
    let state = RandomState::new(&rt)?;
    let mut book = empty_book(rt.alloc(), state);
    let raced = is_raced(rt.alloc(), &mut book) && has_empty_repo(rt.alloc(), state, &book);
    drop(book);
    assert!(rt; raced);
    Ok(())
}

// Limit `rows` 1, two openings. Result: 0; TooManyOpen.
#[test]
fn too_many_rows(rt: HostRuntime) -> Result<(), Fail> {
    let state = RandomState::new(&rt)?;
    let mut book = book_from(rt.alloc(), state, 0, 1);
    let full = book.open() == Ok(0) && book.open() == Err(OpenFault::TooManyOpen);
    drop(book);
    assert!(rt; full);
    Ok(())
}

/// Whether the push with that number is the last that can be opened. Its reply is taken.
fn is_last<A: Allocator + Copy>(book: &mut Book<A>, last: u32) -> bool {
    let ended = book.open() == Ok(last) && end(book, last, 0);
    ended && tells_done(book, last, 0) && book.open() == Err(OpenFault::Exhausted)
}

/// A row is free again once its reply was taken, and the numbers end.
/// First push 4,294,967,294, limit `rows` 1: an opening, its end mark, its reply taken, an opening.
/// Result: 4,294,967,294; Exhausted.
#[test]
fn last_push_number(rt: HostRuntime) -> Result<(), Fail> {
    let state = RandomState::new(&rt)?;
    let last = 4_294_967_294;
    let mut book = book_from(rt.alloc(), state, last, 1);
    let told = is_last(&mut book, last);
    drop(book);
    assert!(rt; told);
    Ok(())
}

/// Puts a part `output` where it was made.
fn put_output<A: Allocator + Copy>(alloc: A, book: &mut Book<A>, push: u32, index: u32) -> bool {
    put(book, push, index, part(alloc, b"output", b""))
}

/// Whether a push whose end mark counts too many parts is aborted, and items of it and of a push that was
/// never opened are dropped.
fn are_dropped<A: Allocator + Copy>(alloc: A, book: &mut Book<A>) -> bool {
    let closed = book.open() == Ok(0) && put_output(alloc, book, 0, 0) && end(book, 0, 2);
    let aborted = book.standing(0) == Standing::Aborted;
    let dropped = put_output(alloc, book, 0, 1) && put_output(alloc, book, 9, 0);
    let unknown = book.standing(9) == Standing::Unknown;
    let told = tells_wrong_index(book, 0) && tells_nothing(book, 9);
    closed && aborted && dropped && unknown && told
}

/// An end mark that counts too many parts, then items of a push that is closed and of one that was never
/// opened.
/// One part, end mark 2; then a part of that push; a part of push 9. Result: aborted, WrongIndex;
/// dropped; dropped, push 9 is unknown.
#[test]
fn items_by_hand(rt: HostRuntime) -> Result<(), Fail> {
    let state = RandomState::new(&rt)?;
    let mut book = empty_book(rt.alloc(), state);
    let told = are_dropped(rt.alloc(), &mut book);
    drop(book);
    assert!(rt; told);
    Ok(())
}

/// Whether a push that is cut off is told so, whatever is put after the cut.
fn is_cut_off<A: Allocator + Copy>(alloc: A, book: &mut Book<A>) -> bool {
    let opened = book.open() == Ok(0) && cut(book, 0, 0, CutReason::ReadFailed);
    let late = put_output(alloc, book, 0, 0) && end(book, 0, 1);
    opened && late && tells_cut(book, 0, CutReason::ReadFailed) && has_journal(book, &[])
}

/// Parts that come after a cut are dropped, and so is a later end mark.
/// A cut, then a part and an end mark 1. Result: aborted by the cut; nothing is applied.
#[test]
fn parts_after_a_cut(rt: HostRuntime) -> Result<(), Fail> {
    let state = RandomState::new(&rt)?;
    let mut book = empty_book(rt.alloc(), state);
    let told = is_cut_off(rt.alloc(), &mut book);
    drop(book);
    assert!(rt; told);
    Ok(())
}

/// Two openings in a book of one row that begins at 7, a reply too early, an end mark, and the reply.
fn five_calls<A: Allocator + Copy>(alloc: A) -> Result<Vec<Call<A>, A>, NoMemory> {
    let mut calls = Vec::new(alloc);
    calls.push(Call::Open)?;
    calls.push(Call::Open)?;
    calls.push(Call::TakeReply(7))?;
    calls.push(Call::Step(an_end(7, 0)))?;
    calls.push(Call::TakeReply(7))?;
    Ok(calls)
}

fn has_opened<A: Allocator>(answer: &Answer<Done<A>, Refusal<A>>, push: usize) -> bool {
    match answer {
        Answer::Opened(Ok(opened)) => *opened as usize == push,
        _ => false,
    }
}

/// Whether the answer is that there are as many open pushes as there may be.
fn has_no_row<A: Allocator>(answer: &Answer<Done<A>, Refusal<A>>) -> bool {
    match answer {
        Answer::Opened(opened) => *opened == Err(OpenFault::TooManyOpen),
        _ => false,
    }
}

/// Whether the answer is that there is no reply yet.
fn has_no_reply<A: Allocator>(answer: &Answer<Done<A>, Refusal<A>>) -> bool {
    matches!(answer, Answer::Reply(None))
}

/// Whether the answer is that the item was taken, and memory was there.
fn has_stepped<A: Allocator>(answer: &Answer<Done<A>, Refusal<A>>) -> bool {
    matches!(answer, Answer::Stepped(false))
}

/// Whether the answer is the reply to a push without parts.
fn has_reply<A: Allocator>(answer: &Answer<Done<A>, Refusal<A>>) -> bool {
    match answer {
        Answer::Reply(reply) => is_done(reply, 0),
        _ => false,
    }
}

/// Whether that is the answer to the call of the five at that place.
fn is_answered<A: Allocator>(place: usize, answer: &Answer<Done<A>, Refusal<A>>) -> bool {
    match place {
        0 => has_opened(answer, 7),
        1 => has_no_row(answer),
        2 => has_no_reply(answer),
        3 => has_stepped(answer),
        _ => has_reply(answer),
    }
}

fn are_answered<A: Allocator>(answers: &[Answer<Done<A>, Refusal<A>>]) -> bool {
    let mut all = answers.len() == 5;
    for (place, answer) in answers.iter().enumerate() {
        all = is_answered(place, answer) && all;
    }
    all
}

/// Whether the five calls are answered as they should be.
fn five_are_answered<A: Allocator + Copy>(alloc: A, book: &mut Book<A>) -> Result<bool, NoMemory> {
    let answers = make_calls(alloc, book, five_calls(alloc)?)?;
    Ok(are_answered(answers.as_slice()))
}

// First push 7, limit 1: open, open, take 7, end of 7, take 7. Result: 7; TooManyOpen; none; no
// refusal; done.
#[test]
fn a_list_of_calls(rt: HostRuntime) -> Result<(), Fail> {
    let state = RandomState::new(&rt)?;
    let mut book = book_from(rt.alloc(), state, 7, 1);
    let told = five_are_answered(rt.alloc(), &mut book) == Ok(true);
    drop(book);
    assert!(rt; told);
    Ok(())
}

/// Whether the five calls, made one at a time, have their answers, and two more after them.
fn five_are_made<A: Allocator + Copy>(book: &mut Book<A>) -> bool {
    let opened = has_opened(&make_call(book, Call::Open), 7);
    let refused = has_no_row(&make_call(book, Call::Open));
    let early = has_no_reply(&make_call(book, Call::TakeReply(7)));
    let ended = has_stepped(&make_call(book, Call::Step(an_end(7, 0))));
    let told = has_reply(&make_call(book, Call::TakeReply(7)));
    let again = has_no_reply(&make_call(book, Call::TakeReply(7)));
    let next = has_opened(&make_call(book, Call::Open), 8);
    opened && refused && early && ended && told && again && next && has_journal(book, &[7])
}

// The same calls, each alone, then take 7 and open. Result: the same answers; then none, as the reply was
// taken, and 8, as its row is free; 7 is in the journal.
#[test]
fn calls_one_at_a_time(rt: HostRuntime) -> Result<(), Fail> {
    let state = RandomState::new(&rt)?;
    let mut book = book_from(rt.alloc(), state, 7, 1);
    let told = five_are_made(&mut book);
    drop(book);
    assert!(rt; told);
    Ok(())
}

/// Whether the answer is that there are no numbers left.
fn has_no_number<A: Allocator>(answer: &Answer<Done<A>, Refusal<A>>) -> bool {
    match answer {
        Answer::Opened(opened) => *opened == Err(OpenFault::Exhausted),
        _ => false,
    }
}

/// Whether a call opens the last push, and those after it none; the last push is done all the same.
fn the_last_is_opened<A: Allocator + Copy>(book: &mut Book<A>) -> bool {
    let last = u32::MAX - 1;
    let opened = has_opened(&make_call(book, Call::Open), last as usize);
    let none = has_no_number(&make_call(book, Call::Open));
    let ended = has_stepped(&make_call(book, Call::Step(an_end(last, 0))));
    let told = has_reply(&make_call(book, Call::TakeReply(last)));
    let still = has_no_number(&make_call(book, Call::Open));
    opened && none && ended && told && still && has_journal(book, &[last])
}

// First push 4,294,967,294, limit 2: open, open, the end and the reply of the first, open. Result:
// 4,294,967,294; Exhausted; no refusal; done; Exhausted.
#[test]
fn calls_at_the_last_number(rt: HostRuntime) -> Result<(), Fail> {
    let state = RandomState::new(&rt)?;
    let mut book = book_from(rt.alloc(), state, u32::MAX - 1, 2);
    let told = the_last_is_opened(&mut book);
    drop(book);
    assert!(rt; told);
    Ok(())
}

fn a_thousand_openings<A: Allocator + Copy>(alloc: A) -> Result<Vec<Call<A>, A>, NoMemory> {
    let mut calls = Vec::new(alloc);
    for _ in 0..1_000 {
        calls.push(Call::Open)?;
    }
    Ok(calls)
}

/// Whether the answers tell the pushes from that number on.
fn have_opened<A: Allocator>(answers: &[Answer<Done<A>, Refusal<A>>], first: usize) -> bool {
    let mut all = answers.len() == 1_000;
    for (place, answer) in answers.iter().enumerate() {
        all = has_opened(answer, first.wrapping_add(place)) && all;
    }
    all
}

/// Whether a thousand openings have their answers.
fn are_opened<A: Allocator + Copy>(alloc: A, book: &mut Book<A>) -> Result<bool, NoMemory> {
    let answers = make_calls(alloc, book, a_thousand_openings(alloc)?)?;
    Ok(have_opened(answers.as_slice(), 7))
}

/// A thousand calls have a thousand answers, where memory is ample.
/// First push 7, limit 1,024: a thousand openings. Result: 7 to 1,006.
#[test]
fn a_long_list_of_calls(rt: HostRuntime) -> Result<(), Fail> {
    let state = RandomState::new(&rt)?;
    let mut book = book_from(rt.alloc(), state, 7, 1_024);
    let told = are_opened(rt.alloc(), &mut book) == Ok(true);
    drop(book);
    assert!(rt; told);
    Ok(())
}
