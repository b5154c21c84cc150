//! The bytes of replies.

use super::*;
use hg_keys::KeyCall;
use hg_push::reply_bytes;
use hg_repo::RaceText;
use hg_types::Short;
use std::alloc::Global;
use std::test::*;

/// Whether an aborted push is told by these bytes.
fn is_told_as(alloc: Global, reason: Reason<Refusal>, bytes: &[u8]) -> bool {
    match reply_bytes(alloc, &Outcome::Aborted(reason)) {
        Ok(reply) => reply.as_slice() == bytes,
        Err(NoMemory) => false,
    }
}

/// A bundle without parts.
const NOTHING: [u8; 12] = [72, 71, 50, 48, 0, 0, 0, 0, 0, 0, 0, 0];

// A done push. Result: the 12 bytes of the bundle without parts.
#[test]
fn done_without_replies(rt: HostRuntime) -> Result<(), Fail> {
    let alloc = rt.alloc();
    let done = Done {
        replies: Seq::new(alloc),
        handled: Seq::new(alloc),
    };
    let reply = reply_bytes(alloc, &Outcome::Done(done))?;
    assert!(rt; reply.as_slice() == NOTHING.as_slice());
    Ok(())
}

// `CHECK:HEADS` without ids, end mark 1. Result: aborted, raced at place 0; journal empty; the
// repository is the empty one.
#[test]
fn race_on_heads(rt: HostRuntime) {
    let race = Refusal::Raced {
        place: 0,
        text: RaceText::HeadsChanged,
    };
    let bytes: &[u8] = b"HG20\0\0\0\0\
            \0\0\0\x2c\x0fERROR:PUSHRACED\0\0\0\0\x01\0\x07\x0dmessageheads changed\0\0\0\0\0\0\0\0";
    assert!(rt; is_told_as(rt.alloc(), Reason::Refused(race), bytes));
}

/// The reply of one `error:abort` part with that message, which is short.
fn abort_reply(alloc: Global, message: &[u8]) -> Result<Vec<u8>, NoMemory> {
    let mut reply = Vec::from_slice(alloc, b"HG20\0\0\0\0\0\0\0")?;
    let size = u8::try_from(message.len()).unwrap_or(0);
    reply.push(size.saturating_add(27))?;
    reply.extend_from_slice(b"\x0bERROR:ABORT\0\0\0\0\x01\0\x07")?;
    reply.push(size)?;
    reply.extend_from_slice(b"message")?;
    reply.extend_from_slice(message)?;
    reply.extend_from_slice(&[0; 8])?;
    Ok(reply)
}

/// Whether an aborted push is told by that message, in so many bytes.
fn has_message(alloc: Global, reason: Reason<Refusal>, message: &[u8], size: usize) -> bool {
    match abort_reply(alloc, message) {
        Ok(bytes) => bytes.len() == size && is_told_as(alloc, reason, bytes.as_slice()),
        Err(NoMemory) => false,
    }
}

/// The same of a push that was cut off.
fn cut_has_message(alloc: Global, reason: CutReason, message: &[u8], size: usize) -> bool {
    has_message(alloc, Reason::Cut(reason), message, size)
}

// A part 2 that names an unknown node; a malformed part 1; a malformed part 4,294,967,295;
// `error:abort`; stream faults 1 and 10; connection lost; push dropped; bad end mark; out of
// memory. Result: replies of 75, 66, 75, 61, 61, 62, 62, 59, 59 and 60 bytes, one `ERROR:ABORT`
// each.
#[test]
fn each_reason_that_aborts(rt: HostRuntime) {
    let alloc = rt.alloc();
    let first = Reason::Refused(Refusal::BadPart { place: 1 });
    let client = Reason::Refused(Refusal::ClientAbort { place: 0 });
    let last = Reason::Refused(Refusal::BadPart {
        place: 4_294_967_295,
    });
    let unknown = Reason::Refused(Refusal::UnknownNode { place: 2 });
    let refused = has_message(alloc, unknown, b"part 2 names an unknown node", 75)
        && has_message(alloc, first, b"part 1 is malformed", 66)
        && has_message(alloc, last, b"part 4294967295 is malformed", 75)
        && has_message(alloc, client, b"client aborted", 61);
    let cut = cut_has_message(alloc, CutReason::Stream(1), b"stream fault 1", 61)
        && cut_has_message(alloc, CutReason::Stream(10), b"stream fault 10", 62)
        && cut_has_message(alloc, CutReason::ReadFailed, b"connection lost", 62)
        && cut_has_message(alloc, CutReason::GaveUp, b"push dropped", 59);
    let index = has_message(alloc, Reason::WrongIndex, b"bad end mark", 59);
    let memory = has_message(alloc, Reason::NoMemory, b"out of memory", 60);
    assert!(rt; refused && cut && index && memory);
}

/// A part of that type is not supported, for the parameters of these names.
fn unsupported(alloc: Global, kind: &[u8], names: &[&[u8]]) -> Result<Reason<Refusal>, NoMemory> {
    let mut params = Seq::new(alloc);
    for name in names {
        params.push(Short::copy_of(alloc, *name)?)?;
    }
    Ok(Reason::Refused(Refusal::Unsupported {
        place: 0,
        kind: Short::copy_of(alloc, kind)?,
        params,
    }))
}

// `frob`. Result: 65 bytes, `ERROR:UNSUPPORTEDCONTENT` with `parttype`.
#[test]
fn unknown_mandatory_part(rt: HostRuntime) -> Result<(), Fail> {
    let reason = unsupported(rt.alloc(), b"frob", &[])?;
    let bytes: &[u8] = b"HG20\0\0\0\0\
            \0\0\0\x2d\x18ERROR:UNSUPPORTEDCONTENT\0\0\0\0\x01\0\x08\x04parttypefrob\0\0\0\0\0\0\0\0";
    assert!(rt; is_told_as(rt.alloc(), reason, bytes));
    Ok(())
}

/// The reply to `replycaps` with unknown parameters whose joined names begin with these 255 bytes.
fn cut_names(alloc: Global, names: &[u8; 255]) -> Result<Vec<u8>, NoMemory> {
    let front: &[u8] = b"HG20\0\0\0\0\
            \0\0\x01\x39\x18ERROR:UNSUPPORTEDCONTENT\0\0\0\0\x02\0\x08\x09\x06\xff\
            parttypereplycapsparams";
    let mut bytes = Vec::from_slice(alloc, front)?;
    bytes.extend_from_slice(names)?;
    bytes.extend_from_slice(&[0; 8])?;
    Ok(bytes)
}

/// 200 times `a`, a NUL and 54 times `b`.
fn two_long_names() -> [u8; 255] {
    let mut names = [b'a'; 255];
    names[200] = 0;
    for place in 201..255 {
        names[place] = b'b';
    }
    names
}

/// 128 times `x`, with a NUL between each two.
fn many_short_names() -> [u8; 255] {
    let mut names = [0; 255];
    for place in 0..128 {
        names[2 * place] = b'x';
    }
    names
}

/// The names of two unknown mandatory parameters, of 200 bytes each, are joined by NUL and cut after 255
/// bytes.
/// `replycaps` with unknown names of 200 times `a` and 200 times `b`. Result: 333 bytes; `params`
/// is 200 `a`, NUL and 54 `b`.
#[test]
fn long_names_are_cut(rt: HostRuntime) -> Result<(), Fail> {
    let bytes = cut_names(rt.alloc(), &two_long_names())?;
    let reason = unsupported(rt.alloc(), b"replycaps", &[&[b'a'; 200], &[b'b'; 200]])?;
    assert!(rt; bytes.len() == 333 && is_told_as(rt.alloc(), reason, bytes.as_slice()));
    Ok(())
}

/// Of 300 names the first 128 are told, where memory is ample.
/// `replycaps` with 300 unknown names `x`. Result: 333 bytes; `params` is 128 times `x`, with a NUL
/// between each two.
#[test]
fn many_names_are_cut(rt: HostRuntime) -> Result<(), Fail> {
    let bytes = cut_names(rt.alloc(), &many_short_names())?;
    let reason = unsupported(rt.alloc(), b"replycaps", &[b"x".as_slice(); 300])?;
    assert!(rt; is_told_as(rt.alloc(), reason, bytes.as_slice()));
    Ok(())
}

/// An empty name counts among those that are joined.
/// Unknown names, one empty and `x`. Result: `params` is NUL and `x`.
#[test]
fn an_empty_name(rt: HostRuntime) -> Result<(), Fail> {
    let reason = unsupported(rt.alloc(), b"output", &[b"", b"x"])?;
    let bytes: &[u8] = b"HG20\0\0\0\0\
            \0\0\0\x39\x18ERROR:UNSUPPORTEDCONTENT\0\0\0\0\x02\0\x08\x06\x06\x02parttypeoutputparams\0x\
            \0\0\0\0\0\0\0\0";
    assert!(rt; is_told_as(rt.alloc(), reason, bytes));
    Ok(())
}

fn a_call(alloc: Global) -> Result<KeyCall, NoMemory> {
    Ok(KeyCall {
        namespace: Seq::copy_of(alloc, b"phases")?,
        key: Seq::copy_of(alloc, b"k")?,
        old: Seq::copy_of(alloc, b"0")?,
        new: Seq::copy_of(alloc, b"1")?,
    })
}

/// The reply tells the part's id, and what it asked: the new value before the old one.
/// The part 7 asks for the key `k` of `phases` to be `1` in place of `0`. Result: 89 bytes,
/// `ERROR:PUSHKEY` with `in-reply-to` `7`, `namespace` `phases`, `key` `k`, `new` `1`, `old` `0`.
#[test]
fn a_key_that_was_not_set(rt: HostRuntime) -> Result<(), Fail> {
    let alloc = rt.alloc();
    let call = a_call(alloc)?;
    let refused = Refusal::KeyFailed {
        place: 3,
        id: 7,
        call,
    };
    let bytes: &[u8] = b"HG20\0\0\0\0\
            \0\0\0\x45\x0dERROR:PUSHKEY\0\0\0\0\x05\0\x0b\x01\x09\x06\x03\x01\x03\x01\x03\x01\
            in-reply-to7namespacephaseskeyknew1old0\0\0\0\0\0\0\0\0";
    assert!(rt; is_told_as(alloc, Reason::Refused(refused), bytes));
    Ok(())
}

/// The size of the reply to an aborted push, 0 where memory was refused.
fn size_of_reply(alloc: Global, reason: Reason<Refusal>) -> usize {
    match reply_bytes(alloc, &Outcome::Aborted(reason)) {
        Ok(reply) => reply.len(),
        Err(NoMemory) => 0,
    }
}

/// A call with texts as long as a parameter may have them.
fn longest_call(alloc: Global) -> Result<KeyCall, NoMemory> {
    let text = [b't'; 255];
    Ok(KeyCall {
        namespace: Seq::copy_of(alloc, &text)?,
        key: Seq::copy_of(alloc, &text)?,
        old: Seq::copy_of(alloc, &text)?,
        new: Seq::copy_of(alloc, &text)?,
    })
}

/// Texts as long as a parameter may have them: the four of a key, and a type and as many names as a header
/// has.
#[test]
fn the_longest_texts(rt: HostRuntime) -> Result<(), Fail> {
    let alloc = rt.alloc();
    let failed = Refusal::KeyFailed {
        place: 9_999,
        id: 7,
        call: longest_call(alloc)?,
    };
    assert_eq!(rt; size_of_reply(alloc, Reason::Refused(failed)), 1_100);
    let text = [b't'; 255];
    let refused = unsupported(alloc, &text, &[text.as_slice(); 255])?;
    assert_eq!(rt; size_of_reply(alloc, refused), 579);
    Ok(())
}
