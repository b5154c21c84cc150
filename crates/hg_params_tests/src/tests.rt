//! Worked examples, and memory that is refused at each growth.

use hg_params::*;
use hg_types::{NoMemory, Param, Part, Payload, Seq, Short};
use linked_list_allocator::LocalHeap;
use std::alloc::Allocator;
use std::test::*;

/// A header without parameters.
const REPLYCAPS: &[u8] = b"\x09REPLYCAPS\0\0\0\0\0\0";

/// A header with two advisory parameters.
const REPLY: &[u8] = b"\x11reply:changegroup\0\0\0\0\0\x02\x0b\x01\x06\x01in-reply-to1return1";

/// A header with a mandatory parameter.
const RACED: &[u8] = b"\x0fERROR:PUSHRACED\0\0\0\0\x01\0\x07\x0dmessageheads changed";

fn header_fault<A: Allocator + Copy>(alloc: A, bytes: &[u8]) -> Option<ParamFault> {
    read_header(alloc, bytes).err()
}

fn params_fault<A: Allocator + Copy>(alloc: A, bytes: &[u8]) -> Option<ParamFault> {
    read_stream_params(alloc, bytes).err()
}

fn part_of<A: Allocator + Copy>(alloc: A, head: Head<A>) -> Part<A> {
    Part {
        kind: head.kind,
        id: head.id,
        params: head.params,
        payload: Payload::new(alloc),
    }
}

/// Whether the part's header is written as these bytes, after others.
fn is_written_as<A: Allocator + Copy>(alloc: A, part: &Part<A>, bytes: &[u8]) -> bool {
    let mut out = Vec::new(alloc);
    let is_begun = out.extend_from_slice(b"before").is_ok();
    if !is_writable(part) {
        return false;
    }
    let is_written = write_header(&mut out, part).is_ok();
    is_begun
        && is_written
        && &out[..out.len().min(6)] == b"before".as_slice()
        && &out[out.len().min(6)..] == bytes
}

/// Whether the header is read, with so many parameters, and written back.
fn is_written_back<A: Allocator + Copy>(alloc: A, bytes: &[u8], params: usize) -> bool {
    match read_header(alloc, bytes) {
        Ok(head) => {
            head.params.len() == params && is_written_as(alloc, &part_of(alloc, head), bytes)
        }
        Err(_) => false,
    }
}

// `09 "REPLYCAPS" 00000000 0000`; `11 "reply:changegroup" 00000000 0002 0b01 0601 "in-reply-to" "1"
// "return" "1"`; `0f "ERROR:PUSHRACED" 00000000 0100 070d "message" "heads changed"`. Result: each
// is a header; what is written of the part is the same bytes.
#[test]
fn a_header_is_read_and_written_back(rt: HostRuntime) {
    let mut all = true;
    for (bytes, params) in [(REPLYCAPS, 0), (REPLY, 2), (RACED, 1)] {
        all = is_written_back(rt.alloc(), bytes, params) && all;
    }
    assert!(rt; all);
}

fn is_param<A: Allocator>(param: &Param<A>, mandatory: bool, key: &[u8], value: &[u8]) -> bool {
    param.mandatory == mandatory && param.key.as_slice() == key && param.value.as_slice() == value
}

// `01 "b" 01020304 0101 0201 0002 "ke" "y" "" "va"`. Result: type `b`, id 16,909,060, a mandatory
// parameter `ke` with `y`, an advisory one with an empty key and `va`.
#[test]
fn the_fields_of_a_header(rt: HostRuntime) -> Result<(), Fail> {
    let bytes: &[u8] = b"\x01b\x01\x02\x03\x04\x01\x01\x02\x01\x00\x02keyva";
    let head = read_header(rt.alloc(), bytes)?;
    let has_params = match head.params.as_slice() {
        [first, second] => is_param(first, true, b"ke", b"y")
            && is_param(second, false, b"", b"va"),
        _ => false,
    };
    let is_named = head.kind.as_slice() == b"b".as_slice() && head.id == 0x0102_0304;
    assert!(rt; is_named && has_params);
    Ok(())
}

// Type size 0 · `/` as type · a key twice, once mandatory and once advisory · the empty key once ·
// twice · one byte too many · one too few · no bytes · type size 0 and a byte too many · type size
// 0 and sizes that end early · type size 0 and the empty key twice. Result: BadType · BadType ·
// RepeatedKey · accepted · RepeatedKey · Leftover · Short · Short · Leftover · Short · BadType.
#[test]
fn headers_with_a_fault(rt: HostRuntime) {
    let cases: [(&[u8], Option<ParamFault>); 11] = [
        // type size 0
        (b"\0\0\0\0\0\0\0", Some(ParamFault::BadType)),
        // another character
        (b"\x01/\0\0\0\0\0\0", Some(ParamFault::BadType)),
        // a key twice, mandatory and advisory
        (
            b"\x01a\0\0\0\0\x01\x01\x01\0\x01\0kk",
            Some(ParamFault::RepeatedKey),
        ),
        // the empty key once, and twice
        (b"\x01a\0\0\0\0\x01\0\0\0", None),
        (
            b"\x01a\0\0\0\0\0\x02\0\0\0\x01v",
            Some(ParamFault::RepeatedKey),
        ),
        // one byte too many, and one too few
        (b"\x01a\0\0\0\0\0\0\0", Some(ParamFault::Leftover)),
        (b"\x01a\0\0\0\0\0", Some(ParamFault::Short)),
        (b"", Some(ParamFault::Short)),
        // of two faults the lower number
        (b"\0\0\0\0\0\0\0\0", Some(ParamFault::Leftover)),
        (b"\0\0\0\0\0\0\x02\0\0\0", Some(ParamFault::Short)),
        (b"\0\0\0\0\0\0\x02\0\0\0\0", Some(ParamFault::BadType)),
    ];
    let mut all = true;
    for (bytes, fault) in cases {
        all = header_fault(rt.alloc(), bytes) == fault && all;
    }
    assert!(rt; all);
}

// Each proper prefix of the second header above. Result: Short.
#[test]
fn each_front_of_a_header_is_short(rt: HostRuntime) {
    let mut all = true;
    for size in 0..REPLY.len() {
        all = header_fault(rt.alloc(), &REPLY[..size]) == Some(ParamFault::Short) && all;
    }
    assert!(rt; all);
}

fn append_greatest<A: Allocator>(out: &mut Vec<u8, A>) -> Result<(), NoMemory> {
    out.push(255)?;
    out.extend_from_slice(&[b'a'; 255])?;
    out.extend_from_slice(&[0, 0, 0, 0, 255, 255])?;
    out.extend_from_slice(&[255; 1020])?;
    for place in 0..510u32 {
        // the key begins with its place
        out.extend_from_slice(&place.to_be_bytes())?;
        out.extend_from_slice(&[b'k'; 251])?;
        out.extend_from_slice(&[b'v'; 255])?;
    }
    Ok(())
}

// A type of 255 bytes, 255 mandatory and 255 advisory parameters, keys and values of 255 bytes
// (261,382 bytes in all); one byte more. Result: accepted, 510 parameters, and written as the same
// bytes; Leftover.
#[test]
fn the_greatest_header(rt: HostRuntime) -> Result<(), Fail> {
    let mut bytes = Vec::new(rt.alloc());
    append_greatest(&mut bytes)?;
    let is_right = bytes.len() == 261_382 && is_written_back(rt.alloc(), bytes.as_slice(), 510);
    bytes.push(0)?;
    let fault = header_fault(rt.alloc(), bytes.as_slice());
    assert!(rt; is_right && fault == Some(ParamFault::Leftover));
    Ok(())
}

/// A parameter with a key of one byte and no value.
fn param_with<A: Allocator + Copy>(
    alloc: A,
    mandatory: bool,
    key: u8,
) -> Result<Param<A>, NoMemory> {
    Ok(Param {
        mandatory,
        key: Short::copy_of(alloc, &[key])?,
        value: Short::new(alloc),
    })
}

/// A part with parameters, each mandatory or not, with keys of one byte.
fn part_with<A: Allocator + Copy>(
    alloc: A,
    kind: &[u8],
    params: &[(bool, u8)],
) -> Result<Part<A>, NoMemory> {
    let mut list = Seq::new(alloc);
    for (mandatory, key) in params {
        list.push(param_with(alloc, *mandatory, *key)?)?;
    }
    Ok(Part {
        kind: Short::copy_of(alloc, kind)?,
        id: 7,
        params: list,
        payload: Payload::new(alloc),
    })
}

/// Whether a part can be written, where memory was there for it.
fn can_be_written<A: Allocator + Copy>(
    alloc: A,
    kind: &[u8],
    params: &[(bool, u8)],
) -> Option<bool> {
    match part_with(alloc, kind, params) {
        Ok(part) => Some(is_writable(&part)),
        Err(NoMemory) => None,
    }
}

// `output` · no type · `out put` · 256 times `a` · `x` mandatory and then `y` advisory · the other
// way round · `x` twice. Result: yes · no · no · no · yes · no · no.
#[test]
fn what_can_be_written(rt: HostRuntime) {
    let cases: [(&[u8], &[(bool, u8)], bool); 7] = [
        (b"output", &[], true),
        (b"", &[], false),
        (b"out put", &[], false),
        (&[b'a'; 256], &[], false),
        (b"a", &[(true, b'x'), (false, b'y')], true),
        (b"a", &[(false, b'x'), (true, b'y')], false),
        (b"a", &[(false, b'x'), (false, b'x')], false),
    ];
    let mut all = true;
    for (kind, params, writable) in cases {
        all = can_be_written(rt.alloc(), kind, params) == Some(writable) && all;
    }
    assert!(rt; all);
}

/// Whether the head of a part of that type, with the id 258 in place of its own, is written as these bytes.
fn has_head<A: Allocator + Copy>(alloc: A, kind: &[u8], bytes: &[u8]) -> bool {
    let mut out = Vec::new(alloc);
    match part_with(alloc, kind, &[]) {
        Ok(part) if is_writable(&part) => {
            write_head(&mut out, part.kind.as_slice(), 258, part.params.as_slice()).is_ok()
                && out.as_slice() == bytes
        }
        _ => false,
    }
}

// `check:Heads`, `obs_0-a`, both with the id 258. Result: `0b "CHECK:HEADS" 00000102 0000`; `07
// "obs_0-a" 00000102 0000`.
#[test]
fn a_mandatory_type_is_written_in_upper_case(rt: HostRuntime) {
    assert!(rt;
        has_head(
            rt.alloc(),
            b"check:Heads",
            b"\x0bCHECK:HEADS\0\0\x01\x02\0\0"
        ) && has_head(rt.alloc(), b"obs_0-a", b"\x07obs_0-a\0\0\x01\x02\0\0")
    );
}

// `Compression=UN` · `compression=GZ` · `compression` · `COMPRESSION=un` · `Foo` · `foo=%20a` · `a
// b` · one space · `=a` · `1x` · `%20x` · `%46oo` · no bytes · `foo Foo 1x` · `foo 1x Foo` ·
// `compression=UN Compression=BZ`. Result: accepted · Compressed · Compressed · Compressed ·
// UnknownMandatory · accepted · EmptyName · EmptyName · EmptyName · BadName · BadName ·
// UnknownMandatory · accepted · UnknownMandatory · BadName · Compressed.
#[test]
fn stream_parameters(rt: HostRuntime) {
    let cases: [(&[u8], Option<ParamFault>); 16] = [
        (b"", None),
        (b"Compression=UN", None),
        (b"compression=GZ", Some(ParamFault::Compressed)),
        (b"compression", Some(ParamFault::Compressed)),
        (b"COMPRESSION=un", Some(ParamFault::Compressed)),
        (b"Foo", Some(ParamFault::UnknownMandatory)),
        (b"foo=%20a", None),
        (b"a  b", Some(ParamFault::EmptyName)),
        (b" ", Some(ParamFault::EmptyName)),
        (b"=a", Some(ParamFault::EmptyName)),
        (b"1x", Some(ParamFault::BadName)),
        (b"%20x", Some(ParamFault::BadName)),
        (b"%46oo", Some(ParamFault::UnknownMandatory)),
        // the first faulty one is told
        (b"foo Foo 1x", Some(ParamFault::UnknownMandatory)),
        (b"foo 1x Foo", Some(ParamFault::BadName)),
        (
            b"compression=UN Compression=BZ",
            Some(ParamFault::Compressed),
        ),
    ];
    let mut all = true;
    for (bytes, fault) in cases {
        all = params_fault(rt.alloc(), bytes) == fault && all;
    }
    assert!(rt; all);
}

/// How many stream parameters are read.
fn count_params<A: Allocator + Copy>(alloc: A, bytes: &[u8]) -> Option<usize> {
    match read_stream_params(alloc, bytes) {
        Ok(params) => Some(params.len()),
        Err(_) => None,
    }
}

// Stream parameters of 65,536 bytes, where memory is ample.
// 32,767 times `a` and a space, then `aa` (65,536 bytes), where memory is ample. Result: 32,768
// parameters.
#[test]
fn the_greatest_stream_parameters(rt: HostRuntime) -> Result<(), Fail> {
    let mut bytes = Vec::new(rt.alloc());
    for _ in 0..32_767usize {
        bytes.extend_from_slice(b"a ")?;
    }
    bytes.extend_from_slice(b"aa")?;
    let count = count_params(rt.alloc(), bytes.as_slice());
    assert!(rt; bytes.len() == 65_536 && count == Some(32_768));
    Ok(())
}

/// How many bytes the name and the value of the one stream parameter have.
fn size_of_one<A: Allocator + Copy>(alloc: A, bytes: &[u8]) -> Option<(usize, usize)> {
    let params = read_stream_params(alloc, bytes).ok()?;
    match params.as_slice() {
        [param] => match &param.value {
            Some(value) => Some((param.name.len(), value.len())),
            None => Some((param.name.len(), 0)),
        },
        _ => None,
    }
}

// One stream parameter of 65,536 bytes, where memory is ample: a name, a value, and a value of escapes.
#[test]
fn the_longest_stream_parameter(rt: HostRuntime) -> Result<(), Fail> {
    let heap = LocalHeap::new(rt.alloc(), 1_048_576)?;
    let name = vec![in rt.alloc(); b'a'; 65_536]?;
    let is_named = size_of_one(&heap, name.as_slice()) == Some((65_536, 0));
    let text = vec![in rt.alloc(); b'v'; 65_534]?;
    let mut value = Vec::from_slice(rt.alloc(), b"a=")?;
    value.extend_from_slice(text.as_slice())?;
    let is_valued = size_of_one(&heap, value.as_slice()) == Some((1, 65_534));
    let mut escapes = Vec::from_slice(rt.alloc(), b"a=")?;
    for _ in 0..21_844usize {
        escapes.extend_from_slice(b"%20")?;
    }
    let is_escaped = size_of_one(&heap, escapes.as_slice()) == Some((1, 21_844));
    assert!(rt; is_named && is_valued && is_escaped && heap.used() == 0);
    Ok(())
}

fn has_value<A: Allocator>(param: &StreamParam<A>, value: Option<&[u8]>) -> bool {
    match (&param.value, value) {
        (Some(own), Some(wanted)) => own.as_slice() == wanted,
        (None, None) => true,
        _ => false,
    }
}

// `foo=%20a bar a%3Db=c=d%zz%`. Result: `foo` with a space and `a`; `bar` without a value; `a=b`
// with `c=d%zz%`.
#[test]
fn names_and_values_of_stream_parameters(rt: HostRuntime) -> Result<(), Fail> {
    let params = read_stream_params(rt.alloc(), b"foo=%20a bar a%3Db=c=d%zz%")?;
    let wanted: [(&[u8], Option<&[u8]>); 3] = [
        (b"foo", Some(b" a")),
        (b"bar", None),
        (b"a=b", Some(b"c=d%zz%")),
    ];
    let mut all = params.len() == wanted.len();
    for (param, (name, value)) in params.as_slice().iter().zip(wanted) {
        all = all && param.name.as_slice() == name && has_value(param, value);
    }
    assert!(rt; all);
    Ok(())
}

// Each ParamFault. Result: 1 to 9.
#[test]
fn faults_by_number(rt: HostRuntime) {
    let faults = [
        (ParamFault::Short, 1),
        (ParamFault::Leftover, 2),
        (ParamFault::BadType, 3),
        (ParamFault::RepeatedKey, 4),
        (ParamFault::EmptyName, 5),
        (ParamFault::BadName, 6),
        (ParamFault::UnknownMandatory, 7),
        (ParamFault::Compressed, 8),
        (ParamFault::NoMemory, 9),
    ];
    let mut all = true;
    for (fault, number) in faults {
        all = fault as u8 == number && all;
    }
    assert!(rt; all);
}

/// What came of a call over a small heap.
#[derive(Clone, Copy, PartialEq, Eq)]
enum Came {
    /// Memory was refused before the call.
    Early,
    Refused,
    Served,
    /// Another answer, or one that left something behind.
    Wrong,
}

fn reads_a_header<A: Allocator + Copy>(alloc: A) -> Came {
    match read_header(alloc, REPLY) {
        Ok(head) if head.params.len() == 2 => Came::Served,
        Err(ParamFault::NoMemory) => Came::Refused,
        _ => Came::Wrong,
    }
}

fn reads_stream_params<A: Allocator + Copy>(alloc: A) -> Came {
    match read_stream_params(alloc, b"foo=%20a bar") {
        Ok(params) if params.len() == 2 => Came::Served,
        Err(ParamFault::NoMemory) => Came::Refused,
        _ => Came::Wrong,
    }
}

/// Writes a header after a byte, which stays alone where it is refused.
fn writes_behind<A: Allocator + Copy>(alloc: A) -> Came {
    let mut out = Vec::new(alloc);
    let is_begun = out.push(b'x').is_ok();
    let Ok(part) = part_with(alloc, b"check:heads", &[(true, b'k')]) else {
        return Came::Early;
    };
    if !is_begun || !is_writable(&part) {
        return Came::Early;
    }
    match write_header(&mut out, &part) {
        Ok(()) if out.as_slice() == b"x\x0bcheck:heads\0\0\0\x07\x01\0\x01\0k".as_slice() =>
            Came::Served,
        Err(NoMemory) if out.as_slice() == b"x".as_slice() => Came::Refused,
        _ => Came::Wrong,
    }
}

/// Which answers a call gave.
#[derive(Clone, Copy, PartialEq, Eq)]
struct Seen {
    refused: bool,
    served: bool,
    wrong: bool,
}

impl Seen {
    fn new() -> Seen {
        Seen {
            refused: false,
            served: false,
            wrong: false,
        }
    }

    fn note(&mut self, came: Came) {
        match came {
            Came::Early => {}
            Came::Refused => self.refused = true,
            Came::Served => self.served = true,
            Came::Wrong => self.wrong = true,
        }
    }

    fn are_both(&self) -> bool {
        self.refused && self.served && !self.wrong
    }
}

/// Heaps of every size up to those that serve, so that each growth is refused in turn.
/// A header, stream parameters and a part over heaps of 16 to 1,520 bytes. Result: NoMemory, or the
/// right answer; a vector whose header was refused is as before; each of the three calls is refused
/// on some heap and served on another.
#[test]
fn memory_refused_in_turn(rt: HostRuntime) -> Result<(), Fail> {
    let (mut header, mut params, mut written) = (Seen::new(), Seen::new(), Seen::new());
    for sixteens in 1..96usize {
        let heap = LocalHeap::new(rt.alloc(), sixteens * 16)?;
        header.note(reads_a_header(&heap));
        params.note(reads_stream_params(&heap));
        written.note(writes_behind(&heap));
    }
    assert!(rt; header.are_both() && params.are_both() && written.are_both());
    Ok(())
}

/// Whether writing the header takes at most 128 bytes, and asking whether it can be written none.
fn writes_little<'h>(heap: &'h LocalHeap, part: &Part<&'h LocalHeap>) -> bool {
    let before = heap.used();
    let mut out = Vec::new(heap);
    if !is_writable(part) || heap.used() != before {
        return false;
    }
    write_header(&mut out, part).is_ok() && heap.used() <= before.saturating_add(128)
}

/// Whether the stream parameters, of 12 bytes, take at most 512.
fn params_take_little(heap: &LocalHeap) -> bool {
    let before = heap.used();
    match read_stream_params(heap, b"foo=%20a bar") {
        Ok(params) => params.len() == 2 && heap.used() <= before.saturating_add(512),
        Err(_) => false,
    }
}

// Where memory is ample, what is read takes little more than came, whatever its counts announce, and what is
// written little more than itself. A test takes none.
// Over a heap of 1 MiB: the second header above; `foo=%20a bar`; whether the part can be written;
// its header. Over one of 0 bytes: a header that announces 255 parameters of each kind and ends.
// Result: at most 1,024 bytes; 512; none; 128; Short.
#[test]
fn memory_follows_the_bytes(rt: HostRuntime) -> Result<(), Fail> {
    let heap = LocalHeap::new(rt.alloc(), 1_048_576)?;
    let none = LocalHeap::new(rt.alloc(), 0)?;
    let part = part_of(&heap, read_header(&heap, REPLY)?);
    let is_little = heap.used() <= 1_024 && params_take_little(&heap);
    let announced = header_fault(&none, b"\x01a\0\0\0\0\xff\xff") == Some(ParamFault::Short);
    assert!(rt; is_little && announced && writes_little(&heap, &part));
    Ok(())
}
