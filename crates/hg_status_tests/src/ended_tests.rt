//! How many changesets bundles bring that are spelled by hand, byte by byte.

use hg_status::brought_by;
use std::test::*;

/// No part.
const EMPTY: &[u8] = b"HG20\0\0\0\0\0\0\0\0";

/// One changegroup, in one chunk: entries of 6 and of 5 bytes.
const TWO: &[u8] = b"HG20\0\0\0\0\
\0\0\0\x12\x0bCHANGEGROUP\0\0\0\0\0\0\
\0\0\0\x0f\0\0\0\x06ab\0\0\0\x05c\0\0\0\0\
\0\0\0\0\0\0\0\0";

/// The same, cut within the first size, where a part of the type `output` interrupts it.
const INTERRUPTED: &[u8] = b"HG20\0\0\0\0\
\0\0\0\x12\x0bCHANGEGROUP\0\0\0\0\0\0\
\0\0\0\x03\0\0\0\
\xff\xff\xff\xff\0\0\0\x0d\x06output\0\0\0\x01\0\0\
\0\0\0\x08\0\0\0\x05x\0\0\0\0\0\0\0\
\0\0\0\x0c\x06ab\0\0\0\x05c\0\0\0\0\
\0\0\0\0\0\0\0\0";

/// The bytes of a changegroup in a part of the type `output`.
const OUTPUT: &[u8] = b"HG20\0\0\0\0\
\0\0\0\x0d\x06output\0\0\0\0\0\0\
\0\0\0\x0f\0\0\0\x06ab\0\0\0\x05c\0\0\0\0\
\0\0\0\0\0\0\0\0";

// No part. Result: 0.
#[test]
fn a_bundle_without_parts(rt: HostRuntime) {
    assert_eq!(rt; brought_by(EMPTY), 0);
}

// A changegroup with two entries. Result: 2.
#[test]
fn two_changesets(rt: HostRuntime) {
    assert_eq!(rt; brought_by(TWO), 2);
}

// The same in two chunks, with a part between them that has an entry's size. Result: 2.
#[test]
fn a_part_that_interrupts_brings_none(rt: HostRuntime) {
    assert_eq!(rt; brought_by(INTERRUPTED), 2);
}

// The same bytes as output. Result: 0.
#[test]
fn a_part_of_another_type_brings_none(rt: HostRuntime) {
    assert_eq!(rt; brought_by(OUTPUT), 0);
}

// The changegroup without its last 17 bytes, which begin with the second entry. Result: 1.
#[test]
fn what_is_cut_off_does_not_count(rt: HostRuntime) {
    assert_eq!(rt; brought_by(&TWO[..TWO.len() - 17]), 1);
}

// No bytes, and a few of no bundle. Result: 0.
#[test]
fn bytes_of_no_bundle(rt: HostRuntime) {
    assert_eq!(rt; brought_by(b""), 0);
    assert_eq!(rt; brought_by(b"HG20\xff\xff\xff\xff\xff\xff\xff\xff"), 0);
}
