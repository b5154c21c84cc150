//! Bundles, and the replies to them.

use std::alloc::{AllocError, Global};

/// The bundle without parts, and the reply to a push that is done.
pub const EMPTY: &[u8] = b"HG20\0\0\0\0\0\0\0\0";

/// `check:heads` without an id.
pub const RACE: &[u8] = b"HG20\0\0\0\0\0\0\0\x12\x0bCHECK:HEADS\0\0\0\0\0\0\0\0\0\0\0\0\0\0";

pub const RACE_REPLY: &[u8] =
    b"HG20\0\0\0\0\0\0\0\x2c\x0fERROR:PUSHRACED\0\0\0\0\x01\0\x07\x0dmessageheads changed\0\0\0\0\0\0\0\0";

/// `replycaps`, and a changegroup with the changeset of the empty text.
pub const ROOT: &[u8] =
    b"HG20\0\0\0\0\0\0\0\x10\x09REPLYCAPS\0\0\0\0\0\0\0\0\0\0\0\0\0\x1d\x0bCHANGEGROUP\0\0\0\x01\x01\0\x07\
    \x02version02\0\0\0t\0\0\0h\xb8\x0d\xe5\xd18u\x85A\xc5\xf0Re\xad\x14J\xb9\xfa\x86\xd1\xdb\0\0\0\0\0\
    \0\0\0\0\0\0\0\0\0\0\0\0\0\0\0\0\0\0\0\0\0\0\0\0\0\0\0\0\0\0\0\0\0\0\0\0\0\0\0\0\0\0\0\0\0\0\0\0\0\0\
    \0\0\0\0\0\xb8\x0d\xe5\xd18u\x85A\xc5\xf0Re\xad\x14J\xb9\xfa\x86\xd1\xdb\0\0\0\0\0\0\0\0\0\0\0\0\0\0\
    \0\0\0\0\0\0";

/// The same, the changegroup in chunks of 40 and 76 bytes and a part `output` between them.
pub const INTERRUPTED_ROOT: &[u8] =
    b"HG20\0\0\0\0\0\0\0\x10\x09REPLYCAPS\0\0\0\0\0\0\0\0\0\0\0\0\0\x1d\x0bCHANGEGROUP\0\0\0\x01\x01\0\x07\
    \x02version02\0\0\0(\0\0\0h\xb8\x0d\xe5\xd18u\x85A\xc5\xf0Re\xad\x14J\xb9\xfa\x86\xd1\xdb\0\0\0\0\0\
    \0\0\0\0\0\0\0\0\0\0\0\xff\xff\xff\xff\0\0\0\x0d\x06output\0\0\0\0\0\0\0\0\0\0\0\0\0L\0\0\0\0\0\0\0\
    \0\0\0\0\0\0\0\0\0\0\0\0\0\0\0\0\0\0\0\0\0\0\0\0\0\0\0\0\0\0\0\0\0\0\0\0\0\xb8\x0d\xe5\xd18u\x85A\
    \xc5\xf0Re\xad\x14J\xb9\xfa\x86\xd1\xdb\0\0\0\0\0\0\0\0\0\0\0\0\0\0\0\0\0\0\0\0";

/// The reply to a push of a changeset.
pub const ROOT_REPLY: &[u8] =
    b"HG20\0\0\0\0\0\0\0\x2f\x11reply:changegroup\0\0\0\0\0\x02\x0b\x01\x06\x01in-reply-to1return1\0\0\0\0\
    \0\0\0\0";

/// `replycaps`, and a part `obsmarkers` without markers, whose id is 5.
const CAPS: &[u8] = b"HG20\0\0\0\0\0\0\0\x10\x09REPLYCAPS\0\0\0\0\0\0\0\0\0\0";

const NO_MARKERS: &[u8] = b"\0\0\0\x11\x0aOBSMARKERS\0\0\0\x05\0\0\0\0\0\x01\0\0\0\0\0";

/// How many such parts a bundle has: it is of 60,000 bytes and more, and so is its reply.
const PARTS: u32 = 3_000;

/// `replycaps` and those parts.
pub fn many_parts(alloc: Global) -> Result<Vec<u8>, AllocError> {
    let mut bundle = Vec::from_slice(alloc, CAPS)?;
    for _ in 0..PARTS {
        bundle.extend_from_slice(NO_MARKERS)?;
    }
    bundle.extend_from_slice(&[0; 4])?;
    Ok(bundle)
}

/// The reply to them: each brings no marker that is new.
pub fn many_replies(alloc: Global) -> Result<Vec<u8>, AllocError> {
    let mut reply = Vec::from_slice(alloc, b"HG20\0\0\0\0")?;
    for place in 0..PARTS {
        reply.extend_from_slice(b"\0\0\0\x2b\x10reply:obsmarkers")?;
        reply.extend_from_slice(&place.to_be_bytes())?;
        reply.extend_from_slice(b"\0\x02\x0b\x01\x03\x01in-reply-to5new0\0\0\0\0")?;
    }
    reply.extend_from_slice(&[0; 4])?;
    Ok(reply)
}

/// `output` with a payload of 33 MiB.
pub fn large_output(alloc: Global) -> Result<Vec<u8>, AllocError> {
    let mut bundle = Vec::from_slice(
        alloc,
        b"HG20\0\0\0\0\0\0\0\x0d\x06output\0\0\0\0\0\0\x02\x10\0\0",
    )?;
    bundle.resize(bundle.len().saturating_add(33 << 20), b'a')?;
    bundle.extend_from_slice(&[0; 8])?;
    Ok(bundle)
}
