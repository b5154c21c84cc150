//! What is pushed at a server, and by whom.

use hg_serve::{Client, Naming, Server};
use std::alloc::{Allocator, Global};
use std::sync::Wait;

/// A marker without successors, on a node that no other push has.
pub fn marker(thread: u8, turn: u8) -> [u8; 27] {
    [
        0, 0, 0, 0, 0, 0, 0, thread, turn, 7, 7, 7, 7, 7, 7, 7, 7, 7, 7, 7, 7, 7, 7, 7, 7, 7, 7,
    ]
}

/// Adds the bundle of a push whose only part is `obsmarkers`, with that payload. Says whether there was memory for it.
pub fn one_part(made: &mut Vec<u8>, payload: &[u8]) -> bool {
    let size = u32::try_from(payload.len()).unwrap_or(u32::MAX);
    made.extend_from_slice(b"HG20\0\0\0\0\0\0\0\x11\x0aOBSMARKERS\0\0\0\0\0\0")
        .is_ok()
        && made.extend_from_slice(&size.to_be_bytes()).is_ok()
        && made.extend_from_slice(payload).is_ok()
        && made.extend_from_slice(&[0; 8]).is_ok()
}

/// A new client of a server.
pub fn client_of<J: Naming<A>, A: Allocator + Copy, R: Wait>(
    rt: &R,
    server: &Server<J, A>,
) -> Client<J, A> {
    match server.client(rt) {
        Ok(client) => client,
        // a seat takes no memory
        Err(_) => unreachable!(),
    }
}
