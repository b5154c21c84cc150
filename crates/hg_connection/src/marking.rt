//! How a push is marked whose bundle ended.

ghost use Rattle.hg_serve.specs.Clients.{PutsItsMark};
ghost use Rattle.hg_connection.specs.Receiving.{mark_of};

use crate::bundle_end::{BundleEnd, cut_of};
use hg_serve::{Awaiting, Naming, Probe, Sender, Server};
use std::alloc::Allocator;
use std::sync::Wait;

/// Puts the mark of a push whose bundle ended so: an end mark, or why it is cut off.
pub fn mark<J: Naming<A>, A: Allocator + Copy, R: Wait, G: Probe>(
    server: &Server<J, A>,
    rt: &R,
    sender: Sender<J, A>,
    ending: BundleEnd,
    probe: &mut G,
) -> Awaiting<J, A>
    ensures { PutsItsMark sender (mark_of ending) result }
{
    match cut_of(ending) {
        None => server.end(rt, sender, probe),
        Some(reason) => server.cut(rt, sender, reason, probe),
    }
}
