//! A bundle that is received, and whose bytes are kept.

ghost use Rattle.std.specs.Prelude.{◌≡◌, ◌≤◌, ◌++◌, ◌-◌, ℕ, List, [], length, take, OnOk};
ghost use Rattle.hg_stream.specs.Unbundler.{limits_of, ready_of, state_of};
ghost use Rattle.hg_stream.specs.declared.state.State.TheVariants.{Ended as at_end_mark};
ghost use Rattle.hg_connection.specs.declared.bundle_end.BundleEnd.TheVariants.{Whole};
ghost use Rattle.hg_connection.specs.Steps.{IsFresh};
ghost use Rattle.hg_connection.specs.Keeping.{ReceivesKept};

use crate::bundle_end::BundleEnd;
use crate::connection::put_ready;
use crate::device::Reader;
use crate::inbox::Inbox;
use hg_serve::{Naming, Probe, Sender, Server};
use hg_stream::laws::parts_are_few;
use hg_stream::{StreamFault, Unbundler};
use hg_types::NoMemory;
use std::alloc::Allocator;
use std::sync::Wait;

/// What keeps the bytes of a bundle while they are read. A contract sees those that are kept.
pub trait Keep: Drop {
    ghost kept: { Self → List ℕ };

    /// Keeps bytes, after those before. Where memory is refused, no clause says which of them are kept.
    fn keep(&mut self, bytes: &[u8]) -> Result<(), NoMemory>
        ensures { OnOk result (kept self.new ≡ kept self.old ++ bytes.now) };

    /// Drops so many of the last ones.
    fn drop_last(&mut self, count: usize)
        requires { count ≤ length (kept self.old) }
        ensures { kept self.new ≡ take (length (kept self.old) - count) (kept self.old) };
}

/// Keeps a copy of them.
impl<A: Allocator> Keep for Vec<u8, A> {
    ghost kept = { λ v. v.items };

    fn keep(&mut self, bytes: &[u8]) -> Result<(), NoMemory> {
        self.extend_from_slice(bytes)?;
        Ok(())
    }

    fn drop_last(&mut self, count: usize) {
        self.truncate(self.len() - count);
    }
}

/// Receives a bundle as [`crate::serve_connection`] does, puts its parts, and keeps its bytes: of a bundle
/// that was read to its end mark these are all of them, from its magic to its end mark, and no others. Where
/// memory is refused for some of them, these are not fed, and the ending is out of memory.
pub fn receive_kept<J: Naming<A>, A: Allocator + Copy, R: Wait, I: Reader, K: Keep, G: Probe>(
    server: &Server<J, A>,
    rt: &R,
    sender: &mut Sender<J, A>,
    bundle: &mut Unbundler<A>,
    inbox: &mut Inbox,
    reader: &mut I,
    kept: &mut K,
    probe: &mut G,
) -> BundleEnd
    requires bundle { IsFresh server.now bundle.old }
    requires sender { sender.old.putter.put ≡ [] }
    requires kept { K.kept kept.old ≡ [] }
    ensures received { ReceivesKept server.now inbox.old inbox.new (I.told reader.old) (I.told reader.new)
        sender.old sender.new result (K.kept kept.new) }
    ensures whole { result ≡ Whole → (state_of bundle.new ≡ at_end_mark) × (ready_of bundle.new ≡ []) }
    ensures limits { limits_of bundle.new ≡ limits_of bundle.old }
{
    parts_are_few::<A>();
    let most = server.limits().stream;
    'turns: for _turn in 0..=most {
        match inbox.fill(reader) {
            None => {}
            Some(ending) => return ending,
        }
        if kept.keep(inbox.pending()).is_err() {
            return BundleEnd::Fault(StreamFault::NoMemory);
        }
        let ended = inbox.feed(bundle);
        put_ready(server, rt, sender, bundle, probe);
        match ended {
            None => {}
            Some(ending) => {
                // what waits is not of this bundle
                kept.drop_last(inbox.pending().len());
                return ending;
            }
        }
    }
    unreachable!()
}
