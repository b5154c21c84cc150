//! A connection of several bundles, each kept before it is answered.

use hg_commit::{KeptClient, Storing};
use hg_connection::{BundleEnd, Inbox, Reader, Sending, Writer};
use hg_durable::{Keeping, KeptRound, Replied, keep_bundle, open_kept, reply_kept};
use hg_push::OpenFault;
use hg_serve::{Point, Probe};
use hg_store::{Device, Stamp};
use hg_stream::{StreamFault, Unbundler};
use std::alloc::Allocator;
use std::sync::Wait;

/// Why a connection ended before its input did.
#[derive(Clone, Copy, Debug, PartialEq, Eq)]
pub enum Fault {
    /// A push was not opened.
    Open(OpenFault),
    /// The bytes of a bundle have that fault.
    Stream(StreamFault),
    /// A read or a write failed, or memory was refused for a reply.
    Device,
    /// The store failed, and the last answer was not sent.
    NotStored,
}

/// What became of a connection: how many bundles were answered, how many bytes of the replies were written, and why it
/// ended early, if it did.
#[derive(Drop)]
pub struct Connected {
    pub bundles: u32,
    pub written: u64,
    pub fault: Option<Fault>,
}

/// Serves up to `most` bundles, one after the other.
pub fn connect_kept<
    J: Storing<A>,
    D: Device,
    A: Allocator + Copy,
    R: Wait,
    I: Reader,
    W: Writer,
    G: Probe,
>(
    keeping: &Keeping<'_, J, D, R, A>,
    client: KeptClient<J, A>,
    reader: &mut I,
    writer: &mut W,
    most: u32,
    probe: &mut G,
) -> (KeptClient<J, A>, Connected) {
    let mut client = client;
    let mut inbox = Inbox::new();
    let mut so_far = Connected {
        bundles: 0,
        written: 0,
        fault: None,
    };
    for _ in 0..most {
        match inbox.fill(reader) {
            None => {}
            Some(BundleEnd::InputEnded) => return (client, so_far),
            Some(_) => {
                so_far.fault = Some(Fault::Device);
                return (client, so_far);
            }
        }
        let opened = match open_kept(keeping, client) {
            Ok(opened) => opened,
            Err((back, fault)) => {
                so_far.fault = Some(Fault::Open(fault));
                return (back, so_far);
            }
        };
        probe.at(Point::Opened);
        let mut bundle = Unbundler::new(keeping.alloc, *keeping.server.limits());
        let round = keep_bundle(
            keeping,
            opened,
            &mut bundle,
            &mut inbox,
            reader,
            Stamp::unnamed(keeping.alloc, 1),
            Vec::new(keeping.alloc),
            probe,
        );
        let (replied, written) = reply_kept(keeping.alloc, &round, writer);
        let KeptRound {
            answer: _,
            rests: _,
            ending,
            kept,
        } = round;
        client = match kept {
            Ok(kept) => kept.into_client(),
            Err((back, _)) => back,
        };
        so_far.bundles = so_far.bundles.saturating_add(1);
        so_far.written = so_far.written.saturating_add(written as u64);
        so_far.fault = fault_of(replied, ending);
        if so_far.fault.is_some() {
            return (client, so_far);
        }
    }
    (client, so_far)
}

/// Why a connection does not go on after a bundle, if it does not.
fn fault_of(replied: Replied, ending: BundleEnd) -> Option<Fault> {
    match (replied, ending) {
        (Replied::NotStored, _) => Some(Fault::NotStored),
        (_, BundleEnd::Fault(fault)) => Some(Fault::Stream(fault)),
        (Replied::Sent(Sending::Whole), BundleEnd::Whole) => None,
        _ => Some(Fault::Device),
    }
}
