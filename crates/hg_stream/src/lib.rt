//! Bundles of the format `HG20`, read in any cutting and written whole.
//!
//! A bundle is the magic `HG20`, a signed 32-bit size and so many bytes of stream parameters, parts, and a
//! size of 0 as end mark. A part is a header after its size, and a payload: chunks, each after its size,
//! closed by a size of 0. A size of -1 interrupts a payload: a part of its own follows, and the payload goes
//! on after it. This is Mercurial's `internals.bundle2`, "Stream Format".
//!
//! [`Unbundler`] takes the bytes of one bundle, piece by piece, and gives its parts; it alone knows that
//! bytes come in pieces. [`write_bundle`] makes the bytes of a list of parts. Nothing here starts a thread or
//! waits.
#![tactic(auto)]

mod block;
mod fault;
mod head;
mod interrupting;
pub mod laws;
mod parts;
mod payloads;
mod state;
mod told;
mod unbundler;
mod write;

pub use fault::StreamFault;
pub use parts::all_parts;
pub use state::State;
pub use unbundler::Unbundler;
pub use write::write_bundle;
