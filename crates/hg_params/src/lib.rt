//! The headers of a bundle's parts, and a bundle's stream parameters: their reading, which is exact, and
//! their writing.
//!
//! The formats are those of Mercurial's `internals.bundle2`, "Payload Part" and "Stream Level Parameters".
//! A header is, in this order:
//!
//! - one byte with the size of the type, and the type;
//! - the part's id, 32 bits, big-endian;
//! - one byte with the number of mandatory parameters, and one with the number of advisory ones;
//! - for each parameter one byte with the size of its key and one with the size of its value;
//! - for each parameter its key and its value, mandatory parameters first.
//!
//! Stream parameters are pieces parted by spaces. Each is `name` or `name=value`, with escapes as in URLs.
//!
//! [`read_header`] gives a [`Head`], [`write_header`] appends a [`hg_types::Part`]'s, and
//! [`read_stream_params`] gives [`StreamParam`]s. What is wrong with bytes is a [`ParamFault`].
//! Nothing here starts a thread or waits.
#![tactic(auto)]

mod fault;
mod fields;
mod head;
mod kind;
pub mod laws;
mod params;
mod stream_params;
mod writable;
mod write;

pub use fault::ParamFault;
pub use head::{Head, read_header};
pub use stream_params::{StreamParam, read_stream_params};
pub use writable::is_writable;
pub use write::{write_head, write_header};
