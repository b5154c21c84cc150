//! Obsolescence markers: their bytes, and the list of those that a repository has.
//!
//! Nothing here starts a thread or waits. [`read_markers`] reads marker data, which a client sends, and
//! [`Markers`] is the list of distinct markers, to which more are merged and which is cut back again.
//!
//! Marker data is of version 0 (Mercurial's module `mercurial.obsolete`, "Format"). It is one version byte,
//! 0, and markers up to its end. Numbers are big-endian. A marker is
//!
//! | bytes | field |
//! |---|---|
//! | 1 | N, the number of its successors |
//! | 4 | M, the number of bytes of its metadata |
//! | 1 | flags |
//! | 20 | the predecessor, which is obsolete |
//! | 20 N | the successors |
//! | M | the metadata: strings `key:value`, with a NUL between them or after each |
//!
//! A pushed key carries marker data as text: [`base85_decode`] reads base-85, and [`base85_encode`] writes it. Its
//! digits are those of RFC 1924, section 4.2, and five of them give four bytes.
#![tactic(auto)]

mod base85;
mod fault;
mod law;
mod marker;
mod markers;
mod read;

pub use base85::{base85_decode, base85_encode};
pub use fault::{Base85Fault, MarkerFault};
pub use law::{
    bytes_tell_markers, decoding_gives_back, markers_stay_lawful, reading_is_the_grammar,
};
pub use marker::Marker;
pub use markers::Markers;
pub use read::read_markers;
