//! Bookmarks and pushkey.
//!
//! [`Bookmarks`] is a map from names to changesets, with a savepoint to go back to. Nothing here starts a thread
//! or waits.
//!
//! [`read_bookmarks`] reads the payload of the parts `bookmarks` and `check:bookmarks`: entries, up to its
//! end (Mercurial's `internals.bundle2`, "Bundle2 Part Types", "bookmarks" and "check:bookmarks").
//!
//! | bytes | field |
//! |---|---|
//! | 20 | the id of a changeset; 20 bytes ff are none |
//! | 2 | N, the number of bytes of the name; the most significant byte first |
//! | N | the name |
//!
//! [`push_key`] sets a key of a namespace (Mercurial's `internals.wireprotocol`, "Commands", "pushkey"). It
//! answers true where that took effect, or was so already.
//!
//! - `phases`: the key is the id of a known changeset, in 40 hexadecimal digits of either case; the values
//!   are `0`, `1` or `2`. Where the present phase is the old value and the new one is lower, the changeset
//!   and its ancestors are advanced. Else the answer is true only where the present phase is the new one.
//! - `bookmarks`: the key is a name; a value is the id of a known changeset, as above, or nothing. The answer
//!   is false for a name with `@` that does not end in `@`, and where the present value, in lower case
//!   digits, is neither the old one nor the new one. Else the bookmark is set, or deleted.
//! - `obsolete`: the key begins with `dump`, and the old value is empty. The new one is marker data in
//!   base-85, which is merged ([`base85_decode`], of `hg_obs`).
//!
//! Any other call is answered false. The null id is known, and public.
#![tactic(auto)]

mod bookmarks;
mod fault;
mod key_text;
mod keys;
mod known;
mod laws;
mod payload;

pub use bookmarks::{BookmarkSavepoint, Bookmarks};
pub use fault::{BookmarkFault, KeyFault};
pub use hg_obs::{Base85Fault, base85_decode, base85_encode};
pub use key_text::{are_same, is_known_target, phase_in_text};
pub use keys::{KeyCall, push_key};
pub use known::phase_of_node;
pub use laws::{
    a_set_name_is_found, bookmarks_stay_lawful, keys_stay_lawful, reading_is_the_grammar,
};
pub use payload::read_bookmarks;
