//! What a repository answers a client over HTTP: the texts that a Mercurial client asks a server for before and
//! after a push, and the forms in which it asks.
//!
//! Each text is a function of values that are borrowed: nothing is changed, and the only refusal is out of
//! memory. [`read_form`] and [`read_batch`] read the two forms of arguments, [`stands_once`] says whether
//! a form has a name once at most, and [`joined_answers`] writes the answers of a batch. [`heads_text`], [`known_text`],
//! [`listkeys_text`] and [`lookup_text`] are the bodies of the answers to the commands of those names, [`begun_text`] that
//! to a `lookup` which only ids can answer, and [`capabilities_text`] is a constant. Whatever bytes are asked, there is an
//! answer. Nothing here starts a thread or waits.
//!
//! The commands and their texts are those of Mercurial's `internals.wireprotocol`, "Commands", as a client of its
//! version 6.3 sends and reads them.
#![tactic(auto)]

mod batch;
mod begun;
mod behind;
mod branch;
mod branches;
mod branchmap;
mod capabilities;
mod copied;
mod covered;
mod doubt;
mod form;
mod head_ids;
mod heads;
mod hidden;
mod ids;
mod kept;
mod laws;
mod listkeys;
mod lookup;
mod once;
mod plain;
mod search;
mod set;
mod settled;
mod since;
mod standing;
mod text;
mod viewed;

pub use batch::{BatchCommand, joined_answers, read_batch};
pub use begun::{begun_text, is_beginning};
pub use branch::branch_of;
pub use branchmap::branchmap_text;
pub use capabilities::capabilities_text;
pub use form::{Field, read_form, value_of};
pub use heads::{heads_text, known_text};
pub use hidden::hidden_changesets;
pub use laws::{escapes_are_read_back, forms_are_read_back};
pub use listkeys::listkeys_text;
pub use lookup::lookup_text;
pub use once::stands_once;
pub use since::{Seen, Since};
pub use viewed::BranchView;
