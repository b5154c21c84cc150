//! What a client of Mercurial that only reads is answered, from one look at a repository.
//!
//! Each question is a [`Question`](hg_serve::Question) of `hg_serve`, asked under the server's lock:
//! [`ReadCommand`] for one command, [`Batch`] for several, [`Viewing`] for what is shown without a command.
//! What has a word for each head, or wants the ids in their order ([`is_long`], [`have_long`]), is made from a view
//! instead, which is kept on a [`ViewCache`]: [`LongQuestion`] brings what came to it, and the texts are made, a batch's
//! by [`batch_text`], when the lock is given back. [`refusal_of`] says which batches are refused, and [`shown_answer`]
//! which answer shows a view. [`Shown`] and [`Watch`] are what stands around the commands: who shows the
//! page and the counters, and who hears of pushes. Nothing waits except a [`ViewCache`].
//!
//! The commands are those of Mercurial's `internals.wireprotocol`, "Commands".
//!
//! What holds of a repository that is looked at more than once: it grows. On that rests who keeps what is read of
//! it, and brings that up to it under the server's lock.
#![tactic(auto)]

mod around;
mod bound;
mod growth;
mod long;
mod reading;
mod view_cache;
mod viewing;

pub use around::{Denial, Dismissal, Shown, Watch, WatchedPush};
pub use bound::refusal_of;
pub use growth::repositories_grow;
pub use long::{Piece, is_long};
pub use reading::{Asked, Batch, Brought, LongQuestion, ReadCommand, batch_text, have_long};
pub use view_cache::ViewCache;
pub use viewing::{Viewing, shown_answer};
