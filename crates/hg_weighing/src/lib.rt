//! Which pushes are refused since their texts are long, or since their deltas copy too much.
//!
//! A few bytes may stand for a long text: a delta that copies all of its base. So each push is weighed before it runs, by
//! `hg_sizes`, which makes no text. [`Weighing`] is a [`Policy`](hg_http::Policy) that does so, and asks another one about
//! each push that is light enough. A push that it refuses is not opened, and changes nothing. Which bases are here, and how
//! long their texts are, is seen by one look at the server's repository: [`Weight`] is that question, and it is asked only
//! where a delta is on a changeset, as hardly one of a client of Mercurial is.
#![tactic(auto)]

mod lengths;
mod weighing;
mod weight;

pub use weighing::Weighing;
pub use weight::Weight;
