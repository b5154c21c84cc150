//! What tests of servers over a store use: how such a server begins, what is pushed at it, how it ends, and what is
//! there when it begins again. No test stands here.
#![tactic(auto)]

mod beginning;
mod closing;
mod pushing;

pub use beginning::{new_log, settings, starts_again};
pub use closing::{ClosedTwo, Open, close_two, compare, has_receipt};
pub use pushing::{client_of, marker, one_part};
