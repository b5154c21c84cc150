//! What a book keeps of a push.

use crate::outcome::Outcome;
use hg_repo::Prepared;
use hg_types::Pages;
use std::alloc::{Allocator, Global};

/// What is kept of a push until its reply is taken.
#[derive(Drop)]
pub enum State<D, E, A: Allocator = Global> {
    /// It has these parts so far, each read as far as that goes before its turn.
    Open(Pages<Prepared<A>, A>),
    Closed(Outcome<D, E>),
}

/// A push and what is kept of it.
#[derive(Drop)]
pub struct Row<D, E, A: Allocator = Global> {
    pub push: u32,
    pub state: State<D, E, A>,
}
