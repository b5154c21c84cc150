//! What a connection is served by, and the terms of it.

use crate::budget::Budget;
use hg_commit::Storing;
use hg_durable::Keeping;
use hg_http::Address;
use hg_queries::ViewCache;
use hg_store::Device;
use std::alloc::{Allocator, Global};
use std::sync::{Mutex, Wait};

/// What all connections have in common beside the repository.
#[derive(Drop)]
pub struct WebTerms<'a, S> {
    /// What a browser is shown.
    pub shown: &'a S,
    /// What the bodies of all requests hold together at most.
    pub budget: &'a Budget,
    /// What the server answers to.
    pub address: Address<'a>,
    /// The field of a request that says who pushes. Without one no field is believed.
    pub user: Option<&'a str>,
    /// Where pulls go, without a query.
    pub pull: Option<&'a [u8]>,
    /// What is told behind the capabilities.
    pub also: Option<&'a [u8]>,
    /// How many pushes the store had when it was opened: the place of the first one here.
    pub stored: usize,
}

/// What keeps the pushes of a server, and the view that all who read share.
#[derive(Drop)]
pub struct Host<'a, J: Storing<A>, D: Device, R: Wait, A: Allocator = Global> {
    pub keeping: Keeping<'a, J, D, R, A>,
    pub shelf: &'a Mutex<ViewCache<J, A>>,
}
