//! How a store is hosted.

use crate::hook::HookTerms;

/// How a store is hosted.
#[derive(Clone, Copy, Debug)]
pub struct HostTerms<'a> {
    /// How many connections are served at one time, at least 1.
    pub connections: u32,
    /// How many items of pushes the queue holds, 1 to 65,536.
    pub capacity: u32,
    /// For how many seconds a connection may be silent.
    pub idle: u64,
    /// How many bytes the bodies of all open pushes hold together at most.
    pub memory: usize,
    /// How many bytes the text of a changeset has at most.
    pub text: u32,
    /// The path of its commands and its page. A slash at its end does not count.
    pub path: &'a str,
    /// The name that the field `host` of a request has to give, if it has to give one.
    pub name: Option<&'a str>,
    /// The field of a request that says who pushes. Without one no field is believed.
    pub user: Option<&'a str>,
    /// What is told behind the capabilities.
    pub also: Option<&'a str>,
    /// Where pulls go, without a query.
    pub pull: Option<&'a str>,
    /// Who is asked before each push.
    pub hook: Option<HookTerms<'a>>,
    /// Whether other machines may take the store over, so that answers rest on beats.
    pub shared: bool,
    /// Whether a line is printed for each push.
    pub logs: bool,
}
