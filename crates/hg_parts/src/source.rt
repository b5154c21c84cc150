//! Where parts come from.

/// Where the parts of a run come from.
#[derive(Clone, Copy, Debug, PartialEq, Eq)]
pub enum Source {
    /// A client pushed them.
    Push,
    /// They fill the repository before it is served.
    Seed,
}
