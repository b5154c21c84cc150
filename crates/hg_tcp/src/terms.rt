//! How a repository is served.

ghost use Rattle.hg_tcp.specs.Accepting.{IsBounded};

/// How a repository is served.
#[derive(Clone, Copy, Debug, PartialEq, Eq)]
pub struct ServeTerms {
    /// How many connections are accepted.
    pub connections: u32,
    /// How many items the queue holds, 1 to 65,536.
    pub capacity: u32,
    /// How many bundles a connection may send, 1 to 10,000.
    pub bundles: u32,
}

impl ServeTerms {
    /// The same, with a capacity and bundles that are out of their range put to its nearest end.
    pub(crate) fn bounded(self) -> ServeTerms
        ensures { IsBounded self result }
    {
        ServeTerms {
            connections: self.connections,
            capacity: self.capacity.clamp(1, 65_536),
            bundles: self.bundles.clamp(1, 10_000),
        }
    }
}
