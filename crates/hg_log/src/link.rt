//! The number of a row, or none, in four bytes.

ghost use Rattle.std.specs.Prelude.{◌≡◌, ◌-◌, ◌<◌, ◌^◌, IfSome};

use crate::graph::Parents;
use std::marker::Model;

/// What stands for none: rows are fewer.
const NONE: u32 = u32::MAX;

/// The number of a row, or none.
#[derive(Drop)]
pub struct Link {
    number: u32,
}

impl Model for Link {
    ghost use Rattle.std.specs.Prelude.{ℕ, Option, None, Some, if◌then◌else◌, ◌==◌};

    ghost Value = { Option ℕ };

    ghost view = { λ l. if l.number == 4294967295 then None else Some l.number };
}

impl Link {
    /// A link to that row.
    pub fn to(row: Option<u32>) -> Link
        requires { IfSome row (λ r. r < 2 ^ 32 - 1) }
        ensures { result ≡ row }
    {
        Link {
            number: row.unwrap_or(NONE),
        }
    }

    /// The same link.
    pub fn copy(&self) -> Link
        ensures { result ≡ self.now }
    {
        Link {
            number: self.number,
        }
    }

    /// The row.
    pub fn row(&self) -> Option<u32>
        ensures { result ≡ self.now }
    {
        match self.number {
            NONE => None,
            number => Some(number),
        }
    }
}

/// Two links, in the place of the numbers of a row's parents.
#[derive(Drop)]
pub struct Links {
    p1: Link,
    p2: Link,
}

impl Model for Links {
    ghost use Rattle.hg_log.specs.declared.graph.Parents.{Parents};

    ghost Value = { Parents };

    ghost view = { λ l. record { p1 = l.p1; p2 = l.p2 } };
}

impl Links {
    /// Links to these rows.
    pub fn to(rows: Parents) -> Links
        requires { IfSome rows.p1 (λ r. r < 2 ^ 32 - 1) × IfSome rows.p2 (λ r. r < 2 ^ 32 - 1) }
        ensures { result ≡ rows }
    {
        Links {
            p1: Link::to(rows.p1),
            p2: Link::to(rows.p2),
        }
    }

    /// These two.
    pub fn of(p1: Link, p2: Link) -> Links
        ensures { result ≡ record { p1 = p1; p2 = p2 } }
    {
        Links { p1, p2 }
    }

    /// The rows.
    pub fn rows(&self) -> Parents
        ensures { result ≡ self.now }
    {
        Parents {
            p1: self.p1.row(),
            p2: self.p2.row(),
        }
    }

    /// The same links, one by one.
    pub fn copies(&self) -> (Link, Link)
        ensures first { result.0 ≡ self.now.p1 }
        ensures second { result.1 ≡ self.now.p2 }
    {
        (self.p1.copy(), self.p2.copy())
    }
}
