//! Which parts of a bundle may change a repository, and which of their parameters say how.

ghost use Rattle.std.specs.Prelude.{◌≡◌, IfNone, IfSome, None, Some, bytes_eq, find, map, option_copied, option_map};
ghost use Rattle.std.specs.List.{list_any};
ghost use Rattle.std.specs.Str.{str_eq_ignore_ascii_case};
ghost use Rattle.hg_parts.specs.PartTypes.{is_unknown, support_of};
ghost use Rattle.hg_store_tools.specs.Canonical.{is_named, names_by};
ghost use Rattle.hg_store_tools.specs.code.Changing.{change_value, changes_table};

use hg_types::{Param, Part};
use std::alloc::Allocator;

/// A type of part that may change a repository.
struct Change {
    /// The name of the type, in lower case.
    name: &'static [u8],
    /// The names of the parameters that are known for it.
    known: &'static [&'static [u8]],
    /// Those that say what it changes.
    kept: &'static [&'static [u8]],
}

static CHANGES: &[Change] = &[
    Change {
        name: b"changegroup",
        known: &[b"version", b"nbchanges", b"targetphase"],
        kept: &[b"version"],
    },
    Change {
        name: b"phase-heads",
        known: &[],
        kept: &[],
    },
    Change {
        name: b"bookmarks",
        known: &[],
        kept: &[],
    },
    Change {
        name: b"obsmarkers",
        known: &[],
        kept: &[],
    },
    Change {
        name: b"pushkey",
        known: &[b"namespace", b"key", b"old", b"new"],
        kept: &[b"namespace", b"key", b"old", b"new"],
    },
];

impl Change {
    /// Whether it is of that type. Types are compared without regard to case.
    fn is_of(&self, kind: &[u8]) -> bool
        ensures { result ≡ str_eq_ignore_ascii_case self.now.name.now kind.now }
    {
        self.name.eq_ignore_ascii_case(kind)
    }

    /// Whether a mandatory parameter is not known.
    fn is_unknown<A: Allocator>(&self, param: &Param<A>) -> bool
        ensures { result ≡ is_unknown (change_value self.now).known param.now }
    {
        param.mandatory && !is_named(param, self.known)
    }
}

/// Whether the parameter has one of the names.
pub fn is_named<A: Allocator>(param: &Param<A>, names: &[&[u8]]) -> bool
    ensures { result ≡ is_named (map (λ name. name.now) names.now) param.now }
{
    is_among(param.key.as_slice(), names)
}

/// Whether the key is one of the names. They are compared exactly.
fn is_among(key: &[u8], names: &[&[u8]]) -> bool
    ensures { result ≡ list_any (λ name. bytes_eq name.now key.now) names.now }
{
    names.iter().any(|name| *name == key)
}

/// Whether one of the parameters stands against the part.
fn is_any_unknown<A: Allocator>(change: &Change, params: &[Param<A>]) -> bool
    ensures { result ≡ list_any (is_unknown (change_value change.now).known) params.now }
{
    params.iter().any(|param| change.is_unknown(param))
}

/// The first that is of that type.
fn find_change<'a>(changes: &'a [Change], kind: &[u8]) -> Option<&'a Change>
    ensures { option_copied result ≡ find (λ change. str_eq_ignore_ascii_case change.name.now kind.now) changes.now }
{
    changes.iter().find(|change| change.is_of(kind))
}

/// All of them.
fn changes() -> &'static [Change]
    ensures { map change_value result.now ≡ changes_table }
{
    CHANGES
}

/// What a type of part changes.
fn change_of(kind: &[u8]) -> Option<&'static Change>
    ensures { option_map change_value (option_copied result)
        ≡ find (λ change. str_eq_ignore_ascii_case change.name kind.now) changes_table }
{
    find_change(changes(), kind)
}

/// The names of the parameters that say what the part changes. There are none where it may change nothing, or is
/// not supported.
pub fn kept_names<A: Allocator>(part: &Part<A>) -> Option<&'static [&'static [u8]]>
    ensures some { IfSome result (λ names. names_by (support_of part.now) ≡ Some (map (λ name. name.now) names.now)) }
    ensures none { IfNone result (names_by (support_of part.now) ≡ None) }
{
    let change = change_of(part.kind.as_slice())?;
    if is_any_unknown(change, part.params.as_slice()) {
        return None;
    }
    Some(change.kept)
}
