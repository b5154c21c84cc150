//! The table of part types: the name of each and the parameters that are known for it, and which parts it
//! supports. What a type asks is picked in `handle`.
//!
//! A part is supported where its type is in the table, and each of its mandatory parameters is known for
//! that type (Mercurial's `internals.bundle2`, "Payload Part" and "Bundle2 Part Types").

ghost use Rattle.std.specs.Prelude.{◌≡◌, IfOk, IfNone, IfSome, option_map, option_copied, bytes_eq, find};
ghost use Rattle.std.specs.Prelude.{map};
ghost use Rattle.std.specs.List.{list_any};
ghost use Rattle.std.specs.Str.{str_eq_ignore_ascii_case};
ghost use Rattle.hg_parts.specs.PartTypes.{table, race_text, row_of, is_reply_caps, is_unknown};
ghost use Rattle.hg_parts.specs.PartTypes.{support_of, unsupported_names, Supported, Unsupported};
ghost use Rattle.hg_parts.specs.code.Table.{row_value};

use crate::refusal::RaceText;
use hg_checks::CheckKind;
use hg_types::{NoMemory, Param, Part, Seq, Short, TryClone};
use std::alloc::Allocator;

/// A type of part that is handled.
#[derive(Clone, Copy, Debug, PartialEq, Eq)]
pub enum PartType {
    /// `replycaps`: what the client can read in a reply. Parts handled after it leave replies. Its payload
    /// is not looked at.
    ReplyCaps,
    /// `check:heads` and others: what the client saw of what its kind says.
    Check(CheckKind),
    /// `phase-heads`: changesets that are in a lower phase at the client.
    PhaseHeads,
    /// `bookmarks`: names, and the changeset that each is to be on.
    Bookmarks,
    /// `obsmarkers`: obsolescence markers.
    Obsmarkers,
    /// `changegroup`: changesets for the changelog.
    ChangeGroup,
    /// `pushkey`: a key of a namespace that is to have another value.
    Pushkey,
    /// `output`: text for a person. Its payload is not looked at.
    Output,
    /// `error:abort`: the client ends the push. Its payload is not looked at.
    ErrorAbort,
}

/// A row of the table.
struct Row {
    part_type: PartType,
    /// The name of the type, in lower case.
    name: &'static [u8],
    /// The names of the parameters that are known for it.
    known: &'static [&'static [u8]],
}

static TABLE: &[Row] = &[
    Row {
        part_type: PartType::ReplyCaps,
        name: b"replycaps",
        known: &[],
    },
    Row {
        part_type: PartType::Check(CheckKind::Heads),
        name: b"check:heads",
        known: &[],
    },
    Row {
        part_type: PartType::Check(CheckKind::Phases),
        name: b"check:phases",
        known: &[],
    },
    Row {
        part_type: PartType::Check(CheckKind::Bookmarks),
        name: b"check:bookmarks",
        known: &[],
    },
    Row {
        part_type: PartType::PhaseHeads,
        name: b"phase-heads",
        known: &[],
    },
    Row {
        part_type: PartType::Bookmarks,
        name: b"bookmarks",
        known: &[],
    },
    Row {
        part_type: PartType::Obsmarkers,
        name: b"obsmarkers",
        known: &[],
    },
    Row {
        part_type: PartType::ChangeGroup,
        name: b"changegroup",
        known: &[b"version", b"nbchanges", b"targetphase"],
    },
    Row {
        part_type: PartType::Pushkey,
        name: b"pushkey",
        known: &[b"namespace", b"key", b"old", b"new"],
    },
    Row {
        part_type: PartType::Output,
        name: b"output",
        known: &[],
    },
    Row {
        part_type: PartType::ErrorAbort,
        name: b"error:abort",
        known: &[b"message", b"hint"],
    },
];

impl Row {
    /// Whether the row is of that type. Types are compared without regard to case.
    fn is_of(&self, kind: &[u8]) -> bool
        ensures { result ≡ str_eq_ignore_ascii_case self.now.name.now kind.now }
    {
        self.name.eq_ignore_ascii_case(kind)
    }

    /// Whether the parameter of that name is known. Names are compared exactly.
    fn knows(&self, key: &[u8]) -> bool
        ensures { result ≡ list_any (λ name. bytes_eq name.now key.now) self.now.known.now }
    {
        self.known.iter().any(|name| *name == key)
    }

    /// Whether a mandatory parameter is not known.
    fn is_unknown<A: Allocator>(&self, param: &Param<A>) -> bool
        ensures { result ≡ is_unknown (row_value self.now).known param.now }
    {
        param.mandatory && !self.knows(param.key.as_slice())
    }
}

/// Whether one of the parameters stands against the part.
fn is_any_unknown<A: Allocator>(row: &Row, params: &[Param<A>]) -> bool
    ensures { result ≡ list_any (is_unknown (row_value row.now).known) params.now }
{
    params.iter().any(|param| row.is_unknown(param))
}

/// The first row of that type.
fn find_row<'a>(rows: &'a [Row], kind: &[u8]) -> Option<&'a Row>
    ensures { option_copied result ≡ find (λ row. str_eq_ignore_ascii_case row.name.now kind.now) rows.now }
{
    rows.iter().find(|row| row.is_of(kind))
}

/// The rows of the table.
fn rows() -> &'static [Row]
    ensures { map row_value result.now ≡ table }
{
    TABLE
}

/// The row of a type.
fn row_of(kind: &[u8]) -> Option<&'static Row>
    ensures { option_map row_value (option_copied result) ≡ row_of kind.now }
{
    find_row(rows(), kind)
}

/// What a race says of a check of that kind.
pub fn race_text(kind: CheckKind) -> RaceText
    ensures { result ≡ race_text kind }
{
    match kind {
        CheckKind::Heads => RaceText::HeadsChanged,
        CheckKind::Phases => RaceText::PhasesChanged,
        CheckKind::Bookmarks => RaceText::BookmarksChanged,
    }
}

/// The type of a part, if it is supported.
pub fn supported_type<A: Allocator>(part: &Part<A>) -> Option<PartType>
    ensures some { IfSome result (λ part_type. support_of part.now ≡ Supported part_type) }
    ensures none { IfNone result (support_of part.now ≡ Unsupported (unsupported_names part.now)) }
{
    let row = row_of(part.kind.as_slice())?;
    if is_any_unknown(row, part.params.as_slice()) {
        return None;
    }
    Some(row.part_type)
}

/// The names of the mandatory parameters that are not known, in the header's order: none where the type
/// is not in the table.
pub fn unknown_names<A: Allocator + Copy>(
    alloc: A,
    part: &Part<A>,
) -> Result<Seq<Short<A>, A>, NoMemory>
    ensures { IfOk result (λ names. names ≡ unsupported_names part.now) }
{
    let mut names = Seq::new(alloc);
    let Some(row) = row_of(part.kind.as_slice()) else {
        return Ok(names);
    };
    for param in part.params.as_slice() {
        if row.is_unknown(param) {
            names.push(param.key.try_clone(alloc)?)?;
        }
    }
    Ok(names)
}

/// Whether parts leave replies after this one.
pub fn starts_replies<A: Allocator>(part: &Part<A>) -> bool
    ensures { result ≡ is_reply_caps (support_of part.now) }
{
    matches!(supported_type(part), Some(PartType::ReplyCaps))
}
