//! The rows that are roots of draft.

ghost use Rattle.std.specs.Prelude.{◌≡◌, ◌+◌, ◌≤◌, ◌^◌, ◌++◌, length, IfOk, OnOk};
ghost use Rattle.std.specs.List.{list_any};
ghost use Rattle.hg_types.specs.declared.phase.Phase.TheVariants.{Draft};
ghost use Rattle.hg_phases.specs.Standing.{is_draft_root, told, told_from};

use crate::standing::Standing;
use std::alloc::{AllocError, Allocator};

/// How many rows are passed over together where none of them is a root.
const PIECE: usize = 64;

/// The numbers of the rows that are roots of draft, in ascending order.
pub fn draft_roots<A: Allocator>(alloc: A, rows: &[Standing]) -> Result<Vec<u32, A>, AllocError>
    requires { length rows.now ≤ 2 ^ 32 }
    ensures { IfOk result (λ roots. roots.items ≡ told Draft rows.now) }
{
    let mut roots = Vec::new(alloc);
    let (pieces, rest) = rows.as_chunks::<PIECE>();
    for (place, piece) in pieces.iter().enumerate() {
        if has_root(piece) {
            push_roots(&mut roots, place * PIECE, piece.as_slice())?;
        }
    }
    push_roots(&mut roots, pieces.len() * PIECE, rest)?;
    Ok(roots)
}

/// Whether one of these rows is a root of draft. All are looked at, whatever the first ones are.
fn has_root(rows: &[Standing; PIECE]) -> bool
    ensures { result ≡ list_any is_draft_root rows.now }
{
    let mut has = false;
    for row in rows {
        has |= row.is_draft_root();
    }
    has
}

/// Adds those of these rows that are roots of draft, of which the first has that number.
fn push_roots<A: Allocator>(
    roots: &mut Vec<u32, A>,
    first: usize,
    rows: &[Standing],
) -> Result<(), AllocError>
    requires { first + length rows.now ≤ 2 ^ 32 }
    ensures { OnOk result (roots.new.items ≡ roots.old.items ++ told_from Draft first rows.now) }
{
    for (place, row) in rows.iter().enumerate() {
        if row.is_draft_root() {
            roots.push((first + place) as u32)?;
        }
    }
    Ok(())
}
