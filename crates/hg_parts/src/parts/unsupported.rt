//! A part that is not supported: its type is not known, or a mandatory parameter of it is not.

ghost use Rattle.std.specs.Prelude.{◌≡◌, IfOk};
ghost use Rattle.hg_parts.specs.declared.refusal.Refusal.{Refusal};
ghost use Rattle.hg_parts.specs.code.Handled.{NothingGives};
ghost use Rattle.hg_parts.specs.PartTypes.{lower, unsupported_names};
ghost use Rattle.hg_parts.specs.Repository.{Repository as ARepository};
ghost use Rattle.hg_parts.specs.parts.Unsupported.{handle_unsupported};

use crate::refusal::Refusal;
use crate::table::unknown_names;
use hg_types::{NoMemory, Part, Short};
use std::alloc::Allocator;

/// Refuses the part where it is mandatory, and else ignores it.
pub fn handle_unsupported<A: Allocator + Copy>(
    alloc: A,
    place: u32,
    part: &Part<A>,
) -> Result<(), Refusal<A>>
    ensures { (repo : ARepository A) → NothingGives
        (handle_unsupported repo place part.now (unsupported_names part.now)) repo result }
{
    if part.is_mandatory() {
        return Err(unsupported(alloc, place, part)?);
    }
    Ok(())
}

/// The refusal of a part that is not supported.
fn unsupported<A: Allocator + Copy>(
    alloc: A,
    place: u32,
    part: &Part<A>,
) -> Result<Refusal<A>, NoMemory>
    ensures { IfOk result (λ refusal.
        refusal ≡ Refusal.Unsupported place (lower part.now.kind) (unsupported_names part.now)) }
{
    let kind = part.kind.as_slice().to_ascii_lowercase(alloc)?;
    let kind = Short::copy_of(alloc, kind.as_slice())?;
    let params = unknown_names(alloc, part)?;
    Ok(Refusal::Unsupported {
        place,
        kind,
        params,
    })
}
