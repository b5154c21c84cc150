//! What a crash may leave of a file in memory.

ghost use Rattle.std.specs.Prelude.{◌<◌, vec_len};

use hg_help_store_tests::paper::{Paper, Step, overwrite};
use std::alloc::Global;
use std::test::Fail;

/// Files that a crash may leave: what was synced, with each write and cut since lost or made, in each way; and
/// with one of them made in part, at its front or at its end, or with anything in the rest of its range, where those
/// before it and those after it are lost or made.
pub fn outcomes(alloc: Global, paper: &Paper) -> Result<Vec<Vec<u8>>, Fail> {
    let count = paper.steps.len().min(15);
    let mut files = Vec::new(alloc);
    for made in 0..1usize << count {
        files.push(left_by(alloc, paper, made, None)?)?;
    }
    for at in 0..count {
        let before = (1usize << at).saturating_sub(1);
        let after = (1usize << count).saturating_sub(2usize << at);
        for made in [0, before | after] {
            put_torn(alloc, paper, made, at, &mut files)?;
        }
        // where none stands before it, or none after it, these two are those two again
        if before > 0 && after > 0 {
            for made in [before, after] {
                put_torn(alloc, paper, made, at, &mut files)?;
            }
        }
    }
    Ok(files)
}

/// The file with those steps made of which the bit is set, the first the lowest; and with these bytes of one of them,
/// so far behind its place.
fn left_by(
    alloc: Global,
    paper: &Paper,
    made: usize,
    one: Option<(usize, usize, &[u8])>,
) -> Result<Vec<u8>, Fail> {
    let mut file = paper.synced.to_vec(alloc)?;
    for (at, step) in paper.steps.iter().enumerate() {
        let is_made = made >> at.min(15) & 1 == 1;
        match (step, one) {
            (Step::Write(place, _), Some((torn, from, bytes))) if torn == at => {
                overwrite(&mut file, place.saturating_add(from), bytes)?;
            }
            (Step::Write(place, bytes), _) if is_made => {
                overwrite(&mut file, *place, bytes)?;
            }
            (Step::Cut(len), _) if is_made => file.truncate(*len),
            (_, _) => {}
        }
    }
    Ok(file)
}

/// The files with those steps made, and with one in part.
fn put_torn(
    alloc: Global,
    paper: &Paper,
    made: usize,
    at: usize,
    out: &mut Vec<Vec<u8>>,
) -> Result<(), Fail>
    requires { at < vec_len paper.now.steps }
{
    match &paper.steps[at] {
        Step::Cut(len) => {
            let whole = left_by(alloc, paper, made, None)?;
            for middle in *len..whole.len() {
                out.push(whole[..middle].to_vec(alloc)?)?;
            }
        }
        Step::Write(_, bytes) if bytes.len() > 1 => {
            for cut in 0..bytes.len() {
                let part = &bytes[..cut];
                let end = &bytes[cut..];
                out.push(left_by(alloc, paper, made, Some((at, 0, part)))?)?;
                out.push(left_by(alloc, paper, made, Some((at, cut, end)))?)?;
                for filling in [0u8, 1, 255] {
                    let mut torn = part.to_vec(alloc)?;
                    torn.resize(bytes.len(), filling)?;
                    out.push(left_by(alloc, paper, made, Some((at, 0, &torn)))?)?;
                }
            }
        }
        Step::Write(_, _) => {}
    }
    Ok(())
}
