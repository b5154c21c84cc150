//! Manifests and files, of which only the chunks are checked.

ghost use Rattle.std.specs.Prelude.{◌≡◌, ◌≤◌, ◌<◌, ◌++◌, List, ℕ, length, IfOk, IfErr};
ghost use Rattle.hg_cgroup.specs.Chunk.{AreChunks, empty_chunk, IsChunkFault};
ghost use Rattle.hg_cgroup.specs.Group.{File, AreFiles, AreFrames};
ghost use Rattle.hg_cgroup.specs.Faults.{BreaksAtFile, BreaksInFrames};

use crate::chunk::{Chunk, read_chunk};
use crate::fault::GroupFault;

/// The bytes after a group.
fn skip_group(bytes: &[u8]) -> Result<&[u8], GroupFault>
    ensures ok { IfOk result (λ rest. (chunks : List (List ℕ))
        × AreChunks bytes.now chunks (empty_chunk ++ rest.now)) }
    ensures shorter { IfOk result (λ rest. length rest.now < length bytes.now) }
    ensures fault { IfErr result (λ fault. (chunks : List (List ℕ)) × (rest : List ℕ)
        × AreChunks bytes.now chunks rest × IsChunkFault fault 1 rest) }
{
    let mut rest = bytes;
    loop {
        match read_chunk(1, rest)? {
            (Chunk::Empty, after) => return Ok(after),
            (Chunk::Content(_), after) => rest = after,
        }
    }
}

/// The bytes after the files and the closing chunk.
fn skip_files(bytes: &[u8]) -> Result<&[u8], GroupFault>
    ensures ok { IfOk result (λ rest. (files : List File)
        × AreFiles bytes.now files (empty_chunk ++ rest.now)) }
    ensures fault { IfErr result (λ fault. BreaksAtFile bytes.now fault) }
{
    let mut rest = bytes;
    loop {
        match read_chunk(1, rest)? {
            (Chunk::Empty, after) => return Ok(after),
            (Chunk::Content(_), after) => rest = skip_group(after)?,
        }
    }
}

/// The bytes after the group of the manifests, the files and the closing chunk.
pub fn skip_frames(bytes: &[u8]) -> Result<&[u8], GroupFault>
    ensures ok { IfOk result (λ rest. AreFrames bytes.now rest.now) }
    ensures fault { IfErr result (λ fault. BreaksInFrames bytes.now fault) }
{
    let files = skip_group(bytes)?;
    skip_files(files)
}
