//! The bytes at the front of a file.

ghost use Rattle.std.specs.Prelude.{◌≡◌, ◌≤◌, ◌<◌, ◌++◌, IfOk, IsErrOf, OnErr, OnOk, take};
ghost use Rattle.std.specs.Io.KnownBytes.{IsAtEnd};
ghost use Rattle.hg_connection.specs.Devices.{Failed as failed_read, Gave, ReadsOnce};
ghost use Rattle.hg_import.specs.Fronts.{FailsToGive, GivesUpTo};

use hg_connection::Reader;
use hg_types::NoMemory;
use std::alloc::Allocator;
use std::io;
use std::io::ErrorKind;

/// How many bytes are read at a time, at most.
const PIECE: usize = 8_192;

/// How many reads of a file may be interrupted.
const MOST_INTERRUPTED: usize = 1_000_000;

/// Why the bytes of a file are not had.
#[derive(Clone, Copy, Debug, PartialEq, Eq)]
pub enum InputFault {
    /// The file failed.
    Failed,
    /// Memory was refused.
    NoMemory,
}

/// Whatever says that memory was refused.
impl<E: Into<NoMemory> + Drop> From<E> for InputFault {
    ghost use Rattle.std.specs.Prelude.{◌≡◌};
    ghost use Rattle.hg_import.specs.declared.reading.InputFault.TheVariants.{NoMemory as out_of_memory};

    ghost from_gives = { λ _ told. told ≡ out_of_memory };

    fn from(_refused: E) -> Self {
        InputFault::NoMemory
    }
}

/// The bytes of a file, or so many of the first ones, where it has more. A read that is interrupted is made again.
pub fn read_front<R: Reader, A: Allocator>(
    alloc: A,
    reader: &mut R,
    most: usize,
) -> Result<Vec<u8, A>, InputFault>
    ensures gives { IfOk result (λ bytes. GivesUpTo most bytes.items (R.told reader.old) (R.told reader.new)) }
    ensures fails { IsErrOf result InputFault.Failed → FailsToGive (R.told reader.old) (R.told reader.new) }
{
    let mut bytes = Vec::new(alloc);
    let mut piece = [0; PIECE];
    let mut left = most;
    let mut interrupted = 0;
    'reads: while left > 0 {
        match read_piece(reader, left, &mut piece) {
            Ok(0) => return Ok(bytes),
            Ok(got) => {
                add_piece(&mut bytes, &piece[..got])?;
                left -= got;
            }
            Err(error) => {
                if error.kind() != ErrorKind::Interrupted || interrupted == MOST_INTERRUPTED {
                    return Err(fault_of(&error));
                }
                interrupted += 1;
            }
        }
    }
    Ok(bytes)
}

/// Reads once, to the front of the piece, at most so many bytes.
fn read_piece<R: Reader>(reader: &mut R, most: usize, piece: &mut [u8; PIECE]) -> io::Result<usize>
    ensures most { IfOk result (λ got. got ≤ most) }
    ensures bound { IfOk result (λ got. got ≤ 8192) }
    ensures bytes { IfOk result (λ got.
        ReadsOnce (R.told reader.old) (R.told reader.new) (Gave (take got piece.new))) }
    ensures failed { OnErr result (ReadsOnce (R.told reader.old) (R.told reader.new) failed_read) }
    ensures end { IfOk result (λ got. got ≡ 0 → 0 < most → IsAtEnd (R.told reader.new).left) }
{
    reader.read(&mut piece[..most.min(PIECE)])
}

/// Appends the piece.
fn add_piece<A: Allocator>(bytes: &mut Vec<u8, A>, piece: &[u8]) -> Result<(), NoMemory>
    ensures { OnOk result (bytes.new.items ≡ bytes.old.items ++ piece.now) }
{
    bytes.extend_from_slice(piece)?;
    Ok(())
}

/// The error of a reader.
fn fault_of(error: &io::Error) -> InputFault {
    match error.kind() {
        ErrorKind::OutOfMemory => InputFault::NoMemory,
        _ => InputFault::Failed,
    }
}
