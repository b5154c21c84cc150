//! Readers and writers that may say how they were used.

ghost use Rattle.std.specs.Prelude.{◌≡◌, ◌<◌, Ok, None, length};
ghost use Rattle.std.specs.Io.{ReadsAtMost, WritesAtMost};
ghost use Rattle.std.specs.Io.KnownBytes.{IsAtEnd};
ghost use Rattle.hg_connection.specs.Devices.{Input, Output, ReadsOnce, Uses, flush_answer, read_answer};
ghost use Rattle.hg_connection.specs.Devices.{write_answer};

use std::io::{Read, Result, Write};

/// A reader of bytes. A contract speaks of what it reports: the bytes that it has still to give, and how each
/// read went.
pub trait Reader {
    ghost told: { Self → Input };

    /// Reads some bytes to the front of the buffer, and says how many: none at the end of the input.
    fn read(&mut self, buffer: &mut [u8]) -> Result<usize>
        ensures bound { ReadsAtMost result buffer.new }
        ensures read { ReadsOnce (told self.old) (told self.new) (read_answer result buffer.new) }
        ensures end { result ≡ Ok 0 → 0 < length buffer.new → IsAtEnd (told self.new).left };
}

/// A writer of bytes. A contract speaks of what it reports: the bytes that it took, and how each write and
/// flush went.
pub trait Writer {
    ghost told: { Self → Output };

    /// Takes bytes from the front of these, and says how many.
    fn write(&mut self, bytes: &[u8]) -> Result<usize>
        ensures bound { WritesAtMost result bytes.now }
        ensures write { Uses (told self.old) (told self.new) (write_answer result bytes.now) };

    /// Sends on what it took.
    fn flush(&mut self) -> Result<()>
        ensures { Uses (told self.old) (told self.new) (flush_answer result) };
}

/// A reader of the library reports its bytes, where it knows them, and not how its reads went.
impl<R: Read> Reader for R {
    ghost told = { λ r. record { left = R.remaining r; reads = None } };

    fn read(&mut self, buffer: &mut [u8]) -> Result<usize> {
        Read::read(self, buffer)
    }
}

/// A writer of the library reports its bytes, where it knows them, and not how its writes went.
impl<W: Write> Writer for W {
    ghost told = { λ w. record { taken = W.contents w; uses = None } };

    fn write(&mut self, bytes: &[u8]) -> Result<usize> {
        Write::write(self, bytes)
    }

    fn flush(&mut self) -> Result<()> {
        Write::flush(self)
    }
}
