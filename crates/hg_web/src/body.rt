//! The reader of a request's body.

ghost use Rattle.std.specs.Prelude.{◌≡◌, ◌<◌, ◌≤◌, [], length, take};

use hg_connection::Reader;
use http_server::Log;
use std::io::Result;
use std::marker::Model;

/// Gives the bytes of a request's body, or of a bundle that was made for one. No read of it fails, and it reports
/// what each gave.
#[derive(Drop)]
pub(crate) struct Body<'a> {
    bytes: &'a [u8],
    at: usize,
    reads: Log<usize, usize>,
}

impl<'a> Model for Body<'a> {
    ghost use Rattle.std.specs.Prelude.{◌≤◌, length};
    ghost use Rattle.hg_web.specs.code.Bodies.{BodyView};

    ghost Value = { BodyView };

    ghost view = { λ b. record { bytes = b.bytes.now; at = b.at; reads = b.reads.items } };

    ghost invariant = { λ b. b.at ≤ length b.bytes.now };
}

impl<'a> Body<'a> {
    /// A reader of these bytes, of which none was read yet.
    pub(crate) fn new(bytes: &'a [u8]) -> Body<'a>
        ensures { result ≡ record { bytes = bytes.now; at = 0; reads = [] } }
    {
        Body {
            bytes,
            at: 0,
            reads: Log::new(),
        }
    }
}

impl Reader for Body<'_> {
    ghost use Rattle.hg_web.specs.code.Bodies.{input_of};

    ghost told = { input_of };

    fn read(&mut self, buffer: &mut [u8]) -> Result<usize> {
        let count = copy_front(&self.bytes[self.at..], buffer);
        self.reads = self.reads.and(&self.at, &count);
        self.at += count;
        Ok(count)
    }
}

/// Copies as many bytes from the front as there is room for, and says how many.
fn copy_front(bytes: &[u8], buffer: &mut [u8]) -> usize
    ensures within { (result ≤ length bytes.now) × (result ≤ length buffer.old) }
    ensures front { take result buffer.new ≡ take result bytes.now }
    ensures all { result ≡ 0 → 0 < length buffer.new → bytes.now ≡ [] }
{
    let count = bytes.len().min(buffer.len());
    buffer[..count].copy_from_slice(&bytes[..count]);
    count
}
