//! Bytes sent to any writer.

ghost use Rattle.hg_connection.specs.Sent.{Sends, Writes};

use crate::device::Writer;

/// What became of a reply.
#[derive(Clone, Copy, Debug, PartialEq, Eq)]
pub enum Sending {
    /// All of it was written and flushed.
    Whole,
    /// The writer failed, or took nothing: the reply, or its end, is missing or was not flushed.
    Broken,
    /// Memory was refused for it, and nothing was written.
    NoMemory,
}

/// Writes the bytes and flushes. Says what became of them, and how many the writer took. A write or a flush
/// that fails, and a write that takes nothing, is the last use of the writer.
pub fn send<W: Writer>(writer: &mut W, bytes: &[u8]) -> (Sending, usize)
    ensures { Sends result.0 result.1 (W.told writer.old) (W.told writer.new) bytes.now }
{
    let sent = write_each(writer, bytes);
    if sent < bytes.len() {
        return (Sending::Broken, sent);
    }
    match writer.flush() {
        Ok(_) => (Sending::Whole, sent),
        Err(_) => (Sending::Broken, sent),
    }
}

/// Writes the bytes, and says how many went out: all, unless a write failed or took none.
fn write_each<W: Writer>(writer: &mut W, bytes: &[u8]) -> usize
    ensures { Writes (W.told writer.old) (W.told writer.new) bytes.now result }
{
    let mut sent = 0;
    while sent < bytes.len() {
        match writer.write(&bytes[sent..]) {
            Ok(0) => return sent,
            Ok(count) => sent += count,
            Err(_) => return sent,
        }
    }
    sent
}
