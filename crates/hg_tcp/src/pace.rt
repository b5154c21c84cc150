//! How much moves on a connection, and when the time for which it may be silent begins again.

ghost use Rattle.std.specs.Prelude.{◌≡◌};
ghost use Rattle.hg_tcp.specs.Pace.{moved_after};

/// How many bytes have to come, or to be taken, in the time for which a connection may be silent.
pub const LEAST: usize = 1_024;

/// What moved on a connection since its time began.
#[derive(Clone, Copy)]
pub struct Pace {
    /// How many bytes, all of them read or all of them written.
    pub moved: usize,
    /// Whether they were read.
    pub reads: bool,
}

impl Pace {
    /// How many bytes moved with so many more, which were read or written. None where the time begins again: where
    /// a request or an answer begins, and after each piece of the least size.
    pub fn after(self, bytes: usize, reads: bool) -> Option<usize>
        ensures { result ≡ moved_after self bytes reads }
    {
        if self.reads != reads {
            return None;
        }
        let moved = self.moved.saturating_add(bytes);
        if moved >= LEAST { None } else { Some(moved) }
    }
}
