//! Where a message stands.

ghost use Rattle.std.specs.Prelude.{◌≡◌, ◌↔◌, ◌-◌, ◌+◌, ◌<◌, ◌^◌, IsTrue};
ghost use Rattle.hg_digests.specs.Messages.{IsWithin};

/// The bytes of an id.
pub(crate) const ID: usize = 20;

/// Where two ids and a text stand in a list of bytes. The message is these, one after the other.
#[derive(Clone, Copy)]
pub struct Place {
    /// Where the first id begins.
    pub first: u32,
    /// Where the second id begins.
    pub second: u32,
    /// Where the text begins, and where it ends.
    pub from: u32,
    pub to: u32,
}

impl Place {
    /// Whether all of it is there in so many bytes.
    pub fn is_within(&self, length: usize) -> bool
        ensures { IsTrue result ↔ IsWithin length self.now }
    {
        self.first as usize + ID <= length
            && self.second as usize + ID <= length
            && self.from <= self.to
            && self.to as usize <= length
    }
}
