//! A page that stays short.

ghost use Rattle.std.specs.Prelude.{◌≡◌, ◌≤◌, ◌++◌, [], if◌then◌else◌, IfOk, OnOk, string_bytes, string_len};
ghost use Rattle.hg_status.specs.Page.{fits, put as with_put, with_piece};

use hg_types::NoMemory;
use std::alloc::{Allocator, Global};

/// The most bytes of a page.
pub const LIMIT: usize = 65_535;

/// A page while it is written: it never has more than 65,535 bytes.
#[derive(Drop)]
pub struct Page<A: Allocator = Global> {
    text: String<A>,
    ghost short: { string_len text ≤ 65535 },
}

impl<A: Allocator> Page<A> {
    /// The empty page.
    pub fn new(alloc: A) -> Page<A>
        ensures { string_bytes result.text ≡ [] }
    {
        Page {
            text: String::new(alloc),
        }
    }

    /// Adds a piece where the page then has at most so many bytes, and says whether it did.
    #[tactic(auto, unfolding(crate::specs::Page::fits))]
    pub fn add(&mut self, piece: &str, most: usize) -> Result<bool, NoMemory>
        ensures fits { IfOk result (λ added. added ≡ fits most (string_bytes self.old.text) piece.now) }
        ensures text { IfOk result (λ added. string_bytes self.new.text
            ≡ (if added then string_bytes self.old.text ++ piece.now else string_bytes self.old.text)) }
    {
        let most = most.min(LIMIT);
        if piece.len() > most.saturating_sub(self.text.len()) {
            return Ok(false);
        }
        self.text.push_str(piece)?;
        Ok(true)
    }

    /// Adds a piece where the page then has at most so many bytes.
    pub fn put_within(&mut self, piece: &str, most: usize) -> Result<(), NoMemory>
        ensures { OnOk result (string_bytes self.new.text
            ≡ with_piece most (string_bytes self.old.text) piece.now) }
    {
        let _added = self.add(piece, most)?;
        Ok(())
    }

    /// Adds a piece of the page itself, for which there is room.
    #[tactic(auto, unfolding(crate::specs::Page::put))]
    pub fn put(&mut self, piece: &str) -> Result<(), NoMemory>
        ensures { OnOk result (string_bytes self.new.text ≡ with_put (string_bytes self.old.text) piece.now) }
    {
        self.put_within(piece, LIMIT)
    }

    /// Its text.
    pub fn into_text(self) -> String<A>
        ensures text { string_bytes result ≡ string_bytes self.text }
        ensures short { string_len result ≤ 65535 }
    {
        let Page { text } = self;
        text
    }
}
