//! The folder of a store, and what was done there besides the calls on its open file.

ghost use Rattle.std.specs.Prelude.{◌≡◌, ◌∷◌, []};
ghost use Rattle.hg_store.specs.History.{event_of};

use crate::history::{Call, History};
use crate::kept::KeptTail;
use std::fs::{File, Files};
use std::marker::Model;

/// The folder of a store. Contracts see it as what was done there: that no store was found, that a file was made that
/// may take the place of one, and that the tail of a store was kept. Whoever holds it has no other way to the store,
/// since it gives its path to
/// nobody outside: so what is noted is all that was done by it. That each is noted is to be read in this crate, and
/// no contract says it.
#[derive(Drop)]
pub struct StoreFolder<'a, R: Files> {
    files: &'a R,
    path: &'a str,
    /// The tail that was kept last.
    kept: Option<KeptTail>,
    history: History,
}

impl<'a, R: Files> Model for StoreFolder<'a, R> {
    ghost use Rattle.std.specs.Prelude.{List};
    ghost use Rattle.hg_store.specs.Calls.{Event};

    ghost Value = { List Event };

    ghost view = { λ f. f.history.events };
}

impl<'a, R: Files<File = File>> StoreFolder<'a, R> {
    /// The folder of that path, in which nothing was done yet.
    pub fn new(files: &'a R, path: &'a str) -> Self
        ensures { result ≡ [] }
    {
        StoreFolder {
            files,
            path,
            kept: None,
            history: History::new(),
        }
    }

    /// The files of the system.
    pub(crate) fn files(&self) -> &'a R {
        self.files
    }

    /// Its path.
    pub(crate) fn path(&self) -> &'a str {
        self.path
    }

    /// The tail that was kept last, if one was.
    pub fn kept(&self) -> Option<KeptTail> {
        self.kept
    }

    /// Remembers which tail was kept.
    pub(crate) fn remember(&mut self, kept: KeptTail)
        ensures { self.new ≡ self.old }
    {
        self.kept = Some(kept);
    }

    /// Notes what was done.
    pub(crate) fn note(&mut self, call: &Call<'_>)
        ensures { self.new ≡ event_of call.now ∷ self.old }
    {
        self.history = self.history.and(call);
    }
}
