//! Why a store is not read or cut, and how its records end.

use hg_store::HeadFault;
use hg_types::NoMemory;
use std::fmt;
use thiserror::Error;

/// How the records of a store end that is not damaged.
#[derive(Clone, Copy, Debug, PartialEq, Eq)]
pub enum StoreEnd {
    /// At a shut gate, or with the file.
    Whole,
    /// After so many whole ones stands a torn one.
    Torn(usize),
}

/// Why a store is not read or cut. A place counts from 0.
#[derive(Clone, Copy, Debug, PartialEq, Eq, Error)]
pub enum Fault {
    /// There is no file.
    #[error("no store")]
    Missing,
    /// The file has no head.
    #[error("no store: {0}")]
    Head(HeadFault),
    /// At this place stands a gate that is neither open nor shut, or a record with another digest than its
    /// own.
    #[error("damage at place {0}")]
    Damaged(usize),
    /// The record at this place is no whole bundle within the limits of the head.
    #[error("damage at place {0}: no bundle")]
    NoBundle(usize),
    /// The record at this place is a bundle whose push is not done when it is run again.
    #[error("damage at place {0}: a push that is not done when it is run again")]
    Refused(usize),
    /// It has no such place, since it has so many records.
    #[error("no such place behind {0} pushes")]
    NoPlace(usize),
    /// After so many whole records stands a torn one.
    #[error("torn behind {0} pushes: end it there by `hg_pushd cut`")]
    Torn(usize),
    /// It is of version 2 already.
    #[error("a store of version 2 already")]
    Upgraded,
    /// Another process holds it.
    #[error("another process holds the store")]
    Held,
    /// There is a file of this name already.
    #[error("there is a file already")]
    Exists,
    /// A file or a folder failed.
    #[error("the device failed")]
    Failed,
    /// What was to be written was not taken, or not whole.
    #[error("the output failed")]
    Unsent,
    /// Memory was refused.
    #[error("out of memory")]
    NoMemory,
}

/// Whatever says that memory was refused.
impl<E: Into<NoMemory> + Drop> From<E> for Fault {
    ghost use Rattle.std.specs.Prelude.{◌≡◌};
    ghost use Rattle.hg_store_tools.specs.declared.fault.Fault.TheVariants.{NoMemory as out_of_memory};

    ghost from_gives = { λ _ told. told ≡ out_of_memory };

    fn from(_refused: E) -> Self {
        Fault::NoMemory
    }
}

/// The file that a fault is about.
#[derive(Clone, Copy, Debug, PartialEq, Eq)]
pub enum NamedFile<'a> {
    /// The file of the store in this folder.
    Store(&'a str),
    /// The file of the store in this folder while it is made.
    New(&'a str),
    /// What is kept in this folder of a cut before that place.
    Kept(&'a str, usize),
    /// What is kept in this folder of a store behind so many whole records.
    Tail(&'a str, usize),
    /// The store of version 1 that is kept in this folder.
    Old(&'a str),
    /// The file in this folder of the push at that place.
    Push(&'a str, usize),
    /// The folder itself.
    Folder(&'a str),
    /// What was written to.
    Output,
}

impl fmt::Display for NamedFile<'_> {
    fn fmt<W: fmt::Write>(&self, f: &mut fmt::Formatter<W>) -> fmt::Result {
        match self {
            NamedFile::Store(folder) => write!(f, "{folder}/pushes"),
            NamedFile::New(folder) => write!(f, "{folder}/pushes.new"),
            NamedFile::Kept(folder, place) => write!(f, "{folder}/pushes.cut-{place}"),
            NamedFile::Tail(folder, place) => write!(f, "{folder}/pushes.tail-{place}"),
            NamedFile::Old(folder) => write!(f, "{folder}/pushes.1"),
            NamedFile::Push(folder, place) => write!(f, "{folder}/{place:010}"),
            NamedFile::Folder(folder) => write!(f, "{folder}"),
            NamedFile::Output => write!(f, "standard output"),
        }
    }
}

/// A fault, and the file that it is about. It prints as one line, without its end.
#[derive(Clone, Copy, Debug, PartialEq, Eq, Error)]
#[error("{file}: {fault}")]
pub struct ArchiveFault<'a> {
    pub file: NamedFile<'a>,
    pub fault: Fault,
}

impl ArchiveFault<'_> {
    /// The status of the program: 4 where memory was refused, and else 3.
    pub fn status(&self) -> u8 {
        match self.fault {
            Fault::NoMemory => 4,
            _ => 3,
        }
    }
}

/// What is reported of a torn store, as one line without its end: how many pushes are whole, and the way out.
#[derive(Clone, Copy, Debug, PartialEq, Eq)]
pub struct TornNote<'a> {
    pub folder: &'a str,
    pub whole: usize,
}

impl fmt::Display for TornNote<'_> {
    fn fmt<W: fmt::Write>(&self, f: &mut fmt::Formatter<W>) -> fmt::Result {
        let folder = self.folder;
        let whole = self.whole;
        write!(
            f,
            "{folder}/pushes: torn: {whole} pushes are whole; `hg_pushd cut --store {folder} --at {whole}` ends it there"
        )
    }
}
