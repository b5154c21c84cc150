//! The words after `import`.

use crate::command_line::command::files_of;
use crate::command_line::options::{CommandRow, Kind, OptionRow, PUBLISHING, STORE, word_of};
use clap::ArgMatches;
use std::alloc::{AllocError, Global};

/// What `import` is asked for.
#[derive(Drop)]
pub struct Importing<'a> {
    /// The folder of the store.
    pub store: &'a str,
    pub publishing: bool,
    /// Whether the store has to be there.
    pub existing: bool,
    /// Bundles, in the order in which they are pushed.
    pub files: Vec<&'a str>,
}

/// The command `import`.
pub const IMPORT: CommandRow<'static> = CommandRow {
    name: "import",
    about: "Pushes bundles from files into a store, each on the disk before the next",
    after: "Example: hg_pushd import --store /var/lib/deqtorap/store bundles/*",
    options: &[
        OptionRow {
            help: "The folder of the store, made if it is not there",
            ..STORE
        },
        PUBLISHING,
        OptionRow {
            name: "existing",
            kind: Kind::Flag,
            value: "",
            is_required: false,
            default: &[],
            help: "Refuses a folder without a store, and makes none",
        },
        OptionRow {
            name: "FILES",
            kind: Kind::Words,
            value: "",
            is_required: true,
            default: &[],
            help: "Bundles, in the order in which they are pushed",
        },
    ],
};

/// Reads what stands after `import`.
pub fn read_importing<'a>(
    alloc: Global,
    matches: &ArgMatches<'a>,
) -> Result<Importing<'a>, AllocError> {
    Ok(Importing {
        store: word_of(matches, "store"),
        publishing: matches.get_flag("publishing"),
        existing: matches.get_flag("existing"),
        files: files_of(alloc, matches)?,
    })
}
