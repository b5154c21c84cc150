//! The words after `report`, `log`, `cut` and `upgrade`, the commands that look at a store, end it, or write it anew.

use crate::command_line::command::Job;
use crate::command_line::options::{CommandRow, Kind, OptionRow, STORE, word_of};
use clap::ArgMatches;
use clap::builder::ValueParser;
use hg_store_tools::BundleForm;

/// The command `report`.
pub const REPORT: CommandRow<'static> = CommandRow {
    name: "report",
    about: "Reports what a store holds, and the places of its pushes",
    after: "Example: hg_pushd report --store /var/lib/deqtorap/store > report.txt",
    options: &[STORE],
};

/// The command `log`.
pub const LOG: CommandRow<'static> = CommandRow {
    name: "log",
    about: "Writes the pushes of a store as bundles, one after the other",
    after: "Example: hg_pushd log --store /var/lib/deqtorap/store --to bundles",
    options: &[
        STORE,
        OptionRow {
            name: "from",
            kind: PLACE,
            value: "N",
            is_required: false,
            default: &["0"],
            help: "The place of the first push that is written",
        },
        OptionRow {
            name: "to",
            kind: Kind::Word,
            value: "FOLDER",
            is_required: false,
            default: &[],
            help: "Where each push gets a file of its own, named by its place; made if it is not there",
        },
        OptionRow {
            name: "follow",
            kind: Kind::Flag,
            value: "",
            is_required: false,
            default: &[],
            help: "Each push in a frame with its place, time and name, once it is durable; goes on until its reader ends",
        },
        OptionRow {
            name: "canonical",
            kind: Kind::Flag,
            value: "",
            is_required: false,
            default: &[],
            help: "Each push with nothing in it but what may change a repository",
        },
        OptionRow {
            name: "list",
            kind: Kind::Flag,
            value: "",
            is_required: false,
            default: &[],
            help: "A line for each push instead: its place, when, by whom, changesets, bytes",
        },
    ],
};

/// The command `cut`.
pub const CUT: CommandRow<'static> = CommandRow {
    name: "cut",
    about: "Ends a store before one of its pushes, and keeps what it cuts off beside it",
    after: "Example: hg_pushd cut --store /var/lib/deqtorap/store --at 5",
    options: &[
        STORE,
        OptionRow {
            name: "at",
            kind: PLACE,
            value: "N",
            is_required: true,
            default: &[],
            help: "The place of the first push that is cut off, from 0",
        },
    ],
};

/// The command `upgrade`.
pub const UPGRADE: CommandRow<'static> = CommandRow {
    name: "upgrade",
    about: "Writes a store of version 1 as one of version 2, and keeps the old one beside it",
    after: "Example: hg_pushd upgrade --store /var/lib/deqtorap/store",
    options: &[STORE],
};

/// The number of a push in its store.
const PLACE: Kind = Kind::Number(ValueParser::Unsigned(0, u64::MAX));

/// Reads what stands after `report`.
pub fn read_report<'a>(matches: &ArgMatches<'a>) -> Job<'a> {
    Job::Report {
        store: word_of(matches, "store"),
    }
}

/// Reads what stands after `log`.
pub fn read_log<'a>(matches: &ArgMatches<'a>) -> Job<'a> {
    if matches.get_flag("follow") {
        return Job::Follow {
            store: word_of(matches, "store"),
            from: place_of(matches, "from"),
            form: form_of(matches),
            to: matches.get_str("to"),
        };
    }
    Job::Log {
        store: word_of(matches, "store"),
        from: place_of(matches, "from"),
        form: form_of(matches),
        to: matches.get_str("to"),
        list: matches.get_flag("list"),
    }
}

/// Reads what stands after `cut`.
pub fn read_cut<'a>(matches: &ArgMatches<'a>) -> Job<'a> {
    Job::Cut {
        store: word_of(matches, "store"),
        at: place_of(matches, "at"),
    }
}

/// What is wrong with the options of `log` that stand beside `--list`, if something is.
pub fn list_fault(form: BundleForm, to: Option<&str>) -> Option<&'static str> {
    match (form, to) {
        (BundleForm::Stored, None) => None,
        (BundleForm::Canonical, _) => Some(
            "--list writes no bundles, so --canonical cannot stand with it",
        ),
        (BundleForm::Stored, Some(_)) => Some(
            "--list writes to standard output, so --to cannot stand with it",
        ),
    }
}

/// The form of bundles that the options name.
fn form_of(matches: &ArgMatches<'_>) -> BundleForm {
    if matches.get_flag("canonical") {
        BundleForm::Canonical
    } else {
        BundleForm::Stored
    }
}

/// Reads what stands after `upgrade`.
pub fn read_upgrade<'a>(matches: &ArgMatches<'a>) -> Job<'a> {
    Job::Upgrade {
        store: word_of(matches, "store"),
    }
}

/// The place that an option names.
fn place_of(matches: &ArgMatches<'_>, name: &str) -> usize {
    matches.get_one(name).unwrap_or(0)
}
