//! Commands and their options, each a row of a table.

use clap::builder::ValueParser;
use clap::{Arg, ArgAction, ArgMatches, Command};
use std::alloc::{AllocError, Global};

/// A command.
pub struct CommandRow<'a> {
    pub name: &'a str,
    pub about: &'a str,
    /// What help says after the options.
    pub after: &'a str,
    pub options: &'a [OptionRow<'a>],
}

/// An option of a command.
pub struct OptionRow<'a> {
    pub name: &'a str,
    pub kind: Kind,
    /// What help calls its value.
    pub value: &'a str,
    pub is_required: bool,
    /// Its value where it is not there, or none.
    pub default: &'a [&'a str],
    pub help: &'a str,
}

/// What stands after an option.
pub enum Kind {
    /// Nothing.
    Flag,
    /// A word.
    Word,
    /// A number of the range that the parser takes.
    Number(ValueParser<'static>),
    /// Words, and no option before them.
    Words,
}

/// Whether the server publishes.
pub const PUBLISHING: OptionRow<'static> = OptionRow {
    name: "publishing",
    kind: Kind::Flag,
    value: "",
    is_required: false,
    default: &[],
    help: "What is pushed becomes public",
};

/// How many items the queue holds.
pub const CAPACITY: OptionRow<'static> = OptionRow {
    name: "capacity",
    kind: Kind::Number(ValueParser::Signed(1, 65_536)),
    value: "N",
    is_required: false,
    default: &["64"],
    help: "How many items of pushes the queue holds, 1 to 65536",
};

/// The folder of the store.
pub const STORE: OptionRow<'static> = OptionRow {
    name: "store",
    kind: Kind::Word,
    value: "DIR",
    is_required: true,
    default: &[],
    help: "The folder of the store",
};

/// The command of a row.
pub fn command_of<'a>(alloc: Global, row: &CommandRow<'a>) -> Result<Command<'a>, AllocError> {
    let mut command = Command::new(alloc, row.name)
        .about(row.about)
        .after_help(row.after);
    for option in row.options {
        command = command.arg(argument_of(alloc, option))?;
    }
    Ok(command)
}

/// The argument of a row. Each function here makes an argument and none takes one, since the prover would look at
/// every field of it.
fn argument_of<'a>(alloc: Global, row: &OptionRow<'a>) -> Arg<'a> {
    match &row.kind {
        Kind::Flag => flag(alloc, row),
        Kind::Word => word(alloc, row),
        Kind::Number(range) => number(alloc, row, *range),
        Kind::Words => words(alloc, row),
    }
}

/// What arguments of all kinds have.
fn plain<'a>(alloc: Global, row: &OptionRow<'a>) -> Arg<'a> {
    Arg::new(alloc, row.name)
        .help(row.help)
        .required(row.is_required)
        .default_values(row.default)
}

fn flag<'a>(alloc: Global, row: &OptionRow<'a>) -> Arg<'a> {
    plain(alloc, row).long(row.name).action(ArgAction::SetTrue)
}

fn word<'a>(alloc: Global, row: &OptionRow<'a>) -> Arg<'a> {
    plain(alloc, row)
        .long(row.name)
        .action(ArgAction::Set)
        .value_name(row.value)
}

fn number<'a>(alloc: Global, row: &OptionRow<'a>, range: ValueParser<'static>) -> Arg<'a> {
    word(alloc, row).value_parser(range)
}

fn words<'a>(alloc: Global, row: &OptionRow<'a>) -> Arg<'a> {
    plain(alloc, row).num_args(1..).action(ArgAction::Append)
}

/// The value of an option that is a number. There is one: the option is required or has a default.
pub fn number_of(matches: &ArgMatches<'_>, name: &str) -> u32 {
    matches.get_one(name).unwrap_or(1)
}

/// The same of an option that is a word.
pub fn word_of<'a>(matches: &ArgMatches<'a>, name: &str) -> &'a str {
    matches.get_str(name).unwrap_or("")
}
