//! The words after `host`.

use crate::command_line::options::{
    CAPACITY, CommandRow, Kind, OptionRow, PUBLISHING, STORE, number_of, word_of,
};
use clap::ArgMatches;
use clap::builder::ValueParser;

/// What `host` is asked for.
#[derive(Clone, Copy, Debug)]
pub struct Hosting<'a> {
    /// The folder of the store.
    pub store: &'a str,
    /// Where connections are accepted.
    pub listen: &'a str,
    /// How many connections are served at one time.
    pub connections: u32,
    /// How many items the queue holds.
    pub capacity: u32,
    pub publishing: bool,
    /// How many seconds a connection may be silent.
    pub idle: u64,
    /// How many bytes the bodies of all open pushes hold together at most.
    pub memory: u64,
    /// How many bytes the text of one changeset has at most.
    pub text: u32,
    /// The path that is answered.
    pub path: &'a str,
    /// The name that the field `host` of a request has to give, if it has to give one.
    pub name: Option<&'a str>,
    /// What is told behind the capabilities.
    pub also: Option<&'a str>,
    /// The field of a request that says who pushes, if one is believed.
    pub user_header: Option<&'a str>,
    /// Where who pulls is sent on to.
    pub pull: Option<&'a str>,
    /// Whether the store has to be there.
    pub existing: bool,
    /// Whether the folder is one of several machines.
    pub shared: bool,
    /// Whether a store that another process has is waited for.
    pub standby: bool,
    /// Where it is asked whether a push may run.
    pub hook: Option<&'a str>,
    /// For how many seconds its answer is waited for.
    pub hook_wait: u64,
    /// Whether each push is printed on standard error.
    pub log: bool,
}

impl Hosting<'_> {
    /// What is wrong with its words, if something is.
    pub(crate) fn fault(&self) -> Option<&'static str> {
        if !is_path(self.path) {
            return Some("--path begins with a slash and has no blank, no ?, no # and no %");
        }
        if self.name.is_some_and(|name| !is_line(name)) {
            return Some("--name is a word");
        }
        if self.also.is_some_and(|also| !is_line(also)) {
            return Some("--also is one line of text");
        }
        if self.user_header.is_some_and(|field| !is_field(field)) {
            return Some("--user-header is the name of a field: letters, digits, - and _");
        }
        None
    }
}

/// Whether it is the path of a URL, as it is sent.
fn is_path(path: &str) -> bool {
    path.starts_with('/')
        && path.bytes().all(|byte| byte.is_ascii_graphic() && !matches!(byte, b'?' | b'#' | b'%'))
}

/// Whether it is a text of one line.
fn is_line(text: &str) -> bool {
    !text.is_empty() && text.bytes().all(|byte| byte >= b' ' && byte != 127)
}

/// Whether it may be the name of a field of a request.
fn is_field(name: &str) -> bool {
    !name.is_empty()
        && name.bytes().all(|byte| byte.is_ascii_alphanumeric() || byte == b'-' || byte == b'_')
}

/// An example.
const AFTER: &str =
    "Example: hg_pushd host --store /var/lib/deqtorap/store --listen 127.0.0.1:8000";

/// The command `host`.
pub const HOST: CommandRow<'static> = CommandRow {
    name: "host",
    about: "Answers hg push over HTTP, and keeps each push in a store before it is answered",
    after: AFTER,
    options: &[
        OptionRow {
            help: "The folder of the store, made if it is not there",
            ..STORE
        },
        OptionRow {
            name: "listen",
            kind: Kind::Word,
            value: "ADDR",
            is_required: false,
            default: &["127.0.0.1:8000"],
            help: "Where connections are accepted",
        },
        OptionRow {
            name: "connections",
            kind: Kind::Number(ValueParser::Signed(1, 1024)),
            value: "N",
            is_required: false,
            default: &["100"],
            help: "How many connections are served at one time, 1 to 1024",
        },
        OptionRow {
            value: "C",
            ..CAPACITY
        },
        PUBLISHING,
        OptionRow {
            name: "idle",
            kind: Kind::Number(ValueParser::Unsigned(1, 86_400)),
            value: "SECONDS",
            is_required: false,
            default: &["300"],
            help: "How long a connection may be silent before it is closed, 1 to 86400",
        },
        OptionRow {
            name: "memory",
            kind: Kind::Number(ValueParser::Unsigned(1_048_576, u64::MAX)),
            value: "BYTES",
            is_required: false,
            default: &["1073741824"],
            help: "How much the bodies of all open pushes hold together at most, 1048576 or more",
        },
        OptionRow {
            name: "text",
            kind: Kind::Number(ValueParser::Signed(1_024, 16_777_216)),
            value: "BYTES",
            is_required: false,
            default: &["4194304"],
            help: "How long the text of one changeset may be, 1024 to 16777216",
        },
        OptionRow {
            name: "path",
            kind: Kind::Word,
            value: "PATH",
            is_required: false,
            default: &["/"],
            help: "The path that is answered, as /NAME; any other is not found",
        },
        OptionRow {
            name: "name",
            kind: Kind::Word,
            value: "HOST",
            is_required: false,
            default: &[],
            help: "Refuses a request that is for a server of another name",
        },
        OptionRow {
            name: "also",
            kind: Kind::Word,
            value: "TEXT",
            is_required: false,
            default: &[],
            help: "What is told behind the capabilities",
        },
        OptionRow {
            name: "user-header",
            kind: Kind::Word,
            value: "NAME",
            is_required: false,
            default: &[],
            help: "The field that says who pushes, as the proxy sets it; else none is believed",
        },
        OptionRow {
            name: "pull",
            kind: Kind::Word,
            value: "URL",
            is_required: false,
            default: &[],
            help: "Where who pulls is sent on to",
        },
        OptionRow {
            name: "existing",
            kind: Kind::Flag,
            value: "",
            is_required: false,
            default: &[],
            help: "Refuses a folder without a store, and makes none",
        },
        OptionRow {
            name: "shared",
            kind: Kind::Flag,
            value: "",
            is_required: false,
            default: &[],
            help: "The folder is of several machines (CephFS): answers rest on a beat; and --existing",
        },
        OptionRow {
            name: "standby",
            kind: Kind::Flag,
            value: "",
            is_required: false,
            default: &[],
            help: "Waits for a store that another process has, answers 503 meanwhile, and then serves it",
        },
        OptionRow {
            name: "hook",
            kind: Kind::Word,
            value: "URL",
            is_required: false,
            default: &[],
            help: "Who is asked before each push, http://HOST:PORT/PATH: only 200 lets it run",
        },
        OptionRow {
            name: "hook-wait",
            kind: Kind::Number(ValueParser::Unsigned(1, 3_600)),
            value: "SECONDS",
            is_required: false,
            default: &["60"],
            help: "How long the hook is waited for, 1 to 3600",
        },
        OptionRow {
            name: "log",
            kind: Kind::Flag,
            value: "",
            is_required: false,
            default: &[],
            help: "Writes a line to standard error for each push",
        },
    ],
};

/// Reads what stands after `host`.
pub fn read_hosting<'a>(matches: &ArgMatches<'a>) -> Hosting<'a> {
    Hosting {
        store: word_of(matches, "store"),
        listen: word_of(matches, "listen"),
        connections: number_of(matches, "connections"),
        capacity: number_of(matches, "capacity"),
        publishing: matches.get_flag("publishing"),
        idle: matches.get_one("idle").unwrap_or(1),
        memory: matches.get_one("memory").unwrap_or(1),
        text: number_of(matches, "text"),
        path: word_of(matches, "path"),
        name: matches.get_str("name"),
        also: matches.get_str("also"),
        user_header: matches.get_str("user-header"),
        pull: matches.get_str("pull"),
        existing: matches.get_flag("existing") || matches.get_flag("shared"),
        shared: matches.get_flag("shared"),
        standby: matches.get_flag("standby"),
        hook: matches.get_str("hook"),
        hook_wait: matches.get_one("hook-wait").unwrap_or(1),
        log: matches.get_flag("log"),
    }
}
