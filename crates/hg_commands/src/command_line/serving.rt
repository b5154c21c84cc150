//! The words after `serve`.

use crate::command_line::options::{
    CAPACITY, CommandRow, Kind, OptionRow, PUBLISHING, number_of, word_of,
};
use clap::ArgMatches;
use clap::builder::ValueParser;

/// What `serve` is asked for.
#[derive(Clone, Copy, Debug)]
pub struct Serving<'a> {
    /// Where connections are accepted.
    pub listen: &'a str,
    /// How many connections are accepted.
    pub connections: u32,
    /// How many items the queue holds.
    pub capacity: u32,
    /// How many bundles a connection may send.
    pub bundles: u32,
    pub publishing: bool,
    /// The file of a bundle that is run first.
    pub seed: Option<&'a str>,
    /// The file that the report is written to.
    pub report: &'a str,
}

impl Serving<'_> {
    /// Whether the system is to pick the port.
    pub(crate) fn asks_for_a_port(&self) -> bool {
        match self.listen.rsplit_once(':') {
            Some((_, port)) => matches!(port.parse::<u16>(), Ok(0)),
            None => false,
        }
    }
}

/// The command `serve`.
pub const SERVE: CommandRow<'static> = CommandRow {
    name: "serve",
    about: "Serves TCP connections, and writes the report and the journal at the end",
    after: AFTER,
    options: &[
        OptionRow {
            name: "listen",
            kind: Kind::Word,
            value: "ADDR",
            is_required: true,
            default: &[],
            help: "Where connections are accepted, as 127.0.0.1:8090; with port 0 on a free port, \
                which is told",
        },
        OptionRow {
            name: "connections",
            kind: Kind::Number(ValueParser::Signed(1, 1024)),
            value: "N",
            is_required: true,
            default: &[],
            help: "How many connections are accepted, 1 to 1024; the server ends after the last",
        },
        CAPACITY,
        OptionRow {
            name: "bundles",
            kind: Kind::Number(ValueParser::Signed(1, 10_000)),
            value: "N",
            is_required: false,
            default: &["1"],
            help: "How many bundles a connection may send, 1 to 10000",
        },
        PUBLISHING,
        OptionRow {
            name: "seed",
            kind: Kind::Word,
            value: "FILE",
            is_required: false,
            default: &[],
            help: "A bundle that is run first",
        },
        OptionRow {
            name: "report",
            kind: Kind::Word,
            value: "FILE",
            is_required: true,
            default: &[],
            help: "Where the report is written",
        },
    ],
};

/// An example, and what becomes of a connection after its last reply.
const AFTER: &str =
    "Example: hg_pushd serve --listen 127.0.0.1:8090 --connections 100 --report report.txt\n\n\
After its last reply a connection is shut down for writing, and what its client \
still sends is read and dropped, up to 67108864 bytes and for up to 5 seconds.";

/// Reads what stands after `serve`.
pub fn read_serving<'a>(matches: &ArgMatches<'a>) -> Serving<'a> {
    Serving {
        listen: word_of(matches, "listen"),
        connections: number_of(matches, "connections"),
        capacity: number_of(matches, "capacity"),
        bundles: number_of(matches, "bundles"),
        publishing: matches.get_flag("publishing"),
        seed: matches.get_str("seed"),
        report: word_of(matches, "report"),
    }
}
