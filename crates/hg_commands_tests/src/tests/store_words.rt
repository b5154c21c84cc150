//! The words of the commands that have a store: `host`, `report`, `log` and `cut`.

use super::words::{refused, spoken};
use super::*;
use hg_commands::{Hosting, Job, job_of};
use hg_store_tools::BundleForm;
use std::alloc::Global;

/// What `host --store S` asks for: each option at its default.
const DEFAULTS: Hosting<'static> = Hosting {
    store: "S",
    listen: "127.0.0.1:8000",
    connections: 100,
    capacity: 64,
    publishing: false,
    idle: 300,
    memory: 1_073_741_824,
    text: 4_194_304,
    path: "/",
    name: None,
    also: None,
    user_header: None,
    pull: None,
    existing: false,
    shared: false,
    standby: false,
    hook: None,
    hook_wait: 60,
    log: false,
};

fn is_same_word(one: Option<&str>, other: Option<&str>) -> bool {
    match (one, other) {
        (Some(one), Some(other)) => one.as_bytes() == other.as_bytes(),
        (None, None) => true,
        _ => false,
    }
}

fn is_same(one: &Hosting<'_>, other: &Hosting<'_>) -> bool {
    is_same_word(Some(one.store), Some(other.store))
        && is_same_word(Some(one.listen), Some(other.listen))
        && one.connections == other.connections
        && one.capacity == other.capacity
        && one.publishing == other.publishing
        && one.idle == other.idle
        && one.memory == other.memory
        && one.text == other.text
        && is_same_word(Some(one.path), Some(other.path))
        && is_same_word(one.name, other.name)
        && is_same_word(one.also, other.also)
        && is_same_word(one.user_header, other.user_header)
        && is_same_word(one.pull, other.pull)
        && one.existing == other.existing
        && one.shared == other.shared
        && one.standby == other.standby
        && is_same_word(one.hook, other.hook)
        && one.hook_wait == other.hook_wait
        && one.log == other.log
}

/// Whether `host --store S` and these words ask for that.
fn asks_host(alloc: Global, more: &[&str], wanted: &Hosting<'_>) -> Result<bool, Fail> {
    let mut words = spoken(alloc, &["host", "--store", "S"])?;
    for word in more {
        words.push(String::from_str(alloc, word)?)?;
    }
    Ok(match job_of(alloc, &words) {
        Ok(Job::Host(hosting)) => is_same(&hosting, wanted),
        _ => false,
    })
}

#[test]
fn words_that_ask_for_a_host(rt: HostRuntime) -> Result<(), Fail> {
    let alloc = rt.alloc();
    assert!(rt; asks_host(alloc, &[], &DEFAULTS)?);
    let rows: [(&[&str], Hosting<'_>); 14] = [
        (
            &["--listen", "[::1]:80"],
            Hosting {
                listen: "[::1]:80",
                ..DEFAULTS
            },
        ),
        (
            &["--publishing"],
            Hosting {
                publishing: true,
                ..DEFAULTS
            },
        ),
        (
            &["--pull", "http://h/"],
            Hosting {
                pull: Some("http://h/"),
                ..DEFAULTS
            },
        ),
        (
            &["--path", "/team/one"],
            Hosting {
                path: "/team/one",
                ..DEFAULTS
            },
        ),
        (
            &["--name", "hg.example.org"],
            Hosting {
                name: Some("hg.example.org"),
                ..DEFAULTS
            },
        ),
        (
            &["--also", "stream bundles=1%2C2"],
            Hosting {
                also: Some("stream bundles=1%2C2"),
                ..DEFAULTS
            },
        ),
        (
            &["--user-header", "X-Remote-User"],
            Hosting {
                user_header: Some("X-Remote-User"),
                ..DEFAULTS
            },
        ),
        (
            &["--existing"],
            Hosting {
                existing: true,
                ..DEFAULTS
            },
        ),
        (
            &["--standby"],
            Hosting {
                standby: true,
                ..DEFAULTS
            },
        ),
        (
            &["--shared"],
            Hosting {
                existing: true,
                shared: true,
                ..DEFAULTS
            },
        ),
        (
            &["--hook", "http://h:1/"],
            Hosting {
                hook: Some("http://h:1/"),
                ..DEFAULTS
            },
        ),
        (
            &["--log"],
            Hosting {
                log: true,
                ..DEFAULTS
            },
        ),
        (
            &["--memory", "18446744073709551615"],
            Hosting {
                memory: u64::MAX,
                ..DEFAULTS
            },
        ),
        (
            &["--connections=7", "--capacity=8"],
            Hosting {
                connections: 7,
                capacity: 8,
                ..DEFAULTS
            },
        ),
    ];
    for (more, wanted) in rows {
        assert!(rt; asks_host(alloc, more, &wanted)?);
    }
    Ok(())
}

/// The least and the most of each number.
#[test]
fn numbers_of_a_host(rt: HostRuntime) -> Result<(), Fail> {
    let alloc = rt.alloc();
    let rows: [(&[&str], Hosting<'_>); 11] = [
        (
            &["--connections", "1"],
            Hosting {
                connections: 1,
                ..DEFAULTS
            },
        ),
        (
            &["--connections", "1024"],
            Hosting {
                connections: 1024,
                ..DEFAULTS
            },
        ),
        (
            &["--capacity", "1"],
            Hosting {
                capacity: 1,
                ..DEFAULTS
            },
        ),
        (
            &["--capacity", "65536"],
            Hosting {
                capacity: 65_536,
                ..DEFAULTS
            },
        ),
        (
            &["--idle", "1"],
            Hosting {
                idle: 1,
                ..DEFAULTS
            },
        ),
        (
            &["--idle", "86400"],
            Hosting {
                idle: 86_400,
                ..DEFAULTS
            },
        ),
        (
            &["--hook-wait", "1"],
            Hosting {
                hook_wait: 1,
                ..DEFAULTS
            },
        ),
        (
            &["--hook-wait", "3600"],
            Hosting {
                hook_wait: 3600,
                ..DEFAULTS
            },
        ),
        (
            &["--memory", "1048576"],
            Hosting {
                memory: 1_048_576,
                ..DEFAULTS
            },
        ),
        (
            &["--text", "1024"],
            Hosting {
                text: 1024,
                ..DEFAULTS
            },
        ),
        (
            &["--text", "16777216"],
            Hosting {
                text: 16_777_216,
                ..DEFAULTS
            },
        ),
    ];
    for (more, wanted) in rows {
        assert!(rt; asks_host(alloc, more, &wanted)?);
    }
    Ok(())
}

/// A number past either end of its range, a missing store, a word that is none of `host`, what is no path of a URL,
/// and texts that are empty or have more than one line.
#[test]
fn words_that_host_refuses(rt: HostRuntime) -> Result<(), Fail> {
    let cases: [&[&str]; 32] = [
        &["host"],
        &["host", "--store"],
        &["host", "--store", "S", "more"],
        &["host", "--store", "S", "--seed", "F"],
        &["host", "--store", "S", "--connections", "0"],
        &["host", "--store", "S", "--connections", "1025"],
        &["host", "--store", "S", "--capacity", "0"],
        &["host", "--store", "S", "--capacity", "65537"],
        &["host", "--store", "S", "--idle", "0"],
        &["host", "--store", "S", "--idle", "86401"],
        &["host", "--store", "S", "--memory", "1048575"],
        &["host", "--store", "S", "--memory", "18446744073709551616"],
        &["host", "--store", "S", "--text", "1023"],
        &["host", "--store", "S", "--text", "16777217"],
        &["host", "--store", "S", "--pull"],
        &["host", "--store", "S", "--path", ""],
        &["host", "--store", "S", "--path", "one"],
        &["host", "--store", "S", "--path", "/a b"],
        &["host", "--store", "S", "--path", "/a?b"],
        &["host", "--store", "S", "--path", "/a#b"],
        &["host", "--store", "S", "--path", "/a%62"],
        &["host", "--store", "S", "--path", "/\u{e9}"],
        &["host", "--store", "S", "--name", ""],
        &["host", "--store", "S", "--name", "a\nb"],
        &["host", "--store", "S", "--also", ""],
        &["host", "--store", "S", "--also", "a\r\nb"],
        &["host", "--store", "S", "--user-header", ""],
        &["host", "--store", "S", "--user-header", "a b"],
        &["host", "--store", "S", "--user-header", "x-us\u{e9}r"],
        &["host", "--store", "S", "--hook"],
        &["host", "--store", "S", "--hook-wait", "0"],
        &["host", "--store", "S", "--hook-wait", "3601"],
    ];
    for words in cases {
        assert_eq!(rt; refused(rt.alloc(), words)?, Some(2));
    }
    assert_eq!(rt; refused(rt.alloc(), &["host", "--help"])?, Some(0));
    Ok(())
}

/// Whether the words ask for the report of the store `S`.
fn asks_report(alloc: Global, words: &[&str]) -> Result<bool, Fail> {
    Ok(match job_of(alloc, &spoken(alloc, words)?) {
        Ok(Job::Report { store }) => is_same_word(Some(store), Some("S")),
        _ => false,
    })
}

/// Whether the words ask for the log of the store `S` from that place on, in that form, to that folder.
fn asks_log_as(
    alloc: Global,
    words: &[&str],
    first: usize,
    wanted: BundleForm,
    folder: Option<&str>,
) -> Result<bool, Fail> {
    Ok(match job_of(alloc, &spoken(alloc, words)?) {
        Ok(
            Job::Log {
                store,
                from,
                form,
                to,
                list,
            },
        ) => {
            is_same_word(Some(store), Some("S"))
                && !list
                && from == first
                && form == wanted
                && is_same_word(to, folder)
        }
        _ => false,
    })
}

/// Whether the words ask for the lines of the pushes of the store `S` from that place on.
fn asks_list(alloc: Global, words: &[&str], first: usize) -> Result<bool, Fail> {
    Ok(match job_of(alloc, &spoken(alloc, words)?) {
        Ok(
            Job::Log {
                store,
                from,
                form: BundleForm::Stored,
                to: None,
                list: true,
            },
        ) => is_same_word(Some(store), Some("S")) && from == first,
        _ => false,
    })
}

/// The same of bundles as they are stored.
fn asks_log(
    alloc: Global,
    words: &[&str],
    first: usize,
    folder: Option<&str>,
) -> Result<bool, Fail> {
    asks_log_as(alloc, words, first, BundleForm::Stored, folder)
}

/// Whether the words ask to follow the store `S` from that place on, in that form.
fn asks_follow(
    alloc: Global,
    words: &[&str],
    first: usize,
    wanted: BundleForm,
) -> Result<bool, Fail> {
    Ok(match job_of(alloc, &spoken(alloc, words)?) {
        Ok(
            Job::Follow {
                store,
                from,
                form,
                ..
            },
        ) => is_same_word(Some(store), Some("S")) && from == first && form == wanted,
        _ => false,
    })
}

/// Whether the words ask for a cut of the store `S` before that place.
fn asks_cut(alloc: Global, words: &[&str], place: usize) -> Result<bool, Fail> {
    Ok(match job_of(alloc, &spoken(alloc, words)?) {
        Ok(Job::Cut { store, at }) => is_same_word(Some(store), Some("S")) && at == place,
        _ => false,
    })
}

#[test]
fn words_that_look_at_a_store(rt: HostRuntime) -> Result<(), Fail> {
    let alloc = rt.alloc();
    assert!(rt; asks_report(alloc, &["report", "--store", "S"])?);
    assert!(rt; asks_report(alloc, &["report", "--store=S"])?);
    assert!(rt; asks_log(alloc, &["log", "--store", "S"], 0, None)?);
    assert!(rt; asks_log(alloc, &["log", "--store", "S", "--from", "0"], 0, None)?);
    assert!(rt; asks_log(alloc, &["log", "--from", "12", "--store", "S"], 12, None)?);
    assert!(rt;
        asks_log(
            alloc,
            &["log", "--store", "S", "--from", "18446744073709551615"],
            usize::MAX,
            None
        )?
    );
    assert!(rt; asks_log(alloc, &["log", "--store", "S", "--to", "F"], 0, Some("F"))?);
    assert!(rt; asks_list(alloc, &["log", "--store", "S", "--list"], 0)?);
    assert!(rt; asks_list(alloc, &["log", "--list", "--from", "7", "--store", "S"], 7)?);
    assert!(rt;
        asks_log(
            alloc,
            &["log", "--store", "S", "--from", "3", "--to", "F"],
            3,
            Some("F")
        )?
    );
    assert!(rt;
        asks_log_as(
            alloc,
            &["log", "--store", "S", "--canonical", "--to", "F"],
            0,
            BundleForm::Canonical,
            Some("F")
        )?
    );
    Ok(())
}

#[test]
fn words_that_follow_a_store(rt: HostRuntime) -> Result<(), Fail> {
    let alloc = rt.alloc();
    let stored = BundleForm::Stored;
    assert!(rt; asks_follow(alloc, &["log", "--store", "S", "--follow"], 0, stored)?);
    assert!(rt;
        asks_follow(
            alloc,
            &["log", "--follow", "--from", "7", "--store", "S"],
            7,
            stored
        )?
    );
    assert!(rt;
        asks_follow(
            alloc,
            &["log", "--store", "S", "--canonical", "--follow"],
            0,
            BundleForm::Canonical
        )?
    );
    Ok(())
}

#[test]
fn words_that_end_a_store(rt: HostRuntime) -> Result<(), Fail> {
    let alloc = rt.alloc();
    assert!(rt; asks_cut(alloc, &["cut", "--store", "S", "--at", "0"], 0)?);
    assert!(rt; asks_cut(alloc, &["cut", "--at", "5", "--store", "S"], 5)?);
    assert!(rt;
        asks_cut(
            alloc,
            &["cut", "--store", "S", "--at", "18446744073709551615"],
            usize::MAX
        )?
    );
    Ok(())
}

/// A missing store or place, no number, one past the range, a word too many, and a folder of what is followed.
#[test]
fn words_that_a_store_refuses(rt: HostRuntime) -> Result<(), Fail> {
    let cases: [&[&str]; 16] = [
        &["log", "--store", "S", "--follow", "--to", "F"],
        &["log", "--follow"],
        &["log", "--store", "S", "--list", "--canonical"],
        &["log", "--store", "S", "--list", "--to", "F"],
        &["report"],
        &["report", "--store", "S", "--publishing"],
        &["report", "--store", "S", "more"],
        &["log"],
        &["log", "--store", "S", "--from", "-1"],
        &["log", "--store", "S", "--from", "one"],
        &["log", "--store", "S", "--from", "18446744073709551616"],
        &["log", "--store", "S", "--to"],
        &["cut", "--store", "S"],
        &["cut", "--at", "1"],
        &["cut", "--store", "S", "--at", "1.5"],
        &["cut", "--store", "S", "--at", "18446744073709551616"],
    ];
    for words in cases {
        assert_eq!(rt; refused(rt.alloc(), words)?, Some(2));
    }
    for command in ["report", "log", "cut"] {
        assert_eq!(rt; refused(rt.alloc(), &[command, "--help"])?, Some(0));
    }
    Ok(())
}
