//! The command line, and the line that tells each status.

use super::*;
use clap::Error;
use hg_commands::{Job, job_of, line_of, usage_status};
use std::alloc::{AllocError, Global};

/// The program's name, and these words.
pub fn spoken(alloc: Global, words: &[&str]) -> Result<Vec<String>, Fail> {
    let mut all = Vec::new(alloc);
    all.push(String::from_str(alloc, "hg_pushd")?)?;
    for word in words {
        all.push(String::from_str(alloc, word)?)?;
    }
    Ok(all)
}

/// Whether the words ask for one push.
fn asks_one(alloc: Global, words: &[&str], published: bool) -> Result<bool, Fail> {
    Ok(match job_of(alloc, &spoken(alloc, words)?) {
        Ok(Job::One { publishing }) => publishing == published,
        _ => false,
    })
}

/// Whether these are the files, in their order.
fn are_files(files: &[&str], names: &[&str]) -> bool {
    let mut same = files.len() == names.len();
    for (file, name) in files.iter().zip(names) {
        same = file.as_bytes() == name.as_bytes() && same;
    }
    same
}

/// Whether the job is a replay of these files.
fn is_replay(job: &Job, published: bool, names: &[&str]) -> bool {
    match job {
        Job::Replay { publishing, files } => {
            *publishing == published && are_files(files.as_slice(), names)
        }
        _ => false,
    }
}

/// Whether the words ask for a replay of these files.
fn asks_replay(
    alloc: Global,
    words: &[&str],
    published: bool,
    names: &[&str],
) -> Result<bool, Fail> {
    let all = spoken(alloc, words)?;
    match job_of(alloc, &all) {
        Ok(job) => Ok(is_replay(&job, published, names)),
        Err(_refused) => Ok(false),
    }
}

#[test]
fn words_that_ask_for_a_push(rt: HostRuntime) -> Result<(), Fail> {
    assert!(rt; asks_one(rt.alloc(), &["one"], false)?);
    assert!(rt; asks_one(rt.alloc(), &["one", "--publishing"], true)?);
    Ok(())
}

/// The files keep their order. After two dashes a word is a file, whatever it looks like.
#[test]
fn words_that_ask_for_a_replay(rt: HostRuntime) -> Result<(), Fail> {
    let two = ["b", "a"];
    let dashed = ["--publishing"];
    assert!(rt; asks_replay(rt.alloc(), &["replay", "b", "a"], false, &two)?);
    assert!(rt;
        asks_replay(
            rt.alloc(),
            &["replay", "--publishing", "b", "a"],
            true,
            &two
        )?
    );
    assert!(rt;
        asks_replay(
            rt.alloc(),
            &["replay", "b", "a", "--publishing"],
            true,
            &two
        )?
    );
    assert!(rt;
        asks_replay(
            rt.alloc(),
            &["replay", "--", "--publishing"],
            false,
            &dashed
        )?
    );
    Ok(())
}

/// A thousand files.
#[test]
fn many_words(rt: HostRuntime) -> Result<(), Fail> {
    let names = vec![in rt.alloc(); "file"; 1_000]?;
    let mut words = Vec::from_slice(rt.alloc(), &["replay"])?;
    words.extend_from_slice(&names)?;
    assert!(rt; asks_replay(rt.alloc(), &words, false, &names)?);
    Ok(())
}

/// The status of words that ask for nothing, or none where they ask for something.
pub fn refused(alloc: Global, words: &[&str]) -> Result<Option<u8>, Fail> {
    Ok(match job_of(alloc, &spoken(alloc, words)?) {
        Ok(_) => None,
        Err(error) => Some(usage_status(&error)),
    })
}

/// Help and the version are no fault. A missing subcommand, a missing file and a bad word are.
#[test]
fn words_that_ask_for_nothing(rt: HostRuntime) -> Result<(), Fail> {
    let cases: [(&[&str], u8); 9] = [
        (&["--help"], 0),
        (&["--version"], 0),
        (&["replay", "--help"], 0),
        (&[], 2),
        (&["two"], 2),
        (&["one", "--public"], 2),
        (&["one", "more"], 2),
        (&["replay"], 2),
        (&["replay", "--publishing"], 2),
    ];
    for (words, status) in cases {
        assert_eq!(rt; refused(rt.alloc(), words)?, Some(status));
    }
    assert_eq!(rt; usage_status(&Error::from(AllocError)), 4);
    Ok(())
}

#[test]
fn the_lines(rt: HostRuntime) {
    let lines = [
        None,
        Some("hg_pushd: push aborted"),
        None,
        Some("hg_pushd: device fault"),
        Some("hg_pushd: out of memory"),
    ];
    for (status, line) in (0u8..5).zip(lines) {
        assert_eq!(rt; line_of(status), line);
    }
}
