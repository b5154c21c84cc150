//! What is reported of a closed server: its report, and the journal.

ghost use Rattle.std.specs.Prelude.{◌≡◌, ◌++◌, IfOk, OnOk};
ghost use Rattle.std.specs.List.{flat_map};
ghost use Rattle.hg_connection.specs.Sent.{Sends};
ghost use Rattle.hg_repo.specs.Report.{journal_line};
ghost use Rattle.hg_tcp.specs.Closing.{closing_text};

use hg_connection::{Sending, Writer, send};
use hg_repo::{Repo, add_journal_line};
use hg_types::NoMemory;
use std::alloc::Allocator;

/// Writes the report of the repository, and after it a line `J n` for each push of the journal. Says what
/// became of it, and how many bytes the writer took.
pub fn send_closing<A: Allocator + Copy, W: Writer>(
    alloc: A,
    repo: &Repo<A>,
    journal: &[u32],
    writer: &mut W,
) -> (Sending, usize)
    ensures { Sends result.0 result.1 (W.told writer.old) (W.told writer.new)
        (closing_text repo.now journal.now) }
{
    match closing_text(alloc, repo, journal) {
        Ok(text) => send(writer, &text),
        Err(_) => (Sending::NoMemory, 0),
    }
}

/// The report, and the lines of the journal.
fn closing_text<A: Allocator + Copy>(
    alloc: A,
    repo: &Repo<A>,
    journal: &[u32],
) -> Result<Vec<u8, A>, NoMemory>
    ensures { IfOk result (λ text. text.items ≡ closing_text repo.now journal.now) }
{
    let mut text = repo.report()?;
    add_lines(alloc, &mut text, journal)?;
    Ok(text)
}

/// Adds a line for each push.
fn add_lines<A: Allocator + Copy>(
    alloc: A,
    text: &mut Vec<u8, A>,
    journal: &[u32],
) -> Result<(), NoMemory>
    ensures { OnOk result (text.new.items ≡ text.old.items ++ flat_map journal_line journal.now) }
{
    for push in journal {
        add_journal_line(alloc, text, *push as usize)?;
    }
    Ok(())
}
