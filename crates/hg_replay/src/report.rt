//! The report of a repository, sent to any writer.

ghost use Rattle.hg_replay.specs.Answering.{IsSentTo};
ghost use Rattle.hg_repo.specs.Report.{report_of};

use hg_connection::{Sending, Writer, send};
use hg_repo::Repo;
use std::alloc::Allocator;

/// Sends the report of the repository, and says what became of it.
pub fn send_report<A: Allocator + Copy, W: Writer>(writer: &mut W, repo: &Repo<A>) -> Sending
    ensures { IsSentTo result (W.told writer.old) (W.told writer.new) (report_of repo.now) }
{
    match repo.report() {
        Ok(report) => send(writer, &report).0,
        Err(_) => Sending::NoMemory,
    }
}
