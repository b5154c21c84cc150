//! What stands around the commands: the page, the counters, and who hears of pushes.

use hg_push::Outcome;
use hg_repo::{Done, Refusal, Repo};
use hg_serve::Probe;
use hg_types::{NoMemory, Seq};
use std::alloc::{Allocator, Global};

/// What a browser and a collector of counters are shown. Both texts are made under the server's lock, so they are
/// to be made fast.
pub trait Shown<A: Allocator> {
    ghost use Rattle.std.specs.Prelude.{ℕ, List, IfOk};
    ghost use Rattle.hg_parts.specs.Repository.{Repository};

    // of this repository the page may be this text
    ghost is_page: { Self → Repository A → List ℕ → Type 0 };

    // and the counters this one
    ghost are_metrics: { Self → Repository A → List ℕ → Type 0 };

    /// The page at `/`: a document in HTML. It is sent as `text/html; charset=utf-8`, with a policy that lets
    /// nothing in except its own styles.
    fn page(&self, alloc: A, repo: &Repo<A>) -> Result<Seq<u8, A>, NoMemory>
        ensures { IfOk result (λ text. is_page self.now repo.now text) };

    /// The counters at `/metrics`, in the text form that Prometheus reads: `text/plain; version=0.0.4`.
    fn metrics(&self, alloc: A, repo: &Repo<A>) -> Result<Seq<u8, A>, NoMemory>
        ensures { IfOk result (λ text. are_metrics self.now repo.now text) };
}

/// How a push ended that came over HTTP.
#[derive(Drop)]
pub struct WatchedPush<'a, A: Allocator = Global> {
    /// Why it was aborted, or that it is done.
    pub outcome: &'a Outcome<Done<A>, Refusal<A>>,
    /// How many done pushes its answer rests on, since the server was made. The place of a done push is one less.
    pub rests: usize,
    /// Whether all of these are on the device. Where they are not, the store failed, and nothing is answered.
    pub is_kept: bool,
    /// The body of the request, or the bundle that was made for `pushkey`.
    pub bundle: &'a [u8],
}

/// Why a push was not let through.
#[derive(Clone, Copy, Debug, PartialEq, Eq)]
pub enum Denial {
    /// The policy refused it.
    Refused,
    /// Nobody said that it may run.
    NoAnswer,
}

/// Why a request was refused, of which no push was opened.
#[derive(Clone, Copy, Debug, PartialEq, Eq)]
pub enum Dismissal {
    /// Its body is longer than a body may be.
    LongBody,
    /// Its line or its head is longer than one may be.
    LongHead,
    /// It is no request of HTTP, or one of a form that is not served.
    NoRequest,
    /// Its connection ended, failed or fell silent before it was whole.
    Lost,
    /// There was no room for it, or memory was refused for what it asks.
    NoRoom,
    /// It is for a server of another name.
    OtherServer,
    /// There is nothing at its path.
    NotFound,
    /// Its command may be read otherwise.
    Unclear,
    /// A page in a browser could have sent it.
    Forbidden,
    /// Its command is not taken in this form, or not at this address.
    NotTaken,
    /// No push could be opened for it.
    NotOpened,
}

/// Watches one connection: it hears of the places that a push reaches under way, by which times can be taken
/// (after `Marked` it waits for the lock, after `Answered` for the device), and of each push that ended, before
/// its answer is sent, or was not let through and so not opened. Of each other request that is refused it hears why.
pub trait Watch<A: Allocator>: Probe {
    /// What time it is, in milliseconds since 1970; 0 where there is no clock.
    fn time(&self) -> u64;

    fn pushed(&mut self, pushed: &WatchedPush<'_, A>);

    fn denied(&mut self, why: Denial, bundle: &[u8]);

    fn dismissed(&mut self, why: Dismissal);
}
