//! A hook before each push: whether a push may run is asked of it, and what it answers is read.
//!
//! A [`Policy`] is asked of each push before it runs, by its bytes. Where there is none all are let through. A
//! [`Hook`] asks over a [`HookLine`]: the status 200 lets a push through, and whatever else comes refuses it, by the
//! first line of the answer. [`exchange`] sends one question over HTTP to any writer, and reads its answer from any
//! reader. [`HookAddress`] reads where a hook is asked. Nothing here opens a connection, and nothing waits but a device.

ghost use Rattle.std.specs.Prelude.{◌≡◌};
ghost use Rattle.hg_http.specs.Hooks.{asked_by, verdict_of};
ghost use Rattle.hg_http.specs.Policies.{HasAsked};

mod address;
mod answer;
mod asking;
mod policy;

pub use address::HookAddress;
pub use answer::HookAnswer;
pub use asking::{HookQuestion, exchange};
pub use policy::{Policy, Verdict};
use std::alloc::Global;

/// The status of an answer that lets a push through.
const LETS_THROUGH: u16 = 200;

/// Why a question has no answer.
#[derive(Clone, Copy, Debug, PartialEq, Eq)]
pub enum HookSilence {
    /// The connection failed, or no answer came in time.
    NoAnswer,
    /// Memory was refused for the question or its answer.
    NoMemory,
}

/// A line to a hook.
pub trait HookLine {
    ghost use Rattle.hg_http.specs.Hooks.{Exchanges, HasExchanged};

    // the bundles that were sent, each with what was answered, in order; it may not report that
    ghost exchanged: { Self → Exchanges };

    /// Sends a bundle to the hook, whole, and gives what it answers.
    fn ask(&mut self, user: Option<&[u8]>, bundle: &[u8]) -> Result<HookAnswer, HookSilence>
        ensures { HasExchanged (exchanged self.old) (exchanged self.new) bundle.now result };
}

/// Asks a hook whether pushes may run.
#[derive(Drop)]
pub struct Hook<L> {
    line: L,
}

impl<L> Hook<L> {
    /// Asks over this line.
    pub fn new(line: L) -> Hook<L>
        ensures { result.line ≡ line }
    {
        Hook { line }
    }
}

impl<L: HookLine> Hook<L> {
    /// Asks whether the push of this bundle may run.
    fn ask(&mut self, user: Option<&[u8]>, bundle: &[u8]) -> Verdict
        ensures { HasAsked (asked_by (L.exchanged self.old.line)) (asked_by (L.exchanged self.new.line)) bundle.now
            result }
    {
        verdict_of(self.line.ask(user, bundle))
    }
}

impl<L: HookLine> Policy<Global> for Hook<L> {
    ghost use Rattle.hg_http.specs.Hooks.{asked_by};

    ghost asked = { λ hook. asked_by (L.exchanged hook.line) };

    fn let_through(&mut self, user: Option<&[u8]>, bundle: &[u8]) -> Verdict {
        self.ask(user, bundle)
    }
}

/// Whether a push may run that was answered so.
fn verdict_of(answered: Result<HookAnswer, HookSilence>) -> Verdict
    ensures { result ≡ verdict_of answered }
{
    match answered {
        Ok(answer) if answer.status == LETS_THROUGH => Verdict::LetThrough,
        Ok(answer) if answer.line.is_empty() => Verdict::NoAnswer,
        Ok(HookAnswer { status: _, line }) => Verdict::Refused(line),
        Err(HookSilence::NoAnswer) => Verdict::NoAnswer,
        Err(HookSilence::NoMemory) => Verdict::NoMemory,
    }
}
