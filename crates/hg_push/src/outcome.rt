//! How a push ends, and what is known of its number.

use hg_parts::CutReason;
use hg_repo::{Done, Refusal};

/// Why a push was aborted.
#[derive(Drop)]
pub enum Reason<E = Refusal> {
    /// 1: its run was refused.
    Refused(E),
    /// 2: its sender cut it off.
    Cut(CutReason),
    /// 3: the index of its end mark is not the number of its parts.
    WrongIndex,
    /// 4: a growth was refused while a part was staged or the parts were run.
    NoMemory,
}

/// How a push ended. An aborted push changed nothing.
#[derive(Drop)]
pub enum Outcome<D = Done, E = Refusal> {
    Done(D),
    Aborted(Reason<E>),
}

/// What is known of a push's number.
#[derive(Clone, Copy, Debug, PartialEq, Eq)]
pub enum Standing {
    /// It was never opened.
    Unknown,
    /// Neither an end mark nor a cut of it was taken, and memory was refused for none of its items.
    Open,
    Done,
    Aborted,
}
