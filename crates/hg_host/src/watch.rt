//! Who watches a connection: how long each push took, and a line for it and for each request that was refused.

use crate::hook::HookPool;
use hg_serve::{Point, Probe};
use hg_status::{
    AbortReason, Board, Push, ShownOutcome, brought_by, dismissal_line, log_line, millis_now,
    shown_outcome,
};
use hg_tcp::{Over, Places};
use hg_types::{NoMemory, Seq};
use hg_web::{Denial, Dismissal, Watch, WatchedPush};
use std::alloc::Global;
use std::str;
use std::sync::Wait;
use std::time::{Clock, Duration, Instant};

/// Takes the times of one connection's pushes, puts each on the board, and prints its line if that is wanted.
/// Where the numbers of pushes come to their end, serving is over.
#[derive(Drop)]
pub struct Watcher<'a, R: Wait + Clock + Eprint> {
    rt: &'a R,
    alloc: Global,
    board: &'a Board<'a, R>,
    slots: &'a Places,
    hooked: &'a HookPool,
    /// How many pushes the store had when it was opened.
    stored: usize,
    logs: bool,
    /// When the lock was got for the push that runs.
    locked: Option<Instant>,
    /// For how many microseconds it was held, and when it was given back.
    held: u64,
    answered: Option<Instant>,
}

impl<'a, R: Wait + Clock + Eprint> Watcher<'a, R> {
    pub fn new(
        rt: &'a R,
        alloc: Global,
        board: &'a Board<'a, R>,
        slots: &'a Places,
        hooked: &'a HookPool,
        stored: usize,
        logs: bool,
    ) -> Self {
        Watcher {
            rt,
            alloc,
            board,
            slots,
            hooked,
            stored,
            logs,
            locked: None,
            held: 0,
            answered: None,
        }
    }

    /// Prints a line, if it was made.
    fn print(&self, line: Result<Seq<u8>, NoMemory>) {
        let Ok(line) = line else {
            return;
        };
        if let Ok(text) = str::from_utf8(line.as_slice()) {
            let _ = eprint!(self.rt; "{text}");
        }
    }
}

impl<R: Wait + Clock + Eprint> Probe for Watcher<'_, R> {
    fn at(&mut self, point: Point) {
        match point {
            Point::Marked => self.locked = None,
            Point::Locked if self.locked.is_none() => self.locked = Instant::now(self.rt).ok(),
            Point::Answered => {
                self.held = micros_since(self.rt, self.locked);
                self.answered = Instant::now(self.rt).ok();
            }
            _ => {}
        }
    }
}

impl<R: Wait + Clock + Eprint> Watch<Global> for Watcher<'_, R> {
    fn time(&self) -> u64 {
        millis_now(self.rt)
    }

    fn pushed(&mut self, pushed: &WatchedPush<'_>) {
        let count = (pushed.rests as u64).saturating_add(self.stored as u64);
        if pushed.is_kept {
            self.hooked.note_durable(count);
        }
        let outcome = shown_outcome(pushed.outcome, count);
        let is_done = matches!(outcome, ShownOutcome::Done(_));
        let push = Push {
            time: millis_now(self.rt) / 1_000,
            outcome,
            changesets: if is_done {
                brought_by(pushed.bundle)
            } else {
                0
            },
            bytes: pushed.bundle.len() as u64,
            locked: self.held,
            synced: micros_since(self.rt, self.answered),
        };
        self.board.add(push, is_done && pushed.is_kept);
        if self.board.is_full() {
            self.slots.end(self.rt, Over::NumbersEnd);
        }
        if self.logs && pushed.is_kept {
            self.print(log_line(self.alloc, &push));
        }
    }

    fn denied(&mut self, why: Denial, bundle: &[u8]) {
        let reason = match why {
            Denial::Refused => AbortReason::NotLet,
            Denial::NoAnswer => AbortReason::NoHook,
        };
        let push = Push {
            time: millis_now(self.rt) / 1_000,
            outcome: ShownOutcome::Aborted(reason),
            changesets: 0,
            bytes: bundle.len() as u64,
            locked: 0,
            synced: 0,
        };
        self.board.count(push);
        if self.logs {
            self.print(log_line(self.alloc, &push));
        }
    }

    fn dismissed(&mut self, why: Dismissal) {
        self.board.dismiss(why);
        if self.logs {
            let time = millis_now(self.rt) / 1_000;
            self.print(dismissal_line(self.alloc, time, why));
        }
    }
}

/// How many microseconds ago that was; 0 where there is no clock.
fn micros_since<R: Clock>(rt: &R, start: Option<Instant>) -> u64 {
    let Some(start) = start else {
        return 0;
    };
    match start.elapsed(rt) {
        Ok(spent) => micros(spent),
        Err(_) => 0,
    }
}

fn micros(time: Duration) -> u64 {
    u64::try_from(time.as_micros()).unwrap_or(u64::MAX)
}
