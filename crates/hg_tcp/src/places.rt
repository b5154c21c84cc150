//! How many connections are served at one time, and whether serving is over.

ghost use Rattle.std.specs.Prelude.{◌≡◌, ◌+◌, ◌-◌, ◌<◌, ◌≤◌, IsSome, IsNone, nat_lt, true, false, Some, None};
ghost use Rattle.hg_tcp.specs.Places.{freed, reason_after};

use std::sync::atomic::{AtomicBool, Ordering};
use std::sync::{Condvar, Mutex, Wait};

/// Why serving is over.
#[derive(Clone, Copy, Debug, PartialEq, Eq)]
pub enum Over {
    /// There was no memory to begin with.
    NoMemory,
    /// The store failed: nothing more is stored.
    StoreFailed,
    /// The numbers of pushes come to their end. Another server over the same store begins with new ones.
    NumbersEnd,
}

/// How many threads wait for a connection at most.
const MOST_IDLE: u32 = 8;

/// What is known of all connections together.
#[derive(Drop)]
struct Count {
    /// How many places are free.
    free: u32,
    /// How many threads wait for a connection. Each has a place.
    idle: u32,
    over: Option<Over>,
}

impl Count {
    /// Whether a thread more is to wait for a connection: none waits, a place is free, and serving is not over.
    fn is_wanted(&self) -> bool
        ensures over { IsSome self.now.over → result ≡ false }
        ensures waits { 0 < self.now.idle → result ≡ false }
        ensures none_free { self.now.free ≡ 0 → result ≡ false }
        ensures wanted { IsNone self.now.over → self.now.idle ≡ 0 → 0 < self.now.free → result ≡ true }
    {
        self.over.is_none() && self.idle == 0 && self.free > 0
    }

    /// Takes a place for a thread that is to wait for a connection. True where it was taken, false where serving is
    /// over, and none where whoever asks has to wait: another thread waits for a connection, or no place is free.
    fn ask(&mut self) -> Option<bool>
        ensures over { IsSome self.old.over → (result ≡ Some false) × (self.new ≡ self.old) }
        ensures taken { IsNone self.old.over → self.old.idle ≡ 0 → 0 < self.old.free →
            (result ≡ Some true) × (self.new ≡ record self.old { free = self.old.free - 1; idle = 1 }) }
        ensures waits { IsNone self.old.over → 0 < self.old.idle → (result ≡ None) × (self.new ≡ self.old) }
        ensures none_free { IsNone self.old.over → self.old.free ≡ 0 → (result ≡ None) × (self.new ≡ self.old) }
    {
        if self.over.is_some() {
            return Some(false);
        }
        if !self.is_wanted() {
            return None;
        }
        self.free -= 1;
        self.idle = 1;
        Some(true)
    }

    /// A thread that waited has a connection.
    fn begin(&mut self)
        ensures { self.new ≡ record self.old { idle = self.old.idle - 1 } }
    {
        self.idle = self.idle.saturating_sub(1);
    }

    /// A thread that served a connection waits for another one, on the place that it has. False where enough
    /// threads wait, or serving is over: its place is free then.
    fn stay(&mut self) -> bool
        ensures over { IsSome self.old.over → (result ≡ false) × (self.new ≡ freed self.old) }
        ensures enough { 8 ≤ self.old.idle → (result ≡ false) × (self.new ≡ freed self.old) }
        ensures stays { IsNone self.old.over → self.old.idle < 8 →
            (result ≡ true) × (self.new ≡ record self.old { idle = self.old.idle + 1 }) }
    {
        if self.over.is_some() || self.idle >= MOST_IDLE {
            self.free = self.free.saturating_add(1);
            return false;
        }
        self.idle += 1;
        true
    }

    /// A thread that waited goes, and its place is free. True where others wait.
    fn leave(&mut self) -> bool
        ensures others { result ≡ nat_lt 1 self.old.idle }
        ensures left { self.new ≡ record (freed self.old) { idle = self.old.idle - 1 } }
    {
        self.begin();
        self.free = self.free.saturating_add(1);
        self.idle > 0
    }

    /// Serving is over, for this reason or for one before.
    fn end(&mut self, over: Over)
        ensures { self.new ≡ record self.old { over = Some (reason_after self.old.over over) } }
    {
        if self.over.is_none() || over == Over::StoreFailed {
            self.over = Some(over);
        }
    }
}

/// Places for connections. A thread has one while it serves a connection and while it waits for one. At most eight
/// threads wait.
#[derive(Drop)]
pub struct Places {
    count: Mutex<Count>,
    changed: Condvar,
    /// Whether there is a reason in the count, to be asked without the lock.
    is_over: AtomicBool,
    is_woken: AtomicBool,
}

impl Places {
    /// So many places, all of them free.
    pub fn new(free: u32) -> Places {
        Places {
            count: Mutex::new(Count {
                free,
                idle: 0,
                over: None,
            }),
            changed: Condvar::new(),
            is_over: AtomicBool::new(false),
            is_woken: AtomicBool::new(false),
        }
    }

    /// Waits until no thread waits for a connection and a place is free, and takes it for a thread that is to wait
    /// for one. False where serving is over.
    pub fn take<R: Wait>(&self, rt: &R) -> bool {
        let mut count = self.count.lock(rt);
        'waiting: for _ in rt.forever() {
            if let Some(is_taken) = count.ask() {
                return is_taken;
            }
            count = self.changed.wait(rt, count);
        }
        unreachable!()
    }

    /// A thread that waited has a connection.
    pub fn begin<R: Wait>(&self, rt: &R) {
        let mut count = self.count.lock(rt);
        count.begin();
        self.wake(&count);
    }

    /// A thread that served a connection waits for another one, on the place that it has. False where enough
    /// threads wait, or serving is over: its place is given back then.
    pub fn stay<R: Wait>(&self, rt: &R) -> bool {
        self.count.lock(rt).stay()
    }

    /// A thread that waited, or was to wait, gives its place back. True where others wait.
    pub fn leave<R: Wait>(&self, rt: &R) -> bool {
        let mut count = self.count.lock(rt);
        let others = count.leave();
        self.wake(&count);
        others
    }

    /// Wakes whoever is to take a place, where one can be taken.
    fn wake(&self, count: &Count) {
        if count.is_wanted() {
            self.changed.notify_all();
        }
    }

    /// Serving is over: nobody takes a place any more. A store that failed is the reason, whatever else is one.
    pub fn end<R: Wait>(&self, rt: &R, over: Over) {
        self.count.lock(rt).end(over);
        self.is_over.store(true, Ordering::SeqCst);
        self.changed.notify_all();
    }

    /// Whether serving is over.
    pub fn is_over(&self) -> bool {
        self.is_over.load(Ordering::SeqCst)
    }

    /// Why serving is over, once it is.
    pub fn over<R: Wait>(&self, rt: &R) -> Option<Over> {
        self.count.lock(rt).over
    }

    /// Whether a thread that waits for a connection is to be woken, since serving is over. It is true once.
    pub fn is_to_wake(&self) -> bool {
        self.is_over() && !self.is_woken.swap(true, Ordering::SeqCst)
    }
}
