//! How many bytes the bodies of all requests, and the answers to them, hold together.

ghost use Rattle.std.specs.Prelude.{◌≡◌, length};
ghost use Rattle.hg_web.specs.code.Budgets.{text_in};

use hg_http::{HttpAnswer, RequestRefusal};
use std::alloc::Allocator;
use std::sync::{Mutex, Wait};

/// How many bytes of a request are free, since a head has no more, and how many of an answer.
const FREE: usize = 16_384;

/// How many bytes the bodies of all requests, and the answers to them, may hold together. All connections of a server
/// share it.
#[derive(Drop)]
pub struct Budget {
    left: Mutex<usize>,
}

impl Budget {
    /// A budget of so many bytes.
    pub fn new(bytes: usize) -> Budget {
        Budget {
            left: Mutex::new(bytes),
        }
    }

    /// Takes so many, if they are left.
    fn take<R: Wait>(&self, rt: &R, bytes: usize) -> bool {
        let mut left = self.left.lock(rt);
        match left.checked_sub(bytes) {
            Some(rest) => {
                *left = rest;
                true
            }
            None => false,
        }
    }

    fn give_back<R: Wait>(&self, rt: &R, bytes: usize) {
        let mut left = self.left.lock(rt);
        *left = left.saturating_add(bytes);
    }
}

/// What the bodies of one connection hold of it: as many bytes as the longest one had whose block there still is. A head
/// is free.
#[derive(Drop)]
pub(crate) struct Share<'a> {
    budget: &'a Budget,
    /// How many bytes came since the last answer.
    came: usize,
    /// How many bytes were taken of the budget.
    taken: usize,
    /// Whether there was no room for what came.
    is_over: bool,
    /// Whether nothing came at last: the input ended.
    has_ended: bool,
}

impl<'a> Share<'a> {
    ghost use Rattle.std.specs.Prelude.{◌≡◌, ◌<◌, ◌↔◌, IsTrue, nat_lt};

    /// Nothing yet.
    pub(crate) fn new(budget: &'a Budget) -> Share<'a> {
        Share {
            budget,
            came: 0,
            taken: 0,
            is_over: false,
            has_ended: false,
        }
    }

    /// Counts bytes that came: none where the input ended.
    pub(crate) fn grow<R: Wait>(&mut self, rt: &R, bytes: usize) {
        self.has_ended = bytes == 0;
        self.came = self.came.saturating_add(bytes);
        let wanted = self.came.saturating_sub(FREE);
        let more = wanted.saturating_sub(self.taken);
        if more == 0 {
            return;
        }
        if self.budget.take(rt, more) {
            self.taken = wanted;
        } else {
            self.is_over = true;
        }
    }

    /// Whether there was room for all that came since the last answer.
    pub(crate) fn has_room(&self) -> bool {
        !self.is_over
    }

    /// Whether the input ended.
    pub(crate) fn has_ended(&self) -> bool
        ensures { result ≡ self.now.has_ended }
    {
        self.has_ended
    }

    /// Whether some of a request came that was not answered.
    pub(crate) fn is_begun(&self) -> bool
        ensures { result ≡ nat_lt 0 self.now.came }
    {
        self.came > 0
    }

    /// Forgets what came, since it was answered. What was taken stays taken as long as there is the block of that body.
    pub(crate) fn forget(&mut self)
        ensures came { self.new.came ≡ 0 }
        ensures taken { self.new.taken ≡ self.old.taken }
    {
        self.came = 0;
        self.is_over = false;
    }

    /// Whether the block of a body that was answered is kept for nothing.
    pub(crate) fn is_idle(&self) -> bool
        ensures { IsTrue result ↔ ((self.now.came ≡ 0) × (0 < self.now.taken)) }
    {
        self.came == 0 && self.taken > 0
    }

    /// Gives all back: the block is gone.
    pub(crate) fn clear<R: Wait>(&mut self, rt: &R)
        ensures came { self.new.came ≡ 0 }
        ensures taken { self.new.taken ≡ 0 }
    {
        self.forget();
        if self.taken > 0 {
            self.budget.give_back(rt, self.taken);
            self.taken = 0;
        }
    }
}

/// What the answers of one connection hold of it: as many bytes as those have whose blocks there still are. A short one
/// is free.
#[derive(Drop)]
pub struct Room<'a> {
    budget: &'a Budget,
    /// How many bytes were taken of the budget.
    taken: usize,
}

impl<'a> Room<'a> {
    ghost use Rattle.std.specs.Prelude.{◌≡◌, ◌+◌, true, false, nat_lt};
    ghost use Rattle.hg_web.specs.code.Budgets.{IsHeld};

    /// There is no answer yet.
    pub fn new(budget: &'a Budget) -> Room<'a>
        ensures { result.taken ≡ 0 }
    {
        Room { budget, taken: 0 }
    }

    /// The answer, where there is room for it; else there is no memory for it.
    pub(crate) fn hold<R: Wait, A: Allocator>(
        &mut self,
        rt: &R,
        answer: HttpAnswer<A>,
    ) -> HttpAnswer<A>
        ensures { IsHeld answer self.old.taken result self.new.taken }
    {
        if self.take(rt, length_of(&answer).saturating_sub(FREE)) {
            return answer;
        }
        HttpAnswer::Refused(RequestRefusal::NoMemory)
    }

    /// Takes so many bytes more, if they are left.
    fn take<R: Wait>(&mut self, rt: &R, bytes: usize) -> bool
        ensures taken { result ≡ true → self.new.taken ≡ self.old.taken + bytes }
        ensures none { result ≡ false → self.new.taken ≡ self.old.taken }
    {
        if bytes == 0 {
            return true;
        }
        let Some(taken) = self.taken.checked_add(bytes) else {
            return false;
        };
        if !self.budget.take(rt, bytes) {
            return false;
        }
        self.taken = taken;
        true
    }

    /// Whether some is taken.
    pub(crate) fn is_taken(&self) -> bool
        ensures { result ≡ nat_lt 0 self.now.taken }
    {
        self.taken > 0
    }

    /// Gives all back: the blocks are gone.
    pub(crate) fn clear<R: Wait>(&mut self, rt: &R)
        ensures { self.new.taken ≡ 0 }
    {
        if self.taken > 0 {
            self.budget.give_back(rt, self.taken);
            self.taken = 0;
        }
    }
}

/// How long the text of an answer is, if it may be long.
fn length_of<A: Allocator>(answer: &HttpAnswer<A>) -> usize
    ensures { result ≡ length (text_in answer.now) }
{
    match answer {
        HttpAnswer::Text(text) | HttpAnswer::Shown(_, text) => text.len(),
        HttpAnswer::Refused(_)
        | HttpAnswer::NotLet(_)
        | HttpAnswer::Forbidden
        | HttpAnswer::NotFound
        | HttpAnswer::Misaddressed(_)
        | HttpAnswer::Moved(_) => 0,
    }
}
