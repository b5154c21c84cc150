//! Where the journal has a push.

ghost use Rattle.std.specs.Prelude.{◌≡◌, ◌<◌, ◌==◌, false, length, slice_index_or, IfNone, IfSome};
ghost use Rattle.std.specs.List.{list_any};

use std::marker::Model;

/// How many places are kept.
const KEPT: usize = 1_024;

/// Places of pushes in the journal. That of a push is kept until another is done whose number differs from its
/// own by a multiple of 1,024. So it may be the place of another push: who asks looks at the journal there, and
/// contracts see nothing of what is kept.
#[derive(Drop)]
pub struct Places {
    kept: [u32; KEPT],
}

impl Model for Places {
    ghost Value = { Unit {0} };

    ghost view = { λ p. tt };
}

impl Places {
    /// No push has a place.
    pub fn new() -> Places {
        Places { kept: [0; KEPT] }
    }

    /// Keeps the place of a push.
    pub fn keep(&mut self, push: u32, place: usize) {
        self.kept[push as usize % KEPT] = u32::try_from(place).unwrap_or(0);
    }

    /// The place that is kept for such a number.
    fn guess(&self, push: u32) -> usize {
        self.kept[push as usize % KEPT] as usize
    }
}

/// A place at which the journal has the push: the one that is kept, where the push is there, else the last one.
pub fn place_of_push(journal: &[u32], push: u32, places: &Places) -> Option<usize>
    ensures none { IfNone result (list_any (λ p. p == push) journal.now ≡ false) }
    ensures some { IfSome result (λ place. (place < length journal.now)
        × (push ≡ slice_index_or journal.now place push)) }
{
    let place = places.guess(push);
    if place < journal.len() && journal[place] == push {
        return Some(place);
    }
    last_place(journal, push)
}

/// The last place at which the journal has the push.
fn last_place(journal: &[u32], push: u32) -> Option<usize>
    ensures none { IfNone result (list_any (λ p. p == push) journal.now ≡ false) }
    ensures some { IfSome result (λ place. (place < length journal.now)
        × (push ≡ slice_index_or journal.now place push)) }
{
    let mut place = journal.len();
    while place > 0 {
        place -= 1;
        if journal[place] == push {
            return Some(place);
        }
    }
    None
}
