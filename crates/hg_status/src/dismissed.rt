//! Requests that were refused before a push was opened, as they are shown.

ghost use Rattle.std.specs.Prelude.{◌≡◌, ◌<◌};
ghost use Rattle.hg_status.specs.Dismissed.{name_of_dismissal, place_of_dismissal};

use hg_queries::Dismissal;

/// How many reasons there are.
pub const DISMISSALS: usize = 11;

/// The place of a reason among all, below [`DISMISSALS`].
pub(crate) fn place(why: Dismissal) -> usize
    ensures place { result ≡ place_of_dismissal why }
    ensures within { result < 11 }
{
    match why {
        Dismissal::LongBody => 0,
        Dismissal::LongHead => 1,
        Dismissal::NoRequest => 2,
        Dismissal::Lost => 3,
        Dismissal::NoRoom => 4,
        Dismissal::OtherServer => 5,
        Dismissal::NotFound => 6,
        Dismissal::Unclear => 7,
        Dismissal::Forbidden => 8,
        Dismissal::NotTaken => 9,
        Dismissal::NotOpened => 10,
    }
}

/// What a reason is called, in lower case letters and spaces.
pub(crate) fn name(why: Dismissal) -> &'static str
    ensures { result.now ≡ name_of_dismissal why }
{
    match why {
        Dismissal::LongBody => "body over the limit",
        Dismissal::LongHead => "head over the limit",
        Dismissal::NoRequest => "no request",
        Dismissal::Lost => "connection lost",
        Dismissal::NoRoom => "out of memory",
        Dismissal::OtherServer => "for another server",
        Dismissal::NotFound => "not found",
        Dismissal::Unclear => "unclear command",
        Dismissal::Forbidden => "forbidden",
        Dismissal::NotTaken => "command not taken",
        Dismissal::NotOpened => "no push opened",
    }
}
