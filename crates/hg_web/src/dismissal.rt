//! Why a request was refused, as who watches the connection hears it.

ghost use Rattle.std.specs.Prelude.{◌≡◌};
ghost use Rattle.hg_web.specs.Dismissals.{answer_dismisses, fault_dismisses, refusal_dismisses, unread_as, unread_for};

use hg_commit::NotStored;
use hg_http::{AddressFault, HttpAnswer, RequestRefusal};
use hg_queries::{Dismissal, Watch};
use http_server::Refusal;
use std::alloc::Allocator;

/// Tells who watches why a request is refused, where its answer says so.
pub(crate) fn tell_answer<V: Watch<A>, A: Allocator>(
    watch: &mut V,
    answer: &Result<HttpAnswer<A>, NotStored>,
) {
    if let Ok(answer) = answer {
        if let Some(why) = dismissal_of(answer) {
            watch.dismissed(why);
        }
    }
}

/// Why a request is refused that is answered so, if it is. Of a push that was opened, or that the policy did not let
/// through, who watches hears otherwise.
fn dismissal_of<A: Allocator>(answer: &HttpAnswer<A>) -> Option<Dismissal>
    ensures { result ≡ answer_dismisses answer.now }
{
    match answer {
        HttpAnswer::Refused(why) => dismissal_by(*why),
        HttpAnswer::Forbidden => Some(Dismissal::Forbidden),
        HttpAnswer::NotFound => Some(Dismissal::NotFound),
        HttpAnswer::Misaddressed(fault) => Some(dismissal_at(*fault)),
        HttpAnswer::Text(_)
        | HttpAnswer::NotLet(_)
        | HttpAnswer::Shown(_, _)
        | HttpAnswer::Moved(_) => None,
    }
}

/// The same, of an answer that is a line.
fn dismissal_by(why: RequestRefusal) -> Option<Dismissal>
    ensures { result ≡ refusal_dismisses why }
{
    match why {
        RequestRefusal::NotForced
        | RequestRefusal::BadBatch
        | RequestRefusal::LongBatch
        | RequestRefusal::PushesAlone => Some(Dismissal::NotTaken),
        RequestRefusal::NotOpened => Some(Dismissal::NotOpened),
        RequestRefusal::NoMemory => Some(Dismissal::NoRoom),
        RequestRefusal::NoAnswer | RequestRefusal::NoHook => None,
    }
}

/// The same, of a request that is for another server, or whose command may be read otherwise.
fn dismissal_at(fault: AddressFault) -> Dismissal
    ensures { result ≡ fault_dismisses fault }
{
    match fault {
        AddressFault::OtherName => Dismissal::OtherServer,
        AddressFault::OtherPath => Dismissal::NotFound,
        AddressFault::UnclearCommand => Dismissal::Unclear,
    }
}

/// Why a request is refused that is not read to its end.
pub(crate) fn unread_as(why: Refusal) -> Dismissal
    ensures { result ≡ unread_as why }
{
    match why {
        Refusal::BodyTooLarge => Dismissal::LongBody,
        Refusal::Truncated => Dismissal::Lost,
        Refusal::Unreadable(fault) => unread_for(fault.status()),
        Refusal::InvalidPart(_)
        | Refusal::InvalidHost
        | Refusal::UnknownCoding
        | Refusal::InvalidResponse(_) => Dismissal::NoRequest,
    }
}

/// The same, of a request that is answered by that status for what was read of it: it has passed a limit, or is none.
fn unread_for(status: u16) -> Dismissal
    ensures { result ≡ unread_for status }
{
    if status == 400 {
        return Dismissal::NoRequest;
    }
    Dismissal::LongHead
}
