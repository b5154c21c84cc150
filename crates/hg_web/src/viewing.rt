//! What is shown without a command.

ghost use Rattle.std.specs.Prelude.{true};
ghost use Rattle.hg_commit.specs.Clients.{IsKept};
ghost use Rattle.hg_web.specs.Answering.{AnswersView, around_of, OrLacks};
ghost use Rattle.hg_web.specs.Pushes.{Answered};

use crate::budget::Room;
use crate::looking::{Asking, look_kept};
use crate::terms::WebTerms;
use hg_commit::{KeptClient, NotStored, Storing};
use hg_durable::Keeping;
use hg_http::{HttpAnswer, StatusView};
use hg_queries::{Shown, Viewing, shown_answer};
use hg_store::Device;
use std::alloc::Allocator;
use std::sync::Wait;

/// Answers what was asked for without a command, where there is room for it.
pub fn answer_view<J: Storing<A>, D: Device, A: Allocator + Copy, R: Wait, S: Shown<A>>(
    keeping: &Keeping<'_, J, D, R, A>,
    terms: &WebTerms<'_, S>,
    client: KeptClient<J, A>,
    view: Option<StatusView>,
    room: &mut Room<'_>,
) -> (KeptClient<J, A>, Result<HttpAnswer<A>, NotStored>)
    ensures { Answered (OrLacks true (AnswersView J.first
        (around_of (IsKept D.seen D.may_leave D.moment J.head J.stored J.first keeping.now.ledger.now.has_beats)
        S.is_page S.are_metrics terms.now)
        view)) client result.1 result.0 }
{
    let Some(view) = view else {
        return (client, Ok(HttpAnswer::NotFound));
    };
    let question = Viewing {
        alloc: keeping.alloc,
        shown: terms.shown,
        view,
    };
    let (client, looked) = look_kept(keeping, client, &Asking { question });
    match looked {
        Ok((text, rests)) => {
            let answer = shown_answer(keeping.alloc, view, text, terms.stored, rests);
            (client, Ok(room.hold(keeping.rt, answer)))
        }
        Err(fault) => (client, Err(fault)),
    }
}
