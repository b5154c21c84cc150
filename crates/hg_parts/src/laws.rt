//! What holds of stores. Each function changes nothing: what it ensures is a theorem, and a caller that
//! calls it may rest on it.

ghost use Rattle.std.specs.Prelude.{◌≡◌, [], ℕ, Bool, Ok, Err, IfOk, IfSome};
ghost use Rattle.hg_types.specs.Bytes.{IsBytes};
ghost use Rattle.hg_types.specs.declared.limits.Settings.{Settings as AnySettings};
ghost use Rattle.hg_types.specs.declared.part.Part.{Part as AnyPart};
ghost use Rattle.hg_parts.specs.declared.refusal.Refusal.{Refusal as AnyRefusal};
ghost use Rattle.hg_parts.specs.declared.source.Source.{Source as AnySource};
ghost use Rattle.hg_parts.specs.Repository.{IsLawful, Repository, empty_with};
ghost use Rattle.hg_parts.specs.Handle.{handle};
ghost use Rattle.hg_parts.specs.Handled.{Handled};
ghost use Rattle.hg_parts.specs.PartTypes.{support_of};
ghost use Rattle.hg_parts.specs.Refusing.{CanBeRefused};
ghost use Rattle.hg_parts.specs.Store.{repository_of, IsSound};

use crate::store::Store;
use hg_checks::laws::checks_tell_their_faults;
use hg_keys::{bookmarks_stay_lawful, keys_stay_lawful};
use hg_log::answers_keep_rows_lawful;
use hg_obs::{markers_stay_lawful, reading_is_the_grammar as markers_are_read};
use hg_phases::phases_stay_lawful;
use hg_types::Settings;
use std::alloc::Allocator;

/// The reply that a part leaves, if it leaves one, has no payload.
pub fn replies_have_no_payload<A: Allocator>()
    ensures { (source : AnySource) (repo : Repository A) (replying : Bool) (place : ℕ) (part : AnyPart A)
        (given : Handled A) → handle source repo replying place part ≡ Ok given
        → IfSome given.reply (λ reply. reply.payload ≡ []) }
{}

/// A refusal names the place of its part, and which types of part can give it. By the definitions alone no part
/// is refused for lack of memory, and none of its changesets: only code answers that.
pub fn refusals_tell_their_parts<A: Allocator>()
    ensures { (source : AnySource) (repo : Repository A) (replying : Bool) (place : ℕ) (part : AnyPart A)
        (refusal : AnyRefusal A) → handle source repo replying place part ≡ Err refusal
        → CanBeRefused place (support_of part) refusal }
{
    checks_tell_their_faults();
}

/// The empty repository is lawful, and a part that is handled on a lawful repository leaves a lawful one,
/// whatever its type: by the definitions alone. The payload of a part is bytes.
pub fn handled_parts_keep_repositories_lawful<A: Allocator>()
    ensures none { (settings : AnySettings) → IsLawful (empty_with {A = A} settings) }
    ensures part { (source : AnySource) (repo : Repository A) (replying : Bool) (place : ℕ) (part : AnyPart A)
        → IsLawful repo → IsBytes part.payload
        → IfOk (handle source repo replying place part) (λ given. IsLawful given.repo) }
{
    answers_keep_rows_lawful::<A>();
    phases_stay_lawful();
    markers_are_read::<A>();
    markers_stay_lawful::<A>();
    bookmarks_stay_lawful();
    keys_stay_lawful::<A>();
}

/// A sound store holds a lawful repository.
pub fn sound_stores_are_lawful<A: Allocator>(settings: &Settings, store: &Store<A>)
    requires { IsSound settings.now store.now }
    ensures { IsLawful (repository_of settings.now store.now) }
{
    // for the proof: the rows are lawful
    let _rows = store.log.len();
    // and the names of bookmarks stand in their order
    let _names = store.bookmarks.len();
}
