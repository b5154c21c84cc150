//! The repository, and the calls that read it.

ghost use Rattle.std.specs.Prelude.{List, ◌≡◌, ◌<◌, ◌^◌, length, IfOk, OnErr, IsTrue, ◌↔◌, IsSorted};
ghost use Rattle.hg_types.specs.Limits.{IsAllowed};
ghost use Rattle.hg_log.specs.Heads.{AreHeads, ids};
ghost use Rattle.hg_log.specs.HeadCount.{head_ids, AreSameIds};
ghost use Rattle.hg_keys.specs.Bookmarks.{node_of};
ghost use Rattle.hg_keys.specs.Known.{phase_of_node};
ghost use Rattle.hg_phases.specs.Order.{phase_at};
ghost use Rattle.hg_types.specs.declared.part.Part.{Part as AnyPart};
ghost use Rattle.hg_parts.specs.Prepared.{AreMadeOf};
ghost use Rattle.hg_parts.specs.Repository.{empty_with, IsLawful};
ghost use Rattle.hg_parts.specs.Store.{repository_of, IsSound};
ghost use Rattle.hg_repo.specs.Reading.{can_be_obsolete, is_obsolete, is_predecessor, IsSame};
ghost use Rattle.hg_repo.specs.Report.{report_of};
ghost use Rattle.hg_repo.specs.Run.{run_of, RunGives};
ghost use Rattle.hg_repo.specs.Replies.{AreReplies};

use crate::done::Done;
use crate::report::{write_bookmarks, write_changesets, write_markers};
use crate::run::{run_parts, run_prepared};
use crate::same::are_same;
use hg_keys::phase_of_node;
use hg_log::Changelog;
use hg_obs::{Marker, Markers};
use hg_parts::laws::sound_stores_are_lawful;
use hg_parts::{Prepared, Refusal, Source, Spent, Store};
use hg_types::{NoMemory, Node, Pages, Part, Phase, Seq, Settings, TryClone};
use std::alloc::{Allocator, Global};
use std::hash::RandomState;
use std::marker::Model;

/// A repository: its settings, its changesets with the phase of each, its markers and its bookmarks.
/// Contracts see the record of them, which is lawful: the law `every_repository_is_lawful` says so.
#[derive(Drop)]
pub struct Repo<A: Allocator = Global> {
    settings: Settings,
    store: Store<A>,
    alloc: A,
}

impl<A: Allocator> Model for Repo<A> {
    ghost use Rattle.hg_parts.specs.Repository.{Repository};
    ghost use Rattle.hg_parts.specs.Store.{repository_of, IsSound};

    ghost Value = { Repository A };

    ghost view = { λ r. repository_of r.settings r.store };

    ghost invariant = { λ r. IsSound r.settings r.store };
}

impl<A: Allocator> Repo<A> {
    /// How it is set up.
    pub fn settings(&self) -> &Settings
        ensures { result.now ≡ self.now.settings }
    {
        &self.settings
    }

    /// What it holds: its changesets, the phase of each, its markers and its bookmarks.
    pub fn store(&self) -> &Store<A>
        ensures value { repository_of self.now.settings result.now ≡ self.now }
        ensures sound { IsSound self.now.settings result.now }
    {
        &self.store
    }

    /// It changes nothing: every repository is lawful.
    pub(crate) fn lawful(&self)
        ensures { IsLawful self.now }
    {
        sound_stores_are_lawful(&self.settings, &self.store);
    }

    /// The changesets.
    pub(crate) fn log(&self) -> &Changelog<A>
        ensures { result.now.rows ≡ self.now.rows }
    {
        &self.store.log
    }

    /// The phase of the changeset of that number.
    pub(crate) fn phase_at(&self, rev: u32) -> Phase
        requires { rev < length self.now.rows }
        ensures { result ≡ phase_at self.now.phases rev }
    {
        self.store.phases.phase(rev)
    }

    /// The phase of a changeset, if it is known. The null id is known, and public. It takes no memory.
    pub fn phase_of(&self, node: &Node) -> Option<Phase>
        ensures { result ≡ phase_of_node self.now.rows self.now.phases node.now }
    {
        phase_of_node(&self.store.log, &self.store.phases, node)
    }

    /// The changeset that the bookmark of that name is on, if there is one. It takes no memory.
    pub fn bookmark(&self, name: &[u8]) -> Option<Node>
        ensures { result ≡ node_of self.now.bookmarks name.now }
    {
        self.store.bookmarks.get(name)
    }

    /// The markers, in the order in which they came. It takes no memory.
    pub fn markers(&self) -> &[Marker<A>]
        ensures { result.now ≡ self.now.markers }
    {
        self.store.markers.list()
    }

    /// Whether the changeset is obsolete: it is known, not null, not public, and the predecessor of a marker.
    /// It takes no memory.
    pub fn is_obsolete(&self, node: &Node) -> bool
        ensures { result ≡ is_obsolete self.now node.now }
    {
        can_be_obsolete(self.phase_of(node)) && is_predecessor(&self.store.markers, node)
    }

    /// Whether both hold the same: their changesets, phases, markers and bookmarks are equal, and their
    /// settings may differ. It takes no memory.
    pub fn is_same(&self, other: &Repo<A>) -> bool
        ensures { IsTrue result ↔ IsSame self.now other.now }
    {
        are_same(&self.store, &other.store)
    }
}

impl<A: Allocator + Copy> Repo<A> {
    /// The empty repository, which takes no memory. The state hashes ids and markers for look-ups: strangers
    /// choose them, so it is to be random.
    pub fn new(alloc: A, settings: Settings, state: RandomState) -> Self
        requires { IsAllowed settings.limits }
        ensures { result ≡ empty_with settings }
    {
        let store = Store::new(alloc, state, settings.limits);
        Repo {
            settings,
            store,
            alloc,
        }
    }

    /// The ids of the changesets that are nobody's parent, in ascending order, or the null id alone where
    /// there is no changeset.
    pub fn heads(&self) -> Result<Seq<Node, A>, NoMemory>
        ensures heads { IfOk result (λ heads. AreHeads self.now.rows (ids heads)) }
        ensures value { IfOk result (λ heads. AreSameIds (ids heads) (head_ids self.now.rows)) }
        ensures ascending { IfOk result (λ heads. IsSorted ⟦<Node as Ord>⟧.cmp heads) }
    {
        self.store.log.heads(self.alloc)
    }

    /// What the repository holds, as lines of text. First `C rev node phase obsolete` for each changeset in
    /// the order of their numbers, where `obsolete` is 1 or 0; then `B node name` for each bookmark in the
    /// order of the names' bytes, where every byte of the name but ASCII letters and digits is written `%`
    /// and two upper case hexadecimal digits; then `O` and the bytes for each marker in the order in which
    /// they came. Ids and bytes are lower case hexadecimal digits.
    pub fn report(&self) -> Result<Vec<u8, A>, NoMemory>
        ensures { IfOk result (λ text. text.items ≡ report_of self.now) }
    {
        self.lawful();
        let mut text = String::new(self.alloc);
        write_changesets(self.alloc, &mut text, self)?;
        write_bookmarks(self.alloc, &mut text, &self.store.bookmarks)?;
        write_markers(self.alloc, &mut text, self.store.markers.list())?;
        Ok(text.into_bytes())
    }

    /// Runs the parts in order, as `run_of` says: all of them, or none and nothing is changed.
    /// `NoMemory` stands in place of that answer where a growth was refused, and nothing is changed. The
    /// replies of a run that is done can be written: at most one for each part, none with a payload.
    ///
    /// Parts change the repository in place. Where one is refused, it goes back to what it was before the
    /// first, for which it takes no memory.
    pub fn run(&mut self, source: Source, parts: &[Part<A>]) -> Result<Done<A>, Refusal<A>>
        requires { length parts.now < 2 ^ 32 }
        ensures gives { RunGives (run_of source) self.old parts.now result self.new }
        ensures replies { IfOk result (λ done. AreReplies (length parts.now) done.replies) }
        ensures settings { self.new.settings ≡ self.old.settings }
    {
        let savepoint = self.store.savepoint();
        match run_parts(self.alloc, &mut self.store, &self.settings, source, parts) {
            Ok(done) => Ok(done),
            Err(refusal) => {
                self.store.back_to(savepoint);
                Err(refusal)
            }
        }
    }

    /// Runs parts that were prepared, in order: the run of every list of parts that they may have been made
    /// of, with the first refusal in their order, also where an earlier reading found a fault in a later
    /// part. `NoMemory` stands in place of that answer where a growth was refused. Nothing is changed where
    /// the answer is a refusal. What is left over of the parts that were handled is spent.
    pub fn run_prepared(
        &mut self,
        source: Source,
        prepared: Pages<Prepared<A>, A>,
        spent: &mut Spent<A>,
    ) -> Result<Done<A>, Refusal<A>>
        requires { length prepared < 2 ^ 32 }
        ensures gives { (parts : List (AnyPart A)) → AreMadeOf parts prepared →
            RunGives (run_of source) self.old parts result self.new }
        ensures err { OnErr result (self.new ≡ self.old) }
        ensures replies { IfOk result (λ done. AreReplies (length prepared) done.replies) }
        ensures settings { self.new.settings ≡ self.old.settings }
    {
        let before = self.store.savepoint();
        match run_prepared(
            self.alloc,
            &mut self.store,
            &self.settings,
            source,
            prepared,
            spent,
        ) {
            Ok(done) => Ok(done),
            Err(refusal) => {
                self.store.back_to(before);
                Err(refusal)
            }
        }
    }
}

impl<A: Allocator + Copy> TryClone<A> for Repo<A> {
    fn try_clone(&self, alloc: A) -> Result<Self, NoMemory> {
        let settings = self.settings;
        let store = self.store.try_clone(alloc)?;
        Ok(Repo {
            settings,
            store,
            alloc,
        })
    }
}

/// Whether a changeset in that phase, if it is known, may be obsolete.
fn can_be_obsolete(phase: Option<Phase>) -> bool
    ensures { result ≡ can_be_obsolete phase }
{
    match phase {
        None | Some(Phase::Public) => false,
        Some(Phase::Draft | Phase::Secret) => true,
    }
}

/// Whether the id is the predecessor of a marker.
fn is_predecessor<A: Allocator>(markers: &Markers<A>, node: &Node) -> bool
    ensures { result ≡ is_predecessor markers.now node.now }
{
    markers.is_predecessor(node)
}
