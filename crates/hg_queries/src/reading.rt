//! Commands that only read, each as a question to the repository.

ghost use Rattle.std.specs.Prelude.{◌≡◌, ℕ, List, None, IfOk, IfSome};
ghost use Rattle.std.specs.List.{AllZip};
ghost use Rattle.hg_parts.specs.Store.{repository_of, IsSound};
ghost use Rattle.hg_parts.specs.Repository.{Repository};
ghost use Rattle.hg_queries.specs.Copied.{asks_long as asks_for_long, have_long as some_are_long};
ghost use Rattle.hg_wireproto.specs.declared.batch.BatchCommand.{BatchCommand as AnyCommand};
ghost use Rattle.hg_wireproto.specs.Lookup.{begun_text, lookup_text};
ghost use Rattle.hg_queries.specs.Copied.{ArePieces, IsCommandPiece, IsCopyOf, IsOnePiece, IsPieceOf};
ghost use Rattle.hg_queries.specs.Texts.{IsBatchText, IsCommandText, IsTextOf};

use crate::long::{Piece, came_to, is_long, joined_pieces, piece_text};
use hg_http::{Read, argument, read_of, subject_of};
use hg_parts::Store;
use hg_repo::Repo;
use hg_serve::Question;
use hg_types::{NoMemory, Seq, Settings};
use hg_wireproto::{
    BatchCommand, BranchView, Seen, Since, begun_text, branchmap_text, heads_text, joined_answers,
    known_text, listkeys_text, lookup_text,
};
use std::alloc::{Allocator, Global};

/// One command that only reads, and what it asks about.
#[derive(Drop)]
pub struct ReadCommand<'a, A: Allocator> {
    pub alloc: A,
    pub read: Read,
    pub about: &'a [u8],
}

impl<A: Allocator + Copy> Question<A, Result<Seq<u8, A>, NoMemory>> for ReadCommand<'_, A> {
    ghost use Rattle.std.specs.Prelude.{IfOk};
    ghost use Rattle.hg_queries.specs.Texts.{IsTextOf};

    ghost tells = { λ q repo told. IfOk told (λ text. IsTextOf repo q.read q.about.now text) };

    fn ask(&self, repo: &Repo<A>) -> Result<Seq<u8, A>, NoMemory> {
        text_of(self.alloc, repo, self.read, self.about)
    }
}

/// Several commands, all answered from the same repository.
#[derive(Drop)]
pub struct Batch<'a, A: Allocator> {
    pub alloc: A,
    pub commands: &'a [BatchCommand<A>],
}

impl<A: Allocator + Copy> Question<A, Result<Seq<u8, A>, NoMemory>> for Batch<'_, A> {
    ghost use Rattle.std.specs.Prelude.{IfOk};
    ghost use Rattle.hg_queries.specs.Texts.{IsBatchText};

    ghost tells = { λ q repo told. IfOk told (λ text. IsBatchText repo q.commands.now text) };

    fn ask(&self, repo: &Repo<A>) -> Result<Seq<u8, A>, NoMemory> {
        let texts = texts_of(self.alloc, repo, self.commands)?;
        joined_answers(self.alloc, texts.as_slice())
    }
}

/// What is asked by one look: one command that reads, and what it asks about, or the commands of a batch.
#[derive(Clone, Copy)]
pub enum Asked<'a, A: Allocator = Global> {
    Command(Read, &'a [u8]),
    Commands(&'a [BatchCommand<A>]),
}

/// What a look brings of what is asked: a piece of each command, and what came to the view of which the other texts are
/// made.
#[derive(Drop)]
pub struct Brought<A: Allocator = Global> {
    pub pieces: Seq<Piece<A>, A>,
    pub came: Since<A>,
}

/// What has long answers. These are made from a view, which was of what is said here.
#[derive(Drop)]
pub struct LongQuestion<'a, 'b, A: Allocator> {
    pub alloc: A,
    pub asked: Asked<'a, A>,
    pub seen: Seen<'b>,
}

impl<A: Allocator + Copy> Question<A, Result<Brought<A>, NoMemory>> for LongQuestion<'_, '_, A> {
    ghost use Rattle.std.specs.Prelude.{IfOk};
    ghost use Rattle.hg_queries.specs.Copied.{IsBrought};

    ghost tells = { λ q repo told. IfOk told (λ brought.
        IsBrought repo q.seen.changesets q.seen.markers q.seen.obsolete.now q.asked brought) };

    fn ask(&self, repo: &Repo<A>) -> Result<Brought<A>, NoMemory> {
        let pieces = pieces_of(self.alloc, repo, self.asked)?;
        let came = came_to(self.alloc, self.seen, repo)?;
        Ok(Brought { pieces, came })
    }
}

/// The text of one command, of its piece and of a view.
pub fn long_text<A: Allocator + Copy>(
    alloc: A,
    view: &BranchView<A>,
    pieces: &[Piece<A>],
) -> Result<Seq<u8, A>, NoMemory>
    ensures { (repo : Repository A) (read : Read) (about : List ℕ) → IsCopyOf repo view.now
        → IsOnePiece repo read about pieces.now → IfOk result (λ text. IsTextOf repo read about text) }
{
    match pieces {
        [piece] => piece_text(alloc, view, piece),
        _ => Ok(Seq::new(alloc)),
    }
}

/// The answer of a batch, of the pieces of its commands and of a view.
pub fn batch_text<A: Allocator + Copy>(
    alloc: A,
    view: &BranchView<A>,
    pieces: &[Piece<A>],
) -> Result<Seq<u8, A>, NoMemory>
    ensures { (repo : Repository A) (commands : List (AnyCommand A)) → IsCopyOf repo view.now
        → AllZip (IsCommandPiece repo) commands pieces.now
        → IfOk result (λ text. IsBatchText repo commands text) }
{
    joined_pieces(alloc, view, pieces)
}

/// The pieces of what is asked.
fn pieces_of<A: Allocator + Copy>(
    alloc: A,
    repo: &Repo<A>,
    asked: Asked<'_, A>,
) -> Result<Seq<Piece<A>, A>, NoMemory>
    ensures { IfOk result (λ pieces. ArePieces repo.now asked.entry pieces) }
{
    match asked {
        Asked::Command(read, about) => one_piece(alloc, repo, read, about),
        Asked::Commands(commands) => each_piece(alloc, repo, commands),
    }
}

/// The piece of one command, alone.
fn one_piece<A: Allocator + Copy>(
    alloc: A,
    repo: &Repo<A>,
    read: Read,
    about: &[u8],
) -> Result<Seq<Piece<A>, A>, NoMemory>
    ensures { IfOk result (λ pieces. IsOnePiece repo.now read about.now pieces) }
{
    let mut pieces = Seq::new(alloc);
    pieces.push(piece_of(alloc, repo, read, about)?)?;
    Ok(pieces)
}

/// The pieces of the commands, in order.
fn each_piece<A: Allocator + Copy>(
    alloc: A,
    repo: &Repo<A>,
    commands: &[BatchCommand<A>],
) -> Result<Seq<Piece<A>, A>, NoMemory>
    ensures { IfOk result (λ pieces. AllZip (IsCommandPiece repo.now) commands.now pieces) }
{
    let mut pieces = Seq::new(alloc);
    for command in commands {
        pieces.push(command_piece(alloc, repo, command)?)?;
    }
    Ok(pieces)
}

/// The piece of a command of a batch. A name of no command that reads has none.
fn command_piece<A: Allocator + Copy>(
    alloc: A,
    repo: &Repo<A>,
    command: &BatchCommand<A>,
) -> Result<Piece<A>, NoMemory>
    ensures { IfOk result (λ piece. IsCommandPiece repo.now command.now piece) }
{
    match read_of(command.name.as_slice()) {
        Some(read) => {
            let about = argument(command.arguments.as_slice(), subject_of(read));
            piece_of(alloc, repo, read, about)
        }
        None => Ok(Piece::Short(Seq::new(alloc))),
    }
}

/// The piece of a command that reads, of this repository.
fn piece_of<A: Allocator + Copy>(
    alloc: A,
    repo: &Repo<A>,
    read: Read,
    about: &[u8],
) -> Result<Piece<A>, NoMemory>
    ensures { IfOk result (λ piece. IsPieceOf repo.now read about.now piece) }
{
    match read {
        Read::Heads => Ok(Piece::AllHeads),
        Read::BranchMap => Ok(Piece::Branches),
        Read::Lookup => match line_of(alloc, repo, about)? {
            Some(text) => Ok(Piece::Short(text)),
            None => Ok(Piece::Begun(Seq::copy_of(alloc, about)?)),
        },
        Read::Known | Read::ListKeys => Ok(Piece::Short(text_of(alloc, repo, read, about)?)),
    }
}

/// What `lookup` answers of a key; nothing where only the ids say what it names.
fn line_of<A: Allocator + Copy>(
    alloc: A,
    repo: &Repo<A>,
    key: &[u8],
) -> Result<Option<Seq<u8, A>>, NoMemory>
    ensures told { IfOk result (λ line. IfSome line (λ text.
        text ≡ lookup_text repo.now.rows repo.now.bookmarks key.now)) }
    ensures left { IfOk result (λ line. line ≡ None
        → lookup_text repo.now.rows repo.now.bookmarks key.now ≡ begun_text repo.now.rows key.now) }
{
    line_in(alloc, repo.settings(), repo.store(), key)
}

fn line_in<A: Allocator + Copy>(
    alloc: A,
    _settings: &Settings,
    store: &Store<A>,
    key: &[u8],
) -> Result<Option<Seq<u8, A>>, NoMemory>
    ensures told { let repo = repository_of _settings.now store.now in
        IfOk result (λ line. IfSome line (λ text. text ≡ lookup_text repo.rows repo.bookmarks key.now)) }
    ensures left { let repo = repository_of _settings.now store.now in
        IfOk result (λ line. line ≡ None
        → lookup_text repo.rows repo.bookmarks key.now ≡ begun_text repo.rows key.now) }
{
    lookup_text(alloc, &store.log, &store.bookmarks, key)
}

/// Whether one of a batch's commands has a long answer.
pub fn have_long<A: Allocator>(commands: &[BatchCommand<A>]) -> bool
    ensures { result ≡ some_are_long commands.now }
{
    commands.iter().any(|command| asks_long(command))
}

fn asks_long<A: Allocator>(command: &BatchCommand<A>) -> bool
    ensures { result ≡ asks_for_long command.now }
{
    match read_of(command.name.as_slice()) {
        Some(read) => is_long(
            read,
            argument(command.arguments.as_slice(), subject_of(read)),
        ),
        None => false,
    }
}

/// The texts of the commands, in order.
fn texts_of<A: Allocator + Copy>(
    alloc: A,
    repo: &Repo<A>,
    commands: &[BatchCommand<A>],
) -> Result<Seq<Seq<u8, A>, A>, NoMemory>
    ensures { IfOk result (λ texts. AllZip (IsCommandText repo.now) commands.now texts) }
{
    let mut texts = Seq::new(alloc);
    for command in commands {
        texts.push(command_text(alloc, repo, command)?)?;
    }
    Ok(texts)
}

/// The text of a command of a batch. A name of no command that reads has none.
fn command_text<A: Allocator + Copy>(
    alloc: A,
    repo: &Repo<A>,
    command: &BatchCommand<A>,
) -> Result<Seq<u8, A>, NoMemory>
    ensures { IfOk result (λ text. IsCommandText repo.now command.now text) }
{
    match read_of(command.name.as_slice()) {
        Some(read) => {
            let about = argument(command.arguments.as_slice(), subject_of(read));
            text_of(alloc, repo, read, about)
        }
        None => Ok(Seq::new(alloc)),
    }
}

/// The text of a command that reads, of this repository.
fn text_of<A: Allocator + Copy>(
    alloc: A,
    repo: &Repo<A>,
    read: Read,
    about: &[u8],
) -> Result<Seq<u8, A>, NoMemory>
    ensures { IfOk result (λ text. IsTextOf repo.now read about.now text) }
{
    text_in(alloc, repo.settings(), repo.store(), read, about)
}

fn text_in<A: Allocator + Copy>(
    alloc: A,
    settings: &Settings,
    store: &Store<A>,
    read: Read,
    about: &[u8],
) -> Result<Seq<u8, A>, NoMemory>
    requires { IsSound settings.now store.now }
    ensures { IfOk result (λ text. IsTextOf (repository_of settings.now store.now) read about.now text) }
{
    let log = &store.log;
    match read {
        Read::Heads => heads_text(alloc, &view_of(alloc, settings, store)?),
        Read::Known => known_text(alloc, log, about),
        Read::ListKeys => listkeys_text(
            alloc,
            log,
            &store.phases,
            &store.bookmarks,
            settings.publishing,
            about,
        ),
        Read::Lookup => lookup_in(alloc, settings, store, about),
        Read::BranchMap => branchmap_text(alloc, &view_of(alloc, settings, store)?),
    }
}

/// What `lookup` answers of a key. Where only the ids say it, that is by a view of its own.
fn lookup_in<A: Allocator + Copy>(
    alloc: A,
    settings: &Settings,
    store: &Store<A>,
    key: &[u8],
) -> Result<Seq<u8, A>, NoMemory>
    requires { IsSound settings.now store.now }
    ensures { let repo = repository_of settings.now store.now in
        IfOk result (λ text. text ≡ lookup_text repo.rows repo.bookmarks key.now) }
{
    match line_in(alloc, settings, store, key)? {
        Some(text) => Ok(text),
        None => begun_text(alloc, &view_of(alloc, settings, store)?, key),
    }
}

/// A view of the repository.
fn view_of<A: Allocator + Copy>(
    alloc: A,
    _settings: &Settings,
    store: &Store<A>,
) -> Result<BranchView<A>, NoMemory>
    requires { IsSound _settings.now store.now }
    ensures { IfOk result (λ view. IsCopyOf (repository_of _settings.now store.now) view) }
{
    BranchView::of(alloc, &store.log, &store.markers, &store.phases)
}
