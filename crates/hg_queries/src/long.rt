//! What has a word for each head, or wants the ids in their order: it is made from a view of the changesets, when the
//! server's lock is given back.

ghost use Rattle.std.specs.Prelude.{◌≡◌, true, IfOk};
ghost use Rattle.std.specs.List.{AllZip, list_any};
ghost use Rattle.hg_parts.specs.Store.{repository_of, IsSound};
ghost use Rattle.hg_wireproto.specs.BranchMap.{IsBranchMap};
ghost use Rattle.hg_wireproto.specs.Heads.{IsHeadsText};
ghost use Rattle.hg_queries.specs.Copied.{is_branches, is_heads, is_long as goes_long, HasTextFor};
ghost use Rattle.hg_queries.specs.Copied.{IsCameTo, IsJoinedOf, IsOfPiece};

use hg_http::Read;
use hg_parts::Store;
use hg_repo::Repo;
use hg_types::{NoMemory, Seq, Settings};
use hg_wireproto::{
    BranchView, Seen, Since, begun_text, branchmap_text, heads_text, is_beginning, joined_answers,
};
use std::alloc::{Allocator, Global};

/// What a command is answered: a text, in the form of `hg_wireproto`, or what is made of a view, the heads, the branches
/// with their heads, or what changeset a key begins, which is no bookmark.
#[derive(Drop)]
pub enum Piece<A: Allocator = Global> {
    Short(Seq<u8, A>),
    AllHeads,
    Branches,
    Begun(Seq<u8, A>),
}

/// Whether the command's answer has a word for each head, as those of `heads` and `branchmap` have, or takes long to
/// find, as that to `lookup` of a beginning.
pub fn is_long(read: Read, about: &[u8]) -> bool
    ensures { result ≡ goes_long read about.now }
{
    match read {
        Read::Heads | Read::BranchMap => true,
        Read::Lookup => is_beginning(about),
        Read::Known | Read::ListKeys => false,
    }
}

/// What came to a view of what was seen. It costs by what came, and by how many changesets were obsolete.
pub fn came_to<A: Allocator + Copy>(
    alloc: A,
    seen: Seen<'_>,
    repo: &Repo<A>,
) -> Result<Since<A>, NoMemory>
    ensures { IfOk result (λ came. IsCameTo repo.now seen.entry.changesets seen.entry.markers
        seen.entry.obsolete.now came) }
{
    came_in(alloc, seen, repo.settings(), repo.store())
}

fn came_in<A: Allocator + Copy>(
    alloc: A,
    seen: Seen<'_>,
    _settings: &Settings,
    store: &Store<A>,
) -> Result<Since<A>, NoMemory>
    requires { IsSound _settings.now store.now }
    ensures { IfOk result (λ came. IsCameTo (repository_of _settings.now store.now) seen.entry.changesets
        seen.entry.markers seen.entry.obsolete.now came) }
{
    Since::of(alloc, seen, &store.log, &store.markers, &store.phases)
}

/// The texts of pieces, in order. Those of the heads and of the branches are made once, where a piece asks for them, and
/// copied for each that does.
fn texts_of<A: Allocator + Copy>(
    alloc: A,
    view: &BranchView<A>,
    pieces: &[Piece<A>],
) -> Result<Seq<Seq<u8, A>, A>, NoMemory>
    ensures { IfOk result (λ texts. AllZip (IsOfPiece view.now) pieces.now texts) }
{
    let heads = heads_for(alloc, view, pieces)?;
    let branches = branches_for(alloc, view, pieces)?;
    let mut texts = Seq::new(alloc);
    for piece in pieces {
        texts.push(text_of(alloc, view, heads.as_slice(), branches.as_slice(), piece)?)?;
    }
    Ok(texts)
}

/// The text of the heads, where a piece asks for it.
fn heads_for<A: Allocator + Copy>(
    alloc: A,
    view: &BranchView<A>,
    pieces: &[Piece<A>],
) -> Result<Seq<u8, A>, NoMemory>
    ensures { IfOk result (λ text. list_any is_heads pieces.now ≡ true → IsHeadsText view.now.rows text) }
{
    if ask_heads(pieces) {
        return heads_text(alloc, view);
    }
    Ok(Seq::new(alloc))
}

/// The text of the branches with their heads, where a piece asks for it.
fn branches_for<A: Allocator + Copy>(
    alloc: A,
    view: &BranchView<A>,
    pieces: &[Piece<A>],
) -> Result<Seq<u8, A>, NoMemory>
    ensures { IfOk result (λ text. list_any is_branches pieces.now ≡ true
        → IsBranchMap view.now.rows view.now.markers view.now.phases text) }
{
    if ask_branches(pieces) {
        return branchmap_text(alloc, view);
    }
    Ok(Seq::new(alloc))
}

/// Whether a piece asks for the heads.
fn ask_heads<A: Allocator>(pieces: &[Piece<A>]) -> bool
    ensures { result ≡ list_any is_heads pieces.now }
{
    pieces.iter().any(|piece| asks_heads(piece))
}

fn asks_heads<A: Allocator>(piece: &Piece<A>) -> bool
    ensures { result ≡ is_heads piece.now }
{
    match piece {
        Piece::AllHeads => true,
        Piece::Short(_) | Piece::Branches | Piece::Begun(_) => false,
    }
}

/// Whether a piece asks for the branches.
fn ask_branches<A: Allocator>(pieces: &[Piece<A>]) -> bool
    ensures { result ≡ list_any is_branches pieces.now }
{
    pieces.iter().any(|piece| asks_branches(piece))
}

fn asks_branches<A: Allocator>(piece: &Piece<A>) -> bool
    ensures { result ≡ is_branches piece.now }
{
    match piece {
        Piece::Branches => true,
        Piece::Short(_) | Piece::AllHeads | Piece::Begun(_) => false,
    }
}

/// The text of a piece, where those of the heads and of the branches are made.
fn text_of<A: Allocator + Copy>(
    alloc: A,
    view: &BranchView<A>,
    heads: &[u8],
    branches: &[u8],
    piece: &Piece<A>,
) -> Result<Seq<u8, A>, NoMemory>
    requires { HasTextFor view.now heads.now branches.now piece.now }
    ensures { IfOk result (λ text. IsOfPiece view.now piece.now text) }
{
    match piece {
        Piece::AllHeads => Seq::copy_of(alloc, heads),
        Piece::Branches => Seq::copy_of(alloc, branches),
        Piece::Short(_) | Piece::Begun(_) => piece_text(alloc, view, piece),
    }
}

/// The text of one piece.
pub fn piece_text<A: Allocator + Copy>(
    alloc: A,
    view: &BranchView<A>,
    piece: &Piece<A>,
) -> Result<Seq<u8, A>, NoMemory>
    ensures { IfOk result (λ text. IsOfPiece view.now piece.now text) }
{
    match piece {
        Piece::Short(text) => Seq::copy_of(alloc, text.as_slice()),
        Piece::AllHeads => heads_text(alloc, view),
        Piece::Branches => branchmap_text(alloc, view),
        Piece::Begun(key) => begun_text(alloc, view, key.as_slice()),
    }
}

/// The answer of a batch, of its pieces.
pub fn joined_pieces<A: Allocator + Copy>(
    alloc: A,
    view: &BranchView<A>,
    pieces: &[Piece<A>],
) -> Result<Seq<u8, A>, NoMemory>
    ensures { IfOk result (λ text. IsJoinedOf view.now pieces.now text) }
{
    let texts = texts_of(alloc, view, pieces)?;
    joined_answers(alloc, texts.as_slice())
}
