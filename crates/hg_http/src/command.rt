//! The commands of a client, and their arguments.

ghost use Rattle.std.specs.Prelude.{◌≡◌};
ghost use Rattle.std.specs.Str.{bytes_eq};
ghost use Rattle.hg_http.specs.Commands.{command_of as command_named, other_of as other_named};
ghost use Rattle.hg_http.specs.Commands.{read_of as read_named, subject_of as subject};
ghost use Rattle.hg_http.specs.Requests.{argument_in};

use hg_wireproto::{Field, value_of};
use std::alloc::Allocator;

/// What a client asks of the repository.
#[derive(Clone, Copy, Debug, PartialEq, Eq)]
pub enum Read {
    Heads,
    /// Which ids are known.
    Known,
    /// The keys of a namespace.
    ListKeys,
    /// The changeset that a key names.
    Lookup,
    /// The branches with their heads.
    BranchMap,
}

/// A command.
#[derive(Clone, Copy, Debug, PartialEq, Eq)]
pub enum Command {
    /// One that only reads.
    ReadOnly(Read),
    Capabilities,
    /// Several that only read.
    Batch,
    /// A push, which is the body.
    Unbundle,
    /// A push that sets one key.
    PushKey,
    /// A pull.
    GetBundle,
}

/// The value of an argument: of two of a name the later one, and the empty one where it is not there.
#[tactic(auto, unfolding(crate::specs::Requests::argument_in))]
pub fn argument<'a, A: Allocator>(fields: &'a [Field<A>], name: &[u8]) -> &'a [u8]
    ensures { result.now ≡ argument_in fields.now name.now }
{
    match value_of(fields, name) {
        Some(value) => value,
        None => b"".as_slice(),
    }
}

fn is_name(name: &[u8], other: &[u8]) -> bool
    ensures { result ≡ bytes_eq name.now other.now }
{
    name == other
}

/// What a command of that name asks for, if it is one that only reads.
#[tactic(auto, unfolding(crate::specs::Commands::read_of))]
pub fn read_of(name: &[u8]) -> Option<Read>
    ensures { result ≡ read_named name.now }
{
    if is_name(name, b"heads".as_slice()) {
        return Some(Read::Heads);
    }
    if is_name(name, b"known".as_slice()) {
        return Some(Read::Known);
    }
    if is_name(name, b"listkeys".as_slice()) {
        return Some(Read::ListKeys);
    }
    if is_name(name, b"lookup".as_slice()) {
        return Some(Read::Lookup);
    }
    if is_name(name, b"branchmap".as_slice()) {
        return Some(Read::BranchMap);
    }
    None
}

/// The name of the argument that says what is asked about. `heads` and `branchmap` have none.
pub fn subject_of(read: Read) -> &'static [u8]
    ensures { result.now ≡ subject read }
{
    match read {
        Read::Heads | Read::BranchMap => b"".as_slice(),
        Read::Known => b"nodes".as_slice(),
        Read::ListKeys => b"namespace".as_slice(),
        Read::Lookup => b"key".as_slice(),
    }
}

#[tactic(auto, unfolding(crate::specs::Commands::other_of))]
fn other_of(name: &[u8]) -> Option<Command>
    ensures { result ≡ other_named name.now }
{
    if is_name(name, b"capabilities".as_slice()) {
        return Some(Command::Capabilities);
    }
    if is_name(name, b"batch".as_slice()) {
        return Some(Command::Batch);
    }
    if is_name(name, b"unbundle".as_slice()) {
        return Some(Command::Unbundle);
    }
    if is_name(name, b"pushkey".as_slice()) {
        return Some(Command::PushKey);
    }
    if is_name(name, b"getbundle".as_slice()) {
        return Some(Command::GetBundle);
    }
    None
}

/// The command of that name, if it is one.
#[tactic(auto, unfolding(crate::specs::Commands::command_of))]
pub fn command_of(name: &[u8]) -> Option<Command>
    ensures { result ≡ command_named name.now }
{
    match read_of(name) {
        Some(read) => Some(Command::ReadOnly(read)),
        None => other_of(name),
    }
}
