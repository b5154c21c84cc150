//! Looks at the repository between pushes, what an answer rests on, and two clients that meet.

use super::race::{a_root, b_root};
use super::*;
use hg_serve::Question;

/// How many changesets there are.
#[derive(Drop)]
struct Count;

impl Question<Global, usize> for Count {
    ghost use Rattle.std.specs.Prelude.{◌≡◌, length};

    ghost tells = { λ q repo told. told ≡ length repo.rows };

    fn ask(&self, repo: &Repo) -> usize {
        repo.store().log.len()
    }
}

/// Pushes one part, and gives the answer, how many done pushes it rests on, and the client.
fn push<J: Naming<Global>, R: Wait + Abort>(
    rt: &R,
    server: &Server<J>,
    client: Client<J>,
    part: SentPart,
) -> (Answer, usize, Client<J>) {
    let mut sender = open(rt, server, client);
    put(rt, server, &mut sender, part);
    let ended = server.end(rt, sender, &mut NoProbe);
    server.answer_resting(rt, ended, &mut NoProbe)
}

/// A part that was read ahead.
fn ahead(part: BoxedPart) -> SentPart {
    SentPart::read_ahead(part)
}

/// Two clients push a root each, and the first a check that fails; a third one looks before, between and
/// after them.
pub fn looks<J: Naming<Global>, R: Wait + Abort>(
    rt: &R,
    alloc: Global,
    server: &Server<J>,
) -> Vec<Client<J>> {
    let mut reader = client(rt, server);
    let none = server.look_resting(rt, &mut reader, &Count);
    let (of_a, rests_a, a) = push(rt, server, client(rt, server), ahead(a_root(rt, alloc)));
    let one = server.look_resting(rt, &mut reader, &Count);
    let (of_b, rests_b, mut b) = push(rt, server, client(rt, server), ahead(b_root(rt, alloc)));
    let no_heads = part(rt, alloc, b"CHECK:HEADS", &NULL);
    let (raced, rests_raced, mut a) = push(rt, server, a, no_heads);
    server.meet(rt, &mut b, &mut a);
    let two = server.look_resting(rt, &mut b, &Count);
    assert!(rt; none == (0, 0) && one == (1, 1) && two == (2, 2));
    assert_eq!(rt; server.look_resting(rt, &mut a, &Count), (2, 2));
    assert_eq!(rt; server.limits().rows, 1_024);
    assert!(rt; is_done(&of_a, 1) && is_done(&of_b, 1) && is_race(&raced, 0));
    assert!(rt; rests_a == 1 && rests_b == 2 && rests_raced == 2);
    let mut clients = Vec::new(alloc);
    add(rt, &mut clients, a);
    add(rt, &mut clients, b);
    add(rt, &mut clients, reader);
    clients
}

// A pushes a root, B another one, A a check with Z that there is no changeset; a look before, after A
// and after all, where A and B have met. Result: 0, 1 and 2 changesets, each on as many done pushes; A's
// answer rests on 1 done push, B's on 2, and that of the check, a race, on 2.
#[test]
fn looks_see_what_was_answered(rt: HostRuntime) -> Result<(), Fail> {
    let closed = played(&rt, rt.alloc(), 8, settings(0, 1_024), Scene::Looks);
    assert_eq!(rt; closed.journal.as_slice(), [0, 1].as_slice());
    Ok(())
}
