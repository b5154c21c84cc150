//! Memory that is refused while a connection is served: each answer is the one that says so, and the
//! connection goes on.

ghost use Rattle.std.specs.Prelude.{◌≡◌, []};
ghost use Rattle.hg_store.specs.Log.{IsSettled};
ghost use Rattle.hg_serve.specs.Desks.{OpensWith};
ghost use Rattle.hg_commit.specs.Receipts.{IsTallyOf};

use super::*;
use hg_durable::Keeping;
use hg_serve::Client;
use hg_web::{Host, Policy, Verdict, Wire};
use http_server::{Config, Connection, serve};
use linked_list_allocator::LocalHeap;

/// What came of a conversation.
#[derive(Drop)]
enum Came {
    /// No server was made.
    Unmade,
    /// The connection ended before its last request was answered.
    Ended,
    /// So it did since the store failed: the ledger had no memory to write a batch.
    NotKept,
    Answered(Answered),
}

/// What was answered.
#[derive(Drop)]
struct Answered {
    told: Vec<u8>,
    /// What was answered on a connection after it, when the memory was there again.
    after: Vec<u8>,
}

/// What is said to a server.
#[derive(Clone, Copy)]
struct Talk<'a> {
    /// With all memory of the heap.
    before: &'a [u8],
    /// While so many blocks of 64 bytes of it are left, if not all.
    asked: &'a [u8],
    left: Option<usize>,
    /// When all is given back.
    after: &'a [u8],
}

/// What a connection is served by.
fn host_over<'a, J: Storing<A>, A: Allocator, R: Wait>(
    server: &'a Server<J, A>,
    ledger: &'a Ledger<J, Memory, A>,
    shelf: &'a Mutex<ViewCache<J, A>>,
    rt: &'a R,
    alloc: A,
) -> Host<'a, J, Memory, R, A> {
    let keeping = Keeping {
        server,
        ledger,
        rt,
        alloc,
    };
    Host { keeping, shelf }
}

/// A policy that there is none of.
#[derive(Drop)]
struct Untold;

impl<A: Allocator> Policy<A> for Untold {
    ghost use Rattle.std.specs.Prelude.{None};

    ghost asked = { λ _. None };

    fn let_through(&mut self, _user: Option<&[u8]>, _bundle: &[u8]) -> Verdict<A> {
        Verdict::NoAnswer
    }
}

/// Serves one connection, and says whether all went well.
fn converse<J: Storing<A>, A: Allocator + Copy, R: RandomSource + Wait + Abort>(
    global: Global,
    host: Host<'_, J, Memory, R, A>,
    terms: &WebTerms<'_, Words>,
    client: KeptClient<J, A>,
    asked: &[u8],
    told: &mut Vec<u8>,
) -> (KeptClient<J, A>, Result<(), Came>) {
    let mut connection = Connection::new(global, state(host.keeping.rt), Config::default());
    let mut tally = Tally::new();
    let mut wire = Wire::new(host, terms, global, client, &mut tally, None::<Untold>);
    let mut reader = asked;
    let done = serve(&mut connection, &mut wire, &mut reader, told);
    let (client, _policy, has_failed) = wire.into_parts();
    let went = match (has_failed, done) {
        (true, _) => Err(Came::NotKept),
        (false, Ok(())) => Ok(()),
        (false, Err(_)) => Err(Came::Ended),
    };
    (client, went)
}

/// Blocks of 64 bytes, as many as there are except so many.
fn taken<A: Allocator + Copy, R: Abort>(
    rt: &R,
    global: Global,
    alloc: A,
    left: Option<usize>,
) -> Vec<Vec<u8, A>> {
    let mut blocks = Vec::new(global);
    let Some(left) = left else {
        return blocks;
    };
    for _ in 0..10_000 {
        match Vec::<u8, A>::with_capacity(alloc, 64) {
            Ok(block) => assert!(rt; blocks.push(block).is_ok()),
            Err(_) => break,
        }
    }
    for _ in 0..left {
        drop(blocks.pop());
    }
    blocks
}

/// Whether all of three conversations went well, or what came of the first that did not.
fn all_well(
    first: Result<(), Came>,
    second: Result<(), Came>,
    third: Result<(), Came>,
) -> Result<(), Came> {
    first?;
    second?;
    third
}

/// Serves three connections in turn by a client, and gives that client, the one that the shelf had, and what came of
/// them.
fn converse_thrice<J: Storing<A>, A: Allocator + Copy, R: RandomSource + Wait + Abort>(
    rt: &R,
    global: Global,
    alloc: A,
    server: &Server<J, A>,
    ledger: &Ledger<J, Memory, A>,
    talk: Talk<'_>,
) -> (Client<J, A>, Client<J, A>, Came) {
    let budget = Budget::new(1_000_000);
    let terms = WebTerms {
        shown: &Words { tail: 0 },
        budget: &budget,
        address: ANYWHERE,
        user: None,
        pull: None,
        also: None,
        stored: 0,
    };
    let shelf = Mutex::new(ViewCache::new(alloc, client_of(rt, server)));
    let client = KeptClient::new(client_of(rt, server));
    let host = host_over(server, ledger, &shelf, rt, alloc);
    let mut first_told = Vec::new(global);
    let (client, first) = converse(global, host, &terms, client, talk.before, &mut first_told);
    let mut told = Vec::new(global);
    let ballast = taken(rt, global, alloc, talk.left);
    let host = host_over(server, ledger, &shelf, rt, alloc);
    let (client, second) = converse(global, host, &terms, client, talk.asked, &mut told);
    drop(ballast);
    let mut after = Vec::new(global);
    let host = host_over(server, ledger, &shelf, rt, alloc);
    let (client, third) = converse(global, host, &terms, client, talk.after, &mut after);
    let (client, _receipt) = client.into_parts();
    let came = came_of(all_well(first, second, third), Answered { told, after });
    (client, shelf.into_inner().into_witness(), came)
}

fn came_of(went: Result<(), Came>, answered: Answered) -> Came {
    match went {
        Ok(()) => Came::Answered(answered),
        Err(came) => came,
    }
}

/// Adds a client to others.
fn add<J: Storing<A>, A: Allocator, R: Abort>(
    rt: &R,
    clients: &mut Vec<Client<J, A>, A>,
    client: Client<J, A>,
) {
    match clients.push(client) {
        Ok(()) => {}
        Err(AllocFailed { value: _client, .. }) => panic!(rt; "no memory for a client"),
    }
}

/// Serves three connections in turn over a heap of the server's own. A call can pick a name only where no bound names
/// a lifetime, so what serves under a name knows a heap as an allocator alone.
fn converse_over<J: Storing<A>, A: Allocator + Copy, R: RandomSource + Wait + Abort>(
    rt: &R,
    global: Global,
    alloc: A,
    queue: PartQueue<A>,
    taker: Taker<A>,
    repo: Repo<A>,
    log: Log<Memory>,
    counts: hg_commit::Promises<A>,
    talk: Talk<'_>,
) -> Option<Came>
    requires begins { OpensWith J.table J.capacity J.first queue taker repo }
    requires settled { IsSettled ⟦<Memory as Device>⟧.seen ⟦<Memory as Device>⟧.may_leave J.head J.stored log }
    requires opened { J.opened ≡ ⟦<Memory as Device>⟧.moment log.device }
    requires tally { IsTallyOf J.tally J.name J.parts counts × (counts.promises ≡ []) }
{
    let mut clients = Vec::with_capacity(alloc, 4).ok()?;
    let server = Server::<J, A>::new(alloc, repo, queue, taker);
    let witnesses = (client_of(rt, &server), client_of(rt, &server));
    let mut told = None;
    let parts = match Ledger::new(alloc, log, witnesses, counts) {
        Ok(ledger) => {
            let (client, witness, came) = converse_thrice(
                rt, global, alloc, &server, &ledger, talk,
            );
            add(rt, &mut clients, client);
            add(rt, &mut clients, witness);
            told = Some(came);
            ledger.into_parts()
        }
        Err(parts) => parts,
    };
    let Parts {
        log: _log,
        kept: _,
        is_broken: _,
        witnesses: (first, second),
        tally: _,
    } = parts;
    add(rt, &mut clients, first);
    add(rt, &mut clients, second);
    let closed = server.close(clients);
    drop(closed);
    told
}

fn came_over<R: RandomSource + Wait + Abort>(
    rt: &R,
    global: Global,
    heap: &LocalHeap,
    talk: Talk<'_>,
) -> Came {
    let Ok((queue, taker)) = PartQueue::new(heap, 1) else {
        return Came::Unmade;
    };
    let Ok(counts) = hg_commit::Promises::new(heap) else {
        return Came::Unmade;
    };
    let repo = Repo::new(heap, settings(), state(rt));
    let Some(log) = new_log(global, 1_000_000) else {
        return Came::Unmade;
    };
    converse_over::<Brand, _, R>(rt, global, heap, queue, taker, repo, log, counts, talk).unwrap_or(
        Came::Unmade,
    )
}

/// The answers, one by one: each begins as all do.
fn answers_of<'a, R: Abort>(rt: &R, alloc: Global, told: &'a [u8]) -> Vec<&'a [u8]> {
    let mut answers = Vec::new(alloc);
    let mut start = 0usize;
    for place in 1..told.len() {
        if told[place..].starts_with(b"HTTP/1.1 ") {
            add_answer(rt, &mut answers, told.get(start..place));
            start = place;
        }
    }
    add_answer(rt, &mut answers, told.get(start..));
    answers
}

fn add_answer<'a, R: Abort>(rt: &R, answers: &mut Vec<&'a [u8]>, answer: Option<&'a [u8]>) {
    match answer {
        Some(answer) => assert!(rt; answers.push(answer).is_ok()),
        None => panic!(rt; "no answer"),
    }
}

/// Memory was refused before anything was changed.
const OUT_OF_MEMORY: &[u8] =
    b"HTTP/1.1 200 OK\r\ncontent-type: application/hg-error\r\ncontent-length: 14\r\n\r\nout of memory\n";

/// No push could be opened.
const NOT_OPENED: &[u8] =
    b"HTTP/1.1 200 OK\r\ncontent-type: application/hg-error\r\ncontent-length: 26\r\n\r\n\
    no push can be opened now\n";

/// A push ended, and how is not reported.
const NO_ANSWER: &[u8] =
    b"HTTP/1.1 200 OK\r\ncontent-type: application/hg-error\r\ncontent-length: 34\r\n\r\n\
    there is no memory for the answer\n";

/// The reply to a push that was aborted since memory was refused.
const ABORTED: &[u8] =
    b"HTTP/1.1 200 OK\r\ncontent-type: application/mercurial-0.1\r\ncontent-length: 60\r\n\r\n\
    HG20\0\0\0\0\0\0\0\x28\x0bERROR:ABORT\0\0\0\0\x01\0\x07\x0dmessageout of memory\0\0\0\0\0\0\0\0";

/// The reply to a push that was aborted since memory was refused while its bytes were read.
const NOT_READ: &[u8] =
    b"HTTP/1.1 200 OK\r\ncontent-type: application/mercurial-0.1\r\ncontent-length: 62\r\n\r\n\
    HG20\0\0\0\0\0\0\0\x2a\x0bERROR:ABORT\0\0\0\0\x01\0\x07\x0fmessagestream fault 11\0\0\0\0\0\0\0\0";

/// An empty text.
const NOTHING: &[u8] =
    b"HTTP/1.1 200 OK\r\ncontent-type: application/mercurial-0.1\r\ncontent-length: 0\r\n\r\n";

/// Whether a push was done, if its answer says so. `None` where it is no answer to a push.
fn pushed(answer: &[u8], done: &[u8]) -> Option<Option<bool>> {
    if answer == done {
        return Some(Some(true));
    }
    if answer == NO_ANSWER {
        return Some(None);
    }
    let refusals = [ABORTED, NOT_READ, NOT_OPENED, OUT_OF_MEMORY];
    match refusals.iter().any(|refusal| *refusal == answer) {
        true => Some(Some(false)),
        false => None,
    }
}

/// Heaps of rising size: one growth after another is refused, each request is answered all the same, and what
/// a push is answered is what comes of it. Its record takes no memory, so none is refused while this small one is read.
#[test]
fn each_growth_is_refused(rt: HostRuntime) -> Result<(), Fail> {
    let alloc = rt.alloc();
    let full = answers_of(&rt, alloc, TOLD_0);
    assert!(rt; full.len() == 7);
    let (mut unmade, mut whole, mut aborted) = (0usize, 0usize, 0usize);
    let mut refused = [0usize; 7];
    let talk = Talk {
        before: b"",
        asked: ASKED_0,
        left: None,
        after: b"GET /?cmd=listkeys&namespace=phases HTTP/1.1\r\nhost: a\r\n\r\n",
    };
    for sixteens in 1..1_400usize {
        let heap = LocalHeap::new(alloc, sixteens * 16)?;
        match came_over(&rt, alloc, &heap, talk) {
            Came::Unmade => unmade = unmade.saturating_add(1),
            Came::NotKept => {}
            Came::Ended => panic!(rt; "an answer is missing at {sixteens}"),
            Came::Answered(Answered { told, after }) => {
                let answers = answers_of(&rt, alloc, told.as_slice());
                assert!(rt; answers.len() == 7, "{sixteens}");
                let push = answers[5];
                let Some(is_pushed) = pushed(push, full[5]) else {
                    panic!(rt; "no answer to a push at {sixteens}");
                };
                aborted = aborted.saturating_add(usize::from(push == ABORTED));
                for place in 0..7usize {
                    let answer = answers[place];
                    let is_told = answer == full[place] && (place != 6 || is_pushed != Some(false));
                    let is_before = place == 6 && answer == NOTHING && is_pushed != Some(true);
                    if answer == OUT_OF_MEMORY || (place == 5 && is_pushed != Some(true)) {
                        refused[place] = refused[place].saturating_add(1);
                    } else {
                        assert!(rt; is_told || is_before, "the answer {place} at {sixteens}");
                    }
                }
                let last = after.as_slice();
                let told_then = if is_pushed == Some(true) {
                    last == full[6]
                } else {
                    last == NOTHING
                };
                assert!(rt;
                    told_then || last == OUT_OF_MEMORY || is_pushed.is_none(),
                    "{sixteens}"
                );
                whole = whole.saturating_add(usize::from(told.as_slice() == TOLD_0));
            }
        }
    }
    assert!(rt;
        unmade > 0 && whole > 0 && aborted > 0,
        "{unmade} {whole} {aborted}"
    );
    // the keys of an empty repository take no memory
    for place in [0usize, 1, 2, 5] {
        assert!(rt; refused[place] > 0, "{place} of {refused:?}");
    }
    Ok(())
}

/// Requests of all kinds after a first push. The first sets a bookmark.
const ALL: &[u8] =
    b"POST /?cmd=pushkey HTTP/1.1\r\nhost: a\r\ncontent-type: application/mercurial-0.1\r\n\
    x-hgarg-1: namespace=bookmarks&key=main&old=&new=4b7a786830f0205358d0cc466c3dfab83c3aab22\r\n\
    content-length: 0\r\n\r\n\
    GET /?cmd=heads HTTP/1.1\r\nhost: a\r\n\r\n\
    GET /?cmd=known&nodes=4b7a786830f0205358d0cc466c3dfab83c3aab22+x HTTP/1.1\r\nhost: a\r\n\r\n\
    GET /?cmd=listkeys&namespace=bookmarks HTTP/1.1\r\nhost: a\r\n\r\n\
    GET /?cmd=listkeys&namespace=phases HTTP/1.1\r\nhost: a\r\n\r\n\
    GET /?cmd=branchmap HTTP/1.1\r\nhost: a\r\n\r\n\
    GET /?cmd=lookup&key=30b6 HTTP/1.1\r\nhost: a\r\n\r\n\
    GET /?cmd=batch&cmds=heads+%3Bbranchmap+%3Blookup+key%3D4 HTTP/1.1\r\nhost: a\r\n\r\n\
    GET /?cmd=batch&cmds=heads+%3Bknown+nodes%3D HTTP/1.1\r\nhost: a\r\n\r\n\
    GET /?cmd=getbundle HTTP/1.1\r\nhost: a\r\n\r\n\
    GET /?cmd=between HTTP/1.1\r\nhost: a\r\n\r\n\
    GET /metrics HTTP/1.1\r\nhost: a\r\n\r\n";

/// What they are answered, where there is memory.
const TOLD_ALL: [&[u8]; 12] = [
    b"\r\n1\n",
    b"\r\n30b653f69f5c5d07bc0bd38d172d2c1224b7be72\n",
    b"\r\n10",
    b"\r\nmain\t4b7a786830f0205358d0cc466c3dfab83c3aab22",
    b"\r\n4b7a786830f0205358d0cc466c3dfab83c3aab22\t1",
    b"\r\ndefault 30b653f69f5c5d07bc0bd38d172d2c1224b7be72",
    b"\r\n1 30b653f69f5c5d07bc0bd38d172d2c1224b7be72\n",
    b"\r\n30b653f69f5c5d07bc0bd38d172d2c1224b7be72\n;default 30b653f69f5c5d07bc0bd38d172d2c1224b7be72;\
        1 4b7a786830f0205358d0cc466c3dfab83c3aab22\n",
    b"\r\n30b653f69f5c5d07bc0bd38d172d2c1224b7be72\n;",
    b"\r\nthis address takes pushes alone\n",
    b"HTTP/1.1 404 Not Found\r\ncontent-length: 0\r\n\r\n",
    b"\r\nup 1\n",
];

/// After a first push so many blocks of the heap are left: each request is answered, by what it asks for or
/// that memory was refused. When the memory is there again, all is answered.
#[test]
fn each_command_is_refused_memory(rt: HostRuntime) -> Result<(), Fail> {
    let alloc = rt.alloc();
    let mut refused = [0usize; 12];
    let mut whole = 0usize;
    let asked = places_after(ALL);
    for blocks in 0..200usize {
        let heap = LocalHeap::new(alloc, 48_000)?;
        let talk = Talk {
            before: ASKED_0,
            asked: ALL,
            left: Some(blocks),
            after: asked,
        };
        match came_over(&rt, alloc, &heap, talk) {
            Came::NotKept => {}
            Came::Unmade | Came::Ended => panic!(rt; "an answer is missing at {blocks}"),
            Came::Answered(Answered { told, after }) => {
                let answers = answers_of(&rt, alloc, told.as_slice());
                assert!(rt; answers.len() == 12, "{blocks}");
                let key = answers[0];
                let is_set = key.ends_with(TOLD_ALL[0]);
                let mut here = 0usize;
                for place in 0..12usize {
                    let answer = answers[place];
                    if answer.ends_with(TOLD_ALL[place]) {
                        here = here.saturating_add(1);
                    } else if answer == OUT_OF_MEMORY {
                        refused[place] = refused[place].saturating_add(1);
                    } else if place == 0 {
                        let is_told = key.ends_with(b"\r\n0\n")
                            || key == NOT_OPENED
                            || key == NO_ANSWER;
                        assert!(rt; is_told, "{blocks}");
                        refused[0] = refused[0].saturating_add(1);
                    } else {
                        let is_before = place == 3 && answer == NOTHING && !is_set;
                        assert!(rt; is_before, "the answer {place} at {blocks}");
                    }
                }
                whole = whole.saturating_add(usize::from(here == 12));
                let again = answers_of(&rt, alloc, after.as_slice());
                assert!(rt; again.len() == 11, "{blocks}");
                for place in 1..12usize {
                    let answer = again[place - 1];
                    if place == 3 && !is_set {
                        let is_known = answer == NOTHING || answer.ends_with(TOLD_ALL[3]);
                        assert!(rt; is_known, "{blocks}");
                        // only where the answer to the key was lost may it be set
                        assert!(rt; answer == NOTHING || key == NO_ANSWER, "{blocks}");
                    } else {
                        assert!(rt;
                            answer.ends_with(TOLD_ALL[place]),
                            "the answer {place} after {blocks}"
                        );
                    }
                }
            }
        }
    }
    assert!(rt; whole > 0);
    for place in 0..12usize {
        assert!(rt; refused[place] > 0, "{place} of {refused:?}");
    }
    Ok(())
}

/// All requests but the first.
fn places_after(asked: &[u8]) -> &[u8] {
    match asked
        .windows(4)
        .position(|window| window == b"GET ".as_slice())
    {
        Some(place) => asked.get(place..).unwrap_or(b""),
        None => b"",
    }
}
