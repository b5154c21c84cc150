//! A door that tells how it was used, as the trait promises: what the contract of `serve_repository` says of
//! doors is said of this one. Where memory for what it tells is refused, the process ends.

ghost use Rattle.std.specs.Prelude.{◌≡◌, Some, map, ⊤};
ghost use Rattle.hg_tcp.specs.Accepting.{Accepted, AllOver, Started};
ghost use Rattle.hg_tcp.specs.declared.tests.telling.Use.TheVariants.{Accepted as an_accept};
ghost use Rattle.hg_tcp.specs.declared.tests.telling.Use.TheVariants.{Started as a_start};
ghost use Rattle.hg_tcp.specs.declared.tests.telling.Use.TheVariants.{AllOver as an_end};

use super::*;
use std::process::Abort;

/// How a door was used.
#[derive(Clone, Copy, PartialEq, Eq)]
pub enum Use {
    Accepted(bool),
    Started(ServeTerms, bool),
    AllOver(bool),
}

/// Accepts so many connections to a listener; the accepts after them fail.
#[derive(Drop)]
pub struct TellingDoor<'a, R: Abort> {
    rt: &'a R,
    listener: &'a TcpListener,
    left: u32,
    uses: Vec<Use>,
}

impl<'a, R: Abort> TellingDoor<'a, R> {
    pub fn new(rt: &'a R, alloc: Global, listener: &'a TcpListener, left: u32) -> Self {
        TellingDoor {
            rt,
            listener,
            left,
            uses: Vec::new(alloc),
        }
    }

    /// How it was used.
    pub fn uses(&self) -> &[Use] {
        self.uses.as_slice()
    }
}

impl<'a, R: Abort> Acceptor for TellingDoor<'a, R> {
    ghost told = { λ d. Some (map (λ made. elim made [
      | an_accept done ↦ Accepted done
      | a_start terms started ↦ Started terms started
      | an_end refused ↦ AllOver refused
    ]) d.uses.items) };

    // what is told of the clients is known to proofs alone
    ghost heard = { λ _ _. ⊤ };

    fn accept(&mut self) -> Option<TcpStream> {
        let rt = self.rt;
        if self.left == 0 {
            self.uses.push(Use::Accepted(false)).expect(rt, "memory");
            return None;
        }
        self.left -= 1;
        match TcpListener::accept(self.listener) {
            Ok((stream, _)) => {
                self.uses.push(Use::Accepted(true)).expect(rt, "memory");
                Some(stream)
            }
            Err(_) => {
                self.uses.push(Use::Accepted(false)).expect(rt, "memory");
                None
            }
        }
    }

    fn hear_start(&mut self, terms: ServeTerms, started: bool) {
        let rt = self.rt;
        self.uses
            .push(Use::Started(terms, started))
            .expect(rt, "memory");
    }

    fn hear_end<J: ServiceNaming<Global>>(&mut self, no_memory: bool, _clients: &ServedClients<J>) {
        let rt = self.rt;
        self.uses.push(Use::AllOver(no_memory)).expect(rt, "memory");
    }
}

/// A door hears each start with the terms, each number in its range, and the end.
#[test]
fn a_door_hears_each_start(rt: HostRuntime) {
    let listener = listener(&rt);
    let first = client(&rt, &listener, EMPTY);
    let second = client(&rt, &listener, EMPTY);
    let asked = ServeTerms {
        connections: 2,
        capacity: 0,
        bundles: 20_000,
    };
    let used = ServeTerms {
        connections: 2,
        capacity: 1,
        bundles: 10_000,
    };
    let door = TellingDoor::new(&rt, rt.alloc(), &listener, 9);
    let mut report = Vec::new(rt.alloc());
    let repo = empty_repository(&rt, rt.alloc());
    let (status, door) = serve_repository(&rt, rt.alloc(), door, asked, repo, &mut report);
    let told = was_sent(rt.alloc(), &first, EMPTY) && was_sent(rt.alloc(), &second, EMPTY);
    assert!(rt;
        status == 0
            && told
            && door.uses()
                == [
                    Use::Accepted(true),
                    Use::Started(used, true),
                    Use::Accepted(true),
                    Use::Started(used, true),
                    Use::AllOver(false),
                ]
                .as_slice()
    );
}

/// After an accept that fails the door is asked no more, and hears the end.
#[test]
fn a_door_that_fails_is_asked_no_more(rt: HostRuntime) {
    let listener = listener(&rt);
    let first = client(&rt, &listener, EMPTY);
    let door = TellingDoor::new(&rt, rt.alloc(), &listener, 1);
    let mut report = Vec::new(rt.alloc());
    let repo = empty_repository(&rt, rt.alloc());
    let asked = terms(3, 1);
    let (status, door) = serve_repository(&rt, rt.alloc(), door, asked, repo, &mut report);
    assert!(rt;
        status == 3
            && was_sent(rt.alloc(), &first, EMPTY)
            && door.uses()
                == [
                    Use::Accepted(true),
                    Use::Started(asked, true),
                    Use::Accepted(false),
                    Use::AllOver(false),
                ]
                .as_slice()
    );
}
