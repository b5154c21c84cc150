//! The door of the program: a listener that says where it listens, and that is closed with its last use.

ghost use Rattle.std.specs.Prelude.{◌≡◌, None, ⊤};

use hg_tcp::{Acceptor, ServeTerms, ServedClients, ServiceNaming};
use std::alloc::Global;
use std::io;
use std::net::{TcpListener, TcpStream};

/// Accepts connections to a listener. After the last one, and after one that failed, the listener is
/// closed: who comes late is refused at once, and does not wait for a thread that is never there.
#[derive(Drop)]
pub struct Listening<'a, R: Print> {
    rt: &'a R,
    listener: Option<TcpListener>,
    left: u32,
    prints: bool,
}

impl<'a, R: Print> Listening<'a, R> {
    /// The door of so many connections to that listener. Where it is to print its address, it does so when it
    /// is first asked for a connection: the seed was run then, and memory for the queue was there.
    pub fn new(rt: &'a R, listener: TcpListener, connections: u32, prints: bool) -> Listening<'a, R>
        ensures left { result.left ≡ connections }
        ensures prints { result.prints ≡ prints }
    {
        Listening {
            rt,
            listener: Some(listener),
            left: connections,
            prints,
        }
    }

    /// Prints the address, where that is still to be done.
    fn print_address(&mut self) -> io::Result<()> {
        let rt = self.rt;
        if let (true, Some(listener)) = (self.prints, &self.listener) {
            let bound = listener.local_addr()?;
            println!(rt; "listening on {bound}")?;
        }
        self.prints = false;
        Ok(())
    }

    /// A connection, where the address was printed and the listener is open.
    fn next(&mut self) -> Option<TcpStream> {
        self.print_address().ok()?;
        let (stream, _) = self.listener.as_ref()?.accept().ok()?;
        Some(stream)
    }
}

impl<R: Print> Acceptor for Listening<'_, R> {
    ghost told = { λ _. None };

    ghost heard = { λ _ _. ⊤ };

    fn accept(&mut self) -> Option<TcpStream> {
        let accepted = self.next();
        self.left = self.left.saturating_sub(1);
        if self.left == 0 || accepted.is_none() {
            self.listener = None;
        }
        accepted
    }

    fn hear_start(&mut self, _terms: ServeTerms, started: bool) {
        if !started {
            self.listener = None;
        }
    }

    fn hear_end<J: ServiceNaming<Global>>(
        &mut self,
        _no_memory: bool,
        _clients: &ServedClients<J>,
    ) {}
}
