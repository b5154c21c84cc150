//! What accepts connections, and hears what becomes of them.

ghost use Rattle.std.specs.Prelude.{◌∷◌, [], List, Option, None, is_some, ⊤};
ghost use Rattle.hg_parts.specs.declared.item.Taken.{Taken};
ghost use Rattle.hg_connection.specs.Devices.{TellsMore};
ghost use Rattle.hg_tcp.specs.Accepting.{DoorUse, Accepted, AllOver, Started};

use crate::clients::ServedClients;
use crate::naming::ServiceNaming;
use crate::terms::ServeTerms;
use std::alloc::Global;
use std::net::{TcpListener, TcpStream};

/// What accepts connections, and hears what becomes of them. A contract speaks of what it reports: how it was
/// used, in order, and which histories the clients had seen that it heard of at the end.
pub trait Acceptor {
    ghost use Rattle.std.specs.declared.alloc.Global.{Global as Heap};

    ghost told: { Self → Option (List DoorUse) };

    ghost heard: { Self → List (List (Taken Heap)) → Type 0 };

    /// Accepts a connection. `None` where that failed.
    fn accept(&mut self) -> Option<TcpStream>
        ensures { TellsMore (told self.old) (told self.new) (Accepted (is_some result) ∷ []) };

    /// Hears whether a thread was started that serves, on these terms, the connection accepted last.
    fn hear_start(&mut self, terms: ServeTerms, started: bool)
        ensures { TellsMore (told self.old) (told self.new) (Started terms started ∷ []) };

    /// Hears, when all connections are over, whether memory was refused for one, and of the clients that were
    /// served.
    fn hear_end<J: ServiceNaming<Global>>(&mut self, no_memory: bool, clients: &ServedClients<J>)
        ensures told { TellsMore (told self.old) (told self.new) (AllOver no_memory ∷ []) }
        ensures heard { heard self.new clients.now };
}

/// A listener does not say how it was used.
impl Acceptor for &TcpListener {
    ghost told = { λ _. None };

    ghost heard = { λ _ _. ⊤ };

    fn accept(&mut self) -> Option<TcpStream> {
        match TcpListener::accept(self) {
            Ok((stream, _)) => Some(stream),
            Err(_) => None,
        }
    }

    fn hear_start(&mut self, _terms: ServeTerms, _started: bool) {}

    fn hear_end<J: ServiceNaming<Global>>(
        &mut self,
        _no_memory: bool,
        _clients: &ServedClients<J>,
    ) {}
}
