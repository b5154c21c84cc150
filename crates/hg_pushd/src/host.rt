//! A store that is served over HTTP: how it begins, and what is printed of it.

ghost use Rattle.std.specs.Prelude.{IfOk};
ghost use Rattle.hg_recovery.specs.Opening.{IsOpened};

use crate::opened::{not_opened, open_store, store_failed};
use crate::standby::stand_by;
use hg_commands::{Hosting, device_status, tell};
use hg_host::{Ended, HookAddress, HookTerms, HostTerms, HostingRuntime, Over, serve_store};
use hg_recovery::{OpeningFault, Recovered};
use hg_store::{Device, HostFile, StoreFile};
use std::fs::{File, Files};
use std::hash::RandomState;
use std::io;
use std::net::{Net, SocketAddr, TcpListener, TcpStream};
use std::sync::Wait;

/// Opens the store, binds the address, says where it listens, and serves until the store fails, in this order; a
/// standby binds first, and opens the store once no other process has it. Gives the status; what ends it is printed.
/// Nothing is opened where the address of the hook is none.
pub fn host<R: Files<File = File> + AllocGlobal + HostingRuntime>(
    rt: &R,
    state: RandomState,
    hosting: &Hosting<'_>,
) -> u8 {
    if !is_hook_read(hosting) {
        let _ = eprintln!(rt; "hg_pushd: --hook wants http://HOST:PORT/PATH");
        return 2;
    }
    if hosting.standby {
        return stand_by(rt, hosting);
    }
    match open(rt, state, hosting) {
        Ok(recovered) => listen(rt, hosting, recovered),
        Err(fault) => not_opened(rt, hosting.store, &fault),
    }
}

/// A status, which is printed.
pub(crate) fn printed<R: Eprint>(rt: &R, status: u8) -> u8 {
    tell(rt, status);
    status
}

/// Opens the store that is to be served.
pub(crate) fn open<R: Files<File = File> + AllocGlobal + Eprint>(
    rt: &R,
    state: RandomState,
    hosting: &Hosting<'_>,
) -> Result<Recovered<StoreFile<HostFile>>, OpeningFault>
    ensures { IfOk result (λ recovered. IsOpened ⟦<StoreFile<HostFile> as Device>⟧.seen
        ⟦<StoreFile<HostFile> as Device>⟧.may_leave recovered) }
{
    open_store(
        rt,
        state,
        hosting.store,
        hosting.publishing,
        hosting.existing,
    )
}

/// Binds the address, and serves what was recovered. Where the numbers of pushes come to their end, the store is
/// opened again, and pushes are numbered anew.
fn listen<R: Files<File = File> + AllocGlobal + HostingRuntime>(
    rt: &R,
    hosting: &Hosting<'_>,
    recovered: Recovered<StoreFile<HostFile>>,
) -> u8
    requires { IsOpened ⟦<StoreFile<HostFile> as Device>⟧.seen
        ⟦<StoreFile<HostFile> as Device>⟧.may_leave recovered }
{
    match bind(rt, hosting.listen) {
        Ok((listener, address)) => serve_opened(rt, hosting, &listener, address, recovered),
        Err(error) => {
            drop(recovered);
            not_bound(rt, hosting.listen, &error)
        }
    }
}

/// Says where it listens, and serves what was recovered, as [`listen`] does.
pub(crate) fn serve_opened<R: Files<File = File> + AllocGlobal + HostingRuntime>(
    rt: &R,
    hosting: &Hosting<'_>,
    listener: &TcpListener,
    address: SocketAddr,
    recovered: Recovered<StoreFile<HostFile>>,
) -> u8
    requires { IsOpened ⟦<StoreFile<HostFile> as Device>⟧.seen
        ⟦<StoreFile<HostFile> as Device>⟧.may_leave recovered }
{
    print_listening(rt, address, &recovered);
    match serve(rt, hosting, listener, address, recovered) {
        Some(status) => status,
        None => serve_again(rt, hosting, listener, address),
    }
}

/// Serves what was recovered. Gives the status, and none where the numbers of pushes come to their end.
fn serve<R: Files<File = File> + AllocGlobal + HostingRuntime>(
    rt: &R,
    hosting: &Hosting<'_>,
    listener: &TcpListener,
    address: SocketAddr,
    recovered: Recovered<StoreFile<HostFile>>,
) -> Option<u8>
    requires { IsOpened ⟦<StoreFile<HostFile> as Device>⟧.seen
        ⟦<StoreFile<HostFile> as Device>⟧.may_leave recovered }
{
    let terms = terms_of(hosting);
    let Ended { over, left } = serve_store(rt, rt.alloc(), terms, listener, address, recovered);
    let is_foreign = match &left {
        Some(closed) => closed.log.device.calls().is_foreign(),
        None => false,
    };
    drop(left);
    match over {
        Over::NumbersEnd => None,
        over => Some(status_at(rt, over, is_foreign)),
    }
}

/// Opens the store and serves it, again each time that the numbers of pushes come to their end. Who connects in
/// between waits.
fn serve_again<R: Files<File = File> + AllocGlobal + HostingRuntime>(
    rt: &R,
    hosting: &Hosting<'_>,
    listener: &TcpListener,
    address: SocketAddr,
) -> u8 {
    'serving: for _ in rt.forever() {
        if let Some(status) = serve_anew(rt, hosting, listener, address) {
            return status;
        }
    }
    unreachable!()
}

/// Opens the store and serves it, as [`serve`] does.
fn serve_anew<R: Files<File = File> + AllocGlobal + HostingRuntime>(
    rt: &R,
    hosting: &Hosting<'_>,
    listener: &TcpListener,
    address: SocketAddr,
) -> Option<u8> {
    let Ok(state) = RandomState::new(rt) else {
        return Some(printed(rt, 3));
    };
    match open(rt, state, hosting) {
        Ok(recovered) => serve(rt, hosting, listener, address, recovered),
        Err(fault) => Some(not_opened(rt, hosting.store, &fault)),
    }
}

pub(crate) fn bind<R: Net<Listener = TcpListener, Stream = TcpStream>>(
    rt: &R,
    listen: &str,
) -> io::Result<(TcpListener, SocketAddr)> {
    let listener = TcpListener::bind(rt, listen)?;
    let address = listener.local_addr()?;
    Ok((listener, address))
}

/// How the store is served.
fn terms_of<'a>(hosting: &Hosting<'a>) -> HostTerms<'a> {
    HostTerms {
        connections: hosting.connections,
        capacity: hosting.capacity,
        idle: hosting.idle,
        memory: usize::try_from(hosting.memory).unwrap_or(usize::MAX),
        text: hosting.text,
        path: hosting.path,
        name: hosting.name,
        user: hosting.user_header,
        also: hosting.also,
        pull: hosting.pull,
        hook: hook_of(hosting),
        shared: hosting.shared,
        logs: hosting.log,
    }
}

/// Whether the address of the hook can be read, where there is one.
fn is_hook_read(hosting: &Hosting<'_>) -> bool {
    match hosting.hook {
        Some(url) => HookAddress::parse(url).is_some(),
        None => true,
    }
}

/// Who is asked before each push.
fn hook_of<'a>(hosting: &Hosting<'a>) -> Option<HookTerms<'a>> {
    let address = HookAddress::parse(hosting.hook?)?;
    Some(HookTerms {
        address,
        wait: hosting.hook_wait,
    })
}

/// Prints where it listens and what the store has; and where others reach it, that they need no name.
fn print_listening<R: Eprint>(
    rt: &R,
    address: SocketAddr,
    recovered: &Recovered<StoreFile<HostFile>>,
) {
    let pushes = recovered.stored;
    let changesets = recovered.repo.store().log.len();
    let _ = eprintln!(rt;
        "hg_pushd: listening on http://{address}/, {pushes} pushes, {changesets} changesets"
    );
    if !address.ip().is_loopback() {
        let _ = eprintln!(rt;
            "hg_pushd: it knows no names, passwords or TLS: a proxy has to bring them"
        );
    }
}

/// The status where the address was not bound, which is printed.
pub(crate) fn not_bound<R: Eprint>(rt: &R, listen: &str, error: &io::Error) -> u8 {
    let status = device_status(error);
    if status == 4 {
        tell(rt, status);
    } else {
        let _ = eprintln!(rt; "hg_pushd: {listen}: {error}");
    }
    status
}

/// The status where serving ended for good, which is printed. The store may have failed since it was changed by another.
fn status_at<R: Eprint>(rt: &R, over: Over, is_foreign: bool) -> u8 {
    match over {
        Over::NoMemory => {
            tell(rt, 4);
            4
        }
        Over::StoreFailed | Over::NumbersEnd => {
            store_failed(rt, is_foreign);
            3
        }
    }
}
