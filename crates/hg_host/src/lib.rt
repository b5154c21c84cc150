//! A store, served over HTTP for as long as the process runs.
//!
//! [`serve_store`] serves the repository of a store that `hg_recovery` opened, and adds to the store:
//! [`HostService::serve`] is one connection of it, over any reader and writer. A connection over a socket is
//! not waited for longer than the terms say; `hg_tcp` has the places for connections. Each push is weighed before it runs:
//! one whose texts are long or copy much is refused. Where a hook is named, it is asked then.
//!
//! What one connection does never ends another, except where the store fails: then nothing more is answered. And
//! where the numbers of pushes come to their end, each connection ends at its next read, and another server over
//! the same store goes on.
#![tactic(auto)]

mod clients;
mod hook;
mod hosting;
mod runtime;
mod service;
mod standby;
mod terms;
mod watch;

pub use clients::HostedClients;
pub use hg_http::HookAddress;
pub use hg_tcp::Over;
pub use hook::HookTerms;
pub use hosting::{Ended, serve_store};
pub use runtime::HostingRuntime;
pub use service::HostService;
pub use standby::answer_as_standby;
pub use terms::HostTerms;
