//! The phase of an id.

ghost use Rattle.std.specs.Prelude.{◌≡◌, ◌≤◌, length};
ghost use Rattle.hg_keys.specs.Known.{phase_of_node as node_phase};

use hg_log::Changelog;
use hg_phases::Phases;
use hg_types::{Node, Phase};
use std::alloc::Allocator;

/// The phase of a known id. The null id is public.
pub fn phase_of_node<A: Allocator>(
    log: &Changelog<A>,
    phases: &Phases<A>,
    node: &Node,
) -> Option<Phase>
    requires { length log.now.rows ≤ length phases.now.current.phases }
    ensures { result ≡ node_phase log.now.rows phases.now.current.phases node.now }
{
    if *node == Node::NULL {
        return Some(Phase::Public);
    }
    let rev = log.rev(node)?;
    Some(phases.phase(rev))
}
