//! What a part meets in its turn, besides the store.

use crate::source::Source;
use hg_types::Settings;

/// The turn of a part in the run of its push.
#[derive(Clone, Copy, Debug)]
pub struct Turn {
    /// How the repository is set up.
    pub settings: Settings,
    /// Where the parts of the run come from.
    pub source: Source,
    /// Whether the part may leave a reply, whose id the caller gives.
    pub replying: bool,
    /// The place of the part among those of its push, counted from 0.
    pub place: u32,
}
