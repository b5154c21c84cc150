//! How long the texts of a push are, and how much they copy, without a text being made.
//!
//! A changeset comes as a delta on the text of its base. What the delta keeps of the base and what it brings says how
//! long its text is: [`measure_delta`] counts both from the length of the base alone. [`weigh`] does so for all
//! changesets of a push, in order, and says whether one has a text that is too long, or whether they copy too much from
//! their bases, all together. [`changesets_of`] reads these out of the bundle, as the run does. So a few bytes that stand
//! for many are found before anything is made of them.
#![tactic(auto)]

mod bases;
mod bundle;
mod delta;
mod weighing;

pub use bases::weigh_bases;
pub use bundle::changesets_of;
pub use delta::{Measure, measure_delta, texts_are_as_long_as_measured};
pub use weighing::{Excess, weigh};
