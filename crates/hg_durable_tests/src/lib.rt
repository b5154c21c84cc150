//! The tests of `hg_durable`, over its contracts.
#![tactic(auto)]

#[cfg(test)]
mod again;
#[cfg(test)]
mod connecting;
#[cfg(test)]
mod memory;
#[cfg(test)]
mod tests;
