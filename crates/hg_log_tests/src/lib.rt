//! The tests of `hg_log`, over its contracts.
//!
//! Ids are hexadecimal; `Z` is the null id. Those of Mercurial were made by it (user `test`, time
//! 0, a file `a`, then `b`, then `c`, each with its name and a line end as content); all are SHA-1
//! of the lesser parent, the greater parent and the text, as `sha1sum` gives it.
//!
//! Rows of the tables, and what else the tests try:
//!
//! - `hg_log`: 20,000 rows with 10,000 heads, an ancestor and a copy of them; a text of 16 MiB.
#![tactic(auto)]

#[cfg(test)]
mod tests;
