//! What the command line asks for.

mod store_words;
mod words;

use std::test::*;
