//! What a service needs of its runtime.

use std::sync::Wait;
use std::thread::Threads;
use std::time::Clock;

/// A runtime that can serve connections: it has threads, waits, and knows the time.
pub(crate) trait ServingRuntime: Threads + Wait + Clock + Sync {}

impl<R: Threads + Wait + Clock + Sync> ServingRuntime for R {}
