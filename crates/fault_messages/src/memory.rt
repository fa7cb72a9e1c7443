//! What says that memory is out.

use std::alloc::{AllocError, AllocFailed};
use xm_base::Memory;

/// A value that says that memory ran out, and nothing else.
pub trait OutOfMemory: Drop {}

impl OutOfMemory for AllocError {}

impl<T: Drop> OutOfMemory for AllocFailed<T> {}

impl OutOfMemory for Memory {}
