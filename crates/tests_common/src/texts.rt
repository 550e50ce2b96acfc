//! What a value writes of itself.
use std::alloc::{AllocError, Global};
use std::fmt;

/// The text that is for readers.
pub fn display<T: fmt::Display>(alloc: Global, value: &T) -> Result<String, AllocError> {
    format!(in alloc; "{value}")
}

/// The text that is for programmers.
pub fn debug<T: fmt::Debug>(alloc: Global, value: &T) -> Result<String, AllocError> {
    format!(in alloc; "{value:?}")
}

/// The same of a value that is dropped then.
pub fn shown<T: fmt::Debug + Drop>(alloc: Global, value: T) -> Result<String, AllocError> {
    debug(alloc, &value)
}
