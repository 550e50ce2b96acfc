//! A record of what calls answered, one after another.
use crate::{debug, display};
use std::alloc::Global;
use std::fmt::{Debug, Display};

/// What calls answered. What there is no memory for isn't noted.
#[derive(Drop)]
pub struct Log {
    alloc: Global,
    text: Vec<u8>,
}

impl Log {
    /// Nothing was noted yet.
    pub fn new(alloc: Global) -> Log {
        let text = Vec::new(alloc);
        Log { alloc, text }
    }

    /// Notes these bytes.
    pub fn note(&mut self, bytes: &[u8]) {
        let _ = self.text.extend_from_slice(bytes);
    }

    /// Notes what is printed of a value.
    pub fn show<T: Display>(&mut self, value: &T) {
        if let Ok(text) = display(self.alloc, value) {
            self.note(text.as_bytes());
        }
    }

    /// Notes what a programmer is shown of it.
    pub fn show_debug<T: Debug>(&mut self, value: &T) {
        if let Ok(text) = debug(self.alloc, value) {
            self.note(text.as_bytes());
        }
    }

    /// What was noted.
    pub fn text(&self) -> &[u8] {
        self.text.as_slice()
    }

    /// Whether it is this.
    pub fn is(&self, wants: &[u8]) -> bool {
        self.text() == wants
    }
}
