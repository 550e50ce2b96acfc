//! What the program `bufcopy` does: it reads the words, copies one stream to another as they ask, and says how that ended.
//!
//! The crate stands on what `buffer_redux` promises, and on nothing else of it.
#![tactic(auto)]

pub mod run;
pub mod settings;
