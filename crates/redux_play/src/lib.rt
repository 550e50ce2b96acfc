//! What holds over many calls of a buffered reader or writer, proved of the contracts of the calls alone.
//!
//! The players ([`play`]) play any list of calls, and say that no byte was lost. The laws ([`laws`]) are each the contract
//! of a function over the calls.
#![tactic(auto)]

pub mod laws;
pub mod play;
