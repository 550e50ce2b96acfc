//! The examples that the documentation of the public types shows, and the callers of `uses`, each run once; and which types may
//! go to another thread.
//!
//! A test of an example is that, line for line; `tests/examples.py` sees that they are the same.
#![tactic(auto)]

#[cfg(test)]
mod blocks;
#[cfg(test)]
mod bodies;
#[cfg(test)]
mod callers;
#[cfg(test)]
mod frames;
#[cfg(test)]
mod lines;
#[cfg(test)]
mod policies;
#[cfg(test)]
mod readers;
#[cfg(test)]
mod sends;
#[cfg(test)]
mod streams;
#[cfg(test)]
mod writers;
