//! What no line of the program `replay` can ask: of readers and writers seeks, texts, what is printed, what is known of a
//! stream of std, and what becomes of one that is taken apart or dropped; of blocks and of copies their worked examples; and
//! callers that rest on what a policy claims, which are proved and not run.
#![tactic(auto)]

#[cfg(test)]
mod blocks;
pub mod claims;
#[cfg(test)]
mod copying;
#[cfg(test)]
mod example;
#[cfg(test)]
mod fixtures;
#[cfg(test)]
mod known;
#[cfg(test)]
mod limits;
#[cfg(test)]
mod line_writers;
#[cfg(test)]
mod moves;
#[cfg(test)]
mod play_laws;
#[cfg(test)]
mod printed;
#[cfg(test)]
mod reader;
#[cfg(test)]
mod retries;
#[cfg(test)]
mod ring;
#[cfg(test)]
mod seeks;
#[cfg(test)]
mod std_readers;
#[cfg(test)]
mod std_writers;
#[cfg(test)]
mod streams;
#[cfg(test)]
mod text_lines;
#[cfg(test)]
mod unbuffer;
#[cfg(test)]
mod unwrapping;
