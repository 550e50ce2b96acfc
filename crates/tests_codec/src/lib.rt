//! Pieces, frames, lines and bodies by worked examples, cut in every way and with a fault at each call; and the examples of the
//! documentation of `codec`.
#![tactic(auto)]

#[cfg(test)]
mod asks;
#[cfg(test)]
mod bodies;
#[cfg(test)]
mod by_hand;
#[cfg(test)]
mod chunks;
#[cfg(test)]
mod drops;
#[cfg(test)]
mod examples;
#[cfg(test)]
mod kinds;
#[cfg(test)]
mod laws;
#[cfg(test)]
mod lent;
#[cfg(test)]
mod mails;
pub mod packets;
#[cfg(test)]
mod parts;
#[cfg(test)]
mod pieces;
#[cfg(test)]
mod readers;
#[cfg(test)]
mod requests;
#[cfg(test)]
mod served;
#[cfg(test)]
mod texts;
#[cfg(test)]
mod writers;
#[cfg(test)]
mod written;
