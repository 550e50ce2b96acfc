//! A coding of bodies as one writes it: the text of a mail, whose end is a line of one dot.
#![tactic(auto)]

pub mod dot_stuffed;
pub mod laws;
