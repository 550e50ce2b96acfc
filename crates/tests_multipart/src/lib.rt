//! Multipart bodies of `curl`, of browsers, of Python's `urllib3` and `email` and of RFC 2046, cut in every way.
#![tactic(auto)]

#[cfg(test)]
mod bodies;
#[cfg(test)]
mod collected;
#[cfg(test)]
mod examples;
#[cfg(test)]
mod parts;
