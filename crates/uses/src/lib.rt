//! Uses of the libraries, each short enough to copy, proved by their public contracts alone, and run by a test.
//!
//! Begin with [`line_count`]: a loop over `fill_buf` and `consume` whose contract names the bytes.
#![tactic(auto)]

pub mod csv_rows;
pub mod echo;
pub mod filter;
pub mod full_log;
pub mod int_lines;
pub mod keeper;
pub mod line_count;
pub mod own_policy;
pub mod packed;
pub mod progress;
pub mod records;
pub mod sifted;
pub mod sniff;
pub mod survive;
pub mod tally;
