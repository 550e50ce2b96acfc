//! The callers of `uses`, a module each.
mod commands;
mod csv_rows;
mod echo;
mod filter;
mod full_log;
mod int_lines;
mod keeper;
mod line_count;
mod own_policy;
mod packed;
mod progress;
mod records;
mod sifted;
mod sniff;
mod survive;
mod tally;
