//! Runs of the crates of mix over a host in memory, as tables: what a directory means, and what a data file has after each call.
#![tactic(auto)]

#[cfg(test)]
mod data_files;
#[cfg(test)]
mod directories;
