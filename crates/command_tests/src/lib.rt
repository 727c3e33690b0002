//! Runs of the grammar of a client's bytes, as tables: commands, search keys, and streams cut in many ways.
#![tactic(auto)]

#[cfg(test)]
mod commands;
#[cfg(test)]
mod cut_streams;
#[cfg(test)]
mod search_keys;
#[cfg(test)]
mod shown_commands;
