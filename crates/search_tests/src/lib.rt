//! Runs of search keys over messages, and of needles in texts, as tables.
#![tactic(auto)]

#[cfg(test)]
mod keys;
#[cfg(test)]
mod messages;
#[cfg(test)]
mod needles;
#[cfg(test)]
mod told;
