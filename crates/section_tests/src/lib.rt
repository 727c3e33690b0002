//! Runs of FETCH items over messages, as tables.
#![tactic(auto)]

#[cfg(test)]
mod items;
#[cfg(test)]
mod messages;
#[cfg(test)]
mod places;
