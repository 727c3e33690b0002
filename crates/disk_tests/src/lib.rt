//! Runs of the crates on files over the hosts in memory, as tables; and a change that is settled before it is acknowledged.
#![tactic(auto)]

pub mod acknowledged;
#[cfg(test)]
mod calls;
#[cfg(test)]
mod crashes;
#[cfg(test)]
mod real_files;
#[cfg(test)]
mod replies;
#[cfg(test)]
mod steps;
