//! Runs of the stores over a host in memory, as tables: what a file is before and after each call, byte for byte.
#![tactic(auto)]

#[cfg(test)]
mod calls;
#[cfg(test)]
mod mbx;
#[cfg(test)]
mod sequences;
#[cfg(test)]
mod steps;
#[cfg(test)]
mod unix;
