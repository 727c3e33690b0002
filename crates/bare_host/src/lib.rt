//! A bare host in memory, for tests that look at bytes and answers alone: a tree of files, an input that comes in pieces, and an
//! output. Calls can be made to fail by their number.
//!
//! It tells no history, so no call has a condition, and a call that doesn't fit what stands on the disk fails, as on a real host.
//! What a crash leaves of a disk is told by the host of `mem_host`.
#![tactic(auto)]

mod counts;
mod host;
mod input;
mod tree;

pub use host::BareHost;
