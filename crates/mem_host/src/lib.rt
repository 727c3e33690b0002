//! A host in memory, for tests: a disk, an input cut into pieces, and an output. Calls can be made to fail by their number.
//!
//! It is modelled: `State` is the list of what it was asked, and its history replays that list from an empty disk.
//! What reads see is kept in maps beside it, and is proved to be the seen image of the replayed disk. So the record
//! itself has no bytes: a call that finds no memory fails, and is on the record like any other.
//!
//! Beside the record, a log keeps each call with its bytes. `image` replays it into what a crash at a call leaves. A call
//! for which the log finds no memory loses it, and `image` answers Memory from then on.
#![tactic(auto)]

mod apply;
mod contents;
mod crash;
mod draft;
mod files;
mod host;
mod input;
mod log;
mod mirror;
mod names;
mod record;
mod remains;
mod streams;

pub use host::MemHost;
