//! The files, standard input and standard output of the process, as a host.
//!
//! It isn't modelled: no clause says what they hold, and it is trusted to pass each call on. It counts failed calls and bytes read,
//! and keeps the call that failed last.
#![tactic(auto)]

mod directory;
mod file;
mod host;
mod moving;
mod noted;
mod opened;
mod streams;

pub use host::RealHost;
pub use noted::{Call, NotedFault};
