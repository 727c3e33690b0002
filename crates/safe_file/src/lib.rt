//! A file's content is replaced as a whole: whenever a crash comes, the file has its old content or the new one.
//!
//! The new content is first written to a file beside it and synced (`prepare`), which is then renamed over the old one, and
//! the directory synced (`publish`). `replace` does both. `publish` takes no memory.
#![tactic(auto)]

mod pending;
mod preparing;
mod publishing;
mod replacing;

pub use pending::Pending;
pub use preparing::prepare;
pub use publishing::publish;
pub use replacing::replace;
