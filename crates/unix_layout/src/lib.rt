//! The layout of unix mailbox files (RFC 4155): how the store of one file reads and writes them.
//!
//! Stands on `unix_form` for which bytes say which contents, and on `file_store` for the store itself.
#![tactic(auto)]

mod after;
mod blank;
mod file;
mod front;
mod layout;
mod reading;
mod scan;
mod text;
mod texts;
mod writing;

pub use after::{FileAfter, file_after};
pub use blank::blank_file;
pub use file::FileFound;
pub use front::front_messages;
pub use layout::UnixLayout;
pub use reading::Run;
pub use scan::scan_file;
pub use text::copy_text;
pub use texts::texts_after;
pub use writing::{put_file, put_message};

/// An open unix file.
pub type UnixStore = file_store::FileStore<UnixLayout>;
