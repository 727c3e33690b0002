//! The tree of mailboxes below a root, by their names.
#![tactic(auto)]

mod changing;
mod deleting;
mod emptying;
mod fault;
mod finding;
mod listing;
mod making;
mod matching;
mod name;
mod new_mailbox;
mod opening;
mod path;
mod renaming;
mod sight;
mod subscribing;
mod subscriptions;
mod target;
mod trees;

pub use changing::change_mailbox;
pub use deleting::delete;
pub use fault::TreeFault;
pub use finding::{Listed, lsub};
pub use listing::list;
pub use making::create_dir;
pub use name::Name;
pub use new_mailbox::create;
pub use opening::open;
pub use renaming::rename;
pub use subscribing::{subscribe, unsubscribe};
pub use target::Target;
pub use trees::has_one_tree;
