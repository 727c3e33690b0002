// Commands.
use crate::key::Key;
use imap_arguments::{FetchItems, FlagList, Set, StatusItems};
use mail_fields::{Bytes, Stamp};

/// How STORE changes flags (RFC 3501, section 6.4.6).
#[derive(Clone, Copy, Debug, PartialEq, Eq)]
pub enum Mode {
    Replace,
    Add,
    Remove,
}

/// A command with its arguments (RFC 3501, section 6). Where a `bool` stands first, it says that the command came behind UID.
#[derive(Drop)]
pub enum Command {
    Capability,
    Noop,
    Check,
    Close,
    Expunge,
    Logout,
    /// STARTTLS, LOGIN or AUTHENTICATE, by its word in upper case; what follows it isn't read.
    Password(Bytes),
    Select(Bytes),
    Examine(Bytes),
    Create(Bytes),
    Delete(Bytes),
    Subscribe(Bytes),
    Unsubscribe(Bytes),
    Rename(Bytes, Bytes),
    List(Bytes, Bytes),
    Lsub(Bytes, Bytes),
    Status(Bytes, StatusItems),
    Append(Bytes, FlagList, Option<Stamp>, Bytes),
    Search(bool, Option<Bytes>, Key),
    Fetch(bool, Set, FetchItems),
    /// The second `bool` says silent.
    Store(bool, Set, Mode, bool, FlagList),
    Copy(bool, Set, Bytes),
}
