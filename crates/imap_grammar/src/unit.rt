// Units.
use imap_arguments::Tag;
use imap_syntax::Command;

/// What a client's bytes bring next (RFC 3501, sections 2.2.1 and 4.3). A tag that can't be read is `*`.
#[derive(Drop)]
pub enum Unit {
    /// A literal follows and its bytes haven't come yet: the continuation request is due.
    Announce,
    /// A command by its tag.
    Command(Tag, Command),
    /// A bad command by its tag, and the number of the first reason against it, from 1 to 9.
    Bad(Tag, u8),
    /// A command whose literals would pass 16 MiB together.
    Large(Tag),
}
