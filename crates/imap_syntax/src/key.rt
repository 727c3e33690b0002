// Search keys.
use imap_arguments::Set;
use mail_fields::{Bytes, Keyword};
use sqlite_items::{Boxed, Items};

/// A search key (RFC 3501, section 6.4.4). Dates are days counted from 1-Jan-1970.
#[derive(Drop)]
#[cycle(key)]
pub enum Key {
    All,
    Answered,
    Deleted,
    Draft,
    Flagged,
    Seen,
    Recent,
    Unanswered,
    Undeleted,
    Undraft,
    Unflagged,
    Unseen,
    New,
    Old,
    Keyword(Keyword),
    Unkeyword(Keyword),
    Bcc(Bytes),
    Cc(Bytes),
    From(Bytes),
    Subject(Bytes),
    To(Bytes),
    Header(Bytes, Bytes),
    Body(Bytes),
    Text(Bytes),
    Larger(u32),
    Smaller(u32),
    Before(i32),
    On(i32),
    Since(i32),
    SentBefore(i32),
    SentOn(i32),
    SentSince(i32),
    Uid(Set),
    /// The numbers of a set.
    Numbers(Set),
    Not(Boxed<Key>),
    Or(Boxed<Key>, Boxed<Key>),
    /// Keys in parentheses, and several keys of one command.
    AllOf(Items<Key>),
}
