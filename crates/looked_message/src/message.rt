// A message as it is looked at.
use mail_fields::Keyword;
use store_trait::Info;

/// A message of a selected mailbox, as FETCH and SEARCH look at it.
#[derive(Clone, Copy)]
pub struct Looked<'a> {
    /// Its number in the mailbox, from 1.
    pub number: u32,
    pub info: Info,
    /// Its modification number, 0 where the driver has none.
    pub modseq: u32,
    /// Whether it is recent in this session.
    pub recent: bool,
    /// The mailbox's keyword names: bit i of `info.words` stands for name i.
    pub words: &'a [Keyword],
    /// As much of its text as is looked at.
    pub text: &'a [u8],
}
