// What `*` stands for.

/// The largest message number and the largest UID of a mailbox, for which `*` stands in sets; 0 where it is empty.
#[derive(Clone, Copy, Debug, PartialEq, Eq)]
pub struct Largest {
    pub number: u32,
    pub uid: u32,
}
