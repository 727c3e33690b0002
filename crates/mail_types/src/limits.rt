// The limits of the product, each once.

/// The most bytes of one file of a store, and of the texts of one append.
pub const FILE_LIMIT: u64 = 536_870_912;

/// The most bytes of one text, as its store keeps it.
pub const TEXT_LIMIT: usize = 16_777_216;

/// The most messages of one mailbox.
pub const RECORD_LIMIT: usize = 1_048_576;

/// The most keyword names of one mailbox.
pub const WORD_LIMIT: usize = 30;

/// The greatest file number of mh.
pub const NUMBER_LIMIT: u32 = 999_999_999;

/// The greatest UID that a mailbox gives.
pub const GREATEST_GIVEN: u32 = 4_294_967_294;
