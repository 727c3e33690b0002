// What the files of one store say.
use crate::Records;
use mail_fields::{Keywords, Numbers};

/// Where the messages of a store stand, as far as it isn't their order in one file.
#[derive(Debug, Drop)]
pub enum Placing {
    InPlace,
    /// mh: the file number of each message, and the greatest number that names a directory, or 0.
    Numbered(Numbers, u32),
}

/// What the files of a store say: a UIDVALIDITY or none, a modification number, a highest UID, keyword names, and messages.
///
/// A message without a UID has 0 there, which is no UID.
#[derive(Debug, Drop)]
pub struct StoreContents {
    pub validity: Option<u32>,
    /// The modification number, 0 where the driver has none.
    pub number: u32,
    pub last: u32,
    pub words: Keywords,
    pub records: Records,
    pub placing: Placing,
}
