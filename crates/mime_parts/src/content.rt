// What the content fields of a part say.
use mail_fields::{ByteStrings, Bytes, Parameters};

/// The content fields of a part (RFC 2045, sections 5 to 8; RFC 2183; RFC 3282), kinds and names as they are written.
#[derive(Debug, Drop)]
pub struct Content {
    pub kind: Bytes,
    pub subkind: Bytes,
    pub params: Parameters,
    pub id: Option<Bytes>,
    pub description: Option<Bytes>,
    pub encoding: Bytes,
    pub md5: Option<Bytes>,
    pub disposition: Option<Disposition>,
    pub language: ByteStrings,
    pub location: Option<Bytes>,
}

/// How a part is to be shown, with its parameters (RFC 2183).
#[derive(Debug, Drop)]
pub struct Disposition {
    pub kind: Bytes,
    pub params: Parameters,
}
