// Commands before their syntax is read.
use mail_fields::{ByteStrings, Bytes};

/// A command: its lines, the earlier ones with their CRLF, and the literals that they announce.
///
/// A CRLF stands in the text only behind `{n}`; there belongs the next of the literals, of n bytes.
#[derive(Debug, Drop)]
pub struct RawCommand {
    pub text: Bytes,
    pub literals: ByteStrings,
}

/// What the end of a line brings.
#[derive(Debug, Drop)]
pub enum RawUnit {
    /// A literal follows, and its bytes haven't come yet.
    Announce,
    /// A command is whole.
    Whole(RawCommand),
    /// The lines of a command pass 65,536 bytes: the first 65,536 bytes of its text.
    TooLong(Bytes),
    /// Its literals would pass 16 MiB: its text as far as it came.
    TooLarge(Bytes),
}
