//! The units of a client's bytes (RFC 3501, section 2.2): here each line that CRLF ends, of which at most 65,536 bytes are kept.
//!
//! `specs/Stream.antt` says what the units of a whole stream are. A `Feed` takes the stream in pieces, as they are read,
//! and adds the same units however it was cut; of a line that isn't ended it keeps no more than a unit can hold.
//! The crate does no input and no output, and stands on `memchr`.
#![tactic(auto)]

mod feed;
mod line;
mod reader;

pub use feed::{Feed, units_of_pieces};
pub use line::Line;
