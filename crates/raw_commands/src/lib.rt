//! The commands of a client's bytes before their syntax is read: lines, literals and their limits (RFC 3501, sections 2.2.1 and 4.3).
#![tactic(auto)]

mod command;
mod feed;
mod line;

pub use command::{RawCommand, RawUnit};
pub use feed::{Feed, units_of_pieces};
pub use line::{MOST_LINES, MOST_LITERALS};
