//! The commands of a client's bytes, in whatever pieces they come (RFC 3501, sections 2.2 and 9).
//!
//! `raw_commands` finds where a command ends and `imap_syntax` reads what it means; a unit is what both say of a stream.
//! `specs/Units.antt` says what the units of a whole stream are, and a `Feed` adds the same ones however it was cut.
//! The crate does no input and no output.
#![tactic(auto)]

mod feed;
mod law;
mod meaning;
mod reader;
mod unit;

pub use feed::{Feed, units_of_pieces};
pub use imap_arguments::{
    End, FetchItems, FlagList, Item, Ranges, Section, SectionKind, Set, StatusItem, StatusItems,
    Tag,
};
pub use imap_syntax::{Command, Key, Mode, read_keys};
pub use law::{commands_keep_limits, units_are_sound};
pub use unit::Unit;
