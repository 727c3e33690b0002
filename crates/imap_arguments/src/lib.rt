//! The arguments of IMAP commands: their types, and how each is read (RFC 3501, section 9).
#![tactic(auto)]

mod date;
mod flag;
mod item;
mod number;
mod reason;
mod same;
mod section;
mod set;
mod string;
mod tag;
mod token;

pub use date::{date_at, date_time_at};
pub use flag::{FlagList, flag_list_at, keyword_at, store_flags_at};
pub use item::{FetchItems, Item, StatusItem, StatusItems, fetch_items_at, status_list_at};
pub use number::{nonzero_at, number_at};
pub use reason::{Reason, Refused};
pub use section::{Section, SectionKind, section_at};
pub use set::{End, Ranges, Set, set_at};
pub use string::{astring_at, literal_at, pattern_at, quoted_at};
pub use tag::{Tag, tag_of};
pub use token::{begins, broken_off, byte_at, is_atom_byte, token_at};
