//! The fields of a message's header as spans of its text (RFC 5322, section 2.2).
//!
//! `fields` reads the header, `body_start` says where the body begins, and `unfold` makes one line of
//! a value; a `HeaderSearch` finds the body over fronts of a text that grow. No text is refused: a header line that is no field and continues none is passed over.
//! Stands on `text_lines` for lines and their ends, and on `memchr` for the colon.
#![tactic(auto)]

mod blank;
mod field;
mod folding;
mod header;
mod name;
mod search;
mod span;

pub use field::{Field, Fields};
pub use folding::unfold;
pub use header::{body_start, fields};
pub use search::{FoundBody, HeaderSearch};
pub use span::{Span, Spans};
