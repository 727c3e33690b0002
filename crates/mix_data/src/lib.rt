//! The data files of a mix mailbox, in which the texts of its messages stand.
//!
//! A file has records one behind the other: a head of 45 bytes such as
//! `:msg:00000001:20240402080000+0200:0000000e:` CRLF, and the text. `scan_file` gives the whole
//! records of a file, up to the first byte that begins none; it reads their heads, and no text.
//! Records are put behind others by three calls: `begin` cuts the file at a place or makes it, `put`
//! writes one record, and `settle` syncs the file and its directory. What stands below the place is
//! in whatever a crash leaves. The calls take the path of a data file, which `data_path` makes once.
#![tactic(auto)]

mod head;
mod names;
mod putting;
mod scan;

pub use head::{Head, head_bytes, read_head};
pub use names::{data_path, number_of_name};
pub use putting::{begin, put, settle};
pub use scan::{FILE_LIMIT, Placed, Scan, scan_file};
