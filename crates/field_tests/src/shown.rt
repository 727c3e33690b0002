//! Values as texts, to be compared with the cells of a table.
use mail_fields::Stamp;
use std::alloc::{AllocError, Global};

/// A stamp's day from 1-Jan-1970, its second of that day and its zone in minutes, or `none`.
pub fn stamp_text(alloc: Global, found: Option<Stamp>) -> Result<String, AllocError> {
    match found {
        Some(stamp) => format!(in alloc; "{} {} {}", stamp.day, stamp.second, stamp.zone_minutes),
        None => String::from_str(alloc, "none"),
    }
}

/// A day number, or `none`.
pub fn day_text(alloc: Global, found: Option<i32>) -> Result<String, AllocError> {
    match found {
        Some(day) => format!(in alloc; "{day}"),
        None => String::from_str(alloc, "none"),
    }
}

/// A count, or `none`.
pub fn count_text(alloc: Global, found: Option<usize>) -> Result<String, AllocError> {
    match found {
        Some(count) => format!(in alloc; "{count}"),
        None => String::from_str(alloc, "none"),
    }
}

/// A number, or `none`.
pub fn number_text(alloc: Global, found: Option<u64>) -> Result<String, AllocError> {
    match found {
        Some(number) => format!(in alloc; "{number}"),
        None => String::from_str(alloc, "none"),
    }
}
