// Dates of a command.
ghost use Rattle.std.specs.Prelude.{◌≡◌};
ghost use Rattle.mail_fields.specs.Stamps.{parts_of};
ghost use Rattle.imap_arguments.specs.Readings.{Gives};
ghost use Rattle.imap_arguments.specs.Dates.{day_of, stamp_in, date_at, date_time_at};

use crate::reason::{Reason, Refused};
use crate::string::quoted_at;
use crate::token::{begins, byte_at, token_at};
use mail_fields::{Stamp, read_imap_date, read_search_date};
use std::alloc::Global;

// A day number where the text of a date means one.
fn day_of(text: &[u8]) -> Result<i32, Refused>
    ensures { Gives (λ day. day) result (day_of text.now) }
{
    match read_search_date(text) {
        Some(day) => Ok(day),
        None => Err(Refused::Bad(Reason::NotUnderstood)),
    }
}

/// The day number of a date that SEARCH compares with, in quotes or without.
#[tactic(auto, unfolding(crate::specs::Dates::date_at))]
pub fn date_at(alloc: Global, bytes: &[u8]) -> Result<(i32, &[u8]), Refused>
    ensures { Gives (λ x. (x.0, x.1.now)) result (date_at bytes.now) }
{
    if begins(b'"', bytes) {
        let (text, rest) = quoted_at(alloc, &bytes[1..])?;
        let day = day_of(text.as_slice())?;
        return Ok((day, rest));
    }
    let (text, rest) = token_at(bytes)?;
    let day = day_of(text)?;
    Ok((day, rest))
}

// A stamp where the text of a date with a time means one.
fn stamp_of(text: &[u8]) -> Result<Stamp, Refused>
    ensures { Gives (λ stamp. parts_of stamp) result (stamp_in text.now) }
{
    match read_imap_date(text) {
        Some(stamp) => Ok(stamp),
        None => Err(Refused::Bad(Reason::NotUnderstood)),
    }
}

/// A date with a time, in quotes.
#[tactic(auto, unfolding(crate::specs::Dates::date_time_at))]
pub fn date_time_at(alloc: Global, bytes: &[u8]) -> Result<(Stamp, &[u8]), Refused>
    ensures { Gives (λ x. (parts_of x.0, x.1.now)) result (date_time_at bytes.now) }
{
    let behind = byte_at(b'"', bytes)?;
    let (text, rest) = quoted_at(alloc, behind)?;
    let stamp = stamp_of(text.as_slice())?;
    Ok((stamp, rest))
}
