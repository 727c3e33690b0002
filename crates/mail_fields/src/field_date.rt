// Dates of header fields, as far as their day (RFC 5322, section 3.3).
ghost use Rattle.std.specs.Prelude.{◌≡◌, ◌<◌, ◌≤◌, IfSome, length};
ghost use Rattle.mail_fields.specs.FieldDate.{without_spaces, space_count, without_day_name, digit_count, field_year_of, spaced_year_of, month_then_date_of, spaced_date_of, field_day_of, field_date_of};

use crate::calendar::{DAY_NAMES, civil_day, read_month};
use crate::number::{place_of, read_number};

// What stands behind the spaces at the front.
#[tactic(auto, unfolding(crate::specs::FieldDate::without_spaces))]
fn skip_spaces(text: &[u8]) -> &[u8]
    ensures { result.now ≡ without_spaces text.now }
{
    &text[count_spaces(text)..]
}

// How many spaces stand at the front.
fn count_spaces(text: &[u8]) -> usize
    ensures value { result ≡ space_count text.now }
    ensures within { result ≤ length text.now }
{
    text.iter().take_while(|byte| **byte == b' ').count()
}

// How many digits stand at the front.
fn count_digits(text: &[u8]) -> usize
    ensures value { result ≡ digit_count text.now }
    ensures within { result ≤ length text.now }
{
    text.iter().take_while(|byte| byte.is_ascii_digit()).count()
}

// What stands behind a day name and its comma, if they stand at the front.
#[tactic(auto, unfolding(crate::specs::FieldDate::without_day_name))]
fn skip_day_name(text: &[u8]) -> &[u8]
    ensures { result.now ≡ without_day_name text.now }
{
    if text.len() >= 4 && text[3] == b',' && place_of(&text[..3], &DAY_NAMES).is_some() {
        &text[4..]
    } else {
        text
    }
}

// A year of four digits, or of two, which are those from 1950 to 2049.
#[tactic(auto, unfolding(crate::specs::FieldDate::field_year_of))]
fn read_field_year(text: &[u8]) -> Option<u32>
    ensures value { result ≡ field_year_of text.now }
    ensures small { IfSome result (λ year. year < 10000) }
{
    match count_digits(text) {
        4 => read_number(&text[..4]),
        2 => {
            let year = read_number(&text[..2])?;
            Some(if year < 50 { 2000 + year } else { 1900 + year })
        }
        _ => None,
    }
}

// The same, with perhaps spaces before it.
#[tactic(auto, unfolding(crate::specs::FieldDate::spaced_year_of))]
fn read_spaced_year(text: &[u8]) -> Option<u32>
    ensures value { result ≡ spaced_year_of text.now }
    ensures small { IfSome result (λ year. year < 10000) }
{
    read_field_year(skip_spaces(text))
}

// The day number of a day, from its month name on.
#[tactic(auto, unfolding(crate::specs::FieldDate::month_then_date_of))]
fn read_month_then_date(day: u32, text: &[u8]) -> Option<i32>
    requires { day < 100 }
    ensures { result ≡ month_then_date_of day text.now }
{
    if text.len() < 4 || text[3] != b' ' {
        return None;
    }
    let month = read_month(&text[..3])?;
    let year = read_spaced_year(&text[3..])?;
    civil_day(year, month, day)
}

// The same, from the spaces before the month name on.
#[tactic(auto, unfolding(crate::specs::FieldDate::spaced_date_of))]
fn read_spaced_date(day: u32, text: &[u8]) -> Option<i32>
    requires { day < 100 }
    ensures { result ≡ spaced_date_of day text.now }
{
    if text.is_empty() || text[0] != b' ' {
        return None;
    }
    read_month_then_date(day, skip_spaces(text))
}

// The same, from the digits of the day on.
#[tactic(auto, unfolding(crate::specs::FieldDate::field_day_of))]
fn read_field_day(text: &[u8]) -> Option<i32>
    ensures { result ≡ field_day_of text.now }
{
    let width = count_digits(text);
    if width < 1 || width > 2 {
        return None;
    }
    let day = read_number(&text[..width])?;
    read_spaced_date(day, &text[width..])
}

/// The day number, counted from 1-Jan-1970, of a date field.
///
/// What follows the year, such as a time, isn't read.
#[tactic(auto, unfolding(crate::specs::FieldDate::field_date_of))]
pub fn read_field_date(value: &[u8]) -> Option<i32>
    ensures { result ≡ field_date_of value.now }
{
    read_field_day(skip_spaces(skip_day_name(skip_spaces(value))))
}
