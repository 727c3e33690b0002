// Dates that SEARCH compares with (RFC 3501, section 9, date).
ghost use Rattle.std.specs.Prelude.{◌≡◌, ◌≤◌, ◌+◌, length};
ghost use Rattle.mail_fields.specs.SearchDate.{day_then_date_of, search_date_of};

use crate::calendar::read_dashed_date;
use crate::number::read_number;

// The day number of a day of so many digits, then `-Mon-yyyy`.
#[tactic(auto, unfolding(crate::specs::SearchDate::day_then_date_of))]
fn read_day_then_date(bytes: &[u8], width: usize) -> Option<i32>
    requires short { width ≤ 2 }
    requires long { length bytes.now ≡ width + 9 }
    ensures { result ≡ day_then_date_of width bytes.now }
{
    let day = read_number(&bytes[..width])?;
    read_dashed_date(day, &bytes[width..])
}

/// The day number, counted from 1-Jan-1970, of `d-Mon-yyyy` or `dd-Mon-yyyy`.
#[tactic(auto, unfolding(crate::specs::SearchDate::search_date_of))]
pub fn read_search_date(bytes: &[u8]) -> Option<i32>
    ensures { result ≡ search_date_of bytes.now }
{
    match bytes.len() {
        10 => read_day_then_date(bytes, 1),
        11 => read_day_then_date(bytes, 2),
        _ => None,
    }
}
