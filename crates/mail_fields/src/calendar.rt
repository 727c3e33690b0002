// Months, days of months and days of the calendar, as dates write them (RFC 5322, section 3.3).
ghost use Rattle.std.specs.Prelude.{◌≡◌, ◌<◌, ◌≤◌, ◌≤ℤ◌, pos, neg_ℤ, Some, IfSome, length};
ghost use Rattle.jiff_core.specs.Date.{epoch_day};
ghost use Rattle.mail_fields.specs.CivilDays.{month_of, day_of, civil_day_of, dashed_date_of, civil_of, month_text, weekday_text, day_text};

use crate::number::{digit, place_of, read_number, two_digits};
use crate::stamp::Stamp;
use jiff_core::civil::Date;

pub(crate) const DAY_NAMES: [[u8; 3]; 7] = [
    *b"Mon", *b"Tue", *b"Wed", *b"Thu", *b"Fri", *b"Sat", *b"Sun",
];

pub(crate) const MONTH_NAMES: [[u8; 3]; 12] = [
    *b"Jan", *b"Feb", *b"Mar", *b"Apr", *b"May", *b"Jun", *b"Jul", *b"Aug", *b"Sep", *b"Oct",
    *b"Nov", *b"Dec",
];

// The month of a name, from 1.
#[tactic(auto, unfolding(crate::specs::CivilDays::month_of))]
pub(crate) fn read_month(name: &[u8]) -> Option<u32>
    ensures value { result ≡ month_of name.now }
    ensures low { IfSome result (λ month. 1 ≤ month) }
    ensures high { IfSome result (λ month. month ≤ 12) }
{
    let place = place_of(name, &MONTH_NAMES)?;
    Some(place as u32 + 1)
}

// A day of the month: two digits, or a space and a digit.
#[tactic(auto, unfolding(crate::specs::CivilDays::day_of))]
pub(crate) fn read_day(bytes: &[u8]) -> Option<u32>
    requires { length bytes.now ≤ 2 }
    ensures value { result ≡ day_of bytes.now }
    ensures small { IfSome result (λ day. day < 100) }
{
    match bytes {
        [b' ', digit @ ..] => read_number(digit),
        _ => read_number(bytes),
    }
}

// The number of a day, if the calendar has it.
#[tactic(auto, unfolding(crate::specs::CivilDays::civil_day_of))]
pub(crate) fn civil_day(year: u32, month: u32, day: u32) -> Option<i32>
    requires year { year < 10000 }
    requires month_low { 1 ≤ month }
    requires month_high { month ≤ 12 }
    requires day { day < 100 }
    ensures value { result ≡ civil_day_of year month day }
    ensures low { IfSome result (λ day. neg_ℤ (pos 719528) ≤ℤ day) }
    ensures high { IfSome result (λ day. day ≤ℤ pos 2932896) }
{
    match Date::new(year as i16, month as i8, day as i8) {
        Ok(date) => Some(date.to_unix_epoch_day()),
        Err(_) => None,
    }
}

// The day number of a day of `-Mon-yyyy`.
#[tactic(auto, unfolding(crate::specs::CivilDays::dashed_date_of))]
pub(crate) fn read_dashed_date(day: u32, rest: &[u8]) -> Option<i32>
    requires day { day < 100 }
    requires long { length rest.now ≡ 9 }
    ensures value { result ≡ dashed_date_of day rest.now }
    ensures low { IfSome result (λ day. neg_ℤ (pos 719528) ≤ℤ day) }
    ensures high { IfSome result (λ day. day ≤ℤ pos 2932896) }
{
    if rest[0] != b'-' || rest[4] != b'-' {
        return None;
    }
    let month = read_month(&rest[1..4])?;
    let year = read_number(&rest[5..])?;
    civil_day(year, month, day)
}

// A day of the years 0000 to 9999.
#[derive(Clone, Copy)]
pub(crate) struct CivilDate {
    pub year: u32,
    pub month: u8,
    pub day: u8,
}

fn date_of(day: i32) -> Date
    requires low { neg_ℤ (pos 719528) ≤ℤ day }
    requires high { day ≤ℤ pos 2932896 }
    ensures { epoch_day result ≡ day }
{
    Date::from_days_since_min((day + 4_371_587) as u32)
}

// The local date of a stamp.
pub(crate) fn civil_date(stamp: Stamp) -> CivilDate
    ensures year { result.year ≡ (civil_of stamp.day).year }
    ensures month { result.month ≡ (civil_of stamp.day).month }
    ensures day { result.day ≡ (civil_of stamp.day).day }
    ensures month_low { 1 ≤ (civil_of stamp.day).month }
    ensures month_high { (civil_of stamp.day).month ≤ 12 }
{
    let date = date_of(stamp.day);
    CivilDate {
        year: u32::from(date.year.unsigned_abs()),
        month: date.month,
        day: date.day,
    }
}

// The name of a month, from 1.
#[tactic(auto, unfolding(crate::specs::CivilDays::month_text))]
pub(crate) fn month_name(month: u8) -> [u8; 3]
    requires low { 1 ≤ month }
    requires high { month ≤ 12 }
    ensures { result ≡ month_text month }
{
    MONTH_NAMES[month as usize - 1]
}

// The name of the day of the week.
#[tactic(auto, unfolding(crate::specs::CivilDays::weekday_text))]
pub(crate) fn weekday_name(day: i32) -> [u8; 3]
    requires low { neg_ℤ (pos 719528) ≤ℤ day }
    requires high { day ≤ℤ pos 2932896 }
    ensures { result ≡ weekday_text day }
{
    DAY_NAMES[date_of(day).weekday().index() as usize]
}

// A day of a month, with a space where it has one digit.
#[tactic(auto, unfolding(crate::specs::CivilDays::day_text))]
pub(crate) fn day_bytes(day: u8) -> [u8; 2]
    ensures { result ≡ day_text day }
{
    let day = u32::from(day);
    if day < 10 {
        [b' ', digit(day)]
    } else {
        two_digits(day)
    }
}
