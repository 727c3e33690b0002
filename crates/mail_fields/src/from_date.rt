// The dates that delimiter lines end in (RFC 4155, appendix A, and older forms).
ghost use Rattle.std.specs.Prelude.{◌≡◌, ◌<◌, ◌≤◌, ◌+◌, ◌++◌, codes, ◌≤ℤ◌, pos, neg_ℤ, Some, IfSome, length, take, drop};
ghost use Rattle.mail_fields.specs.CivilDays.{day_text, month_text, weekday_text};
ghost use Rattle.mail_fields.specs.Numbers.{digits_in};
ghost use Rattle.mail_fields.specs.Texts.{written_at};
ghost use Rattle.mail_fields.specs.FromDate.{year_of, zone_of, year_zone_of, end_of, HasBounds, has_frame, stamp_of_fields, stamp_in_frame, from_date_of, from_date_text};
ghost use Rattle.mail_fields.specs.Stamps.{ReadsAs, parts_of};

use crate::calendar::{
    CivilDate, DAY_NAMES, civil_date, civil_day, day_bytes, month_name, read_day, read_month,
    weekday_name,
};
use crate::clock::{clock_bytes, read_clock, read_offset};
use crate::number::{are_letters, four_digits, place_of, read_number};
use crate::stamp::Stamp;
use crate::text::put_parts;

// A space and the four digits of a year.
fn read_year(bytes: &[u8]) -> Option<u32>
    ensures value { result ≡ year_of bytes.now }
    ensures small { IfSome result (λ year. year < 10000) }
{
    if bytes.len() == 5 && bytes[0] == b' ' {
        read_number(&bytes[1..])
    } else {
        None
    }
}

// A zone and the space before it, in minutes; three letters, or no zone at all, are taken as UTC.
fn read_zone(bytes: &[u8]) -> Option<i16>
    ensures value { result ≡ zone_of bytes.now }
    ensures low { IfSome result (λ minutes. neg_ℤ (pos 1439) ≤ℤ minutes) }
    ensures high { IfSome result (λ minutes. minutes ≤ℤ pos 1439) }
{
    if bytes.is_empty() {
        return Some(0);
    }
    if bytes.len() == 4 && bytes[0] == b' ' && are_letters(&bytes[1..]) {
        return Some(0);
    }
    if bytes.len() == 6 && bytes[0] == b' ' {
        read_offset(&bytes[1..])
    } else {
        None
    }
}

fn read_year_zone(year: &[u8], zone: &[u8]) -> Option<(u32, i16)>
    ensures value { result ≡ year_zone_of year.now zone.now }
    ensures within { IfSome result HasBounds }
{
    let number = read_year(year)?;
    let minutes = read_zone(zone)?;
    Some((number, minutes))
}

// The end of a date: a year, with perhaps a zone before or behind it.
#[tactic(auto, unfolding(crate::specs::FromDate::end_of))]
fn read_end(bytes: &[u8]) -> Option<(u32, i16)>
    ensures value { result ≡ end_of bytes.now }
    ensures within { IfSome result HasBounds }
{
    if bytes.len() < 5 {
        return None;
    }
    let (zone, year) = bytes.split_at(bytes.len() - 5);
    match read_year_zone(&bytes[..5], &bytes[5..]) {
        Some(end) => Some(end),
        None => read_year_zone(year, zone),
    }
}

// A day name, and spaces where each form has them.
fn has_frame(date: &[u8]) -> bool
    requires { 21 ≤ length date.now }
    ensures { result ≡ has_frame date.now }
{
    place_of(&date[..3], &DAY_NAMES).is_some()
        && date[3] == b' '
        && date[7] == b' '
        && date[10] == b' '
}

// The stamp that a date gives with this clock and this end.
#[tactic(auto, unfolding(crate::specs::FromDate::stamp_of_fields))]
fn read_fields(date: &[u8], clock: &[u8], end: &[u8]) -> Option<Stamp>
    requires long { 10 ≤ length date.now }
    requires low { 5 ≤ length clock.now }
    requires high { length clock.now ≤ 8 }
    ensures { ReadsAs result (stamp_of_fields date.now clock.now end.now) }
{
    let month = read_month(&date[4..7])?;
    let day = read_day(&date[8..10])?;
    let second = read_clock(clock)?;
    let (year, zone_minutes) = read_end(end)?;
    let day = civil_day(year, month, day)?;
    Some(Stamp {
        day,
        second,
        zone_minutes,
    })
}

#[tactic(auto, unfolding(crate::specs::FromDate::stamp_in_frame))]
fn read_in_frame(date: &[u8]) -> Option<Stamp>
    requires { 21 ≤ length date.now }
    ensures { ReadsAs result (stamp_in_frame date.now) }
{
    if date[16] == b':' {
        read_fields(date, &date[11..19], &date[19..])
    } else {
        read_fields(date, &date[11..16], &date[16..])
    }
}

// The stamp of a from date.
#[tactic(auto, unfolding(crate::specs::FromDate::from_date_of))]
pub(crate) fn read_date(date: &[u8]) -> Option<Stamp>
    ensures { ReadsAs result (from_date_of date.now) }
{
    if date.len() >= 21 && has_frame(date) {
        read_in_frame(date)
    } else {
        None
    }
}

// `Www Mmm dd ` of a day number
fn named_day_bytes(day: i32, date: CivilDate) -> [u8; 11]
    requires day_low { neg_ℤ (pos 719528) ≤ℤ day }
    requires day_high { day ≤ℤ pos 2932896 }
    requires low { 1 ≤ date.month }
    requires high { date.month ≤ 12 }
    ensures { result ≡ weekday_text day ++ codes " " ++ month_text date.month ++ codes " " ++ day_text date.day ++ codes " " }
{
    let [a, b, c] = weekday_name(day);
    let [d, e, f] = month_name(date.month);
    let [g, h] = day_bytes(date.day);
    [a, b, c, b' ', d, e, f, b' ', g, h, b' ']
}

// A space and a year
fn spaced_year_bytes(year: u32) -> [u8; 5]
    ensures { result ≡ codes " " ++ digits_in 10 4 year }
{
    let [a, b, c, d] = four_digits(year);
    [b' ', a, b, c, d]
}

/// Writes a stamp in UTC as `Www Mmm dd hh:mm:ss yyyy`, 24 bytes, a day below 10 with a space.
#[tactic(auto, unfolding(crate::specs::FromDate::from_date_text))]
pub fn put_from_date(buf: &mut [u8], place: usize, stamp: Stamp)
    requires room { place + 24 ≤ length buf.old }
    requires utc { stamp.zone_minutes ≡ pos 0 }
    ensures text { buf.new ≡ written_at buf.old place (from_date_text stamp.day stamp.second) }
    ensures read { from_date_of (take 24 (drop place buf.new)) ≡ Some (parts_of stamp) }
    ensures width { length (from_date_text stamp.day stamp.second) ≡ 24 }
    ensures date { from_date_of (from_date_text stamp.day stamp.second) ≡ Some (parts_of stamp) }
{
    let date = civil_date(stamp);
    let named_day = named_day_bytes(stamp.day, date);
    let clock = clock_bytes(stamp.second);
    put_parts(
        buf,
        place,
        &named_day,
        &clock,
        &spaced_year_bytes(date.year),
    );
}
