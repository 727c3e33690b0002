// Dates of mix files.
ghost use Rattle.std.specs.Prelude.{◌≡◌, ◌<◌, ◌≤◌, ◌+◌, ◌++◌, ◌≤ℤ◌, pos, neg_ℤ, Some, IfSome, length, take, drop};
ghost use Rattle.mail_fields.specs.Numbers.{digits_in};
ghost use Rattle.mail_fields.specs.Texts.{written_at};
ghost use Rattle.mail_fields.specs.MixDate.{month_number_of, digits_day_of, digits_clock_of, mix_date_of, mix_date_text};
ghost use Rattle.mail_fields.specs.Stamps.{ReadsAs, parts_of};

use crate::calendar::{CivilDate, civil_date, civil_day};
use crate::clock::{digits_clock_bytes, read_offset, zone_bytes};
use crate::number::{four_digits, read_number, read_number_below, two_digits};
use crate::stamp::Stamp;
use crate::text::put_parts;

// A month of two digits.
#[tactic(auto, unfolding(crate::specs::MixDate::month_number_of))]
fn read_month_number(bytes: &[u8]) -> Option<u32>
    requires { length bytes.now ≤ 4 }
    ensures value { result ≡ month_number_of bytes.now }
    ensures low { IfSome result (λ month. 1 ≤ month) }
    ensures high { IfSome result (λ month. month ≤ 12) }
{
    let month = read_number_below(13, bytes)?;
    (month >= 1).then_some(month)
}

// The day number of `yyyymmdd`.
#[tactic(auto, unfolding(crate::specs::MixDate::digits_day_of))]
fn read_digits_day(bytes: &[u8]) -> Option<i32>
    requires { length bytes.now ≡ 8 }
    ensures value { result ≡ digits_day_of bytes.now }
    ensures low { IfSome result (λ day. neg_ℤ (pos 719528) ≤ℤ day) }
    ensures high { IfSome result (λ day. day ≤ℤ pos 2932896) }
{
    let year = read_number(&bytes[..4])?;
    let month = read_month_number(&bytes[4..6])?;
    let day = read_number(&bytes[6..])?;
    civil_day(year, month, day)
}

// The second of the day of `hhmmss`.
#[tactic(auto, unfolding(crate::specs::MixDate::digits_clock_of))]
fn read_digits_clock(bytes: &[u8]) -> Option<u32>
    requires { length bytes.now ≡ 6 }
    ensures value { result ≡ digits_clock_of bytes.now }
    ensures small { IfSome result (λ second. second < 86400) }
{
    let hour = read_number_below(24, &bytes[..2])?;
    let minute = read_number_below(60, &bytes[2..4])?;
    let second = read_number_below(60, &bytes[4..])?;
    Some(3600 * hour + 60 * minute + second)
}

/// The stamp of `yyyymmddhhmmss+zzzz`.
#[tactic(auto, unfolding(crate::specs::MixDate::mix_date_of))]
pub fn read_mix_date(bytes: &[u8]) -> Option<Stamp>
    ensures { ReadsAs result (mix_date_of bytes.now) }
{
    if bytes.len() != 19 {
        return None;
    }
    let day = read_digits_day(&bytes[..8])?;
    let second = read_digits_clock(&bytes[8..14])?;
    let zone_minutes = read_offset(&bytes[14..])?;
    Some(Stamp {
        day,
        second,
        zone_minutes,
    })
}

// `yyyymmdd`
fn digits_day_bytes(date: CivilDate) -> [u8; 8]
    ensures { result ≡ digits_in 10 4 date.year ++ digits_in 10 2 date.month ++ digits_in 10 2 date.day }
{
    let [a, b, c, d] = four_digits(date.year);
    let [e, f] = two_digits(u32::from(date.month));
    let [g, h] = two_digits(u32::from(date.day));
    [a, b, c, d, e, f, g, h]
}

/// Writes a stamp as `yyyymmddhhmmss+zzzz`, 19 bytes.
#[tactic(auto, unfolding(crate::specs::MixDate::mix_date_text))]
pub fn put_mix_date(buf: &mut [u8], place: usize, stamp: Stamp)
    requires { place + 19 ≤ length buf.old }
    ensures text { buf.new ≡ written_at buf.old place (mix_date_text (parts_of stamp)) }
    ensures width { length (mix_date_text (parts_of stamp)) ≡ 19 }
    ensures read { mix_date_of (take 19 (drop place buf.new)) ≡ Some (parts_of stamp) }
{
    let date = digits_day_bytes(civil_date(stamp));
    let clock = digits_clock_bytes(stamp.second);
    put_parts(buf, place, &date, &clock, &zone_bytes(stamp.zone_minutes));
}
