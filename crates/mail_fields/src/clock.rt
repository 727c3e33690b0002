// Times of day and zones, as dates write them.
ghost use Rattle.std.specs.Prelude.{◌≡◌, ◌<◌, ◌≤◌, ◌≤ℤ◌, pos, neg_ℤ, IfSome, length};
ghost use Rattle.mail_fields.specs.Clock.{sixtieth_of, seconds_of, clock_of, offset_of, clock_text, digits_clock_text, zone_text};

use crate::number::{read_number_below, two_digits};

// A colon and two digits below 60.
#[tactic(auto, unfolding(crate::specs::Clock::sixtieth_of))]
fn read_sixtieth(bytes: &[u8]) -> Option<u32>
    requires { length bytes.now ≤ 3 }
    ensures value { result ≡ sixtieth_of bytes.now }
    ensures small { IfSome result (λ number. number < 60) }
{
    match bytes {
        [b':', digits @ ..] => read_number_below(60, digits),
        _ => None,
    }
}

// The seconds of a clock, 0 where it has none.
#[tactic(auto, unfolding(crate::specs::Clock::seconds_of))]
fn read_seconds(bytes: &[u8]) -> Option<u32>
    requires { length bytes.now ≤ 3 }
    ensures value { result ≡ seconds_of bytes.now }
    ensures small { IfSome result (λ number. number < 60) }
{
    if bytes.is_empty() {
        Some(0)
    } else {
        read_sixtieth(bytes)
    }
}

// The second of the day of `hh:mm:ss`, or of `hh:mm`.
#[tactic(auto, unfolding(crate::specs::Clock::clock_of))]
pub(crate) fn read_clock(clock: &[u8]) -> Option<u32>
    requires low { 5 ≤ length clock.now }
    requires high { length clock.now ≤ 8 }
    ensures value { result ≡ clock_of clock.now }
    ensures small { IfSome result (λ second. second < 86400) }
{
    let hour = read_number_below(24, &clock[..2])?;
    let minute = read_sixtieth(&clock[2..5])?;
    let second = read_seconds(&clock[5..])?;
    Some(3600 * hour + 60 * minute + second)
}

// The minutes of `+hhmm` or `-hhmm`.
#[tactic(auto, unfolding(crate::specs::Clock::offset_of))]
pub(crate) fn read_offset(zone: &[u8]) -> Option<i16>
    requires { length zone.now ≡ 5 }
    ensures value { result ≡ offset_of zone.now }
    ensures low { IfSome result (λ minutes. neg_ℤ (pos 1439) ≤ℤ minutes) }
    ensures high { IfSome result (λ minutes. minutes ≤ℤ pos 1439) }
{
    let hours = read_number_below(24, &zone[1..3])?;
    let minutes = read_number_below(60, &zone[3..])?;
    let offset = (60 * hours + minutes) as i16;
    match zone[0] {
        b'+' => Some(offset),
        b'-' => Some(-offset),
        _ => None,
    }
}

// `hh:mm:ss`
#[tactic(auto, unfolding(crate::specs::Clock::clock_text))]
pub(crate) fn clock_bytes(second: u32) -> [u8; 8]
    ensures { result ≡ clock_text second }
{
    let [a, b] = two_digits(second / 3600);
    let [c, d] = two_digits(second / 60 % 60);
    let [e, f] = two_digits(second % 60);
    [a, b, b':', c, d, b':', e, f]
}

// `hhmmss`
#[tactic(auto, unfolding(crate::specs::Clock::digits_clock_text))]
pub(crate) fn digits_clock_bytes(second: u32) -> [u8; 6]
    ensures { result ≡ digits_clock_text second }
{
    let [a, b] = two_digits(second / 3600);
    let [c, d] = two_digits(second / 60 % 60);
    let [e, f] = two_digits(second % 60);
    [a, b, c, d, e, f]
}

// `+hhmm` or `-hhmm`
#[tactic(auto, unfolding(crate::specs::Clock::zone_text))]
pub(crate) fn zone_bytes(zone: i16) -> [u8; 5]
    ensures { result ≡ zone_text zone }
{
    let minutes = u32::from(zone.unsigned_abs());
    let [a, b] = two_digits(minutes / 60);
    let [c, d] = two_digits(minutes % 60);
    if zone < 0 {
        [b'-', a, b, c, d]
    } else {
        [b'+', a, b, c, d]
    }
}
