// Instants in UTC.
ghost use Rattle.std.specs.Prelude.{◌≡◌, ◌<◌, pos, neg_ℤ, ◌≤ℤ◌, ◌+ℤ◌, ◌-ℤ◌, ◌/◌};
ghost use Rattle.mail_fields.specs.Stamps.{parts_of, clamped, seconds_into, stamp_at, utc};

use crate::stamp::Stamp;

// 1-Jan-0000 and 31-Dec-9999.
const FIRST_DAY: i32 = -719_528;

const LAST_DAY: i32 = 2_932_896;

// A stamp in UTC of this day and second, or the nearest one of the years 0000 to 9999.
#[tactic(auto, unfolding(crate::specs::Stamps::clamped))]
fn clamp_to_years(day: i32, second: u32) -> Stamp
    requires { second < 86400 }
    ensures { parts_of result ≡ clamped (record { day = day; second = second; zone_minutes = pos 0 }) }
{
    if day < FIRST_DAY {
        return Stamp {
            day: FIRST_DAY,
            second: 0,
            zone_minutes: 0,
        };
    }
    if day > LAST_DAY {
        return Stamp {
            day: LAST_DAY,
            second: 86_399,
            zone_minutes: 0,
        };
    }
    Stamp {
        day,
        second,
        zone_minutes: 0,
    }
}

// The seconds from the midnight before the local day to the instant, in UTC.
#[tactic(auto, unfolding(crate::specs::Stamps::seconds_into))]
fn seconds_into(second: u32, zone_minutes: i16) -> u32
    requires second { second < 86400 }
    requires low { neg_ℤ (pos 1439) ≤ℤ zone_minutes }
    requires high { zone_minutes ≤ℤ pos 1439 }
    ensures value { result ≡ seconds_into second zone_minutes }
    ensures bound { result < 300_000 }
{
    (86_400 + second as i32 - 60 * i32::from(zone_minutes)) as u32
}

// The day in which an instant lies, so many seconds behind the midnight before a day.
fn day_after(day: i32, seconds: u32) -> i32
    requires low { neg_ℤ (pos 719528) ≤ℤ day }
    requires high { day ≤ℤ pos 2932896 }
    requires seconds { seconds < 300000 }
    ensures { result ≡ day -ℤ pos 1 +ℤ pos (seconds / 86400) }
{
    day - 1 + (seconds / 86_400) as i32
}

/// The stamp of so many seconds since 1-Jan-1970, in UTC.
pub fn stamp_of(moment: u32) -> Stamp
    ensures { parts_of result ≡ stamp_at moment }
{
    Stamp {
        day: (moment / 86_400) as i32,
        second: moment % 86_400,
        zone_minutes: 0,
    }
}

/// The same instant in UTC, or the nearest one of the years 0000 to 9999 there.
#[tactic(auto, unfolding(crate::specs::Stamps::utc))]
pub fn to_utc(stamp: Stamp) -> Stamp
    ensures { parts_of result ≡ utc (parts_of stamp) }
{
    let seconds = seconds_into(stamp.second, stamp.zone_minutes);
    clamp_to_years(day_after(stamp.day, seconds), seconds % 86_400)
}
