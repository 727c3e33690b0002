// Stamps.
ghost use Rattle.std.specs.Prelude.{◌<◌, pos, neg_ℤ, ◌≤ℤ◌};

/// When a message came: a local civil day counted from 1-Jan-1970, a second of that day, and a zone.
///
/// The days are those of the years 0000 to 9999.
#[derive(Clone, Copy, Debug, PartialEq, Eq)]
pub struct Stamp {
    pub day: i32,
    pub second: u32,
    pub zone_minutes: i16,
    pub ghost day_in: { (neg_ℤ (pos 719528) ≤ℤ day) × (day ≤ℤ pos 2932896) },
    pub ghost second_in: { second < 86400 },
    pub ghost zone_in: { (neg_ℤ (pos 1439) ≤ℤ zone_minutes) × (zone_minutes ≤ℤ pos 1439) },
}
