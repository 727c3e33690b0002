// Dates with a time as IMAP writes them (RFC 3501, section 9, date-time).
ghost use Rattle.std.specs.Prelude.{◌≡◌, ◌≤◌, ◌+◌, ◌++◌, Some, codes, length, take, drop};
ghost use Rattle.mail_fields.specs.CivilDays.{day_text, month_text};
ghost use Rattle.mail_fields.specs.Clock.{zone_text};
ghost use Rattle.mail_fields.specs.Numbers.{digits_in};
ghost use Rattle.mail_fields.specs.Texts.{written_at};
ghost use Rattle.mail_fields.specs.ImapDate.{imap_fields_of, imap_date_of, imap_date_text};
ghost use Rattle.mail_fields.specs.Stamps.{ReadsAs, parts_of};

use crate::calendar::{CivilDate, civil_date, day_bytes, month_name, read_dashed_date, read_day};
use crate::clock::{clock_bytes, read_clock, read_offset, zone_bytes};
use crate::number::four_digits;
use crate::stamp::Stamp;
use crate::text::put_parts;

// The fields of a text of this form.
#[tactic(auto, unfolding(crate::specs::ImapDate::imap_fields_of))]
fn read_fields(bytes: &[u8]) -> Option<Stamp>
    requires { length bytes.now ≡ 26 }
    ensures { ReadsAs result (imap_fields_of bytes.now) }
{
    let number = read_day(&bytes[..2])?;
    let day = read_dashed_date(number, &bytes[2..11])?;
    let second = read_clock(&bytes[12..20])?;
    let zone_minutes = read_offset(&bytes[21..])?;
    Some(Stamp {
        day,
        second,
        zone_minutes,
    })
}

/// The stamp of `dd-Mon-yyyy hh:mm:ss +zzzz`, where a day below 10 may begin with a space.
#[tactic(auto, unfolding(crate::specs::ImapDate::imap_date_of))]
pub fn read_imap_date(bytes: &[u8]) -> Option<Stamp>
    ensures { ReadsAs result (imap_date_of bytes.now) }
{
    if bytes.len() == 26 && bytes[11] == b' ' && bytes[20] == b' ' {
        read_fields(bytes)
    } else {
        None
    }
}

// `dd-Mon-yyyy` and a space
#[tactic(auto, unfolding(crate::specs::ImapDate::dashed_date_text))]
fn dashed_date_bytes(date: CivilDate) -> [u8; 12]
    requires low { 1 ≤ date.month }
    requires high { date.month ≤ 12 }
    ensures { result ≡ day_text date.day ++ codes "-" ++ month_text date.month ++ codes "-" ++ digits_in 10 4 date.year ++ codes " " }
{
    let [a, b] = day_bytes(date.day);
    let [c, d, e] = month_name(date.month);
    let [f, g, h, i] = four_digits(date.year);
    [a, b, b'-', c, d, e, b'-', f, g, h, i, b' ']
}

// A space and `+hhmm` or `-hhmm`
fn spaced_zone_bytes(zone: i16) -> [u8; 6]
    ensures { result ≡ codes " " ++ zone_text zone }
{
    let [a, b, c, d, e] = zone_bytes(zone);
    [b' ', a, b, c, d, e]
}

/// Writes a stamp as `dd-Mon-yyyy hh:mm:ss +zzzz`, 26 bytes, a day below 10 with a space.
#[tactic(auto, unfolding(crate::specs::ImapDate::imap_date_text, crate::specs::ImapDate::dashed_date_text))]
pub fn put_imap_date(buf: &mut [u8], place: usize, stamp: Stamp)
    requires { place + 26 ≤ length buf.old }
    ensures text { buf.new ≡ written_at buf.old place (imap_date_text (parts_of stamp)) }
    ensures width { length (imap_date_text (parts_of stamp)) ≡ 26 }
    ensures read { imap_date_of (take 26 (drop place buf.new)) ≡ Some (parts_of stamp) }
{
    let date = dashed_date_bytes(civil_date(stamp));
    let clock = clock_bytes(stamp.second);
    put_parts(
        buf,
        place,
        &date,
        &clock,
        &spaced_zone_bytes(stamp.zone_minutes),
    );
}
