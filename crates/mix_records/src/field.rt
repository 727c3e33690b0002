// Fields of records, each with a colon before it.
ghost use Rattle.std.specs.Prelude.{◌≡◌, ◌<◌, ◌≤◌, ◌^◌, ◌++◌, ℕ, List, Some, None, OnOk, IfSome, MatchOption, length};
ghost use Rattle.mail_fields.specs.Stamps.{parts_of};
ghost use Rattle.mix_records.specs.Fields.{hex_at_front, hex_text, date_at_front, date_text, end_at_front, record_end};

use mail_fields::{Stamp, put_hex, put_mix_date, read_hex, read_mix_date};
use std::alloc::AllocError;

/// A colon and a number of so many hex digits at the front of a text, and the text behind them.
#[tactic(auto, unfolding(crate::specs::Fields::hex_at_front))]
pub fn read_hex_field(text: &[u8], width: usize) -> Option<(u32, &[u8])>
    requires low { 1 ≤ width }
    requires high { width ≤ 8 }
    ensures value { MatchOption result (hex_at_front width text.now ≡ None)
        (λ found. hex_at_front width text.now ≡ Some (found.0, found.1.now)) }
    ensures small { IfSome result (λ found. found.0 < 16 ^ width) }
    ensures shorter { IfSome result (λ found. length found.1.now < length text.now) }
{
    let [b':', digits @ ..] = text else {
        return None;
    };
    if digits.len() < width {
        return None;
    }
    let number = read_hex(digits, width)?;
    Some((number as u32, &digits[width..]))
}

/// Appends a colon and a number of so many hex digits.
pub fn put_hex_field(out: &mut Vec<u8>, width: usize, number: u32) -> Result<(), AllocError>
    requires high { width ≤ 8 }
    requires fits { number < 16 ^ width }
    ensures { OnOk result (out.new.items ≡ out.old.items ++ hex_text width number) }
{
    let mut text = [b':'; 9];
    put_hex(&mut text, 1, width, u64::from(number));
    out.extend_from_slice(&text[..width + 1])
}

/// A colon and a date at the front of a text, and the text behind them.
#[tactic(auto, unfolding(crate::specs::Fields::date_at_front))]
pub fn read_date_field(text: &[u8]) -> Option<(Stamp, &[u8])>
    ensures value { MatchOption result (date_at_front text.now ≡ None)
        (λ found. date_at_front text.now ≡ Some (parts_of found.0, found.1.now)) }
    ensures shorter { IfSome result (λ found. length found.1.now < length text.now) }
{
    if text.len() < 20 || text[0] != b':' {
        return None;
    }
    let stamp = read_mix_date(&text[1..20])?;
    Some((stamp, &text[20..]))
}

/// Appends a colon and a date, which is read again.
pub fn put_date_field(out: &mut Vec<u8>, stamp: Stamp) -> Result<(), AllocError>
    ensures read { (rest : List ℕ) → date_at_front (date_text (parts_of stamp) ++ rest) ≡ Some (parts_of stamp, rest) }
    ensures text { OnOk result (out.new.items ≡ out.old.items ++ date_text (parts_of stamp)) }
{
    let mut text = [b':'; 20];
    put_mix_date(&mut text, 1, stamp);
    out.extend_from_slice(&text)
}

/// The text behind the end of a record, where it begins with that.
#[tactic(auto, unfolding(crate::specs::Fields::end_at_front))]
pub fn read_record_end(text: &[u8]) -> Option<&[u8]>
    ensures value { MatchOption result (end_at_front text.now ≡ None) (λ behind. end_at_front text.now ≡ Some behind.now) }
    ensures shorter { IfSome result (λ behind. length behind.now < length text.now) }
{
    match text {
        [b':', b'\r', b'\n', behind @ ..] => Some(behind),
        _ => None,
    }
}

/// Appends the end of a record.
pub fn put_record_end(out: &mut Vec<u8>) -> Result<(), AllocError>
    ensures { OnOk result (out.new.items ≡ out.old.items ++ record_end) }
{
    out.extend_from_slice(b":\r\n")
}
