//! Dates and numbers read, written and moved to UTC.
use crate::shown::{day_text, number_text, stamp_text};
use mail_fields::{
    Stamp, put_from_date, put_hex, put_imap_date, put_mix_date, put_octal, read_decimal,
    read_field_date, read_hex, read_imap_date, read_mix_date, read_octal, read_search_date,
    split_at_space, stamp_of, to_utc,
};
use std::test::Fail;
use test_tables::rows;

// A stamp's day from 1-Jan-1970, its second of that day and its zone.
type Parts = (i32, u32, i16);

fn parts(stamp: Stamp) -> Parts {
    (stamp.day, stamp.second, stamp.zone_minutes)
}

// A date and its stamp.
const IMAP_DATES: &str = r#"
 2-Apr-2024 08:00:00 +0200 => 19815 28800 120
02-aPR-2024 08:00:00 +0200 => 19815 28800 120
17-Jul-1996 02:44:25 -0700 => 9694 9865 -420
 2-Apr-2024 08:00:00 -0000 => 19815 28800 0
29-Feb-2000 00:00:00 +0000 => 11016 0 0
29-Feb-2024 00:00:00 +0000 => 19782 0 0
 1-Jan-0000 00:00:00 +2359 => -719528 0 1439
31-Dec-9999 23:59:59 -2359 => 2932896 86399 -1439
29-Feb-1900 00:00:00 +0000 => none
31-Feb-2024 00:00:00 +0000 => none
 0-Apr-2024 08:00:00 +0200 => none
2-Apr-2024 08:00:00 +0200 => none
 2-Apr-2024 08:00:00 +0200 \e => none
 2-Apr-2024 24:00:00 +0200 => none
 2-Apr-2024 08:00:00 +2400 => none
 2-Apr-2024 08:00:00 +0060 => none
 2-Apr-2024 08:00:00  0200 => none
"#;

#[test]
fn an_imap_date_has_its_stamp(rt: HostRuntime) -> Result<(), Fail> {
    for row in &rows(rt.alloc(), IMAP_DATES)? {
        let found = stamp_text(rt.alloc(), read_imap_date(row.text.as_slice()))?;
        row.agrees(found.as_bytes())?;
    }
    Ok(())
}

// Texts that are written as they were read.
const WRITTEN: [&[u8]; 5] = [
    b" 2-Apr-2024 08:00:00 +0200",
    b"17-Jul-1996 02:44:25 -0700",
    b"29-Feb-2000 23:59:59 +0000",
    b" 1-Jan-0000 00:00:00 +2359",
    b"31-Dec-9999 23:59:59 -2359",
];

#[test]
fn an_imap_date_is_written_as_it_was_read(rt: HostRuntime) {
    for expected in WRITTEN {
        let mut text = *b"[..........................]";
        if let Some(stamp) = read_imap_date(expected) {
            put_imap_date(&mut text, 1, stamp);
        }
        assert!(rt; &text[1..27] == expected);
        assert!(rt; text[0] == b'[' && text[27] == b']');
    }
}

const MIX_DATES: &str = r#"
20240402080000+0200 => 19815 28800 120
19961219163957-0800 => 9849 59997 -480
00000101000000+0000 => -719528 0 0
20240002080000+0200 => none
20241302080000+0200 => none
2024040208000+0200 => none
"#;

#[test]
fn a_mix_date_has_its_stamp(rt: HostRuntime) -> Result<(), Fail> {
    for row in &rows(rt.alloc(), MIX_DATES)? {
        let found = read_mix_date(row.text.as_slice());
        row.agrees(stamp_text(rt.alloc(), found)?.as_bytes())?;
        if let Some(stamp) = found {
            let mut again = [0; 19];
            put_mix_date(&mut again, 0, stamp);
            assert!(rt; again.as_slice() == row.text.as_slice());
        }
    }
    Ok(())
}

// Moments, with the from date of each.
const MOMENTS: [(u32, Parts, &[u8]); 4] = [
    (0, (0, 0, 0), b"Thu Jan  1 00:00:00 1970"),
    (1000, (0, 1000, 0), b"Thu Jan  1 00:16:40 1970"),
    (951868799, (11016, 86399, 0), b"Tue Feb 29 23:59:59 2000"),
    (4294967295, (49710, 23295, 0), b"Sun Feb  7 06:28:15 2106"),
];

#[test]
fn a_moment_has_its_stamp_and_its_from_date(rt: HostRuntime) {
    for (moment, expected, text) in MOMENTS {
        let stamp = stamp_of(moment);
        assert_eq!(rt; parts(stamp), expected);
        if stamp.zone_minutes == 0 {
            let mut written = [0; 24];
            put_from_date(&mut written, 0, stamp);
            assert!(rt; written.as_slice() == text);
        }
    }
}

// A date of IMAP, and the same instant in UTC.
const INSTANTS: &str = r#"
 2-Apr-2024 08:00:00 +0200 => 19815 21600 0
19-Dec-1996 16:39:57 -0800 => 9850 2397 0
 1-Jan-2024 00:30:00 +0130 => 19722 82800 0
31-Dec-9999 23:59:59 -2359 => 2932896 86399 0
 1-Jan-0000 00:00:00 +2359 => -719528 0 0
 1-Jan-0000 23:59:00 +2359 => -719528 0 0
"#;

#[test]
fn an_instant_is_moved_to_utc(rt: HostRuntime) -> Result<(), Fail> {
    for row in &rows(rt.alloc(), INSTANTS)? {
        let found = read_imap_date(row.text.as_slice()).map(|stamp| to_utc(stamp));
        row.agrees(stamp_text(rt.alloc(), found)?.as_bytes())?;
    }
    Ok(())
}

// A date and its day.
const SEARCH_DATES: &str = r#"
1-Feb-1994 => 8797
01-feb-1994 => 8797
29-Feb-2000 => 11016
29-Feb-1900 => none
 1-Feb-1994 => none
0-Feb-1994 => none
1-Feb-94 => none
001-Feb-1994 => none
"#;

#[test]
fn a_search_date_has_its_day(rt: HostRuntime) -> Result<(), Fail> {
    for row in &rows(rt.alloc(), SEARCH_DATES)? {
        let found = day_text(rt.alloc(), read_search_date(row.text.as_slice()))?;
        row.agrees(found.as_bytes())?;
    }
    Ok(())
}

const FIELD_DATES: &str = r#"
 Fri, 21 Nov 1997 09:55:06 -0600 => 10186
Tue, 1 Jul 2003 10:52:37 +0200 => 12234
fri,5  nOV   49 00:00 => 29163
1 Jan 50 => -7305
29 Feb 2024x => 19782
29 Feb 1900 => none
Fry, 21 Nov 1997 => none
021 Nov 1997 => none
21Nov 1997 => none
21 Nov1997 => none
21 Nov 19971 => none
21 Nov \e => none
"#;

#[test]
fn a_field_date_has_its_day(rt: HostRuntime) -> Result<(), Fail> {
    for row in &rows(rt.alloc(), FIELD_DATES)? {
        let found = day_text(rt.alloc(), read_field_date(row.text.as_slice()))?;
        row.agrees(found.as_bytes())?;
    }
    Ok(())
}

// The base of a number with a letter for each digit that is read, its text, and the number: `o` is base 8, `x` base 16, and `d` base
// 10, whose number is the whole text.
const NUMBERS: &str = r#"
ooo 7558 => 493
oooo 7558 => none
ooo 75 => none
xxxxxxxx DeadBeef => 3735928559
xxxxxxxxxxxxxxxx ffffffffffffffff => 18446744073709551615
xxxxxxxx deadbeeg => none
d 9999999999 => 9999999999
d 00000000001 => none
d \e => none
d 12a => none
"#;

fn number(base: &[u8], text: &[u8]) -> Option<u64> {
    match base {
        [b'o', ..] if base.len() <= 16 => read_octal(text, base.len()),
        [b'x', ..] if base.len() <= 16 => read_hex(text, base.len()),
        _ => read_decimal(text),
    }
}

#[test]
fn numbers_are_read_in_their_base(rt: HostRuntime) -> Result<(), Fail> {
    for row in &rows(rt.alloc(), NUMBERS)? {
        let (base, text) = split_at_space(row.text.as_slice());
        let found = number_text(rt.alloc(), number(base, text))?;
        row.agrees(found.as_bytes())?;
    }
    Ok(())
}

#[test]
fn a_number_is_written_in_base_16(rt: HostRuntime) {
    let mut text = *b"[........]";
    put_hex(&mut text, 1, 8, 0xc0ffee);
    assert!(rt; text == *b"[00c0ffee]");
}

#[test]
fn a_number_is_written_in_base_8(rt: HostRuntime) {
    let mut text = *b"[......]";
    put_octal(&mut text, 1, 6, 493);
    assert!(rt; text == *b"[000755]");
}
