//! Which lines are delimiter lines, and when their messages came.
use crate::shown::stamp_text;
use mail_fields::read_from_date;
use std::alloc::{AllocError, Global};
use std::test::Fail;
use test_tables::rows;

// A line with its stamp, or none.
const CASES: &str = r#"
From a@b Mon Apr  1 12:00:00 2024 => 19814 43200 0
From a@b Mon Apr  1 12:00:00 2024\n => 19814 43200 0
From a@b Mon Apr  1 12:00:00 2024\r\r\n => 19814 43200 0
From Mon Apr  1 12:00:00 2024\n => 19814 43200 0
From a b c Mon Apr  1 12:00:00 2024\n => 19814 43200 0
# other forms of a date
From a@b Mon Apr 01 12:00:00 2024\n => 19814 43200 0
From a@b mON aPR  1 12:00:00 2024\n => 19814 43200 0
From a@b Mon Apr  1 12:34 2024\n => 19814 45240 0
From a@b Mon Apr  1 12:34 +0130 2024\n => 19814 45240 90
From a@b Mon Apr  1 12:34 2024 -2359\n => 19814 45240 -1439
From a@b Mon Apr  1 12:00:00 -0000 2024\n => 19814 43200 0
From a@b Mon Apr  1 12:00:00 2024 +2359\n => 19814 43200 1439
From a@b Mon Apr  1 12:00:00 EST 2024\n => 19814 43200 0
From a@b Mon Apr  1 12:00 2024 cet\n => 19814 43200 0
From a@b Sun Apr  1 23:59:59 2024\n => 19814 86399 0
# the ends of the calendar, and a leap day
From a@b Sat Jan  1 00:00:00 0000\n => -719528 0 0
From a@b Fri Dec 31 23:59:59 9999\n => 2932896 86399 0
From a@b Thu Feb 29 00:00:00 2024\n => 19782 0 0
From a@b Wed Feb 29 00:00:00 2023\n => none
From a@b Mon Feb 31 00:00:00 2024\n => none
From a@b Mon Apr  0 00:00:00 2024\n => none
# no delimiter lines
From a@b\n => none
\e => none
from a@b Mon Apr  1 12:00:00 2024\n => none
From: a@b Mon Apr  1 12:00:00 2024\n => none
From a@bMon Apr  1 12:00:00 2024\n => none
From a@b Mon Apr 1 12:00:00 2024\n => none
From a@b Mon Apr  1 24:00:00 2024\n => none
From a@b Mon Apr  1 12:00:60 2024\n => none
From a@b Mon Apr  1 12:00:00 CEST 2024\n => none
From a@b Mon Apr  1 12:00:00 CET 2024 +0100\n => none
From a@b Mon Apr  1 12:00:00 2024 +2400\n => none
From a@b Mon Apr  1 12:00:00 2024 \n => none
From a@b Mon Apr  1 12:00:00 2024\r => none
From a@b\nMon Apr  1 12:00:00 2024\n => none
From \n Mon Apr  1 12:00:00 2024\n => none
"#;

#[test]
fn a_delimiter_line_ends_in_a_date(rt: HostRuntime) -> Result<(), Fail> {
    for row in &rows(rt.alloc(), CASES)? {
        let found = stamp_text(rt.alloc(), read_from_date(row.text.as_slice()))?;
        row.agrees(found.as_bytes())?;
    }
    Ok(())
}

// A delimiter line with so many letters in its address, and so many CR bytes before its line feed.
fn long_line(alloc: Global, letters: usize, returns: usize) -> Result<Vec<u8>, AllocError> {
    let mut line = Vec::new(alloc);
    line.extend_from_slice(b"From ")?;
    for _ in 0..letters {
        line.push(b'a')?;
    }
    line.extend_from_slice(b" Mon Apr  1 12:00:00 2024")?;
    for _ in 0..returns {
        line.push(b'\r')?;
    }
    line.push(b'\n')?;
    Ok(line)
}

// Letters, CR bytes, and whether the line is short enough: 998 and 999 bytes, then 1,000 and 1,001 with the line end.
const LENGTHS: [(usize, usize, bool); 5] = [
    (968, 0, true),
    (968, 1, true),
    (969, 0, false),
    (960, 9, true),
    (960, 10, false),
];

#[test]
fn a_delimiter_line_is_short(rt: HostRuntime) -> Result<(), Fail> {
    for (letters, returns, short) in LENGTHS {
        let line = long_line(rt.alloc(), letters, returns)?;
        assert_eq!(rt; read_from_date(&line).is_some(), short);
    }
    Ok(())
}
