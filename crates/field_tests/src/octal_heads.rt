//! Heads of mtx and tenex records, read and written.
use crate::changed_texts::{exchanged, with, without};
use octal_head::{Octal, put_octal_head, read_octal_head};
use std::alloc::{AllocError, Global};
use std::test::Fail;
use test_tables::rows;

// A line with its size, the bits of keywords and those of flags, or none.
const HEADS: &str = r#"
 2-Apr-2024 08:00:00 +0200,14;000000000001 => 14 0 1
17-Jul-1996 02:44:25 -0700,1024;000000000113 => 1024 1 11
17-Jul-1996 02:44:25 -0700,0;777777777777 => 0 1073741823 63
17-Jul-1996 02:44:25 -0700,9999999999;100000000000 => 9999999999 134217728 0
# read, and written in another way
02-aPR-2024 08:00:00 -0000,0014;000000000040 => 14 0 32
17-Jul-1996 02:44:25 -0700,0000000000;000000000000 => 0 0 0
# sizes of no digit, of eleven, and of another byte
17-Jul-1996 02:44:25 -0700,;000000000000 => none
17-Jul-1996 02:44:25 -0700,00000000001;000000000000 => none
17-Jul-1996 02:44:25 -0700,-1;000000000000 => none
17-Jul-1996 02:44:25 -0700,1f;000000000000 => none
# bits that are no 12 octal digits
17-Jul-1996 02:44:25 -0700,1024;00000000000 => none
17-Jul-1996 02:44:25 -0700,1024;0000000000000 => none
17-Jul-1996 02:44:25 -0700,1024;000000000008 => none
17-Jul-1996 02:44:25 -0700,1024;00000001-001 => none
17-Jul-1996 02:44:25 -0700,1024;000000000001\r\n => none
31-Feb-2024 02:44:25 -0700,1024;000000000001 => none
\e => none
"#;

fn shown(alloc: Global, found: Option<Octal>) -> Result<String, AllocError> {
    match found {
        Some(head) => format!(in alloc; "{} {} {}", head.size, head.words, head.bits),
        None => String::from_str(alloc, "none"),
    }
}

#[test]
fn a_head_has_its_parts(rt: HostRuntime) -> Result<(), Fail> {
    for row in &rows(rt.alloc(), HEADS)? {
        let found = shown(rt.alloc(), read_octal_head(row.text.as_slice()))?;
        row.agrees(found.as_bytes())?;
    }
    Ok(())
}

#[test]
fn a_head_has_the_stamp_of_its_date(rt: HostRuntime) {
    let found = read_octal_head(b" 2-Apr-2024 08:00:00 +0200,14;000000000001");
    let stamp = found.map(|head| (head.stamp.day, head.stamp.second, head.stamp.zone_minutes));
    assert_eq!(rt; stamp, Some((19815, 28800, 120)));
}

// A line, and what is written of it, ended by LF and by CRLF.
const WRITTEN: &str = r#"
 2-Apr-2024 08:00:00 +0200,14;000000000001 =>  2-Apr-2024 08:00:00 +0200,14;000000000001\n |  2-Apr-2024 08:00:00 +0200,14;000000000001\r\n
17-Jul-1996 02:44:25 -0700,1024;000000000113 => 17-Jul-1996 02:44:25 -0700,1024;000000000113\n | 17-Jul-1996 02:44:25 -0700,1024;000000000113\r\n
31-Dec-9999 23:59:59 -2359,9999999999;777777777777 => 31-Dec-9999 23:59:59 -2359,9999999999;777777777777\n | 31-Dec-9999 23:59:59 -2359,9999999999;777777777777\r\n
 1-Jan-0000 00:00:00 +0000,0;000000000000 =>  1-Jan-0000 00:00:00 +0000,0;000000000000\n |  1-Jan-0000 00:00:00 +0000,0;000000000000\r\n
"#;

fn written(alloc: Global, line: &[u8]) -> Result<Vec<u8>, AllocError> {
    let Some(head) = read_octal_head(line) else {
        return Vec::from_slice(alloc, b"none");
    };
    let mut shown = put_octal_head(alloc, &head, false)?;
    shown.extend_from_slice(b" | ")?;
    shown.extend_from_slice(put_octal_head(alloc, &head, true)?.as_slice())?;
    Ok(shown)
}

#[test]
fn a_head_is_written_as_it_was_read(rt: HostRuntime) -> Result<(), Fail> {
    for row in &rows(rt.alloc(), WRITTEN)? {
        let found = written(rt.alloc(), row.text.as_slice())?;
        row.agrees(found.as_slice())?;
    }
    Ok(())
}

const HEAD: &[u8] = b"17-Jul-1996 02:44:25 -0700,1024;000000000113";

// The size without its digit at a place of the line.
fn size_without(at: usize) -> Option<u64> {
    match at {
        27 => Some(24),
        28 => Some(124),
        29 => Some(104),
        30 => Some(102),
        _ => None,
    }
}

// The size with a 7 before that place.
fn size_with(at: usize) -> Option<u64> {
    match at {
        27 => Some(71024),
        28 => Some(17024),
        29 => Some(10724),
        30 => Some(10274),
        31 => Some(10247),
        _ => None,
    }
}

#[test]
fn a_head_with_a_byte_too_few_or_too_many_is_none(rt: HostRuntime) -> Result<(), Fail> {
    for at in 0..=HEAD.len() {
        let fewer = without(rt.alloc(), HEAD, at)?;
        if at < HEAD.len() {
            assert_eq!(rt;
                read_octal_head(fewer.as_slice()).map(|head| head.size),
                size_without(at)
            );
        }
        let more = with(rt.alloc(), HEAD, at, b'7')?;
        assert_eq!(rt;
            read_octal_head(more.as_slice()).map(|head| head.size),
            size_with(at)
        );
    }
    Ok(())
}

#[test]
fn a_head_with_a_strange_byte_is_none(rt: HostRuntime) -> Result<(), Fail> {
    for at in 0..HEAD.len() {
        let line = exchanged(rt.alloc(), HEAD, at, b'x')?;
        assert!(rt; read_octal_head(line.as_slice()).is_none());
    }
    Ok(())
}
