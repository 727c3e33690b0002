//! The status fields of unix and mmdf messages, and the base of a mailbox.
use crate::changed_texts::{exchanged, with, without};
use mail_fields::{Keyword, Keywords, Stamp, put_hex};
use mail_types::Flags;
use status_heads::{
    Base, Heads, put_delimiter, put_heads, put_pseudo, read_base, read_heads, read_numbered_heads,
};
use std::alloc::{AllocError, Global};
use std::test::Fail;
use test_tables::rows;

// A header with a body, and what it says: the letters of Status and then of X-Status, the UID, in brackets the names, and behind
// `imap` or `base` the validity, the last UID and the names of X-IMAP and of X-IMAPbase; `-` where it says nothing.
const HEADS: &str = r#"
\e => -
Subject: Hello\nStatus: RO\nX-UID: 1\n\nHi Bob.\n => RO 1
Status: O\nX-Status: F\nX-Keywords: Work\nX-UID: 2\n\nOne.\nTwo.\n => OF 2 [Work]
Status: RO\nX-Status: DFAT\n\n => RODFAT
# each letter alone
Status: R\n\n => R
X-Status: D\n\n => D
X-Status: F\n\n => F
X-Status: A\n\n => A
Status: O\n\n => O
X-Status: T\n\n => T
# letters in the other field, in small letters, and others between
Status: DFAT\nX-Status: RO\n\n => -
Status: ro\nX-Status: dfat\n\n => -
Status: xOyR z\n\n => RO
# names in any case, blanks before the colon, a folded value
sTATUS : R\r\n O\r\nx-uid:\t7\r\n\r\n => RO 7
# the first of two fields counts, also where it is in no form
Status: R\nStatus: O\nX-UID: x\nX-UID: 3\n\n => R
# fields of the body, and a line that is no field
\nStatus: RO\nX-UID: 1\n => -
Status RO\nX-Status-: F\nX-UIDs: 1\n\n => -
# UIDs at the ends of their range
X-UID: 0\n\n => -
X-UID: 4294967294\n\n => 4294967294
X-UID: 4294967295\n\n => -
X-UID: 0000000012\n\n => 12
X-UID: 00000000012\n\n => -
# names with more spaces, with a tab inside, that are no keywords, and again in another case
X-Keywords:  a   b\tc (d) $e  A\n\n => [a $e A]
X-Keywords: a\n  b\n\tc\n\n => [a]
# a field of each name in odd case and folded, and the first of two
STATUS:\n RO\n\n => RO
x-STATUS\t:\r\n\tD\r\n F\r\n\r\n => DF
X-uid:\n 4294967294\n\n => 4294967294
x-kEYWORDS: a\n b\n\n => [a b]
X-Status: D\nX-Status: F\n\n => D
X-Keywords: a\nX-Keywords: b\n\n => [a]
X-UID: 1\nX-UID: 2\n\n => 1
X-Keywords: (\nX-Keywords: b\n\n => -
Status: -\nStatus: RO\n\n => -
# no value
Status:\n\n => -
X-Status:\n\n => -
X-UID:\n\n => -
X-Keywords:\n\n => -
X-UID: \n\n => -
X-Keywords: \t \n\n => -
# UIDs around the ends of their range, and what is no number
X-UID: 1\n\n => 1
X-UID: 4294967293\n\n => 4294967293
X-UID: 4294967296\n\n => -
X-UID: 9999999999\n\n => -
X-UID: -1\n\n => -
X-UID: 1 2\n\n => -
X-UID: +1\n\n => -
X-UID: 0x1\n\n => -
"#;

const BASES: &str = r#"
\e => -
X-IMAP: 0000000900 0000000002 Work\nStatus: RO\n\n => RO imap 900 2 [Work]
x-imap: 1 0\n\n => imap 1 0
X-IMAP: 4294967295 4294967294\n\n => imap 4294967295 4294967294
X-IMAP:   7   8   a  b \n\n => imap 7 8 [a b]
X-IMAP: 7\n 8\n a\n\n => imap 7 8 [a]
# names that repeat, and that are no keywords
X-IMAP: 7 8 a B A (c b d\n\n => imap 7 8 [a B d]
# numbers outside their ranges, and what is no number
X-IMAP: 0 1\n\n => -
X-IMAP: 4294967296 1\n\n => -
X-IMAP: 1 4294967295\n\n => -
X-IMAP: 00000000001 1\n\n => -
X-IMAP: 1 x\n\n => -
X-IMAP: 1\n\n => -
X-IMAP: 1\t1\n\n => -
X-IMAP:\n\n => -
# another name, another place, and the first of two
X-IMAPbase: 7 8\n\n => base 7 8
\nX-IMAP: 7 8\n => -
X-IMAP: 0 0\nX-IMAP: 7 8\n\n => -
# no value, names in odd case, folded and twice
X-IMAPbase:\n\n => -
X-IMAP: \n\n => -
x-imapBASE: 7 8 a\n\n => base 7 8 [a]
X-IMAPbase\t: 7\r\n 8\r\n a\r\n\r\n => base 7 8 [a]
X-IMAPbase: 7 8\nX-IMAPbase: 9 9\n\n => base 7 8
X-IMAP: 7 8\nX-IMAP: 9 9\n\n => imap 7 8
X-IMAP: x\nX-IMAPBASE: 7 8\n\n => base 7 8
# the ends of the ranges
X-IMAP: 1 1\n\n => imap 1 1
X-IMAP: 4294967295 0\n\n => imap 4294967295 0
X-IMAP: 4294967294 4294967293\n\n => imap 4294967294 4294967293
X-IMAP: 9999999999 1\n\n => -
X-IMAP: 1 4294967296\n\n => -
X-IMAP: 1 00000000001\n\n => -
X-IMAP: -1 1\n\n => -
X-IMAP: 1 1x\n\n => -
"#;

fn put_flags(shown: &mut Vec<u8>, flags: Flags) -> Result<(), AllocError> {
    let letters = [
        (flags.seen, b'R'),
        (flags.old, b'O'),
        (flags.deleted, b'D'),
        (flags.flagged, b'F'),
        (flags.answered, b'A'),
        (flags.draft, b'T'),
    ];
    if flags != Flags::none() {
        shown.push(b' ')?;
    }
    for (is_set, letter) in letters {
        if is_set {
            shown.push(letter)?;
        }
    }
    Ok(())
}

fn put_names(shown: &mut Vec<u8>, names: &[Keyword]) -> Result<(), AllocError> {
    for (place, name) in names.iter().enumerate() {
        shown.extend_from_slice(if place == 0 { b" [" } else { b" " })?;
        shown.extend_from_slice(name.as_slice())?;
    }
    if !names.is_empty() {
        shown.push(b']')?;
    }
    Ok(())
}

fn put_heads_shown(shown: &mut Vec<u8>, alloc: Global, heads: &Heads) -> Result<(), AllocError> {
    put_flags(shown, heads.seen_old)?;
    if let Some(uid) = heads.uid {
        shown.extend_from_slice(format!(in alloc; " {uid}")?.as_bytes())?;
    }
    put_names(shown, heads.words.as_slice())
}

fn put_base_shown(
    shown: &mut Vec<u8>,
    alloc: Global,
    found: &Option<Base>,
) -> Result<(), AllocError> {
    let Some(base) = found else {
        return Ok(());
    };
    shown.extend_from_slice(format!(in alloc; " {} {}", base.validity, base.last)?.as_bytes())?;
    put_names(shown, base.words.as_slice())
}

// What a header says.
fn reading(alloc: Global, text: &[u8]) -> Result<Vec<u8>, AllocError> {
    let mut shown = Vec::new(alloc);
    put_heads_shown(&mut shown, alloc, &read_heads(alloc, text)?)?;
    let imap = read_base(alloc, text, b"X-IMAP")?;
    if imap.is_some() {
        shown.extend_from_slice(b" imap")?;
    }
    put_base_shown(&mut shown, alloc, &imap)?;
    let base = read_base(alloc, text, b"X-IMAPbase")?;
    if base.is_some() {
        shown.extend_from_slice(b" base")?;
    }
    put_base_shown(&mut shown, alloc, &base)?;
    Vec::from_slice(alloc, shown.get(1..).unwrap_or(b"-"))
}

#[test]
fn headers_say_what_their_fields_say(rt: HostRuntime) -> Result<(), Fail> {
    for table in [HEADS, BASES] {
        for row in &rows(rt.alloc(), table)? {
            let found = reading(rt.alloc(), row.text.as_slice())?;
            row.agrees(found.as_slice())?;
        }
    }
    Ok(())
}

// A change and a header: behind `-` a byte is left out, behind `+x` an `x` is added, and behind `=x` an `x` stands for a byte. Then
// what the header says with the change at each place, the first one first.
const CHANGED: &str = r#"
- Status: RO\n\n => 7 x -, RO, O, R, 2 x RO
+x Status: RO\n\n => 7 x -, 6 x RO
=x Status: RO\n\n => 7 x -, RO, O, R, 2 x RO
- X-Status: DF\n\n => 9 x -, DF, F, D, 2 x DF
+x X-Status: DF\n\n => 9 x -, 6 x DF
=x X-Status: DF\n\n => DF, 8 x -, DF, F, D, 2 x DF
- X-UID: 12\n\n => 6 x -, 12, 2, 1, 2 x 12
+x X-UID: 12\n\n => 10 x -, 2 x 12
=x X-UID: 12\n\n => 12, 9 x -, 12
+5 X-UID: 12\n\n => 7 x -, 512, 152, 125, 2 x 12
=5 X-UID: 12\n\n => 6 x -, 512, 52, 15, 125, 12
- X-Keywords: a b\n\n => 11 x -, [a b], [b], [ab], [a], 2 x [a b]
+x X-Keywords: a b\n\n => 11 x -, [x a b], [xa b], [ax b], [a xb], [a bx], 2 x [a b]
=x X-Keywords: a b\n\n => [a b], 10 x -, [xa b], [x b], [axb], [a x], [a bx], [a b]
+  X-Keywords: a b\n\n => 10 x -, 8 x [a b]
=  X-Keywords: a b\n\n => 11 x -, [a b], [b], [a b], [a], 2 x [a b]
- X-IMAP: 7 8 a\n\n => 7 x -, imap 7 8 [a], 4 x -, imap 7 8, 2 x imap 7 8 [a]
+x X-IMAP: 7 8 a\n\n => 12 x -, imap 7 8 [xa], imap 7 8 [ax], 2 x imap 7 8 [a]
=x X-IMAP: 7 8 a\n\n => imap 7 8 [a], 11 x -, imap 7 8 [x], imap 7 8 [ax], imap 7 8 [a]
+5 X-IMAP: 7 8 a\n\n => 7 x -, imap 5 7 [8 a], imap 57 8 [a], imap 75 8 [a], imap 7 58 [a], imap 7 85 [a], imap 7 8 [5a], imap 7 8 [a5], 2 x imap 7 8 [a]
=5 X-IMAP: 7 8 a\n\n => 7 x -, imap 57 8 [a], imap 5 8 [a], -, imap 7 5 [a], -, imap 7 8 [5], imap 7 8 [a5], imap 7 8 [a]
- X-IMAPbase: 7 8 a\n\n => 11 x -, base 7 8 [a], 4 x -, base 7 8, 2 x base 7 8 [a]
+x X-IMAPbase: 7 8 a\n\n => 16 x -, base 7 8 [xa], base 7 8 [ax], 2 x base 7 8 [a]
=x X-IMAPbase: 7 8 a\n\n => base 7 8 [a], 15 x -, base 7 8 [x], base 7 8 [ax], base 7 8 [a]
+5 X-IMAPbase: 7 8 a\n\n => 11 x -, base 5 7 [8 a], base 57 8 [a], base 75 8 [a], base 7 58 [a], base 7 85 [a], base 7 8 [5a], base 7 8 [a5], 2 x base 7 8 [a]
=5 X-IMAPbase: 7 8 a\n\n => 11 x -, base 57 8 [a], base 5 8 [a], -, base 7 5 [a], -, base 7 8 [5], base 7 8 [a5], base 7 8 [a]
- Status: RO\nX-Status: DF\nX-Keywords: a b\nX-UID: 12\n => 7 x DF 12 [a b], RODF 12 [a b], ODF 12 [a b], RDF 12 [a b], 10 x RO 12 [a b], RODF 12 [a b], ROF 12 [a b], ROD 12 [a b], 12 x RODF 12, RODF 12 [a b], RODF 12 [b], RODF 12 [ab], RODF 12 [a], RODF [a bX-UID: 12], 6 x RODF [a b], RODF 12 [a b], RODF 2 [a b], RODF 1 [a b], RODF 12 [a b]
+x Status: RO\nX-Status: DF\nX-Keywords: a b\nX-UID: 12\n => 7 x DF 12 [a b], 4 x RODF 12 [a b], 9 x RO 12 [a b], 4 x RODF 12 [a b], 11 x RODF 12, RODF 12 [x a b], RODF 12 [xa b], RODF 12 [ax b], RODF 12 [a xb], RODF 12 [a bx], 10 x RODF [a b], RODF 12 [a b]
=x Status: RO\nX-Status: DF\nX-Keywords: a b\nX-UID: 12\n => 7 x DF 12 [a b], RODF 12 [a b], ODF 12 [a b], RDF 12 [a b], RO 12 [a b], RODF 12 [a b], 8 x RO 12 [a b], RODF 12 [a b], ROF 12 [a b], ROD 12 [a b], RODF 12, RODF 12 [a b], 10 x RODF 12, RODF 12 [xa b], RODF 12 [x b], RODF 12 [axb], RODF 12 [a x], RODF [a bxX-UID: 12], RODF 12 [a b], 9 x RODF [a b]
# what is written of a base, behind its delimiter line
- X-IMAP: 0000000900 0000000002 Work\nStatus: RO\n => 7 x RO, 8 x RO imap 900 2 [Work], RO, 2 x RO imap 90 2 [Work], RO, 9 x RO imap 900 2 [Work], RO imap 900 0 [Work], RO, RO imap 900 2 [ork], RO imap 900 2 [Wrk], RO imap 900 2 [Wok], RO imap 900 2 [Wor], imap 900 2 [WorkStatus: RO], 7 x imap 900 2 [Work], RO imap 900 2 [Work], O imap 900 2 [Work], R imap 900 2 [Work], RO imap 900 2 [Work]
+x X-IMAP: 0000000900 0000000002 Work\nStatus: RO\n => 30 x RO, RO imap 900 2 [xWork], RO imap 900 2 [Wxork], RO imap 900 2 [Woxrk], RO imap 900 2 [Worxk], RO imap 900 2 [Workx], 7 x imap 900 2 [Work], 5 x RO imap 900 2 [Work]
=x X-IMAP: 0000000900 0000000002 Work\nStatus: RO\n => RO imap 900 2 [Work], 29 x RO, RO imap 900 2 [xork], RO imap 900 2 [Wxrk], RO imap 900 2 [Woxk], RO imap 900 2 [Worx], imap 900 2 [WorkxStatus: RO], 7 x imap 900 2 [Work], RO imap 900 2 [Work], O imap 900 2 [Work], R imap 900 2 [Work], RO imap 900 2 [Work]
=5 X-IMAP: 0000000900 0000000002 Work\nStatus: RO\n => 9 x RO, RO imap 500000900 2 [Work], RO imap 50000900 2 [Work], RO imap 5000900 2 [Work], RO imap 500900 2 [Work], RO imap 50900 2 [Work], RO imap 5900 2 [Work], RO imap 500 2 [Work], RO imap 950 2 [Work], RO imap 905 2 [Work], 2 x RO, RO imap 900 500000002 [Work], RO imap 900 50000002 [Work], RO imap 900 5000002 [Work], RO imap 900 500002 [Work], RO imap 900 50002 [Work], RO imap 900 5002 [Work], RO imap 900 502 [Work], RO imap 900 52 [Work], RO imap 900 5 [Work], RO, RO imap 900 2 [5ork], RO imap 900 2 [W5rk], RO imap 900 2 [Wo5k], RO imap 900 2 [Wor5], imap 900 2 [Work5Status: RO], 7 x imap 900 2 [Work], RO imap 900 2 [Work], O imap 900 2 [Work], R imap 900 2 [Work], RO imap 900 2 [Work]
"#;

// A text with a change at a place.
fn changed(alloc: Global, change: &[u8], text: &[u8], at: usize) -> Result<Vec<u8>, AllocError> {
    match change {
        [b'+', byte] => with(alloc, text, at, *byte),
        [b'=', byte] => exchanged(alloc, text, at, *byte),
        _ => without(alloc, text, at),
    }
}

// The places for a change: a byte may be added at the end, too.
fn place_count(change: &[u8], text: &[u8]) -> usize {
    text.len() + usize::from(change.starts_with(b"+"))
}

// A reading as often as it follows itself.
fn put_run(
    shown: &mut Vec<u8>,
    alloc: Global,
    reading: &[u8],
    times: usize,
) -> Result<(), AllocError> {
    if !shown.is_empty() {
        shown.extend_from_slice(b", ")?;
    }
    if times > 1 {
        shown.extend_from_slice(format!(in alloc; "{times} x ")?.as_bytes())?;
    }
    shown.extend_from_slice(reading)
}

// The readings of a text with a change at each place.
fn readings(alloc: Global, change: &[u8], text: &[u8]) -> Result<Vec<u8>, AllocError> {
    let mut shown = Vec::new(alloc);
    let mut last = Vec::new(alloc);
    let mut times: usize = 0;
    for at in 0..place_count(change, text) {
        let found = reading(alloc, changed(alloc, change, text, at)?.as_slice())?;
        if times > 0 && found.as_slice() != last.as_slice() {
            put_run(&mut shown, alloc, last.as_slice(), times)?;
            times = 0;
        }
        last = found;
        times = times.saturating_add(1);
    }
    put_run(&mut shown, alloc, last.as_slice(), times)?;
    Ok(shown)
}

#[test]
fn headers_with_a_changed_byte_say_what_stands_there(rt: HostRuntime) -> Result<(), Fail> {
    for row in &rows(rt.alloc(), CHANGED)? {
        let width = if row.text.starts_with(b"-") { 1 } else { 2 };
        let (change, behind) = row.text.as_slice().split_at(width.min(row.text.len()));
        let found = readings(rt.alloc(), change, behind.get(1..).unwrap_or(&[]))?;
        row.agrees(found.as_slice())?;
    }
    Ok(())
}

// A field with so many names, `k00000000 k00000001 ..`, and one name more.
fn with_names(alloc: Global, field: &[u8], count: u32, last: &[u8]) -> Result<Vec<u8>, AllocError> {
    let mut text = Vec::from_slice(alloc, field)?;
    for number in 0..count {
        let mut name = *b" k00000000";
        put_hex(&mut name, 2, 8, u64::from(number));
        text.extend_from_slice(&name)?;
    }
    text.extend_from_slice(last)?;
    text.extend_from_slice(b"\n\n")?;
    Ok(text)
}

fn name_count(alloc: Global, count: u32, last: &[u8]) -> Result<(usize, usize), AllocError> {
    let heads = with_names(alloc, b"X-Keywords:", count, last)?;
    let heads = read_heads(alloc, heads.as_slice())?;
    let base = with_names(alloc, b"X-IMAP: 1 1", count, last)?;
    let base = read_base(alloc, base.as_slice(), b"X-IMAP")?;
    let kept = base.map(|base| base.words.as_slice().len());
    Ok((heads.words.as_slice().len(), kept.unwrap_or(0)))
}

#[test]
fn a_base_has_at_most_30_names(rt: HostRuntime) -> Result<(), Fail> {
    assert_eq!(rt; name_count(rt.alloc(), 29, b"")?, (29, 29));
    assert_eq!(rt; name_count(rt.alloc(), 30, b"")?, (30, 30));
    assert_eq!(rt; name_count(rt.alloc(), 31, b"")?, (31, 30));
    assert_eq!(rt; name_count(rt.alloc(), 30, b" K00000000")?, (31, 30));
    assert_eq!(rt; name_count(rt.alloc(), 29, b" K00000000 last")?, (31, 30));
    assert_eq!(rt; name_count(rt.alloc(), 100000, b"")?, (100000, 30));
    Ok(())
}

// Headers of messages with `|` between, one after the other. For each its flags, its UID and the bits of its keywords, and then the
// names that the mailbox has.
const NUMBERED: &str = r#"
\n => 0;
X-Keywords: a b\n\n => 3; [a b]
# the names of one message and of the next, in any case, again and between others
X-Keywords: a b\n\n|X-Keywords: B c (d) A B\n\n|X-Keywords:  C \n\n => 3; 7; 4; [a b c]
Status: R\nX-UID: 7\nX-Keywords: b\n\n|X-Keywords: a\nX-Keywords: b\n\n|\nX-Keywords: b\n => R 7 1; 2; 0; [b a]
# the thirtieth name is the last one
X-Keywords: a b c d e f g h i j k l m n o p q r s t u v w x y z 1 2 3\n\n|X-Keywords: 4 5 A\n\n|X-Keywords: 6 4\n\n => 536870911; 536870913; 536870912; [a b c d e f g h i j k l m n o p q r s t u v w x y z 1 2 3 4]
"#;

fn numbered(alloc: Global, headers: &[u8]) -> Result<Vec<u8>, AllocError> {
    let mut shown = Vec::new(alloc);
    let mut names = Keywords::of(Vec::new(alloc));
    for header in headers.split(|byte| *byte == b'|') {
        let heads = read_numbered_heads(alloc, header, names)?;
        put_flags(&mut shown, heads.flags)?;
        if let Some(uid) = heads.uid {
            shown.extend_from_slice(format!(in alloc; " {uid}")?.as_bytes())?;
        }
        shown.extend_from_slice(format!(in alloc; " {};", heads.words)?.as_bytes())?;
        names = heads.names;
    }
    put_names(&mut shown, names.as_slice())?;
    Vec::from_slice(alloc, shown.get(1..).unwrap_or(b""))
}

#[test]
fn keywords_have_numbers_by_first_sight(rt: HostRuntime) -> Result<(), Fail> {
    for row in &rows(rt.alloc(), NUMBERED)? {
        let found = numbered(rt.alloc(), row.text.as_slice())?;
        row.agrees(found.as_slice())?;
    }
    Ok(())
}

#[test]
fn a_delimiter_line_has_a_date_in_utc(rt: HostRuntime) -> Result<(), Fail> {
    let stamp = Stamp {
        day: 19814,
        second: 43200,
        zone_minutes: 0,
    };
    assert!(rt;
        put_delimiter(rt.alloc(), stamp)?.as_slice()
            == b"From MAILER-DAEMON Mon Apr  1 12:00:00 2024\n".as_slice()
    );
    Ok(())
}

// A header, and the status fields that are written of it.
const WRITTEN: &str = r#"
\e => \e
Status: RO\nX-UID: 1\n\n => Status: RO\nX-UID: 1\n
Status: O\nX-Status: F\nX-Keywords: Work\nX-UID: 2\n\n => Status: O\nX-Status: F\nX-Keywords: Work\nX-UID: 2\n
X-UID: 0000000012\nX-Status: TAFD\nStatus: OR\nX-Keywords:  a   b A\n\n => Status: RO\nX-Status: DFAT\nX-Keywords: a b A\nX-UID: 12\n
Status: R\n\n => Status: R\n
X-UID: 4294967294\n\n => X-UID: 4294967294\n
"#;

#[test]
fn heads_are_written_as_fields(rt: HostRuntime) -> Result<(), Fail> {
    for row in &rows(rt.alloc(), WRITTEN)? {
        let heads = read_heads(rt.alloc(), row.text.as_slice())?;
        row.agrees(put_heads(rt.alloc(), &heads)?.as_slice())?;
    }
    Ok(())
}

const PSEUDO: &[u8] =
    b"From MAILER-DAEMON Thu Jan  1 00:00:00 1970\nFrom: Mail System Internal Data <MAILER-DAEMON@localhost>\nSubject: DON'T DELETE THIS MESSAGE -- FOLDER INTERNAL DATA\nX-IMAP: 0000000900 0000000002 Work\nStatus: RO\n\nThis text is part of the internal format of your mail folder.\n";

// A base without names, with the greatest numbers.
const GREATEST: &[u8] =
    b"From MAILER-DAEMON Thu Jan  1 00:00:00 1970\nFrom: Mail System Internal Data <MAILER-DAEMON@localhost>\nSubject: DON'T DELETE THIS MESSAGE -- FOLDER INTERNAL DATA\nX-IMAP: 4294967295 4294967294\nStatus: RO\n\nThis text is part of the internal format of your mail folder.\n";

#[test]
fn a_base_is_written_as_it_was_read(rt: HostRuntime) -> Result<(), Fail> {
    for expected in [PSEUDO, GREATEST] {
        let base = read_base(rt.alloc(), expected, b"X-IMAP")?;
        assert!(rt; base.is_some());
        if let Some(base) = base {
            assert!(rt; put_pseudo(rt.alloc(), &base)?.as_slice() == expected);
        }
    }
    Ok(())
}
