//! unix files.
use crate::calls::{PATH, made, opened, refused, told};
use crate::sequences::run_three;
use crate::steps::{
    answer, cut, fails_once, host_of, is_text, number, open_store, opening_fails, run, shown_fault,
    step,
};
use bare_host::BareHost;
use mail_types::Driver;
use std::alloc::{AllocError, Global};
use std::test::Fail;
use store_trait::OpenFault;
use test_tables::{Row, rows};
use unix_layout::UnixStore;

// ---- Files, as cells have them

const BEFORE_BASE: &str =
    "From MAILER-DAEMON Thu Jan  1 00:00:00 1970\nFrom: Mail System Internal Data <MAILER-DAEMON@localhost>\nSubject: DON'T DELETE THIS MESSAGE -- FOLDER INTERNAL DATA\nX-IMAP: ";

const BEHIND_BASE: &str =
    "\nStatus: RO\n\nThis text is part of the internal format of your mail folder.\n\n";

// The delimiter line for which one byte of a cell stands: one that is found, the same as it is written, and that of a message that
// is appended, a moment before the new year in UTC.
fn delimiter(byte: u8) -> Option<&'static str> {
    match byte {
        b'^' => Some("From a Mon Apr  1 12:00:00 2024\n"),
        b'$' => Some("From MAILER-DAEMON Mon Apr  1 12:00:00 2024\n"),
        b'~' => Some("From MAILER-DAEMON Sun Dec 31 23:02:03 2023\n"),
        _ => None,
    }
}

fn put_messages(out: &mut Vec<u8>, messages: &[u8]) -> Result<(), AllocError> {
    for byte in messages {
        match delimiter(*byte) {
            Some(line) => out.extend_from_slice(line.as_bytes())?,
            None => out.push(*byte)?,
        }
    }
    Ok(())
}

// A file, from the base of its first message, which is left out where there is none, and from its messages.
fn file_of(alloc: Global, base: &[u8], messages: &[u8]) -> Result<Vec<u8>, AllocError> {
    let mut out = Vec::new(alloc);
    if !base.is_empty() {
        out.extend_from_slice(BEFORE_BASE.as_bytes())?;
        out.extend_from_slice(base)?;
        out.extend_from_slice(BEHIND_BASE.as_bytes())?;
    }
    put_messages(&mut out, messages)?;
    Ok(out)
}

fn host_with(alloc: Global, base: &[u8], messages: &[u8]) -> Result<BareHost, AllocError> {
    host_of(alloc, file_of(alloc, base, messages)?.as_slice())
}

// The file of a cell.
fn file_in(alloc: Global, cell: &[u8]) -> Result<Vec<u8>, AllocError> {
    let (base, messages) = cut(cell);
    file_of(alloc, base, messages)
}

// ---- What is told

fn shown(alloc: Global, host: &mut BareHost) -> Result<Vec<u8>, AllocError> {
    match opened::<UnixStore>(alloc, host) {
        Ok(store) => told(alloc, &store),
        Err(fault) => shown_fault(alloc, fault),
    }
}

fn opens(alloc: Global, row: &Row) -> Result<(), Fail> {
    let (base, messages) = cut(row.text.as_slice());
    let mut host = host_with(alloc, base, messages)?;
    row.agrees(shown(alloc, &mut host)?.as_slice())
}

fn all_open(alloc: Global, table: &str) -> Result<(), Fail> {
    for row in &rows(alloc, table)? {
        opens(alloc, row)?;
    }
    Ok(())
}

const WHOLE: &str = r#"
# an empty file
| => 77 0
# a mailbox with a base, whose last message was delivered by another program
0000000900 0000000002 Work|From ann@example.org Mon Apr  1 12:00:00 2024\nDate: Mon, 1 Apr 2024 12:00:00 +0000\nFrom: Ann Lee <ann@example.org>\nTo: bob@example.org\nSubject: Hello\nMessage-ID: <1@example.org>\nStatus: RO\nX-UID: 1\n\nHi Bob.\n\nFrom ann@example.org Tue Apr  2 06:30:00 2024\nDate: Tue, 2 Apr 2024 08:30:00 +0200\nFrom: ann@example.org\nTo: bob@example.org, "Lee, Cy" <cy@example.org>\nSubject: Plan\nMessage-ID: <2@example.org>\nStatus: O\nX-Status: F\nX-Keywords: Work\nX-UID: 2\n\nOne.\nTwo.\n\nFrom news@example.org Wed Apr  3 09:00:00 2024\nDate: Wed, 3 Apr 2024 09:00:00 +0000\nFrom: News <news@example.org>\nTo: bob@example.org\nSubject: Both\nMIME-Version: 1.0\nContent-Type: multipart/alternative; boundary=b1\n\n--b1\nContent-Type: text/plain; charset=utf-8\n\nHi\n--b1\nContent-Type: text/html; charset=utf-8\n\n<p>Hi</p>\n--b1--\n\n => 900 3 Work 1.17.0.148 2.20.1.168 3.0.0.296
# a line that only begins as a delimiter line, and one that is one
|From a@b Mon Apr  1 12:00:00 2024\nSubject: x\n\nFrom here on\nok\n => 77 1 1.0.0.32
|From a@b Mon Apr  1 12:00:00 2024\nSubject: x\n\nFrom c@d Tue Apr  2 08:00:00 2024\nok\n => 77 2 1.0.0.14 2.0.0.6
# a message without a text, one without an end of its last line, and one with CRLF
|^ => 77 1 1.0.0.2
|From a Mon Apr  1 12:00:00 2024 => 77 1 1.0.0.2
|^\nhi => 77 1 1.0.0.6
|From a Mon Apr  1 12:00:00 2024\r\nSubject: x\r\n\r\nhi\r\n\r\n => 77 1 1.0.0.18
# one empty line before a delimiter line and at the end is left out, and no more
|^\nhi\n\n\n^\nhi\n\n\n => 77 2 1.0.0.8 2.0.0.8
"#;

#[test]
fn files_are_opened(rt: HostRuntime) -> Result<(), Fail> {
    all_open(rt.alloc(), WHOLE)
}

const BASES: &str = r#"
# names that repeat, are no keywords or stand past 30 are none
900 5| => 900 5
900 5 Work WORK b|^\nhi\n => 900 6 Work b 6.0.0.6
 900   5   Work  b |^\nhi\n => 900 6 Work b 6.0.0.6
900 5 a(b \(65:k\) \(64:k\)|^\nhi\n => 900 6 \(64:k\) 6.0.0.6
900 5 Work\tb c|^\nhi\n => 900 6 c 6.0.0.6
900 5 a b c d e f g h i j k l m n o p q r s t u v w x y z 0 1 2 3 4|^X-Keywords: 3 4\n\nhi\n => 900 6 a b c d e f g h i j k l m n o p q r s t u v w x y z 0 1 2 3 6.0.536870912.6
900 5 Work\n b|^\nhi\n => 900 6 Work b 6.0.0.6
# the greatest numbers, and no room for a further UID
4294967295 4294967294|^X-UID: 4294967294\n\nhi\n => 4294967295 4294967294 4294967294.0.0.6
900 4294967293|^\nhi\n => 900 4294967294 4294967294.0.0.6
900 4294967294|^\nhi\n => 77 1 1.0.0.6
# what is no base makes the first message one of the mailbox
0 5 k|^\nhi\n => 77 2 1.17.0.184 2.0.0.6
4294967296 5 k|^\nhi\n => 77 2 1.17.0.184 2.0.0.6
900 4294967295 k|^\nhi\n => 77 2 1.17.0.184 2.0.0.6
900|^\nhi\n => 77 2 1.17.0.184 2.0.0.6
900 x|^\nhi\n => 77 2 1.17.0.184 2.0.0.6
00000000900 5|^\nhi\n => 77 2 1.17.0.184 2.0.0.6
-900 5|^\nhi\n => 77 2 1.17.0.184 2.0.0.6
# the own fields of the message with the base don't count, nor do a base of the second message and a second base
|^X-IMAP: 900 2 Work\nStatus: RO\nX-UID: 50\nX-Keywords: zz\n\n\n^\nhi\n => 900 3 Work 3.0.0.6
900 5 k|^X-IMAPbase: 8 8 b\n\nhi\n => 900 6 k 6.0.0.6
|^\nhi\n^X-IMAP: 900 2 Work\n\nhi\n => 77 2 1.0.0.6 2.0.0.6
|^X-IMAP: 900 x\nX-IMAP: 900 2\n\nhi\n => 77 1 1.0.0.6
# a base in the first message, which is one of the mailbox
|^X-IMAPbase: 5 7 Work\nX-UID: 3\n\nhi\n => 5 7 Work 3.0.0.6
|^x-imapbase : 5 7 Work\n b\n\nhi\n => 5 8 Work b 8.0.0.6
|^X-IMAP: 0 7\nX-IMAPbase: 5 7 Work\n\nhi\n => 5 8 Work 8.0.0.6
|^\nhi\n^X-IMAPbase: 5 7 Work\n\nhi\n => 77 2 1.0.0.6 2.0.0.6
|^\nX-IMAPbase: 5 7 Work\n => 77 1 1.0.0.24
"#;

#[test]
fn bases_are_read(rt: HostRuntime) -> Result<(), Fail> {
    all_open(rt.alloc(), BASES)
}

const FIELDS: &str = r#"
# letters count in upper case, and of each field the first
900 9|^Status: OR\nX-Status: AX\nX-UID: 4\n\nhi\n => 900 9 4.25.0.6
900 9|^Status: ro\nX-Status: dfat\n\nhi\n => 900 10 10.0.0.6
900 9|^X-Status: DFAT\nStatus: RO\n\nhi\n => 900 10 10.63.0.6
900 9|^Status: R\nStatus: O\n\nhi\n => 900 10 10.1.0.6
900 9|^STATUS \t: R\nx-status: D\n F\n\nhi\n => 900 10 10.7.0.6
900 9|^Statu: R\nStatusx: O\n\nhi\n => 900 10 10.0.0.28
900 9|^Status: R => 900 10 10.1.0.2
# fields of the text behind the header don't count
900 9|^\nStatus: R\nX-UID: 4\n => 900 10 10.0.0.23
# a UID has 1 to 10 digits and stands alone
900 9|^X-UID: 0000000012\n\nhi\n^X-UID: 13\n\nhi\n => 900 13 12.0.0.6 13.0.0.6
900 9|^X-UID: 00000000012\n\nhi\n => 900 10 10.0.0.6
900 9|^X-UID: 0\n\nhi\n => 900 10 10.0.0.6
900 9|^X-UID: 12x\n\nhi\n => 900 10 10.0.0.6
900 9|^X-UID: 1 2\n\nhi\n => 900 10 10.0.0.6
900 9|^X-UID: 1\n 2\n\nhi\n => 900 10 10.0.0.6
900 9|^X-UID:\n 12\n\nhi\n => 900 12 12.0.0.6
900 9|^X-UID: 4294967295\n\nhi\n => 900 10 10.0.0.6
900 9|^X-UID: 12\nX-UID: 13\n\nhi\n => 900 12 12.0.0.6
900 9|^X-UID: x\nX-UID: 13\n\nhi\n => 900 10 10.0.0.6
# UIDs that fall, stand twice, or stand behind a message without one are given anew, and so they are without a base
900 9 k|^X-UID: 5\n\nhi\n^X-UID: 4\n\nhi\n => 77 2 k 1.0.0.6 2.0.0.6
900 9|^X-UID: 5\n\nhi\n^X-UID: 5\n\nhi\n => 77 2 1.0.0.6 2.0.0.6
900 9|^\nhi\n^X-UID: 4\n\nhi\n => 77 2 1.0.0.6 2.0.0.6
900 9|^X-UID: 4\n\nhi\n^\nhi\n^\nhi\n => 900 11 4.0.0.6 10.0.0.6 11.0.0.6
|^X-UID: 4\n\nhi\n^X-UID: 9\n\nhi\n => 77 2 1.0.0.6 2.0.0.6
# names that aren't in the list are added where they are seen first
900 9 Work|^X-Keywords: b Work\n\nhi\n => 900 10 Work b 10.0.3.6
900 9 Work|^X-Keywords: a\n b\n\nhi\n => 900 10 Work a b 10.0.6.6
900 9 Work|^X-Keywords: wORK  b b\n\nhi\n => 900 10 Work b 10.0.3.6
900 9 Work|^X-Keywords: a(b c\td e\n\nhi\n => 900 10 Work e 10.0.2.6
900 9 Work|^X-Keywords: a\nX-Keywords: b\n\nhi\n => 900 10 Work a 10.0.2.6
|^X-Keywords: b\n\nhi\n^X-Keywords: a b\n\nhi\n => 77 2 b a 1.0.1.6 2.0.3.6
"#;

#[test]
fn fields_are_read(rt: HostRuntime) -> Result<(), Fail> {
    all_open(rt.alloc(), FIELDS)
}

const LINES: &str = r#"
# forms of a date
|From Mon Apr  1 12:00:00 2024\n\nhi\n => 77 1 1.0.0.6
|From a b  c Mon Apr  1 12:00:00 2024\n\nhi\n => 77 1 1.0.0.6
|From a Mon Apr  1 12:00 2024\n\nhi\n => 77 1 1.0.0.6
|From a Mon Apr 01 12:00:00 2024\n\nhi\n => 77 1 1.0.0.6
|From a Mon Apr  1 12:00:00 +0200 2024\n\nhi\n => 77 1 1.0.0.6
|From a Mon Apr  1 12:00:00 2024 -0200\n\nhi\n => 77 1 1.0.0.6
|From a Mon Apr  1 12:00 CET 2024\n\nhi\n => 77 1 1.0.0.6
|From a Mon Apr  1 12:00:00 2024 xyz\n\nhi\n => 77 1 1.0.0.6
|From a sUN aPR  1 12:00:00 2024\n\nhi\n => 77 1 1.0.0.6
|From a Thu Feb 29 23:59:59 2024\n\nhi\n => 77 1 1.0.0.6
|From a Mon Jan  1 00:00:00 0000\n\nhi\n => 77 1 1.0.0.6
|From a Mon Dec 31 00:00:00 9999\n\nhi\n => 77 1 1.0.0.6
|From a Mon Apr  1 12:00:00 2024\r\r\n\nhi\n => 77 1 1.0.0.6
# no dates
|hello\n => ill-formed after 0
|\n^\nhi\n => ill-formed after 0
|from a Mon Apr  1 12:00:00 2024\n => ill-formed after 0
|From a\n => ill-formed after 0
|From aMon Apr  1 12:00:00 2024\n => ill-formed after 0
|From a Mon Apr 1 12:00:00 2024\n => ill-formed after 0
|From a Mon  Apr  1 12:00:00 2024\n => ill-formed after 0
|From a Xxx Apr  1 12:00:00 2024\n => ill-formed after 0
|From a Wed Feb 29 12:00:00 2023\n => ill-formed after 0
|From a Mon Apr  1 24:00:00 2024\n => ill-formed after 0
|From a Mon Apr  1 23:59:60 2024\n => ill-formed after 0
|From a Mon Apr  1 12:00:00 24\n => ill-formed after 0
|From a Mon Apr  1 12:00:00 +2400 2024\n => ill-formed after 0
# a line that begins as a delimiter line, of which the first bytes of the file would be one message
|From a Mon Apr  1 12:00:00 2024x\n => ill-formed after 1
|From a Mon Apr  1 12:00:00 2024 \n => ill-formed after 1
|From a Mon Apr  1 12:00:00 2024\r => ill-formed after 1
|From a Mon Apr  1 12:00:00 2024 CETX\n => ill-formed after 1
|From a Mon Apr  1 12:00:00 CET 2024 CET\n => ill-formed after 1
|From a Mon Apr  1 12:00:00 2024 +2400\n => ill-formed after 1
# 998 bytes without the line end and 1,000 with it
|From \(968:x\) Mon Apr  1 12:00:00 2024\n\nhi\n => 77 1 1.0.0.6
|From \(968:x\) Mon Apr  1 12:00:00 2024\r\n\nhi\n => 77 1 1.0.0.6
|From \(968:x\) Mon Apr  1 12:00:00 2024\r\r\n\nhi\n => ill-formed after 1
|From \(969:x\) Mon Apr  1 12:00:00 2024\n\nhi\n => ill-formed after 0
# in a text: a line that is too long stays, and one that a shorter line end makes a delimiter line is quoted
|^\nFrom \(969:x\) Mon Apr  1 12:00:00 2024\nhi\n => 77 1 1.0.0.1007
|^\nFrom \(968:x\) Mon Apr  1 12:00:00 2024\r\r\nhi\n => 77 1 1.0.0.1007
|^\nFrom \(968:x\) Mon Apr  1 12:00:00 2024\r\nhi\n => 77 2 1.0.0.2 2.0.0.6
|^\nFrom a Mon Apr  1 12:00:00 2024 \n>From a Mon Apr  1 12:00:00 2024\n => 77 1 1.0.0.70
"#;

#[test]
fn lines_are_told_apart(rt: HostRuntime) -> Result<(), Fail> {
    all_open(rt.alloc(), LINES)
}

// ---- Files that are cut

const CUT: &str = r#"
|^Subject: x\n\nhi\n\n^\nho\n => \e
"#;

// The first line may lack its line end.
fn is_cut_so(answer: Result<UnixStore, OpenFault>, long: usize) -> bool {
    let whole = long == 0 || long >= 31;
    match answer {
        Ok(_) => whole,
        Err(fault) => !whole && fault == OpenFault::IllFormed(Driver::Unix, 0),
    }
}

fn cuts(alloc: Global, row: &Row) -> Result<(), Fail> {
    let bytes = file_in(alloc, row.text.as_slice())?;
    for long in 0..bytes.len() {
        let mut host = host_of(alloc, bytes.as_slice().get(..long).unwrap_or(&[]))?;
        if !is_cut_so(opened(alloc, &mut host), long) {
            return Err(Fail::new(format_args!("a file of {long} bytes")));
        }
    }
    Ok(())
}

#[test]
fn cut_files_are_opened(rt: HostRuntime) -> Result<(), Fail> {
    for row in &rows(rt.alloc(), CUT)? {
        cuts(rt.alloc(), row)?;
    }
    Ok(())
}

// ---- Texts

const TEXTS: &str = r#"
|From a@b Mon Apr  1 12:00:00 2024\nSubject: x\n\nFrom here on\nok\n|0 => Subject: x\r\n\r\nFrom here on\r\nok\r\n
# a NUL is 80 hex, a CR that ends no line stays, and each line end is CRLF
|^\na\0b\rc\r\r\nd\r|0 => \r\na\x80b\rc\r\nd\r\n
# fields of status are no part of the text, nor are the lines that go on with them
900 2 Work|^Subject: a\n b\nStatus: RO\nX-Keywords: Work\n more\nTo: c\nx-uid : 1\n\none\n\n^\ntwo\n|0 => Subject: a\r\n b\r\nTo: c\r\n\r\none\r\n
900 2 Work|^Subject: a\n b\nStatus: RO\nX-Keywords: Work\n more\nTo: c\nx-uid : 1\n\none\n\n^\nStatus: two\n|1 => \r\nStatus: two\r\n
# a header without an empty line, and no text
|^Subject: a\nX-Status: D|0 => Subject: a\r\n\r\n
|^Subject: a\n\n|0 => Subject: a\r\n\r\n
|^^|1 => \r\n
# quoted lines stay as they are
|^\n>From a Mon Apr  1 12:00:00 2024\n|0 => \r\n>From a Mon Apr  1 12:00:00 2024\r\n
"#;

fn reads(alloc: Global, row: &Row) -> Result<(), Fail> {
    let (base, rest) = cut(row.text.as_slice());
    let (messages, place) = cut(rest);
    let mut host = host_with(alloc, base, messages)?;
    let mut store = open_store::<UnixStore>(alloc, &mut host)?;
    let text = row.expected.as_slice();
    if is_text(&mut store, &mut host, usize::from(number(place, 0)), text)? {
        return Ok(());
    }
    row.agrees(b"another text")
}

#[test]
fn texts_are_read_in_pieces(rt: HostRuntime) -> Result<(), Fail> {
    for row in &rows(rt.alloc(), TEXTS)? {
        reads(rt.alloc(), row)?;
    }
    Ok(())
}

// ---- Changes

const CHANGES: &str = r#"
# appends: to an empty file, of a text whose line ends are odd, and behind a message, which is spelled anew
||+Subject: z\r\r\n\r\r\nhi => 0000000077 0000000001|~Subject: z\nStatus: R\nX-UID: 1\n\nhi\n\n
0000000900 0000000005 Work||+hi => 0000000900 0000000006 Work|~hi\nStatus: R\nX-Keywords: Work\nX-UID: 6\n\n\n
900 5|^Status : O\nSubject: a\nX-UID: 3\n\none|+\ntwo => 0000000900 0000000006|$Subject: a\nStatus: O\nX-UID: 3\n\none\n\n~Status: R\nX-UID: 6\n\ntwo\n\n
# texts that are appended: none, empty lines, fields of status, and lines that would begin a message
900 5||+ => 0000000900 0000000006|~Status: R\nX-UID: 6\n\n\n
900 5||+\n\n\n => 0000000900 0000000006|~Status: R\nX-UID: 6\n\n\n\n\n
900 5||+Status: RO\nX-UID: 9\n 9\nSubject: q\n\nStatus: b\n => 0000000900 0000000006|~Subject: q\nStatus: R\nX-UID: 6\n\nStatus: b\n\n
900 5||+From x Mon Apr  1 12:00:00 2024\nhi\n\nFrom here on\nFrom Mon Apr  1 12:00 2024 => 0000000900 0000000006|~>From x Mon Apr  1 12:00:00 2024\nhi\nStatus: R\nX-UID: 6\n\nFrom here on\n>From Mon Apr  1 12:00 2024\n\n
# flags and keywords
0000000900 0000000002 Work|From ann@example.org Tue Apr  2 06:30:00 2024\nSubject: Plan\nStatus: O\nX-Status: F\nX-Keywords: Work\nX-UID: 2\n\nOne.\n\n|=0o0 => 0000000900 0000000002 Work|From MAILER-DAEMON Tue Apr  2 06:30:00 2024\nSubject: Plan\nStatus: RO\nX-Status: DFAT\nX-UID: 2\n\nOne.\n\n
0000000900 0000000002 Work|From ann@example.org Tue Apr  2 06:30:00 2024\nSubject: Plan\nStatus: O\nX-Status: F\nX-Keywords: Work\nX-UID: 2\n\nOne.\n\n|=000 => 0000000900 0000000002 Work|From MAILER-DAEMON Tue Apr  2 06:30:00 2024\nSubject: Plan\nX-UID: 2\n\nOne.\n\n
# keyword bits past the list are none
900 5 Work|^X-UID: 3\n\nhi\n|=093 => 0000000900 0000000005 Work|$Status: R\nX-Status: A\nX-Keywords: Work\nX-UID: 3\n\nhi\n\n
# a keyword list that grows, and keywords by number
900 5 Work|^X-UID: 3\nX-Keywords: Work\n\nhi\n|!b => 0000000900 0000000005 Work b|$X-Keywords: Work\nX-UID: 3\n\nhi\n\n
900 5 Work|^X-UID: 3\n\nhi\n|!b;=003 => 0000000900 0000000005 Work b|$X-Keywords: Work b\nX-UID: 3\n\nhi\n\n
|^X-Keywords: b\n\nhi\n|!a;=002 => 0000000077 0000000001 b a|$X-Keywords: a\nX-UID: 1\n\nhi\n\n
# expunges, the last one of the only message
900 5|^X-UID: 3\n\none\n^\ntwo\n\n\n|-0 => 0000000900 0000000006|$X-UID: 6\n\ntwo\n\n\n
900 5|^X-UID: 3\n\none\n^\ntwo\n|-1;+x;-0 => 0000000900 0000000007|~x\nStatus: R\nX-UID: 7\n\n\n
900 5 Work|^X-UID: 5\n\nhi\n|-0 => 0000000900 0000000005 Work|
# a base of the first message goes into a message of its own
|^X-IMAPbase: 5 7 Work\nX-UID: 3\n\nhi\n|=010 => 0000000005 0000000007 Work|$Status: R\nX-UID: 3\n\nhi\n\n
# dates are written in UTC, with the day that they are
900 5|From x Mon Apr  1 12:00:00 2024 +0200\nX-UID: 3\n\nhi\n|=010 => 0000000900 0000000005|From MAILER-DAEMON Mon Apr  1 10:00:00 2024\nStatus: R\nX-UID: 3\n\nhi\n\n
900 5|From x Tue Apr 01 00:30 +0100 2024\nX-UID: 3\n\nhi\n|=010 => 0000000900 0000000005|From MAILER-DAEMON Sun Mar 31 23:30:00 2024\nStatus: R\nX-UID: 3\n\nhi\n\n
900 5|From x Mon Apr  1 12:00:00 EST 2024\nX-UID: 3\n\nhi\n|=010 => 0000000900 0000000005|$Status: R\nX-UID: 3\n\nhi\n\n
# CRLF and NUL are written as LF and 80 hex
900 5|^Subject: x\r\nX-UID: 3\r\n\r\na\0b\rc\r\r\n|=010 => 0000000900 0000000005|$Subject: x\nStatus: R\nX-UID: 3\n\na\x80b\rc\n\n
"#;

fn changes(alloc: Global, row: &Row) -> Result<(), Fail> {
    let (base, rest) = cut(row.text.as_slice());
    let (messages, calls) = cut(rest);
    let mut host = host_with(alloc, base, messages)?;
    run::<UnixStore>(alloc, &mut host, calls)?;
    let expected = file_in(alloc, row.expected.as_slice())?;
    let found = host.file(PATH).unwrap_or(&[]);
    if found == expected.as_slice() {
        return Ok(());
    }
    row.agrees(found)
}

#[test]
fn files_change_by_the_calls(rt: HostRuntime) -> Result<(), Fail> {
    for row in &rows(rt.alloc(), CHANGES)? {
        changes(rt.alloc(), row)?;
    }
    Ok(())
}

const MADE: &str = r#"
+hi => 0000000018 0000000001|~hi\nStatus: R\nX-UID: 1\n\n\n
"#;

// A mailbox that is made, and has a message then.
fn makes(alloc: Global, row: &Row) -> Result<(), Fail> {
    let mut host = BareHost::new(alloc);
    host.put_dir("/m")?;
    let mut store: UnixStore = match made(alloc, &mut host) {
        Ok(store) => store,
        Err(fault) => return Err(refused(fault)),
    };
    let empty = file_of(alloc, b"0000000018 0000000000", &[])?;
    if host.file(PATH) != Some(empty.as_slice()) {
        return Err(Fail::new("another empty file"));
    }
    if let Err(fault) = step(alloc, &mut store, &mut host, row.text.as_slice())? {
        return Err(refused(fault));
    }
    let expected = file_in(alloc, row.expected.as_slice())?;
    if host.file(PATH) == Some(expected.as_slice()) {
        return Ok(());
    }
    row.agrees(host.file(PATH).unwrap_or(&[]))
}

#[test]
fn a_file_is_made(rt: HostRuntime) -> Result<(), Fail> {
    for row in &rows(rt.alloc(), MADE)? {
        makes(rt.alloc(), row)?;
    }
    Ok(())
}

// ---- Refusals, and calls of the host that fail

const REFUSED: &str = r#"
900 4294967293||+x => done
900 4294967294||+x => no UID left
900 5|^X-UID: 4294967294\n\nhi\n|+x => no UID left
900 5|^X-UID: 4294967294\n\nhi\n|-0 => done
"#;

fn refuses(alloc: Global, row: &Row) -> Result<(), Fail> {
    let (base, rest) = cut(row.text.as_slice());
    let (messages, call) = cut(rest);
    let mut host = host_with(alloc, base, messages)?;
    row.agrees(answer::<UnixStore>(alloc, &mut host, call)?.as_slice())
}

#[test]
fn changes_are_refused(rt: HostRuntime) -> Result<(), Fail> {
    for row in &rows(rt.alloc(), REFUSED)? {
        refuses(rt.alloc(), row)?;
    }
    Ok(())
}

const FAILING: &str = r#"
||+hi => 0000000077 0000000001|~hi\nStatus: R\nX-UID: 1\n\n\n
900 5|^X-UID: 3\n\nhi\n|=010 => 0000000900 0000000005|$Status: R\nX-UID: 3\n\nhi\n\n
900 5 Work|^X-UID: 3\n\nhi\n|!b => 0000000900 0000000005 Work b|$X-UID: 3\n\nhi\n\n
900 5|^X-UID: 3\n\nhi\n|-0 => 0000000900 0000000005|
"#;

fn fails(alloc: Global, row: &Row) -> Result<(), Fail> {
    let (base, rest) = cut(row.text.as_slice());
    let (messages, call) = cut(rest);
    let old = file_of(alloc, base, messages)?;
    let new = file_in(alloc, row.expected.as_slice())?;
    opening_fails::<UnixStore>(alloc, old.as_slice())?;
    fails_once::<UnixStore>(alloc, old.as_slice(), call, new.as_slice())
}

#[test]
fn a_failed_call_leaves_one_of_two_files(rt: HostRuntime) -> Result<(), Fail> {
    for row in &rows(rt.alloc(), FAILING)? {
        fails(rt.alloc(), row)?;
    }
    Ok(())
}

// ---- Changes one after the other

const THREE: &str = r#"
900 5| => 0000000900 0000000006 Work|
900 5|^X-UID: 3\n\nhi\n => 0000000900 0000000006 Work|From MAILER-DAEMON Tue Apr  2 06:00:00 2024\nSubject: q\nStatus: R\nX-Keywords: Work\nX-UID: 6\n\n\n
"#;

fn runs(alloc: Global, row: &Row) -> Result<(), Fail> {
    let (base, messages) = cut(row.text.as_slice());
    let mut host = host_with(alloc, base, messages)?;
    let mut store = open_store::<UnixStore>(alloc, &mut host)?;
    if run_three(alloc, &mut store, &mut host)? != Ok(3) {
        return Err(Fail::new("a change is refused"));
    }
    let (base, messages) = cut(row.expected.as_slice());
    let expected = file_of(alloc, base, messages)?;
    if host.file(PATH) == Some(expected.as_slice()) {
        return Ok(());
    }
    row.agrees(host.file(PATH).unwrap_or(&[]))
}

#[test]
fn three_changes_are_done(rt: HostRuntime) -> Result<(), Fail> {
    for row in &rows(rt.alloc(), THREE)? {
        runs(rt.alloc(), row)?;
    }
    Ok(())
}
