//! Messages for the tables, and how a row of theirs is read.
use imap_arguments::{FetchItems, fetch_items_at};
use looked_message::Looked;
use mail_fields::{Keyword, read_decimal, read_imap_date, split_at_space};
use mail_types::Flags;
use std::alloc::{AllocError, Global};
use std::collections::VecDeque;
use std::test::Fail;
use store_trait::Info;
use test_tables::{Row, rows};

/// A message a row: its UID, its flags (Seen, Answered, Flagged, Deleted, drafT, Old, Recent), the bits of its keywords
/// and its date, and then its text. The first three are ordinary mail, as a unix mailbox gives it.
const MESSAGES: &str = r#"
1 SO 0  1-Apr-2024 12:00:00 +0000 => Date: Mon, 1 Apr 2024 12:00:00 +0000\r\nFrom: Ann Lee <ann@example.org>\r\nTo: bob@example.org\r\nSubject: Hello\r\nMessage-ID: <1@example.org>\r\n\r\nHi Bob.\r\n
2 FO 1  2-Apr-2024 06:30:00 +0000 => Date: Tue, 2 Apr 2024 08:30:00 +0200\r\nFrom: ann@example.org\r\nTo: bob@example.org, "Lee, Cy" <cy@example.org>\r\nSubject: Plan\r\nMessage-ID: <2@example.org>\r\n\r\nOne.\r\nTwo.\r\n
3 R 0  3-Apr-2024 09:00:00 +0000 => Date: Wed, 3 Apr 2024 09:00:00 +0000\r\nFrom: News <news@example.org>\r\nTo: bob@example.org\r\nSubject: Both\r\nMIME-Version: 1.0\r\nContent-Type: multipart/alternative; boundary=b1\r\n\r\n--b1\r\nContent-Type: text/plain; charset=utf-8\r\n\r\nHi\r\n--b1\r\nContent-Type: text/html; charset=utf-8\r\n\r\n<p>Hi</p>\r\n--b1--\r\n
8 SAFDTOR 3 31-Mar-2024 23:59:59 -1200 => From: Ann <ann@example.org>\r\nSubject: nested\r\nContent-Type: multipart/mixed; boundary=o\r\n\r\nintro\r\n--o\r\nContent-Type: text/plain\r\nX-A: 1\r\n\r\nfirst\r\n--o\r\nContent-Type: multipart/alternative; boundary=i\r\n\r\n--i\r\n\r\nplain\r\n--i\r\nContent-Type: text/html\r\n\r\n<p>\r\n--i--\r\n\r\n--o\r\nContent-Type: message/rfc822\r\nContent-ID: <m>\r\n\r\nSubject: inner\r\nsubject : two\r\nX-Long: a\r\n b\r\nContent-Type: multipart/digest; boundary=d\r\n\r\n--d\r\n\r\nSubject: deep\r\n\r\nbottom\r\n--d--\r\n--o\r\n--o\r\nno header at all--o\r\n\r\nbody\r\n--o--\r\nend\r\n
9 T 2  1-Apr-2024 00:00:00 +1400 => content-type: message/rfc822\nSubject: carries\n\nSubject: carried\nContent-Type: multipart/mixed; boundary=x\n\n--x\n\none\n--x\n\n\n--x--\n
10 R 0  2-Apr-2024 00:00:00 -1359 => \e
12 SR 0  1-Jan-1970 00:00:00 +0000 => Subject: only\nCC: x@y, the end
13 AO 1 31-Dec-9999 23:59:59 +0000 => \nSubject: in the body\nend
20 O 2 29-Feb-2000 12:00:00 +0000 => junk\n folded junk\nSubject: a\r\r\n\tfolded \r\nNo colon\n more\nSUBJECT : second\nX-8: caf\xe9\nX-Empty:\n \nX-Last:z\r\n\r\r\nB\xff\r\nrest
4294967295 DFO 3 28-Feb-2000 12:00:00 +0000 => Content-Type: multipart/mixed\n\n--\n\nx\n----\n
"#;

pub fn messages(alloc: Global) -> Result<Vec<Row>, Fail> {
    rows(alloc, MESSAGES)
}

/// The names of their keywords.
pub fn words(alloc: Global) -> Result<Vec<Keyword>, AllocError> {
    let mut words = Vec::new(alloc);
    for name in ["Work", "$Junk"] {
        if let Some(word) = Keyword::read(alloc, name.as_bytes())? {
            words.push(word)?;
        }
    }
    Ok(words)
}

pub fn number_of(text: &[u8]) -> Result<u32, Fail> {
    if text.len() <= 10 {
        if let Some(number) = read_decimal(text) {
            if let Ok(number) = u32::try_from(number) {
                return Ok(number);
            }
        }
    }
    Err(Fail::new("a number that can't be read"))
}

fn flags_of(letters: &[u8]) -> Flags {
    Flags {
        seen: letters.contains(&b'S'),
        answered: letters.contains(&b'A'),
        flagged: letters.contains(&b'F'),
        deleted: letters.contains(&b'D'),
        draft: letters.contains(&b'T'),
        old: letters.contains(&b'O'),
    }
}

/// The message of a number.
pub fn looked<'a>(
    messages: &'a [Row],
    number: u32,
    words: &'a [Keyword],
) -> Result<Looked<'a>, Fail> {
    let Some(row) = messages.get((number as usize).saturating_sub(1)) else {
        return Err(Fail::new("a message that isn't there"));
    };
    let (uid, rest) = split_at_space(row.text.as_slice());
    let (letters, rest) = split_at_space(rest);
    let (bits, date) = split_at_space(rest);
    let Some(stamp) = read_imap_date(date) else {
        return Err(Fail::new("a date that can't be read"));
    };
    let text = row.expected.as_slice();
    Ok(Looked {
        number,
        info: Info {
            uid: number_of(uid)?,
            stamp,
            flags: flags_of(letters),
            words: number_of(bits)?,
            size: text.len().min(4294967295) as u32,
        },
        modseq: 0,
        recent: letters.contains(&b'R'),
        words,
        text,
    })
}

pub fn items_of(alloc: Global, text: &[u8]) -> Result<FetchItems, Fail> {
    let mut literals = VecDeque::new(alloc);
    match fetch_items_at(alloc, text, &mut literals) {
        Ok((items, [])) => Ok(items),
        _ => Err(Fail::new("items that can't be read")),
    }
}
