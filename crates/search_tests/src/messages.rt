//! Ten messages that search keys are tried on, and the keys of a row.
ghost use Rattle.std.specs.Prelude.{◌≤◌, IfOk};
ghost use Rattle.imap_syntax.specs.Laws.{key_parts};

use imap_syntax::{Key, read_keys};
use looked_message::Looked;
use mail_fields::{Keyword, Keywords, read_decimal, read_imap_date, split_at_space};
use mail_types::Flags;
use search_eval::Largest;
use std::alloc::{AllocError, Global};
use std::test::Fail;
use store_trait::Info;
use test_tables::Row;

/// A message a row: its UID, its flags (Seen, Answered, Flagged, Deleted, drafT, Old, Recent), the bits of its
/// keywords, its modification number and its date, and then its text.
pub(crate) const MESSAGES: &str = r#"
3 SO 0 1  1-Apr-2024 12:00:00 +0000 => Date: Mon, 1 Apr 2024 12:00:00 +0000\nFrom: Ann Lee <ann@example.org>\nTo: bob@example.org\nSubject: Hello\n\nHi Bob.\n
4 FO 1 2  2-Apr-2024 06:30:00 +0000 => Date: Tue, 2 Apr 2024 08:30:00 +0200\nFrom: ann@example.org\nTo: bob@example.org, "Lee, Cy" <cy@example.org>\nSubject: Plan\n\nOne.\nTwo.\n
7 R 0 2  3-Apr-2024 09:00:00 +0000 => Date: Wed, 3 Apr 2024 09:00:00 +0000\nFrom: News <news@example.org>\nTo: bob@example.org\nSubject: Both\nContent-Type: multipart/alternative; boundary=b1\n\n--b1\n\nHi\n--b1--\n
8 SAD 2 3 31-Mar-2024 23:59:59 -1200 => From: caf\xe9@x\r\nSubject: Caf\xc3\xa9 \xff\r\n\r\nDate: Mon, 1 Apr 2024\r\n
9 T 3 9  1-Apr-2024 00:00:00 +1400 => Subject: a\r\n folded\r\n\tsubject \t\r\nBcc: Hidden@Example.ORG\r\nDate: 31 Mar 2024\r\n\r\nbody\r\n
10 R 0 9  2-Apr-2024 00:00:00 -1359 => \e
12 SR 0 10  1-Jan-1970 00:00:00 +0000 => Subject: only\nCC: x@y, the end
13 AO 0 10 31-Dec-9999 23:59:59 +0000 => \nSubject: in the body\nend
20 O 0 11 29-Feb-2000 12:00:00 +0000 => Subject: first\nSUBJECT : second\nDate: Tue,\n 29 Feb 2000 00:00:00 -0800\n\nTEXT aaaaaaab\n
4294967295 DFO 1 11 28-Feb-2000 12:00:00 +0000 => Date: not a date\nDate: 1 Jan 2020\nX-A: \nX-B:\n  x  y \n\nA\n\n\n
"#;

/// What `*` stands for among them.
pub(crate) const LARGEST: Largest = Largest {
    number: 10,
    uid: 4294967295,
};

/// The message of a row, of a mailbox with these keyword names.
pub(crate) fn message<'a>(
    number: u32,
    row: &'a Row,
    words: &'a [Keyword],
) -> Result<Looked<'a>, Fail> {
    let (uid, rest) = split_at_space(row.text.as_slice());
    let (letters, rest) = split_at_space(rest);
    let (bits, rest) = split_at_space(rest);
    let (modseq, date) = split_at_space(rest);
    let Some(stamp) = read_imap_date(date) else {
        return Err(Fail::new("a date that can't be read"));
    };
    let text = row.expected.as_slice();
    let Ok(size) = u32::try_from(text.len()) else {
        return Err(Fail::new("a text that is too long"));
    };
    Ok(Looked {
        number,
        info: Info {
            uid: number_of(uid)?,
            stamp,
            flags: flags_of(letters),
            words: number_of(bits)?,
            size,
        },
        modseq: number_of(modseq)?,
        recent: letters.contains(&b'R'),
        words,
        text,
    })
}

fn flags_of(letters: &[u8]) -> Flags {
    Flags {
        seen: letters.contains(&b'S'),
        answered: letters.contains(&b'A'),
        flagged: letters.contains(&b'F'),
        deleted: letters.contains(&b'D'),
        draft: letters.contains(&b'T'),
        old: letters.contains(&b'O'),
    }
}

fn number_of(text: &[u8]) -> Result<u32, Fail> {
    if text.len() <= 10 {
        if let Some(number) = read_decimal(text) {
            if let Ok(number) = u32::try_from(number) {
                return Ok(number);
            }
        }
    }
    Err(Fail::new("a number that can't be read"))
}

/// The keyword names of their mailbox.
pub(crate) fn names(alloc: Global) -> Result<Keywords, AllocError> {
    let mut names = Vec::new(alloc);
    for name in ["Work", "$Junk"] {
        if let Some(name) = Keyword::read(alloc, name.as_bytes())? {
            names.push(name)?;
        }
    }
    Ok(Keywords::of(names))
}

/// The keys of a row.
pub(crate) fn key(alloc: Global, text: &[u8]) -> Result<Key, Fail>
    ensures { IfOk result (λ key. (key_parts key).depth ≤ 101) }
{
    match read_keys(alloc, text)? {
        Some(key) => Ok(key),
        None => Err(Fail::new("a key that can't be read")),
    }
}
