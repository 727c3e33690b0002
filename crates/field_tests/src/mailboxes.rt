//! What makes a mailbox.
use mail_fields::{Bytes, Keyword, Stamp};
use mail_types::{Flags, Mailbox, Record};
use std::alloc::{AllocError, Global};
use std::test::Fail;

const EPOCH: Stamp = Stamp {
    day: 0,
    second: 0,
    zone_minutes: 0,
};

fn messages(alloc: Global, rows: &[(u32, &[u8])]) -> Result<Vec<Record>, AllocError> {
    let mut records = Vec::new(alloc);
    for (uid, text) in rows {
        records.push(Record {
            uid: *uid,
            text: Bytes::of(alloc, text)?,
            stamp: EPOCH,
            flags: Flags::none(),
            words: 1,
            number: 1,
        })?;
    }
    Ok(records)
}

fn names(alloc: Global, names: &[&[u8]]) -> Result<Vec<Keyword>, AllocError> {
    let mut words = Vec::new(alloc);
    for name in names {
        if let Some(word) = Keyword::read(alloc, name)? {
            words.push(word)?;
        }
    }
    Ok(words)
}

// UIDVALIDITY, highest UID, names, and UID and text of each message; whether they make a mailbox.
const MAILBOXES: [(u32, u32, &[&[u8]], &[(u32, &[u8])], bool); 10] = [
    (1, 0, &[], &[], true),
    (1, 7, &[b"Work", b"Play"], &[(1, b"a"), (7, b"")], true),
    (0, 7, &[], &[], false),
    (1, 7, &[], &[(0, b"a")], false),
    (1, 7, &[], &[(2, b"a"), (1, b"a")], false),
    (1, 7, &[], &[(2, b"a"), (2, b"a")], false),
    (1, 7, &[], &[(2, b"a"), (8, b"a")], false),
    (1, 7, &[], &[(2, b"a"), (7, b"a\0b")], false),
    (1, 7, &[b"Work", b"Play", b"wORK"], &[], false),
    (
        4_294_967_295,
        4_294_967_295,
        &[],
        &[(4_294_967_295, b"a")],
        true,
    ),
];

#[test]
fn a_mailbox_has_rising_uids_and_distinct_names(rt: HostRuntime) -> Result<(), Fail> {
    for (validity, last, words, rows, is) in MAILBOXES {
        let words = names(rt.alloc(), words)?;
        let records = messages(rt.alloc(), rows)?;
        let made = Mailbox::new(
            rt.alloc(),
            validity,
            1,
            last,
            words.as_slice(),
            records.as_slice(),
        )?;
        // no message has a greater modification number than the mailbox
        let smaller = Mailbox::new(
            rt.alloc(),
            validity,
            0,
            last,
            words.as_slice(),
            records.as_slice(),
        )?;
        assert!(rt; smaller.is_some() == (is && records.is_empty()));
        match &made {
            Some(mailbox) => {
                assert!(rt; is);
                assert_eq!(rt; mailbox.last, last);
                assert_eq!(rt; mailbox.records.as_slice().len(), records.len());
            }
            None => assert!(rt; !is),
        }
    }
    Ok(())
}

// 30 names are taken, 31 are not.
#[test]
fn a_mailbox_has_at_most_30_names(rt: HostRuntime) -> Result<(), Fail> {
    let mut words = Vec::new(rt.alloc());
    for letter in b'A'..=b'Z' {
        if let Some(word) = Keyword::read(rt.alloc(), &[letter])? {
            words.push(word)?;
        }
    }
    for digit in b'1'..=b'4' {
        if let Some(word) = Keyword::read(rt.alloc(), &[digit])? {
            words.push(word)?;
        }
    }
    assert_eq!(rt; words.len(), 30);
    assert!(rt; Mailbox::new(rt.alloc(), 1, 0, 0, words.as_slice(), &[])?.is_some());
    if let Some(word) = Keyword::read(rt.alloc(), b"5")? {
        words.push(word)?;
    }
    assert!(rt; Mailbox::new(rt.alloc(), 1, 0, 0, words.as_slice(), &[])?.is_none());
    Ok(())
}
