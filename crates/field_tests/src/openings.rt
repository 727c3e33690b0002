//! The mailboxes that contents of a store open as.
use mail_fields::{Bytes, Keyword, Keywords, Stamp};
use mail_types::{Flags, Placing, Record, Records, StoreContents, opened};
use std::alloc::{AllocError, Global};
use std::test::Fail;

const EPOCH: Stamp = Stamp {
    day: 0,
    second: 0,
    zone_minutes: 0,
};

fn message(alloc: Global, uid: u32) -> Result<Record, AllocError> {
    let text = Bytes::of(alloc, b"Subject: x\r\n\r\nhi\r\n")?;
    Ok(Record {
        uid,
        text,
        stamp: EPOCH,
        flags: Flags::none(),
        words: 0,
        number: 0,
    })
}

fn messages(alloc: Global, uids: &[u32]) -> Result<Records, AllocError> {
    let mut records = Vec::new(alloc);
    for uid in uids {
        records.push(message(alloc, *uid)?)?;
    }
    Ok(Records::of(records))
}

fn contents(
    alloc: Global,
    validity: Option<u32>,
    last: u32,
    uids: &[u32],
) -> Result<StoreContents, AllocError> {
    let mut words = Vec::new(alloc);
    if let Some(word) = Keyword::read(alloc, b"Work")? {
        words.push(word)?;
    }
    Ok(StoreContents {
        validity,
        number: 7,
        last,
        words: Keywords::of(words),
        records: messages(alloc, uids)?,
        placing: Placing::InPlace,
    })
}

fn has_uids(records: &[Record], uids: &[u32]) -> bool {
    records.len() == uids.len() && records.iter().zip(uids).all(|(one, uid)| one.uid == *uid)
}

// UIDVALIDITY, highest UID and UIDs as the files have them; the same of the mailbox that is opened with 1001.
const OPENED: [(Option<u32>, u32, &[u32], u32, u32, &[u32]); 14] = [
    // no UIDVALIDITY
    (None, 0, &[0, 0], 1001, 2, &[1, 2]),
    (None, 9, &[4, 7], 1001, 2, &[1, 2]),
    (None, 0, &[], 1001, 0, &[]),
    // UIDs that rise, with a gap
    (Some(900), 7, &[1, 3, 7], 900, 7, &[1, 3, 7]),
    (Some(900), 12, &[4, 9], 900, 12, &[4, 9]),
    (Some(900), 2, &[4, 9], 900, 9, &[4, 9]),
    // UIDs that fall, or repeat
    (Some(900), 9, &[5, 4], 1001, 2, &[1, 2]),
    (Some(900), 9, &[5, 5], 1001, 2, &[1, 2]),
    // a run without UIDs at the end, and one before it
    (Some(900), 5, &[2, 3, 0, 0], 900, 7, &[2, 3, 6, 7]),
    (Some(900), 5, &[2, 0, 3], 1001, 3, &[1, 2, 3]),
    (Some(900), 5, &[0, 0], 900, 7, &[6, 7]),
    // a run that ends at the last UID, and one that would pass it
    (
        Some(900),
        4_294_967_293,
        &[1, 0],
        900,
        4_294_967_294,
        &[1, 4_294_967_294],
    ),
    (Some(900), 4_294_967_294, &[1, 0], 1001, 2, &[1, 2]),
    // a highest UID past the last one stays where none is given
    (Some(900), 4_294_967_295, &[1], 900, 4_294_967_295, &[1]),
];

#[test]
fn uids_last_where_they_rise(rt: HostRuntime) -> Result<(), Fail> {
    for (validity, last, uids, new_validity, new_last, new_uids) in OPENED {
        let contents = contents(rt.alloc(), validity, last, uids)?;
        assert!(rt; contents.records.as_slice().len() < 10);
        let mailbox = opened(rt.alloc(), contents, 1001)?;
        assert_eq!(rt; mailbox.validity, new_validity);
        assert_eq!(rt; mailbox.number, 7);
        assert_eq!(rt; mailbox.last, new_last);
        assert!(rt; has_uids(mailbox.records.as_slice(), new_uids));
        assert!(rt; mailbox.words.as_slice().len() == 1);
    }
    Ok(())
}
