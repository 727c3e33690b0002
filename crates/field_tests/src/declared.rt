//! What the seven drivers declare, and what they keep of a message.
use mail_fields::{Bytes, Stamp};
use mail_types::{DateKeep, Driver, Flags, Keeps, Record, TextKeep, keeps_of, kept, take};
use std::alloc::{AllocError, Global};
use std::test::Fail;

const SIX_FLAGS: Flags = Flags {
    seen: true,
    answered: true,
    flagged: true,
    deleted: true,
    draft: true,
    old: true,
};

const NO_FLAG: Flags = Flags {
    seen: false,
    answered: false,
    flagged: false,
    deleted: false,
    draft: false,
    old: false,
};

// Whether UIDs last, keywords, flags, date, text.
const ROWS: [(Driver, bool, u32, Flags, DateKeep, TextKeep); 7] = [
    (
        Driver::Unix,
        true,
        30,
        SIX_FLAGS,
        DateKeep::Second,
        TextKeep::Unix,
    ),
    (
        Driver::Mmdf,
        true,
        30,
        SIX_FLAGS,
        DateKeep::Second,
        TextKeep::Mmdf,
    ),
    (
        Driver::Mbx,
        true,
        30,
        SIX_FLAGS,
        DateKeep::Zone,
        TextKeep::Exact,
    ),
    (
        Driver::Mtx,
        false,
        0,
        SIX_FLAGS,
        DateKeep::Zone,
        TextKeep::Exact,
    ),
    (
        Driver::Tenex,
        false,
        0,
        SIX_FLAGS,
        DateKeep::Zone,
        TextKeep::Lines,
    ),
    (
        Driver::Mh,
        false,
        0,
        NO_FLAG,
        DateKeep::Epoch,
        TextKeep::Lines,
    ),
    (
        Driver::Mix,
        true,
        30,
        SIX_FLAGS,
        DateKeep::Zone,
        TextKeep::Exact,
    ),
];

#[test]
fn each_driver_declares_its_row(rt: HostRuntime) {
    for (driver, uids, words, flags, date, text) in ROWS {
        let row = Keeps {
            uids,
            words,
            flags,
            date,
            text,
            numbers: driver == Driver::Mix,
        };
        assert!(rt; keeps_of(driver) == row);
    }
}

// 2-Apr-2024 08:00:00 +0200, and the same in UTC
const LOCAL: Stamp = Stamp {
    day: 19_815,
    second: 28_800,
    zone_minutes: 120,
};

const IN_UTC: Stamp = Stamp {
    day: 19_815,
    second: 21_600,
    zone_minutes: 0,
};

const EPOCH: Stamp = Stamp {
    day: 0,
    second: 0,
    zone_minutes: 0,
};

const FLAGS: Flags = Flags {
    seen: true,
    answered: false,
    flagged: false,
    deleted: false,
    draft: true,
    old: false,
};

// A field of a driver's own, two CR before a line feed, a delimiter line, the border of an mmdf message, and no line end.
const TEXT: &[u8] =
    b"X-UID: 9\nSubject: z\r\r\n\nFrom c@d Tue Apr  2 08:00:00 2024\n\x01\x01\x01\x01\nhi";

const LINES_TEXT: &[u8] =
    b"X-UID: 9\r\nSubject: z\r\n\r\nFrom c@d Tue Apr  2 08:00:00 2024\r\n\x01\x01\x01\x01\r\nhi";

const UNIX_TEXT: &[u8] =
    b"Subject: z\r\n\r\n>From c@d Tue Apr  2 08:00:00 2024\r\n\x01\x01\x01\x01\r\nhi\r\n";

const MMDF_TEXT: &[u8] =
    b"Subject: z\r\n\r\nFrom c@d Tue Apr  2 08:00:00 2024\r\n \x01\x01\x01\x01\r\nhi\r\n";

// The driver; its text, stamp, flags and keywords of the message above with the keywords 0, 29 and 30.
const KEPT: [(Driver, &[u8], Stamp, Flags, u32); 7] = [
    (Driver::Unix, UNIX_TEXT, IN_UTC, FLAGS, 0x2000_0001),
    (Driver::Mmdf, MMDF_TEXT, IN_UTC, FLAGS, 0x2000_0001),
    (Driver::Mbx, TEXT, LOCAL, FLAGS, 0x2000_0001),
    (Driver::Mtx, TEXT, LOCAL, FLAGS, 0),
    (Driver::Tenex, LINES_TEXT, LOCAL, FLAGS, 0),
    (Driver::Mh, LINES_TEXT, EPOCH, NO_FLAG, 0),
    (Driver::Mix, TEXT, LOCAL, FLAGS, 0x2000_0001),
];

fn sent(alloc: Global) -> Result<Record, AllocError> {
    Ok(Record {
        uid: 7,
        text: Bytes::of(alloc, TEXT)?,
        stamp: LOCAL,
        flags: FLAGS,
        words: 0x6000_0001,
        number: 5,
    })
}

#[test]
fn a_message_loses_what_its_driver_does_not_declare(rt: HostRuntime) -> Result<(), Fail> {
    for (driver, text, stamp, flags, words) in KEPT {
        let keeps = keeps_of(driver);
        let message = sent(rt.alloc())?;
        let taken = take(rt.alloc(), keeps, &message)?;
        assert_eq!(rt; taken.text.as_slice(), text);
        assert!(rt; taken.stamp == stamp);
        assert!(rt; taken.flags == FLAGS);
        assert_eq!(rt; taken.words, words);
        assert_eq!(rt; taken.uid, 7);
        assert_eq!(rt; taken.number, if driver == Driver::Mix { 5 } else { 0 });
        let limited = kept(rt.alloc(), keeps, &message)?;
        assert_eq!(rt; limited.text.as_slice(), text);
        assert!(rt; limited.flags == flags);
        assert_eq!(rt; limited.words, words);
    }
    Ok(())
}

// The bits of each flag alone.
#[test]
fn bits_stand_for_flags(rt: HostRuntime) {
    for (bits, flags) in [
        (
            1,
            Flags {
                seen: true,
                ..NO_FLAG
            },
        ),
        (
            2,
            Flags {
                deleted: true,
                ..NO_FLAG
            },
        ),
        (
            4,
            Flags {
                flagged: true,
                ..NO_FLAG
            },
        ),
        (
            8,
            Flags {
                answered: true,
                ..NO_FLAG
            },
        ),
        (
            16,
            Flags {
                old: true,
                ..NO_FLAG
            },
        ),
        (
            32,
            Flags {
                draft: true,
                ..NO_FLAG
            },
        ),
        (63, SIX_FLAGS),
        (0, Flags::none()),
    ] {
        assert_eq!(rt; flags.bits(), bits);
        assert!(rt; Flags::of_bits(bits) == flags);
        assert!(rt; Flags::of_bits(bits + 0x8000) == flags);
    }
    assert!(rt; FLAGS.and(SIX_FLAGS) == FLAGS);
    assert!(rt; FLAGS.or(NO_FLAG) == FLAGS);
    assert_eq!(rt; SIX_FLAGS.without(FLAGS).bits(), 30);
}
