//! The texts of a mix mailbox, read and written.
use crate::changed_texts::{exchanged, with, without};
use crate::shown::count_text;
use mail_fields::put_hex;
use mix_files::{Status, put_meta, put_status, read_meta, read_status};
use mix_index::{put_index, read_index};
use std::alloc::{AllocError, Global};
use std::test::Fail;
use test_tables::rows;

const INDEX: &[u8] =
    b":00000001:20240402080000+0200:0000000e:00000001:00000000:0000002d:0000000e:\r\n";

#[test]
fn an_index_has_its_entries(rt: HostRuntime) -> Result<(), Fail> {
    let found = read_index(rt.alloc(), INDEX)?;
    assert!(rt; found.is_some());
    if let Some(entries) = found {
        assert_eq!(rt; entries.len(), 1);
        for entry in &entries {
            assert_eq!(rt;
                (entry.uid, entry.size, entry.file, entry.place),
                (1, 14, 1, 0)
            );
            assert_eq!(rt; (entry.head, entry.field), (45, 14));
            assert_eq!(rt;
                (
                    entry.stamp.day,
                    entry.stamp.second,
                    entry.stamp.zone_minutes
                ),
                (19815, 28800, 120)
            );
        }
        assert!(rt; put_index(rt.alloc(), entries.as_slice())?.as_slice() == INDEX);
    }
    Ok(())
}

// A text, and how many entries it has.
const INDEXES: &str = r#"
\e => 0
# digits in either letter case
:0000000A:20240402080000+0200:0000000E:00000001:00000000:0000002D:0000000e:\r\n => 1
:00000001:20240402080000+0200:0000000e:00000001:00000000:0000002d:0000000e:\r\n:00000002:20240402080000+0200:0000000e:00000001:0000003b:0000002d:00000000:\r\n => 2
# a UID again, and a UID of 0
:00000001:20240402080000+0200:0000000e:00000001:00000000:0000002d:0000000e:\r\n:00000001:20240402080000+0200:0000000e:00000001:0000003b:0000002d:00000000:\r\n => none
:00000000:20240402080000+0200:0000000e:00000001:00000000:0000002d:0000000e:\r\n => none
# heads of 44 and 46 bytes
:00000001:20240402080000+0200:0000000e:00000001:00000000:0000002c:0000000e:\r\n => none
:00000001:20240402080000+0200:0000000e:00000001:00000000:0000002e:0000000e:\r\n => none
# no day, and a line that LF alone ends
:00000001:20240431080000+0200:0000000e:00000001:00000000:0000002d:0000000e:\r\n => none
:00000001:20240402080000+0200:0000000e:00000001:00000000:0000002d:0000000e:\n => none
"#;

#[test]
fn an_index_has_entries_of_rising_uids_alone(rt: HostRuntime) -> Result<(), Fail> {
    for row in &rows(rt.alloc(), INDEXES)? {
        let found = read_index(rt.alloc(), row.text.as_slice())?;
        let found = count_text(rt.alloc(), found.map(|entries| entries.len()))?;
        row.agrees(found.as_bytes())?;
    }
    Ok(())
}

#[test]
fn an_index_with_another_byte_is_none(rt: HostRuntime) -> Result<(), Fail> {
    for at in 0..=INDEX.len() {
        let more = with(rt.alloc(), INDEX, at, b'0')?;
        assert!(rt; read_index(rt.alloc(), more.as_slice())?.is_none());
        if at < INDEX.len() {
            let fewer = without(rt.alloc(), INDEX, at)?;
            assert!(rt; read_index(rt.alloc(), fewer.as_slice())?.is_none());
            let other = exchanged(rt.alloc(), INDEX, at, b'x')?;
            assert!(rt; read_index(rt.alloc(), other.as_slice())?.is_none());
        }
    }
    Ok(())
}

const STATUS: &[u8] = b":00000001:00000001:0001:00000001:\r\n";

const THREE: &[u8] =
    b":00000001:00000001:0001:00000001:\r\n:00000003:00000000:0024:00000001:\r\n:fffffffe:ffffffff:ffff:ffffffff:\r\n";

fn parts(status: &Status) -> (u32, u32, u16, u32) {
    (status.uid, status.words, status.bits, status.modseq)
}

#[test]
fn a_status_has_its_records(rt: HostRuntime) -> Result<(), Fail> {
    let found = read_status(rt.alloc(), THREE)?;
    assert!(rt; found.is_ok());
    if let Ok(records) = found {
        assert_eq!(rt; records.len(), 3);
        assert_eq!(rt; records.first().map(parts), Some((1, 1, 1, 1)));
        assert_eq!(rt; records.get(1).map(parts), Some((3, 0, 36, 1)));
        assert_eq!(rt;
            records.last().map(parts),
            Some((u32::MAX - 1, u32::MAX, u16::MAX, u32::MAX))
        );
        assert!(rt; put_status(rt.alloc(), records.as_slice())?.as_slice() == THREE);
    }
    Ok(())
}

// How many records a status has, or stand before the first that is none.
fn count(alloc: Global, text: &[u8]) -> Result<Result<usize, u32>, AllocError> {
    if text.len() > 536870912 {
        return Ok(Err(u32::MAX));
    }
    match read_status(alloc, text)? {
        Ok(records) => Ok(Ok(records.len())),
        Err(count) => Ok(Err(count)),
    }
}

// A status, and how many records it has, or stand before the first that is none.
const STATUSES: &str = r#"
\e => ok 0
:0000000A:00000000:0000:00000000:\r\n => ok 1
:00000000:00000000:0000:00000000:\r\n => err 0
:00000001:00000001:0001:00000001:\n => err 0
:00000002:00000000:0000:00000000:\r\n:00000002:00000000:0000:00000000:\r\n => err 1
:00000002:00000000:0000:00000000:\r\n:00000001:00000000:0000:00000000:\r\n => err 1
:00000002:00000000:0000:00000000:\r\n\r\n => err 1
"#;

fn shown_count(alloc: Global, text: &[u8]) -> Result<String, AllocError> {
    match count(alloc, text)? {
        Ok(records) => format!(in alloc; "ok {records}"),
        Err(before) => format!(in alloc; "err {before}"),
    }
}

#[test]
fn a_status_has_records_of_rising_uids_alone(rt: HostRuntime) -> Result<(), Fail> {
    for row in &rows(rt.alloc(), STATUSES)? {
        let found = shown_count(rt.alloc(), row.text.as_slice())?;
        row.agrees(found.as_bytes())?;
    }
    Ok(())
}

#[test]
fn a_status_with_another_byte_is_good_before_it(rt: HostRuntime) -> Result<(), Fail> {
    for at in 0..THREE.len() {
        let before = (at / STATUS.len()) as u32;
        let other = exchanged(rt.alloc(), THREE, at, b'x')?;
        assert_eq!(rt; count(rt.alloc(), other.as_slice())?, Err(before));
        let fewer = without(rt.alloc(), THREE, at)?;
        assert_eq!(rt; count(rt.alloc(), fewer.as_slice())?, Err(before));
        let more = with(rt.alloc(), THREE, at, b'0')?;
        assert_eq!(rt; count(rt.alloc(), more.as_slice())?, Err(before));
    }
    Ok(())
}

// A status as it is written again.
fn status_again(alloc: Global, text: &[u8]) -> Result<Option<Vec<u8>>, AllocError> {
    if text.len() > 536870912 {
        return Ok(None);
    }
    match read_status(alloc, text)? {
        Ok(records) => Ok(Some(put_status(alloc, records.as_slice())?)),
        Err(_) => Ok(None),
    }
}

// A status of so many records, made at run time.
#[test]
fn a_status_of_many_messages(rt: HostRuntime) -> Result<(), Fail> {
    let mut text = Vec::new(rt.alloc());
    for number in 1..100001u32 {
        let mut record = *b":00000000:00000000:0005:00000001:\r\n";
        put_hex(&mut record, 1, 8, u64::from(number));
        text.extend_from_slice(&record)?;
    }
    assert_eq!(rt; count(rt.alloc(), text.as_slice())?, Ok(100000));
    let again = status_again(rt.alloc(), text.as_slice())?;
    assert!(rt; again.is_some());
    if let Some(again) = again {
        assert!(rt; again.as_slice() == text.as_slice());
    }
    Ok(())
}

const META: &[u8] = b"S00000001\r\nV000003e9\r\nL00000001\r\nN00000001\r\nKWork\r\n";

#[test]
fn metadata_has_its_numbers_and_names(rt: HostRuntime) -> Result<(), Fail> {
    let found = read_meta(rt.alloc(), META)?;
    assert!(rt; found.is_some());
    if let Some(meta) = found {
        assert_eq!(rt;
            (meta.sequence, meta.validity, meta.last, meta.file),
            (1, 1001, 1, 1)
        );
        assert_eq!(rt; meta.words.as_slice().len(), 1);
        for word in meta.words.as_slice() {
            assert!(rt; word.as_slice() == b"Work".as_slice());
        }
        assert!(rt; put_meta(rt.alloc(), &meta)?.as_slice() == META);
    }
    Ok(())
}

// Metadata, and how it is written again.
const METAS: &str = r#"
S00000001\r\nV000003e9\r\nL00000001\r\nN00000001\r\nKWork\r\n => S00000001\r\nV000003e9\r\nL00000001\r\nN00000001\r\nKWork\r\n
# no names, and three
S00000000\r\nV00000001\r\nL00000000\r\nN00000001\r\nK\r\n => S00000000\r\nV00000001\r\nL00000000\r\nN00000001\r\nK\r\n
S00000000\r\nV00000001\r\nL00000000\r\nN00000001\r\nKa $b c\r\n => S00000000\r\nV00000001\r\nL00000000\r\nN00000001\r\nKa $b c\r\n
# digits in either letter case, and further lines anywhere
X\r\nSffffFFFF\r\ns00000002\r\nV00000001\r\nQ\ra\n\r\nL00000000\r\nN00000001\r\nz:\r\nK\r\nY0\r\n => Sffffffff\r\nV00000001\r\nL00000000\r\nN00000001\r\nK\r\n
# a validity of 0
S00000001\r\nV00000000\r\nL00000001\r\nN00000001\r\nK\r\n => none
# another order, a line twice, and one that isn't there
V00000001\r\nS00000001\r\nL00000001\r\nN00000001\r\nK\r\n => none
S00000001\r\nS00000001\r\nV00000001\r\nL00000001\r\nN00000001\r\nK\r\n => none
S00000001\r\nV00000001\r\nL00000001\r\nN00000001\r\nK\r\nS00000001\r\n => none
S00000001\r\nV00000001\r\nL00000001\r\nN00000001\r\n => none
# an empty line, a line that begins with no letter, and one without its end
S00000001\r\nV00000001\r\nL00000001\r\nN00000001\r\nK\r\n\r\n => none
S00000001\r\n1\r\nV00000001\r\nL00000001\r\nN00000001\r\nK\r\n => none
S00000001\r\nV00000001\r\nL00000001\r\nN00000001\r\nK\r\nX => none
# spaces that stand between no names, a name again in another case, and no keyword
S00000001\r\nV00000001\r\nL00000001\r\nN00000001\r\nKa  b\r\n => none
S00000001\r\nV00000001\r\nL00000001\r\nN00000001\r\nKa \r\n => none
S00000001\r\nV00000001\r\nL00000001\r\nN00000001\r\nK a\r\n => none
S00000001\r\nV00000001\r\nL00000001\r\nN00000001\r\nKwork Work\r\n => none
S00000001\r\nV00000001\r\nL00000001\r\nN00000001\r\nKa(b\r\n => none
\e => none
"#;

// Metadata as it is written again.
fn written(alloc: Global, text: &[u8]) -> Result<Vec<u8>, AllocError> {
    match read_meta(alloc, text)? {
        Some(meta) => put_meta(alloc, &meta),
        None => Vec::from_slice(alloc, b"none"),
    }
}

#[test]
fn metadata_is_written_without_further_lines(rt: HostRuntime) -> Result<(), Fail> {
    for row in &rows(rt.alloc(), METAS)? {
        let again = written(rt.alloc(), row.text.as_slice())?;
        row.agrees(again.as_slice())?;
    }
    Ok(())
}

// Whether metadata with so many names, `k1 k2 ..`, is read.
fn has_names(alloc: Global, count: u32) -> Result<bool, AllocError> {
    let mut text = Vec::from_slice(
        alloc,
        b"S00000001\r\nV00000001\r\nL00000001\r\nN00000001\r\nK",
    )?;
    for number in 0..count {
        let mut name = *b" k0000";
        put_hex(&mut name, 2, 4, u64::from(number % 65536));
        if number == 0 {
            text.extend_from_slice(&name[1..])?;
        } else {
            text.extend_from_slice(&name)?;
        }
    }
    text.extend_from_slice(b"\r\n")?;
    Ok(read_meta(alloc, text.as_slice())?.is_some())
}

#[test]
fn metadata_has_at_most_30_names(rt: HostRuntime) -> Result<(), Fail> {
    assert!(rt; has_names(rt.alloc(), 29)?);
    assert!(rt; has_names(rt.alloc(), 30)?);
    assert!(rt; !has_names(rt.alloc(), 31)?);
    Ok(())
}

// Whether metadata still is some with another byte at a place: in the name, or as a further line's.
#[test]
fn metadata_with_another_byte_is_none(rt: HostRuntime) -> Result<(), Fail> {
    for at in 0..META.len() {
        let in_name = (45..49).contains(&at);
        let other = exchanged(rt.alloc(), META, at, b'x')?;
        assert_eq!(rt; read_meta(rt.alloc(), other.as_slice())?.is_some(), in_name);
        let fewer = without(rt.alloc(), META, at)?;
        assert_eq!(rt; read_meta(rt.alloc(), fewer.as_slice())?.is_some(), in_name);
        let more = with(rt.alloc(), META, at, b'x')?;
        assert_eq!(rt;
            read_meta(rt.alloc(), more.as_slice())?.is_some(),
            in_name || at == 49
        );
    }
    Ok(())
}
