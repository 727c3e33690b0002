// Records are put in a data file, and scanned.
use bare_host::BareHost;
use mail_fields::Stamp;
use mix_data::{Scan, begin, data_path, put, scan_file, settle};
use std::alloc::{AllocError, Global};
use std::test::Fail;

// 2-Apr-2024 08:00:00 +0200
const STAMP: Stamp = Stamp {
    day: 19815,
    second: 28800,
    zone_minutes: 120,
};

const ONE: &[u8] = b":msg:00000001:20240402080000+0200:0000000e:\r\nSubject: q\r\n\r\n";

const TWO: &[u8] =
    b":msg:00000001:20240402080000+0200:0000000e:\r\nSubject: q\r\n\r\n:msg:00000002:20240402080000+0200:00000000:\r\n";

// One record behind a place.
fn put_one(host: &mut BareHost, place: u64, uid: u32, text: &[u8]) -> Result<(), Fail> {
    if begin(host, "/m/.mix00000001", place).is_err() {
        return Err(Fail::new("the file can't be begun"));
    }
    if place > 1000 || text.len() > 1000 || uid == 0 {
        return Err(Fail::new("no small record"));
    }
    match put(host, "/m/.mix00000001", place, uid, STAMP, text) {
        Ok(_) => {}
        Err(_) => return Err(Fail::new("the record can't be put")),
    }
    match settle(host, "/m/.mix00000001", "/m") {
        Ok(()) => Ok(()),
        Err(_) => Err(Fail::new("the file can't be synced")),
    }
}

#[test]
fn records_are_put_behind_others(rt: HostRuntime) -> Result<(), Fail> {
    let mut host = BareHost::new(rt.alloc());
    host.put_dir("/m")?;
    put_one(&mut host, 0, 1, b"Subject: q\r\n\r\n")?;
    assert!(rt; host.file("/m/.mix00000001") == Some(ONE));
    put_one(&mut host, 59, 2, b"")?;
    assert!(rt; host.file("/m/.mix00000001") == Some(TWO));
    // what stands behind the place is cut
    put_one(&mut host, 0, 1, b"Subject: q\r\n\r\n")?;
    assert!(rt; host.file("/m/.mix00000001") == Some(ONE));
    Ok(())
}

fn scanned(alloc: Global, bytes: &[u8]) -> Result<Scan, Fail> {
    let mut host = BareHost::new(alloc);
    host.put_file("/m/.mix00000001", bytes)?;
    match scan_file(alloc, &mut host, "/m/.mix00000001") {
        Ok(scan) => Ok(scan),
        Err(_) => Err(Fail::new("the file can't be scanned")),
    }
}

// At each length the file has the records that are whole.
fn scans_front(alloc: Global, length: usize) -> Result<(), Fail> {
    let scan = scanned(alloc, TWO.get(..length).unwrap_or(&[]))?;
    let (count, end) = if length < 59 {
        (0, 0)
    } else if length < 104 {
        (1, 59)
    } else {
        (2, 104)
    };
    if scan.records.len() == count && scan.end == end {
        Ok(())
    } else {
        Err(Fail::new(format_args!("{length} bytes are scanned otherwise")))
    }
}

#[test]
fn whole_records_count(rt: HostRuntime) -> Result<(), Fail> {
    for length in 0..105 {
        scans_front(rt.alloc(), length)?;
    }
    Ok(())
}

#[test]
fn a_record_has_its_head_and_place(rt: HostRuntime) -> Result<(), Fail> {
    let scan = scanned(rt.alloc(), TWO)?;
    match scan.records.as_slice() {
        [first, second] => {
            assert_eq!(rt; (first.head.uid, first.head.size, first.place), (1, 14, 0));
            assert_eq!(rt;
                (second.head.uid, second.head.size, second.place),
                (2, 0, 59)
            );
            assert!(rt; first.head.stamp == STAMP);
            Ok(())
        }
        _ => Err(Fail::new("another count of records")),
    }
}

fn path(alloc: Global, number: u32) -> Result<String, AllocError> {
    data_path(alloc, "/m", number)
}

#[test]
fn a_data_file_has_its_path(rt: HostRuntime) -> Result<(), Fail> {
    assert_eq!(rt; path(rt.alloc(), 1)?.as_str(), "/m/.mix00000001");
    assert_eq!(rt;
        path(rt.alloc(), 4_027_576_060)?.as_str(),
        "/m/.mixf00feefc"
    );
    Ok(())
}
