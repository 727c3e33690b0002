// What a mix directory means.
ghost use Rattle.std.specs.Prelude.{◌≡◌, All, IfOk, map, true};
ghost use Rattle.mix_index.specs.Entries.{entry_parts, entry_form};
ghost use Rattle.mix_records.specs.Records.{rise_from};

use bare_host::BareHost;
use mail_types::Limit;
use mix_index::put_index;
use mix_records::put_hex_field;
use mix_recover::{Meaning, MeansFault, means};
use std::alloc::{AllocError, Global};
use std::test::Fail;
use test_tables::{Row, rows};

const METADATA: &[u8] = b"S00000002\r\nV000003e9\r\nL00000001\r\nN00000001\r\nKWork\r\n";

const STATUS: &[u8] = b":00000001:00000001:0001:00000002:\r\n";

const MESSAGE: &[u8] = b":msg:00000001:20240402080000+0200:0000000e:\r\nSubject: q\r\n\r\n";

// A mailbox with one message, and this index.
fn host_with(alloc: Global, index: &[u8]) -> Result<BareHost, AllocError> {
    let mut host = BareHost::new(alloc);
    host.put_file("/m/.mixmeta", METADATA)?;
    host.put_file("/m/.mixstatus", STATUS)?;
    host.put_file("/m/.mix00000001", MESSAGE)?;
    if index != b"-".as_slice() {
        host.put_file("/m/.mixindex", index)?;
    }
    Ok(host)
}

// Whether the listing was rebuilt, the number of each data file and the end of its scan, and the listing as an index.
fn shown(alloc: Global, found: Result<Meaning, MeansFault>) -> Result<Vec<u8>, AllocError>
    requires rising { IfOk found (λ m. rise_from entry_form 0 (map entry_parts m.entries.items) ≡ true) }
    requires heads { IfOk found (λ m. All (λ entry. entry.head ≡ 45) m.entries.items) }
{
    let meaning = match found {
        Ok(meaning) => meaning,
        Err(fault) => return shown_fault(alloc, fault),
    };
    let mut out = Vec::new(alloc);
    if meaning.rebuilt {
        out.extend_from_slice(b"rebuilt")?;
    } else {
        out.extend_from_slice(b"kept")?;
    }
    put_ends(&mut out, meaning.ends.as_slice())?;
    out.push(b' ')?;
    let index = put_index(alloc, meaning.entries.as_slice())?;
    out.extend_from_slice(index.as_slice())?;
    Ok(out)
}

fn put_ends(out: &mut Vec<u8>, ends: &[(u32, u64)]) -> Result<(), AllocError> {
    for (number, end) in ends {
        put_number(out, *number)?;
        put_number(out, (*end).min(65_535) as u32)?;
    }
    Ok(())
}

fn put_number(out: &mut Vec<u8>, number: u32) -> Result<(), AllocError> {
    put_hex_field(out, 8, number)
}

fn shown_fault(alloc: Global, fault: MeansFault) -> Result<Vec<u8>, AllocError> {
    let mut out = Vec::new(alloc);
    match fault {
        MeansFault::IllFormed(count) => {
            out.extend_from_slice(b"ill-formed")?;
            put_number(&mut out, count)?;
        }
        MeansFault::TooLarge(Limit::File) => out.extend_from_slice(b"too large")?,
        MeansFault::TooLarge(_) => out.extend_from_slice(b"too many")?,
        MeansFault::Failed => out.extend_from_slice(b"failed")?,
        MeansFault::Memory => out.extend_from_slice(b"memory")?,
    }
    Ok(out)
}

// An index, and what the mailbox means with it.
const INDEXES: &str = r#"
:00000001:20240402080000+0200:0000000e:00000001:00000000:0000002d:0000000e:\r\n => kept:00000001:0000003b :00000001:20240402080000+0200:0000000e:00000001:00000000:0000002d:0000000e:\r\n
# digits in capitals
:00000001:20240402080000+0200:0000000E:00000001:00000000:0000002D:0000000E:\r\n => kept:00000001:0000003b :00000001:20240402080000+0200:0000000e:00000001:00000000:0000002d:0000000e:\r\n
# an index without entries is one
\e => kept:00000001:0000003b \e
# none, one without its last byte, and one that points a byte off
- => rebuilt:00000001:0000003b :00000001:20240402080000+0200:0000000e:00000001:00000000:0000002d:00000000:\r\n
:00000001:20240402080000+0200:0000000e:00000001:00000000:0000002d:0000000e:\r => rebuilt:00000001:0000003b :00000001:20240402080000+0200:0000000e:00000001:00000000:0000002d:00000000:\r\n
:00000001:20240402080000+0200:0000000e:00000001:00000001:0000002d:0000000e:\r\n => rebuilt:00000001:0000003b :00000001:20240402080000+0200:0000000e:00000001:00000000:0000002d:00000000:\r\n
# another UID, date, size and file
:00000002:20240402080000+0200:0000000e:00000001:00000000:0000002d:0000000e:\r\n => rebuilt:00000001:0000003b :00000001:20240402080000+0200:0000000e:00000001:00000000:0000002d:00000000:\r\n
:00000001:20240402080001+0200:0000000e:00000001:00000000:0000002d:0000000e:\r\n => rebuilt:00000001:0000003b :00000001:20240402080000+0200:0000000e:00000001:00000000:0000002d:00000000:\r\n
:00000001:20240402080000+0200:0000000d:00000001:00000000:0000002d:0000000e:\r\n => rebuilt:00000001:0000003b :00000001:20240402080000+0200:0000000e:00000001:00000000:0000002d:00000000:\r\n
:00000001:20240402080000+0200:0000000e:00000002:00000000:0000002d:0000000e:\r\n => rebuilt:00000001:0000003b :00000001:20240402080000+0200:0000000e:00000001:00000000:0000002d:00000000:\r\n
"#;

fn means_with_index(alloc: Global, row: &Row) -> Result<(), Fail> {
    let mut host = host_with(alloc, row.text.as_slice())?;
    let found = means(alloc, &mut host, "/m");
    row.agrees(shown(alloc, found)?.as_slice())
}

#[test]
fn an_index_counts_where_it_is_accepted(rt: HostRuntime) -> Result<(), Fail> {
    for row in &rows(rt.alloc(), INDEXES)? {
        means_with_index(rt.alloc(), row)?;
    }
    Ok(())
}

// The name of a further file and its bytes, and what the mailbox without index means with it.
const FILES: &str = r#"
# the last record of a UID counts, by file number and then by place; a torn record is none
.mix00000002 :msg:00000001:20240402080000+0200:00000001:\r\na => rebuilt:00000001:0000003b:00000002:0000002e :00000001:20240402080000+0200:00000001:00000002:00000000:0000002d:00000000:\r\n
.mix00000000 :msg:00000001:20240402080000+0200:00000001:\r\na => rebuilt:00000000:0000002e:00000001:0000003b :00000001:20240402080000+0200:0000000e:00000001:00000000:0000002d:00000000:\r\n
.mix0000000a :msg:00000003:20240402080000+0200:00000001:\r\na:msg:00000003:20240402080000+0200:00000002:\r\nab:msg:00000003:20240402080000+0200:00000003:\r\nab => rebuilt:00000001:0000003b:0000000a:0000005d :00000001:20240402080000+0200:0000000e:00000001:00000000:0000002d:00000000:\r\n:00000003:20240402080000+0200:00000002:0000000a:0000002e:0000002d:00000000:\r\n
# a UID 0 begins no record
.mix00000002 :msg:00000000:20240402080000+0200:00000001:\r\na => rebuilt:00000001:0000003b:00000002:00000000 :00000001:20240402080000+0200:0000000e:00000001:00000000:0000002d:00000000:\r\n
# no data files
.mix0000000A :msg:00000003:20240402080000+0200:00000001:\r\na => rebuilt:00000001:0000003b :00000001:20240402080000+0200:0000000e:00000001:00000000:0000002d:00000000:\r\n
.mix0000002 :msg:00000003:20240402080000+0200:00000001:\r\na => rebuilt:00000001:0000003b :00000001:20240402080000+0200:0000000e:00000001:00000000:0000002d:00000000:\r\n
# a bad status, behind one record and before any; a bad metadata
.mixstatus :00000001:00000001:0001:00000002:\r\n:00000001:00000001:0001:00000002:\r\n => ill-formed:00000001
.mixstatus x => ill-formed:00000000
.mixstatus \e => rebuilt:00000001:0000003b :00000001:20240402080000+0200:0000000e:00000001:00000000:0000002d:00000000:\r\n
.mixmeta V00000001\r\n => ill-formed:00000000
"#;

// What stands before the first space, and what behind it.
fn cut(cell: &[u8]) -> (&[u8], &[u8]) {
    match cell.iter().position(|byte| *byte == b' ') {
        Some(at) => (
            cell.get(..at).unwrap_or(&[]),
            cell.get(at..).unwrap_or(&[]).get(1..).unwrap_or(&[]),
        ),
        None => (cell, &[]),
    }
}

fn means_with_file(alloc: Global, row: &Row) -> Result<(), Fail> {
    let (name, bytes) = cut(row.text.as_slice());
    let Ok(name) = str::from_utf8(name) else {
        return Err(Fail::new("a name that isn't text"));
    };
    let mut path = String::from_str(alloc, "/m/")?;
    path.push_str(name)?;
    let mut host = host_with(alloc, b"-")?;
    host.put_file(path.as_str(), bytes)?;
    let found = means(alloc, &mut host, "/m");
    row.agrees(shown(alloc, found)?.as_slice())
}

#[test]
fn a_listing_is_rebuilt_from_the_last_whole_records(rt: HostRuntime) -> Result<(), Fail> {
    for row in &rows(rt.alloc(), FILES)? {
        means_with_file(rt.alloc(), row)?;
    }
    Ok(())
}

#[test]
fn no_metadata_is_ill_formed(rt: HostRuntime) -> Result<(), Fail> {
    let mut host = BareHost::new(rt.alloc());
    host.put_file("/m/.mix00000001", MESSAGE)?;
    match means(rt.alloc(), &mut host, "/m") {
        Err(MeansFault::IllFormed(0)) => Ok(()),
        _ => Err(Fail::new("answered otherwise")),
    }
}

// ---- What is read, and failed calls

#[test]
fn heads_are_read_and_no_text(rt: HostRuntime) -> Result<(), Fail> {
    let mut host = host_with(rt.alloc(), b"-")?;
    assert!(rt; means(rt.alloc(), &mut host, "/m").is_ok());
    // the metadata, the status and one head
    assert_eq!(rt; host.bytes_read(), 51 + 35 + 45);
    // the names; a stat for each of four files, and two more reads; a stat and two reads of the data file
    assert_eq!(rt; host.calls(), 10);
    Ok(())
}

fn fails_at(alloc: Global, number: u64) -> Result<(), Fail> {
    let mut host = host_with(alloc, b"-")?;
    host.fail_call(number)?;
    match means(alloc, &mut host, "/m") {
        Err(MeansFault::Failed) => Ok(()),
        _ => Err(Fail::new(format_args!("call {number} is answered otherwise"))),
    }
}

#[test]
fn a_failed_call_is_answered(rt: HostRuntime) -> Result<(), Fail> {
    for number in 0..10 {
        fails_at(rt.alloc(), number)?;
    }
    Ok(())
}
