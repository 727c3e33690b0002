//! mbx files.
use crate::calls::{PATH, made, opened, refused, told};
use crate::sequences::run_three;
use crate::steps::{
    answer, cut, fails_once, host_of, is_text, number, open_store, opening_fails, run, shown_fault,
    step,
};
use bare_host::BareHost;
use mail_types::Driver;
use mbx_store::MbxStore;
use std::alloc::{AllocError, Global};
use std::test::Fail;
use store_trait::OpenFault;
use test_tables::{Row, rows};

// ---- Files, as cells have them

// Lines for names that have commas between them, and how many they are.
fn put_names(out: &mut Vec<u8>, names: &[u8]) -> Result<usize, AllocError> {
    if names.is_empty() {
        return Ok(0);
    }
    let mut count: usize = 1;
    for byte in names {
        if *byte == b',' {
            count = count.saturating_add(1);
            out.extend_from_slice(b"\r\n")?;
        } else {
            out.push(*byte)?;
        }
    }
    out.extend_from_slice(b"\r\n")?;
    Ok(count)
}

// A file, from 16 hex digits and its names, and from its records.
fn file_of(alloc: Global, header: &[u8], records: &[u8]) -> Result<Vec<u8>, AllocError> {
    let mut out = Vec::from_slice(alloc, b"*mbx*\r\n")?;
    out.extend_from_slice(header.get(..16).unwrap_or(&[]))?;
    out.extend_from_slice(b"\r\n")?;
    let count = put_names(&mut out, header.get(16..).unwrap_or(&[]))?;
    for _ in count..30 {
        out.extend_from_slice(b"\r\n")?;
    }
    out.resize(2048, 0)?;
    out.extend_from_slice(records)?;
    Ok(out)
}

// ---- Changes

fn changes(alloc: Global, row: &Row) -> Result<(), Fail> {
    let (header, rest) = cut(row.text.as_slice());
    let (records, calls) = cut(rest);
    let mut host = host_with(alloc, header, records)?;
    run::<MbxStore>(alloc, &mut host, calls)?;
    let (header, records) = cut(row.expected.as_slice());
    let expected = file_of(alloc, header, records)?;
    let found = host.file(PATH).unwrap_or(&[]);
    if found == expected.as_slice() {
        return Ok(());
    }
    row.agrees(found.get(2048..).unwrap_or(&[]))
}

const CHANGES: &str = r#"
# an append to an empty mailbox, and to one with a message in an odd spelling, which is spelled anew
0000001200000000Work||+hi => 0000001200000001Work| 1-Jan-2024 01:02:03 +0200,2;000000010001-00000001\r\nhi
0000001200000000||+Subject: z\r\r\n\r\r\nhi => 0000001200000001| 1-Jan-2024 01:02:03 +0200,18;000000000001-00000001\r\nSubject: z\r\r\n\r\r\nhi
0000001200000000||+ => 0000001200000001| 1-Jan-2024 01:02:03 +0200,0;000000000001-00000001\r\n
0000001200000005Work|02-aPR-2024 08:00:00 -0000,002;000000010010-00000005\r\nhi|+abc => 0000001200000006Work| 2-Apr-2024 08:00:00 +0000,2;000000010010-00000005\r\nhi 1-Jan-2024 01:02:03 +0200,3;000000010001-00000006\r\nabc
# a record with flag bits 8001 is no message, and its bytes stand after an append
0000001200000005Work|02-jan-2024 00:00:00 -0000,02;00000000800A-0000000A\r\nn\0|+x => 0000001200000006Work|02-jan-2024 00:00:00 -0000,02;00000000800A-0000000A\r\nn\0 1-Jan-2024 01:02:03 +0200,1;000000010001-00000006\r\nx
# a name that is new clears its bit in older records, and is set by its number
0000001200000005Work| 2-Apr-2024 08:00:00 +0200,2;000000070041-00000005\r\nhi|!b => 0000001200000005Work,b| 2-Apr-2024 08:00:00 +0200,2;000000050041-00000005\r\nhi
0000001200000005| 2-Apr-2024 08:00:00 +0200,2;000000000000-00000005\r\nhi|!a;!b;=0o2 => 0000001200000005a,b| 2-Apr-2024 08:00:00 +0200,2;00000002003f-00000005\r\nhi
# keyword bits past the list and other flag bits stay with their message
0000001200000005Work| 2-Apr-2024 08:00:00 +0200,2;000000050041-00000005\r\nhi|=002 => 0000001200000005Work| 2-Apr-2024 08:00:00 +0200,2;000000040040-00000005\r\nhi
0000001200000005Work| 2-Apr-2024 08:00:00 +0200,2;000000050041-00000005\r\nhi|=021;+x => 0000001200000006Work| 2-Apr-2024 08:00:00 +0200,2;000000050042-00000005\r\nhi 1-Jan-2024 01:02:03 +0200,1;000000010001-00000006\r\nx
# marked records stand between messages, and places count messages alone
0000001200000007Work| 2-Apr-2024 08:00:00 +0200,2;000000000000-00000005\r\nhi02-jan-2024 00:00:00 -0000,02;000000008000-0000000A\r\nno 2-Apr-2024 08:00:00 +0200,3;000000020001-00000007\r\nabc|=131 => 0000001200000007Work| 2-Apr-2024 08:00:00 +0200,2;000000000000-00000005\r\nhi02-jan-2024 00:00:00 -0000,02;000000008000-0000000A\r\nno 2-Apr-2024 08:00:00 +0200,3;000000030003-00000007\r\nabc
0000001200000007Work| 2-Apr-2024 08:00:00 +0200,2;000000000000-00000005\r\nhi02-jan-2024 00:00:00 -0000,02;000000008000-0000000A\r\nno 2-Apr-2024 08:00:00 +0200,3;000000020001-00000007\r\nabc|-0 => 0000001200000007Work|02-jan-2024 00:00:00 -0000,02;000000008000-0000000A\r\nno 2-Apr-2024 08:00:00 +0200,3;000000020001-00000007\r\nabc
0000001200000007Work| 2-Apr-2024 08:00:00 +0200,2;000000000000-00000005\r\nhi02-jan-2024 00:00:00 -0000,02;000000008000-0000000A\r\nno 2-Apr-2024 08:00:00 +0200,3;000000020001-00000007\r\nabc|-1;+new;-0 => 0000001200000008Work|02-jan-2024 00:00:00 -0000,02;000000008000-0000000A\r\nno 1-Jan-2024 01:02:03 +0200,3;000000010001-00000008\r\nnew
# a NUL in a text is 80 hex
00000012000000051,2| 2-Apr-2024 08:00:00 +0200,3;000000000000-00000005\r\na\0b|=010 => 00000012000000051,2| 2-Apr-2024 08:00:00 +0200,3;000000000001-00000005\r\na\x80b
# a message without a UID gets the next one, and so does a mailbox without a validity
0000000000000000| 2-Apr-2024 08:00:00 +0200,1;000000000000-00000000\r\na 2-Apr-2024 08:00:00 +0200,1;000000000000-00000000\r\nb|=110 => 0000004d00000002| 2-Apr-2024 08:00:00 +0200,1;000000000000-00000001\r\na 2-Apr-2024 08:00:00 +0200,1;000000000001-00000002\r\nb
"#;

#[test]
fn files_change_by_the_calls(rt: HostRuntime) -> Result<(), Fail> {
    for row in &rows(rt.alloc(), CHANGES)? {
        changes(rt.alloc(), row)?;
    }
    Ok(())
}

const MADE: &str = r#"
+hi => 0000001200000001| 1-Jan-2024 01:02:03 +0200,2;000000000001-00000001\r\nhi
"#;

// A mailbox that is made, and has a message then.
fn makes(alloc: Global, row: &Row) -> Result<(), Fail> {
    let mut host = BareHost::new(alloc);
    host.put_dir("/m")?;
    let mut store: MbxStore = match made(alloc, &mut host) {
        Ok(store) => store,
        Err(fault) => return Err(refused(fault)),
    };
    let empty = file_of(alloc, b"0000001200000000", &[])?;
    if host.file(PATH) != Some(empty.as_slice()) {
        return Err(Fail::new("another empty file"));
    }
    if let Err(fault) = step(alloc, &mut store, &mut host, row.text.as_slice())? {
        return Err(refused(fault));
    }
    let (header, records) = cut(row.expected.as_slice());
    let expected = file_of(alloc, header, records)?;
    if host.file(PATH) == Some(expected.as_slice()) {
        return Ok(());
    }
    row.agrees(host.file(PATH).unwrap_or(&[]).get(2048..).unwrap_or(&[]))
}

#[test]
fn a_file_is_made(rt: HostRuntime) -> Result<(), Fail> {
    for row in &rows(rt.alloc(), MADE)? {
        makes(rt.alloc(), row)?;
    }
    Ok(())
}

// ---- Files that are cut

const TWO: &str = r#"
0000001200000007Work| 2-Apr-2024 08:00:00 +0200,6;000000000000-00000001\r\nabcdef02-Apr-2024 08:00:00 +0200,02;000000008000-00000007\r\nhi => \e
"#;

// How many whole records a file of a length has, and whether it is a file.
fn whole_of(long: usize) -> (u32, bool) {
    if long < 2048 {
        (0, false)
    } else if long < 2106 {
        (0, long == 2048)
    } else if long < 2161 {
        (1, long == 2106)
    } else {
        (2, true)
    }
}

fn is_cut_so(answer: Result<MbxStore, OpenFault>, long: usize) -> bool {
    let (records, whole) = whole_of(long);
    match answer {
        Ok(_) => whole,
        Err(fault) => !whole && fault == OpenFault::IllFormed(Driver::Mbx, records),
    }
}

fn cuts(alloc: Global, row: &Row) -> Result<(), Fail> {
    let (header, records) = cut(row.text.as_slice());
    let bytes = file_of(alloc, header, records)?;
    for long in 0..2162 {
        let mut host = host_of(alloc, bytes.as_slice().get(..long).unwrap_or(&[]))?;
        if !is_cut_so(opened(alloc, &mut host), long) {
            return Err(Fail::new(format_args!("a file of {long} bytes")));
        }
    }
    Ok(())
}

#[test]
fn cut_files_are_ill_formed(rt: HostRuntime) -> Result<(), Fail> {
    for row in &rows(rt.alloc(), TWO)? {
        cuts(rt.alloc(), row)?;
    }
    Ok(())
}

// ---- What is told

const TOLD: &str = r#"
0000001200000005Work| => 18 5 Work
# validity 0 is none, and UIDs that don't rise are given anew
0000000000000000| 2-Apr-2024 08:00:00 +0200,1;000000000000-00000000\r\na => 77 1 1.0.0.1
# bits past the list and marked records aren't shown; names stop at one that stands twice
0000001200000009Work,b,wORK,c| 2-Apr-2024 08:00:00 +0200,2;0000000700FF-00000005\r\nhi02-jan-2024 00:00:00 -0000,02;000000008000-0000000A\r\nno 2-Apr-2024 08:00:00 +0200,0;000000000000-00000009\r\n => 18 9 Work b 5.63.3.2 9.0.0.0
# the list of names ends at a line that is none, and numbers have either case
0000001A0000000bWork,a(b,c| 2-Apr-2024 08:00:00 +0200,0;000000070000-00000005\r\n => 26 11 Work 5.0.1.0
0000001200000005,b| 2-Apr-2024 08:00:00 +0200,0;000000030000-00000005\r\n => 18 5 5.0.0.0
0000001200000005\(64:k\),\(65:k\)| => 18 5 \(64:k\)
0000001200000005a,b,c,d,e,f,g,h,i,j,k,l,m,n,o,p,q,r,s,t,u,v,w,x,y,z,0,1,2,3| 2-Apr-2024 08:00:00 +0200,0;ffffffff0000-00000005\r\n => 18 5 a b c d e f g h i j k l m n o p q r s t u v w x y z 0 1 2 3 5.0.1073741823.0
0000001200000005\(2020:k\)| => ill-formed after 0
0000001g00000005| => ill-formed after 0
00000012 0000005| => ill-formed after 0
# UIDs that repeat, fall, or stand behind a message without one are given anew; a run without UIDs gets the next ones
0000001200000005| 2-Apr-2024 08:00:00 +0200,0;000000000000-00000005\r\n 2-Apr-2024 08:00:00 +0200,0;000000000000-00000005\r\n => 77 2 1.0.0.0 2.0.0.0
0000001200000005| 2-Apr-2024 08:00:00 +0200,0;000000000000-00000005\r\n 2-Apr-2024 08:00:00 +0200,0;000000000000-00000004\r\n => 77 2 1.0.0.0 2.0.0.0
0000001200000005| 2-Apr-2024 08:00:00 +0200,0;000000000000-00000000\r\n 2-Apr-2024 08:00:00 +0200,0;000000000000-00000005\r\n => 77 2 1.0.0.0 2.0.0.0
0000001200000005| 2-Apr-2024 08:00:00 +0200,0;000000000000-00000003\r\n 2-Apr-2024 08:00:00 +0200,0;000000000000-00000000\r\n 2-Apr-2024 08:00:00 +0200,0;000000000000-00000000\r\n => 18 7 3.0.0.0 6.0.0.0 7.0.0.0
0000001200000005| 2-Apr-2024 08:00:00 +0200,0;000000000000-ffffffff\r\n => 18 4294967295 4294967295.0.0.0
0000001200000005| 2-Apr-2024 08:00:00 +0200,0;000000000000-fffffffe\r\n 2-Apr-2024 08:00:00 +0200,0;000000000000-00000000\r\n => 77 2 1.0.0.0 2.0.0.0
0000001200000005| 2-Apr-2024 08:00:00 +0200,0;000000008000-00000003\r\n 2-Apr-2024 08:00:00 +0200,0;000000000000-00000002\r\n => 18 5 2.0.0.0
# spellings of a head
0000001200000005|02-aPR-2024 08:00:00 -0000,0000000001;ABCDEF007FFF-0000000A\r\na => 18 10 10.63.0.1
0000001200000005|29-Feb-2024 23:59:59 +2359,0;000000000000-00000001\r\n => 18 5 1.0.0.0
# heads that are none
0000001200000005|2-Apr-2024 08:00:00 +0200,0;000000000000-00000001\r\n => ill-formed after 0
0000001200000005|31-Apr-2024 08:00:00 +0200,0;000000000000-00000001\r\n => ill-formed after 0
0000001200000005|29-Feb-2023 08:00:00 +0200,0;000000000000-00000001\r\n => ill-formed after 0
0000001200000005| 2-Apr-2024 24:00:00 +0200,0;000000000000-00000001\r\n => ill-formed after 0
0000001200000005| 2-Apr-2024 08:00:00 +2400,0;000000000000-00000001\r\n => ill-formed after 0
0000001200000005| 2-Apr-2024 08:00:00 +0260,0;000000000000-00000001\r\n => ill-formed after 0
0000001200000005| 2-Apr-2024 08:00:00 CET,0;000000000000-00000001\r\n => ill-formed after 0
0000001200000005| 2-Apr-2024 08:00:00 +0200,;000000000000-00000001\r\n => ill-formed after 0
0000001200000005| 2-Apr-2024 08:00:00 +0200,00000000000;000000000000-00000001\r\n => ill-formed after 0
0000001200000005| 2-Apr-2024 08:00:00 +0200,-0;000000000000-00000001\r\n => ill-formed after 0
0000001200000005| 2-Apr-2024 08:00:00 +0200,0;00000000000-00000001\r\n => ill-formed after 0
0000001200000005| 2-Apr-2024 08:00:00 +0200,0;0000000g0000-00000001\r\n => ill-formed after 0
0000001200000005| 2-Apr-2024 08:00:00 +0200,0;000000000000-0000001\r\n => ill-formed after 0
0000001200000005| 2-Apr-2024 08:00:00 +0200,0;000000000000-00000001\n => ill-formed after 0
0000001200000005| 2-Apr-2024 08:00:00 +0200,0;000000000000-00000001\r\r\n => ill-formed after 0
0000001200000005| 2-Apr-2024 08:00:00 +0200,4294967297;000000000000-00000001\r\na => ill-formed after 0
0000001200000005|x => ill-formed after 0
# whole records before, of which marked ones are some
0000001200000005| 2-Apr-2024 08:00:00 +0200,0;000000000000-00000001\r\nx => ill-formed after 1
0000001200000005| 2-Apr-2024 08:00:00 +0200,2;000000008000-00000001\r\nno 2-Apr-2024 08:00:00 +0200,6;000000000000-00000002\r\nabcde => ill-formed after 1
0000001200000005| 2-Apr-2024 08:00:00 +0200,0;000000000000-00000001\r\n 2-Apr-2024 08:00:00 +0200,2;000000008000-00000002\r\nno 2-Apr-2024 08:00:00 +0200,6;000000008000-00000003\r\nabcde => ill-formed after 2
# a record whose size passes the end, and one good record before it
0000001200000005Work| 2-Apr-2024 08:00:00 +0200,6;000000000000-00000001\r\nabcde => ill-formed after 0
0000001200000005Work| 2-Apr-2024 08:00:00 +0200,6;000000000000-00000001\r\nabcdef 2-Apr-2024 08:00:00 +0200,6;000000000000-00000001\r\nabcde => ill-formed after 1
"#;

fn shown(alloc: Global, host: &mut BareHost) -> Result<Vec<u8>, AllocError> {
    match opened::<MbxStore>(alloc, host) {
        Ok(store) => told(alloc, &store),
        Err(fault) => shown_fault(alloc, fault),
    }
}

fn host_with(alloc: Global, header: &[u8], records: &[u8]) -> Result<BareHost, AllocError> {
    host_of(alloc, file_of(alloc, header, records)?.as_slice())
}

// No more bytes are read than 4,096 and 256 for each record.
fn opens(alloc: Global, row: &Row) -> Result<(), Fail> {
    let (header, records) = cut(row.text.as_slice());
    let mut host = host_with(alloc, header, records)?;
    row.agrees(shown(alloc, &mut host)?.as_slice())?;
    if host.bytes_read() > 4096 {
        return Err(Fail::new("too many bytes read"));
    }
    Ok(())
}

#[test]
fn files_are_opened(rt: HostRuntime) -> Result<(), Fail> {
    for row in &rows(rt.alloc(), TOLD)? {
        opens(rt.alloc(), row)?;
    }
    Ok(())
}

// ---- Texts

const TEXTS: &str = r#"
0000001200000007| 2-Apr-2024 08:00:00 +0200,12;000000000000-00000005\r\nFrom: \0\r\n\r\nh02-jan-2024 00:00:00 -0000,02;000000008000-0000000A\r\nno 2-Apr-2024 08:00:00 +0200,3;000000000000-00000007\r\nabc|0 => From: \x80\r\n\r\nh
0000001200000007| 2-Apr-2024 08:00:00 +0200,12;000000000000-00000005\r\nFrom: \0\r\n\r\nh02-jan-2024 00:00:00 -0000,02;000000008000-0000000A\r\nno 2-Apr-2024 08:00:00 +0200,3;000000000000-00000007\r\nabc|1 => abc
0000001200000007| 2-Apr-2024 08:00:00 +0200,0;000000000000-00000005\r\n|0 => \e
"#;

fn reads(alloc: Global, row: &Row) -> Result<(), Fail> {
    let (header, rest) = cut(row.text.as_slice());
    let (records, place) = cut(rest);
    let mut host = host_with(alloc, header, records)?;
    let mut store = open_store::<MbxStore>(alloc, &mut host)?;
    let text = row.expected.as_slice();
    if is_text(&mut store, &mut host, usize::from(number(place, 0)), text)? {
        return Ok(());
    }
    row.agrees(b"another text")
}

#[test]
fn texts_are_read_in_pieces(rt: HostRuntime) -> Result<(), Fail> {
    for row in &rows(rt.alloc(), TEXTS)? {
        reads(rt.alloc(), row)?;
    }
    Ok(())
}

// ---- Refusals, and calls of the host that fail

const REFUSED: &str = r#"
# no UID is left behind the greatest one that is given, nor behind one past it
00000012fffffffe||+x => no UID left
00000012fffffffd||+x => done
0000001200000005| 2-Apr-2024 08:00:00 +0200,1;000000000000-ffffffff\r\na|+x => no UID left
0000001200000005| 2-Apr-2024 08:00:00 +0200,1;000000000000-ffffffff\r\na|-0 => done
"#;

fn refuses(alloc: Global, row: &Row) -> Result<(), Fail> {
    let (header, rest) = cut(row.text.as_slice());
    let (records, call) = cut(rest);
    let mut host = host_with(alloc, header, records)?;
    row.agrees(answer::<MbxStore>(alloc, &mut host, call)?.as_slice())
}

#[test]
fn changes_are_refused(rt: HostRuntime) -> Result<(), Fail> {
    for row in &rows(rt.alloc(), REFUSED)? {
        refuses(rt.alloc(), row)?;
    }
    Ok(())
}

const FAILING: &str = r#"
0000001200000000Work||+hi => 0000001200000001Work| 1-Jan-2024 01:02:03 +0200,2;000000010001-00000001\r\nhi
0000001200000005Work| 2-Apr-2024 08:00:00 +0200,2;000000000000-00000005\r\nhi|=031 => 0000001200000005Work| 2-Apr-2024 08:00:00 +0200,2;000000010003-00000005\r\nhi
0000001200000005Work| 2-Apr-2024 08:00:00 +0200,2;000000000000-00000005\r\nhi|!b => 0000001200000005Work,b| 2-Apr-2024 08:00:00 +0200,2;000000000000-00000005\r\nhi
0000001200000005Work| 2-Apr-2024 08:00:00 +0200,2;000000000000-00000005\r\nhi|-0 => 0000001200000005Work|
"#;

fn fails(alloc: Global, row: &Row) -> Result<(), Fail> {
    let (header, rest) = cut(row.text.as_slice());
    let (records, call) = cut(rest);
    let old = file_of(alloc, header, records)?;
    let (header, records) = cut(row.expected.as_slice());
    let new = file_of(alloc, header, records)?;
    opening_fails::<MbxStore>(alloc, old.as_slice())?;
    fails_once::<MbxStore>(alloc, old.as_slice(), call, new.as_slice())
}

#[test]
fn a_failed_call_leaves_one_of_two_files(rt: HostRuntime) -> Result<(), Fail> {
    for row in &rows(rt.alloc(), FAILING)? {
        fails(rt.alloc(), row)?;
    }
    Ok(())
}

// ---- Changes one after the other

const THREE: &str = r#"
0000001200000005| => 0000001200000006Work|
0000001200000005| 2-Apr-2024 08:00:00 +0200,2;000000000000-00000003\r\nhi => 0000001200000006Work| 2-Apr-2024 08:00:00 +0200,14;000000010001-00000006\r\nSubject: q\r\n\r\n
"#;

fn runs(alloc: Global, row: &Row) -> Result<(), Fail> {
    let (header, records) = cut(row.text.as_slice());
    let mut host = host_with(alloc, header, records)?;
    let mut store = open_store::<MbxStore>(alloc, &mut host)?;
    if run_three(alloc, &mut store, &mut host)? != Ok(3) {
        return Err(Fail::new("a change is refused"));
    }
    let (header, records) = cut(row.expected.as_slice());
    let expected = file_of(alloc, header, records)?;
    if host.file(PATH) == Some(expected.as_slice()) {
        return Ok(());
    }
    row.agrees(host.file(PATH).unwrap_or(&[]))
}

#[test]
fn three_changes_are_done(rt: HostRuntime) -> Result<(), Fail> {
    for row in &rows(rt.alloc(), THREE)? {
        runs(rt.alloc(), row)?;
    }
    Ok(())
}
