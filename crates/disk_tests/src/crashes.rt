//! What a crash leaves on a host in memory, for each call and pick.
use crate::calls::{cells, memory_host, numbers};
use crate::steps::{play, write};
use file_model::{Failed, Host};
use mem_host::MemHost;
use std::alloc::{AllocError, Global};
use std::test::Fail;
use test_tables::{Row, rows};

// The numbers of calls that fail, a file that stands, steps, and a question: after a crash in the call of a number (99 is none),
// what do the picks up to some number leave at a path? The answers of the steps, and what each pick leaves.
const LEFT: &str = r#"
# of four bytes written to a new file a part is left, or the file is missing
- | /m/old old | make /m/f;write /m/f abcd | 99 8 /m/f => ok;ok; none,,none,abcd,none,ab,none,\x9ebcd,
- | /m/old old | make /m/f;write /m/f abcd | 99 8 /m/old => ok;ok; old,old,old,old,old,old,old,old,
# once the file is synced it has all bytes where it is there, and once the directory is too it is always there
- | /m/old old | make /m/f;write /m/f abcd;sync /m/f | 99 2 /m/f => ok;ok;ok; none,abcd,
- | /m/old old | make /m/f;write /m/f abcd;sync /m/f;syncdir /m;list /m | 99 8 /m/f => ok;ok;ok;ok;f/old/; abcd,abcd,abcd,abcd,abcd,abcd,abcd,abcd,
# a cut is lost or done
- | /m/f abcd | cut /m/f | 99 2 /m/f => ok; abcd,a,
# bytes move with their file, and with their directory
- | /m/f old | write /m/f new;move /m/f /m/g | 99 8 /m/f => ok;ok; old,none,new,none,nld,none,\x91ew,none,
- | /m/f old | write /m/f new;move /m/f /m/g | 99 8 /m/g => ok;ok; none,old,none,new,none,nld,none,\x91ew,
- | /m/a/f old | write /m/a/f new;movedir | 99 8 /m/a/f => ok;ok; old,none,new,none,nld,none,\x91ew,none,
- | /m/a/f old | write /m/a/f new;movedir | 99 8 /m/b/f => ok;ok; none,old,none,new,none,nld,none,\x91ew,
# a name made again has another file
- | /m/f old | remove /m/f;make /m/f;write /m/f new;sync /m/f | 99 3 /m/f => ok;ok;ok;ok; old,none,new,
# a crash in an output finds a part; behind it all is said, or where it failed the first half
- | - | say abc | 0 5 said => ok; ,a,ab,abc,,
- | - | say abc | 1 1 said => ok; abc,
0 | - | say abc | 0 5 said => failed; ,a,ab,abc,,
0 | - | say abc | 1 1 said => failed; a,
"#;

// The bytes of a file, or what was said.
fn found<'a>(image: &'a MemHost, path: &str) -> &'a [u8] {
    if path == "said" {
        return image.said();
    }
    image.file(path).unwrap_or(b"none")
}

/// What each pick leaves, with a comma behind it.
pub(crate) fn left(
    alloc: Global,
    host: &MemHost,
    call: u64,
    picks: u64,
    path: &str,
) -> Result<Vec<u8>, AllocError> {
    let mut text = Vec::new(alloc);
    for pick in 0..picks {
        let image = host.image(call, pick)?;
        text.extend_from_slice(found(&image, path))?;
        text.push(b',')?;
    }
    Ok(text)
}

fn agrees(alloc: Global, row: &Row) -> Result<(), Fail> {
    let (fails, file, steps, question) = cells(row);
    let mut host = memory_host(alloc, fails, file, "-")?;
    let mut answers = play(alloc, &mut host, steps)?;
    let (place, path) = question.rsplit_once(' ').unwrap_or((question, ""));
    let place = numbers(alloc, place)?;
    if let [call, picks] = place.as_slice() {
        answers.push(b' ')?;
        answers.extend_from_slice(left(alloc, &host, *call, *picks, path)?.as_slice())?;
    }
    row.agrees(answers.as_slice())
}

#[test]
fn a_crash_leaves_a_part(rt: HostRuntime) -> Result<(), Fail> {
    for row in rows(rt.alloc(), LEFT)?.iter() {
        agrees(rt.alloc(), row)?;
    }
    Ok(())
}

// ---- Images as hosts

#[test]
fn an_image_is_a_host_of_its_own(rt: HostRuntime) -> Result<(), Fail> {
    let alloc = rt.alloc();
    let mut host = memory_host(alloc, "0 1 2 3", "/m/f old", "xy")?;
    assert!(rt; host.say(b"abc") == Err(Failed));
    let mut image = host.image(9, 0)?;
    assert!(rt; (image.calls(), image.say_faults(), image.bytes_read()) == (0, 0, 0));
    // no input, and no call fails
    let answers = play(alloc, &mut image, "hear;add /m/f er;stat /m/f")?;
    assert_eq!(rt; answers.as_slice(), b";ok;file 5;".as_slice());
    assert!(rt; image.file("/m/f") == Some(b"older".as_slice()));
    assert!(rt; image.said() == b"a".as_slice());
    // a crash of the image
    assert_eq!(rt;
        left(alloc, &image, 9, 2, "/m/f")?.as_slice(),
        b"old,older,".as_slice()
    );
    Ok(())
}

// The next session on what a crash left.
fn next_session(host: &MemHost) -> Result<MemHost, AllocError> {
    let mut image = host.image(0, 0)?;
    image.set_input(b"ab", &[1], &[2])?;
    Ok(image)
}

#[test]
fn a_session_begins_on_what_a_crash_left(rt: HostRuntime) -> Result<(), Fail> {
    let mut host = memory_host(rt.alloc(), "-", "/m/f old", "-")?;
    assert!(rt; host.say(b"abc") == Ok(()));
    let mut next = next_session(&host)?;
    assert!(rt; next.said().is_empty());
    let answers = play(rt.alloc(), &mut next, "hear;hear;say d")?;
    assert_eq!(rt; answers.as_slice(), b"a;b;failed;".as_slice());
    assert!(rt; next.calls() == 3);
    assert!(rt; next.file("/m/f") == Some(b"old".as_slice()));
    Ok(())
}

// ---- A long run

// A file of 64 KiB, of which 50 places are written.
fn written(alloc: Global) -> Result<MemHost, AllocError> {
    let mut bytes = Vec::new(alloc);
    bytes.resize(65536, 0)?;
    let mut host = MemHost::new(alloc, b"", &[], &[])?;
    host.put_file("/m/f", bytes.as_slice())?;
    for place in 0..50 {
        let _ = write(&mut host, "/m/f", place, b"x");
    }
    Ok(host)
}

#[test]
fn a_long_run_has_many_images(rt: HostRuntime) -> Result<(), Fail> {
    let host = written(rt.alloc())?;
    assert!(rt; host.calls() == 100);
    for call in 0..100 {
        for pick in 0..64 {
            let image = host.image(call, pick)?;
            let first = match image.file("/m/f") {
                Some(bytes) if bytes.len() == 65536 => bytes[0],
                _ => 1,
            };
            assert!(rt; first == 0 || first == b'x' || first == 255 - b'x');
        }
    }
    Ok(())
}
