//! The answers of each call, on both hosts in memory.
use crate::steps::play;
use bare_host::BareHost;
use file_model::{Failed, Files, Host};
use mem_host::MemHost;
use std::alloc::{AllocError, Global};
use std::test::Fail;
use test_tables::{Row, rows};

// The numbers of calls that fail, a file that stands, the pieces of the input and steps; the answers, and then the numbers of
// calls, of bytes read and of failed calls on files, input and output, and what was said.
const CALLS: &str = r#"
- | /mail/inbox abc | - | read /mail/inbox;stat /mail/inbox;stat /mail;stat /mail/in;stat  => abc-;file 3;dir;nothing;nothing; 6 3 0 0 0 \e
- | /mail/inbox abc | - | make /mail/sent;stat /mail/sent;read /mail/inbox;stat /mail => ok;file 0;abc-;dir; 7 3 0 0 0 \e
- | - | a/bc/defg | hear;hear;hear;hear => a;bc;defg;; 4 0 0 0 0 \e
1 3 5 | - | ab | stat a;stat a;say hi;say  there;say !;hear;hear => nothing;failed;ok;failed;ok;failed;ab; 7 0 1 1 1 hi th!
# each call succeeds
- | /m/f old | - | makedir;list /m;make /m/d/a;write /m/d/a abcd;cut /m/d/a;read /m/d/a => ok;d/f/;ok;ok;ok;a---; 14 1 0 0 0 \e
- | /m/f old | - | sync /m/f;syncdir /m;move /m/f /m/g;list /m;remove /m/g;list /m;stat /m/g => ok;ok;ok;g/;ok;;nothing; 15 0 0 0 0 \e
- | /m/f old | - | makedir;removedir /m/d;stat /m/d;list /m => ok;ok;nothing;f/; 9 0 0 0 0 \e
- | /m/a/f old | - | movedir;stat /m/a;read /m/b/f;list /m;list /m/b => ok;nothing;old-;b/;f/; 11 3 0 0 0 \e
- | /m/f old | - | make /m/g;move /m/f /m/g;read /m/g;stat /m/f;add /m/g er;stat /m/g => ok;ok;old-;nothing;ok;file 5; 13 3 0 0 0 \e
"#;

fn number(text: &str) -> u64 {
    let mut found = 0u64;
    for byte in text.as_bytes() {
        found = found
            .wrapping_mul(10)
            .wrapping_add(u64::from(byte.wrapping_sub(b'0')));
    }
    found
}

/// The numbers of a cell, which is a dash where it has none.
pub(crate) fn numbers(alloc: Global, cell: &str) -> Result<Vec<u64>, AllocError> {
    let mut found = Vec::new(alloc);
    for word in cell.split(' ') {
        if word != "-" {
            found.push(number(word))?;
        }
    }
    Ok(found)
}

/// A host with failing calls, a file and the pieces of an input.
pub(crate) fn memory_host(
    alloc: Global,
    fails: &str,
    file: &str,
    pieces: &str,
) -> Result<MemHost, AllocError> {
    let mut input = Vec::new(alloc);
    let mut cuts = Vec::new(alloc);
    for piece in pieces.split('/') {
        if piece != "-" {
            input.extend_from_slice(piece.as_bytes())?;
            cuts.push(piece.len())?;
        }
    }
    let fails = numbers(alloc, fails)?;
    let mut host = MemHost::new(alloc, input.as_slice(), cuts.as_slice(), fails.as_slice())?;
    if let Some((path, bytes)) = file.split_once(' ') {
        host.put_file(path, bytes.as_bytes())?;
    }
    Ok(host)
}

fn bare_host(alloc: Global, fails: &str, file: &str, pieces: &str) -> Result<BareHost, AllocError> {
    let mut host = BareHost::new(alloc);
    for piece in pieces.split('/') {
        if piece != "-" {
            host.add_input(piece.as_bytes())?;
        }
    }
    for number in numbers(alloc, fails)?.iter() {
        host.fail_call(*number)?;
    }
    if let Some((path, bytes)) = file.split_once(' ') {
        host.put_file(path, bytes.as_bytes())?;
    }
    Ok(host)
}

// The answers, the counts and what was said, as the cell of a row has them.
fn shown(
    alloc: Global,
    answers: &[u8],
    counts: (u64, u64, u64, u64, u64),
    said: &[u8],
) -> Result<Vec<u8>, AllocError> {
    let (calls, read, file, hear, say) = counts;
    let told = format!(in alloc; " {calls} {read} {file} {hear} {say} ")?;
    let mut text = Vec::from_slice(alloc, answers)?;
    text.extend_from_slice(told.as_bytes())?;
    text.extend_from_slice(said)?;
    Ok(text)
}

// The cells of a row before its arrow.
pub(crate) fn cells(row: &Row) -> (&str, &str, &str, &str) {
    let text = str::from_utf8(row.text.as_slice()).unwrap_or("");
    let (first, rest) = text.split_once(" | ").unwrap_or((text, ""));
    let (second, rest) = rest.split_once(" | ").unwrap_or((rest, ""));
    let (third, fourth) = rest.split_once(" | ").unwrap_or((rest, ""));
    (first, second, third, fourth)
}

fn on_memory_host(alloc: Global, row: &Row) -> Result<(), Fail> {
    let (fails, file, input, steps) = cells(row);
    let mut host = memory_host(alloc, fails, file, input)?;
    let answers = play(alloc, &mut host, steps)?;
    let counts = (
        host.calls(),
        host.bytes_read(),
        host.file_faults(),
        host.hear_faults(),
        host.say_faults(),
    );
    row.agrees(shown(alloc, answers.as_slice(), counts, host.said())?.as_slice())
}

fn on_bare_host(alloc: Global, row: &Row) -> Result<(), Fail> {
    let (fails, file, input, steps) = cells(row);
    let mut host = bare_host(alloc, fails, file, input)?;
    let answers = play(alloc, &mut host, steps)?;
    let counts = (
        host.calls(),
        host.bytes_read(),
        host.file_faults(),
        host.hear_faults(),
        host.say_faults(),
    );
    row.agrees(shown(alloc, answers.as_slice(), counts, host.said())?.as_slice())
}

#[test]
fn both_hosts_answer_alike(rt: HostRuntime) -> Result<(), Fail> {
    for row in rows(rt.alloc(), CALLS)?.iter() {
        on_memory_host(rt.alloc(), row)?;
        on_bare_host(rt.alloc(), row)?;
    }
    Ok(())
}

// ---- A bare host alone

#[test]
fn a_bare_host_refuses_what_does_not_fit(rt: HostRuntime) -> Result<(), Fail> {
    let mut host = BareHost::new(rt.alloc());
    host.put_file("/m/f", b"old")?;
    let mut buf = [0; 4];
    assert!(rt; host.read_at("/m", 0, &mut buf) == Err(Failed));
    assert!(rt; host.read_at("/m/f", 4, &mut buf) == Err(Failed));
    assert!(rt; host.names(rt.alloc(), "/m/f").is_err());
    assert!(rt; host.make("/m/f") == Err(Failed));
    assert!(rt; host.make("/n/f") == Err(Failed));
    assert!(rt; host.make_dir("/m") == Err(Failed));
    assert!(rt; host.write_at("/m/f", 4, b"x") == Err(Failed));
    assert!(rt; host.cut("/m/f", 4) == Err(Failed));
    assert!(rt; host.sync("/m") == Err(Failed));
    assert!(rt; host.sync_dir("/m/f") == Err(Failed));
    assert!(rt; host.rename("/m/f", "/m") == Err(Failed));
    assert!(rt; host.rename("/m", "/m/g") == Err(Failed));
    assert!(rt; host.remove("/m") == Err(Failed));
    assert!(rt; host.remove_dir("/m") == Err(Failed));
    assert!(rt; (host.calls(), host.file_faults()) == (14, 14));
    assert!(rt; host.paths()?.as_str() == "/m/\n/m/f\n");
    assert!(rt; host.file("/m/f") == Some(b"old".as_slice()));
    Ok(())
}

#[test]
fn a_bare_host_goes_on_after_a_session(rt: HostRuntime) -> Result<(), Fail> {
    let mut host = BareHost::new(rt.alloc());
    host.put_file("/m/f", b"old")?;
    host.add_input(b"abc")?;
    host.fail_call(0)?;
    let mut buf = [0; 4];
    assert!(rt; host.say(b"hello") == Err(Failed));
    assert!(rt; host.hear(&mut buf) == Ok(3));
    host.restart();
    assert!(rt; (host.calls(), host.say_faults(), host.said().len()) == (0, 0, 0));
    host.add_single_bytes(b"xy")?;
    assert!(rt; host.hear(&mut buf) == Ok(1));
    assert!(rt; host.hear(&mut buf) == Ok(1));
    assert!(rt; host.hear(&mut buf) == Ok(0));
    assert!(rt; host.file("/m/f") == Some(b"old".as_slice()));
    Ok(())
}

// A cut of no bytes counts as one byte.
#[test]
fn input_comes_in_cuts(rt: HostRuntime) -> Result<(), Fail> {
    let mut host = MemHost::new(rt.alloc(), b"abcdefg", &[0, 2], &[])?;
    assert_eq!(rt;
        play(rt.alloc(), &mut host, "hear;hear;hear;hear")?.as_slice(),
        b"a;bc;defg;;".as_slice()
    );
    Ok(())
}
