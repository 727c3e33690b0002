//! A replaced file and the reply that follows it, with each call failing once.
ghost use Rattle.std.specs.Prelude.{◌≡◌, codes, IfOk, true};
ghost use Rattle.file_model.specs.Disk.{seen};
ghost use Rattle.file_model.specs.Histories.{Now};
ghost use Rattle.file_model.specs.Images.{is_directory};
ghost use Rattle.file_model.specs.Kept.{NonePending};
ghost use Rattle.file_model.specs.Kinds.{IsTarget};
ghost use Rattle.mem_host.specs.State.{history_of};

use crate::acknowledged::replace_and_say;
use crate::calls::numbers;
use crate::crashes::left;
use bare_host::BareHost;
use file_model::{Fault, Host};
use mem_host::MemHost;
use std::alloc::{AllocError, Global};
use std::test::Fail;
use test_tables::{Row, rows};

fn with_old(alloc: Global, failing: u64) -> Result<MemHost, AllocError>
    ensures room { IfOk result (λ host. Now (history_of host) (λ w. is_directory (seen w.disk) (codes "/mail") ≡ true)) }
    ensures target { IfOk result (λ host. Now (history_of host) (λ w. IsTarget (seen w.disk) (codes "/mail/inbox"))) }
    ensures durable { IfOk result (λ host. Now (history_of host) (λ w. NonePending w.disk)) }
{
    let mut host = MemHost::new(alloc, b"", &[], &[failing])?;
    host.put_file("/mail/inbox", b"old")?;
    Ok(host)
}

// A directory stands at the path where the new content is written first.
fn with_obstacle(alloc: Global) -> Result<MemHost, AllocError>
    ensures room { IfOk result (λ host. Now (history_of host) (λ w. is_directory (seen w.disk) (codes "/mail") ≡ true)) }
    ensures target { IfOk result (λ host. Now (history_of host) (λ w. IsTarget (seen w.disk) (codes "/mail/inbox"))) }
    ensures durable { IfOk result (λ host. Now (history_of host) (λ w. NonePending w.disk)) }
{
    let mut host = MemHost::new(alloc, b"", &[], &[])?;
    host.put_dir("/mail/.newinbox")?;
    host.put_file("/mail/inbox", b"old")?;
    Ok(host)
}

// A directory stands at a name that files of programs have.
fn with_reserved(alloc: Global) -> Result<MemHost, AllocError>
    ensures room { IfOk result (λ host. Now (history_of host) (λ w. is_directory (seen w.disk) (codes "/mail") ≡ true)) }
    ensures target { IfOk result (λ host. Now (history_of host) (λ w. IsTarget (seen w.disk) (codes "/mail/.mixindex"))) }
    ensures durable { IfOk result (λ host. Now (history_of host) (λ w. NonePending w.disk)) }
{
    let mut host = MemHost::new(alloc, b"", &[], &[])?;
    host.put_dir("/mail/.mixindex")?;
    Ok(host)
}

// Replaces the file, and says a reply.
fn replace<H: Host>(alloc: Global, host: &mut H) -> Result<(), Fault>
    requires room { Now (H.history host.old) (λ w. is_directory (seen w.disk) (codes "/mail") ≡ true) }
    requires target { Now (H.history host.old) (λ w. IsTarget (seen w.disk) (codes "/mail/inbox")) }
    requires durable { Now (H.history host.old) (λ w. NonePending w.disk) }
{
    replace_and_say(alloc, host, "/mail/inbox", b"new!", b"ok\r\n")
}

// The number of the call that fails; the answer, the content, and how many bytes of the reply were said.
const RUNS: &str = r#"
# the look at the temporary path; making, writing and syncing the file there
0 => failed old 0
1 => failed old 0
2 => failed old 0
3 => failed old 0
# the rename, and the sync of the directory
4 => failed old 0
5 => failed new! 0
# the reply, and no call
6 => failed new! 2
7 => ok new! 4
8 => ok new! 4
"#;

fn answer_name(answer: Result<(), Fault>) -> &'static str {
    match answer {
        Ok(()) => "ok",
        Err(Fault::Failed) => "failed",
        Err(Fault::Memory) => "memory",
    }
}

fn ran(alloc: Global, row: &Row) -> Result<(), Fail> {
    let mut host = BareHost::new(alloc);
    host.put_file("/mail/inbox", b"old")?;
    for number in numbers(alloc, str::from_utf8(row.text.as_slice()).unwrap_or("-"))?.iter() {
        host.fail_call(*number)?;
    }
    let answer = answer_name(replace(alloc, &mut host));
    let content = str::from_utf8(host.file("/mail/inbox").unwrap_or(b"none")).unwrap_or("odd");
    let said = host.said().len();
    let found = format!(in alloc; "{answer} {content} {said}")?;
    row.agrees(found.as_bytes())
}

#[test]
fn a_reply_follows_the_new_content(rt: HostRuntime) -> Result<(), Fail> {
    for row in rows(rt.alloc(), RUNS)?.iter() {
        ran(rt.alloc(), row)?;
    }
    Ok(())
}

// ---- What a crash leaves

// The number of the call that fails; the answer, how many calls on files failed, and what the images of the calls 0 to 6 have and
// those after all calls: the old content alone, the new one alone, or either.
const REPLACED: &str = r#"
9 => ok 0 OOOOEENN
# the sync of the directory fails, and the rename stays pending
5 => failed 1 OOOOEEEE
# the rename fails, and the directory isn't synced
4 => failed 1 OOOOEOOO
# the sync of the new file fails
3 => failed 1 OOOOOOOO
"#;

// Which contents 64 picks leave: the old one, the new one, either, or another. A byte of the reply is said only where the new
// content stands.
fn contents(host: &MemHost, call: u64) -> Result<u8, AllocError> {
    let (mut old, mut new, mut other) = (false, false, false);
    for pick in 0..64 {
        let image = host.image(call, pick)?;
        match image.file("/mail/inbox") {
            Some(b"new!") => new = true,
            Some(b"old") if image.said().is_empty() => old = true,
            _ => other = true,
        }
    }
    Ok(match (old, new, other) {
        (true, false, false) => b'O',
        (false, true, false) => b'N',
        (true, true, false) => b'E',
        _ => b'X',
    })
}

fn replaced(alloc: Global, row: &Row) -> Result<(), Fail> {
    let text = str::from_utf8(row.text.as_slice()).unwrap_or("-");
    let fails = numbers(alloc, text)?;
    let mut host = with_old(alloc, fails.first().copied().unwrap_or(9))?;
    let answer = answer_name(replace(alloc, &mut host));
    let faults = host.file_faults();
    let mut found = Vec::new(alloc);
    found.extend_from_slice(format!(in alloc; "{answer} {faults} ")?.as_bytes())?;
    for call in 0..7 {
        found.push(contents(&host, call)?)?;
    }
    found.push(contents(&host, 99)?)?;
    row.agrees(found.as_slice())
}

#[test]
fn a_crash_leaves_the_old_file_or_the_new_one(rt: HostRuntime) -> Result<(), Fail> {
    for row in rows(rt.alloc(), REPLACED)?.iter() {
        replaced(rt.alloc(), row)?;
    }
    Ok(())
}

// What the picks leave of the temporary file in the call that writes it: nothing, all, its first half, or all with another byte.
#[test]
fn a_new_file_is_written_in_part(rt: HostRuntime) -> Result<(), Fail> {
    let mut host = with_old(rt.alloc(), 9)?;
    let _ = replace(rt.alloc(), &mut host);
    let found = left(rt.alloc(), &host, 2, 8, "/mail/.newinbox")?;
    assert_eq!(rt;
        found.as_slice(),
        b"none,,none,new!,none,ne,none,\x91ew!,".as_slice()
    );
    Ok(())
}

// ---- A directory in the way

// A run in which nothing is replaced: one call failed, and nothing was said.
fn is_refused(host: &MemHost, answer: Result<(), Fault>) -> bool {
    answer == Err(Fault::Failed) && host.file_faults() == 1 && host.said().is_empty()
}

// Whether each image of each call has these bytes at a path.
fn images_have(host: &MemHost, path: &str, bytes: Option<&[u8]>) -> Result<bool, AllocError> {
    for call in 0..8 {
        for pick in 0..16 {
            let image = host.image(call, pick)?;
            if image.file(path) != bytes {
                return Ok(false);
            }
        }
    }
    Ok(true)
}

fn obstructed(alloc: Global) -> Result<bool, AllocError> {
    let mut host = with_obstacle(alloc)?;
    let answer = replace(alloc, &mut host);
    Ok(
        is_refused(&host, answer)
            && host.file("/mail/inbox") == Some(b"old".as_slice())
            && images_have(&host, "/mail/inbox", Some(b"old"))?
            && images_have(&host, "/mail/.newinbox", None)?,
    )
}

fn reserved(alloc: Global) -> Result<bool, AllocError> {
    let mut host = with_reserved(alloc)?;
    let answer = replace_and_say(alloc, &mut host, "/mail/.mixindex", b"new!", b"ok\r\n");
    Ok(
        is_refused(&host, answer)
            && host.file("/mail/.mixindex").is_none()
            && images_have(&host, "/mail/.mixindex", None)?,
    )
}

#[test]
fn a_directory_in_the_way_stays(rt: HostRuntime) -> Result<(), Fail> {
    assert!(rt; obstructed(rt.alloc())?);
    assert!(rt; reserved(rt.alloc())?);
    Ok(())
}
