//! Each call of the host failing once.
use crate::run::{host, run, status_name};
use bare_host::BareHost;
use imapd_core::Status;
use std::alloc::{AllocError, Global};
use std::process::Abort;
use std::test::Fail;

// A change of each kind.
const INPUT: &[u8] =
    b"a SELECT INBOX\r\nb STORE 1:2 +FLAGS (\\Deleted Work)\r\nc FETCH 1:3 (UID FLAGS)\r\nd EXPUNGE\r\n\
k APPEND INBOX (new) {2}\r\nhi\r\nl APPEND team/work {2}\r\nho\r\nm COPY 1:2 team/work\r\n\
e CREATE x/y\r\nf RENAME x z\r\ng SUBSCRIBE z/y\r\nh UNSUBSCRIBE z/y\r\ni DELETE z/y\r\nj LIST \"\" *\r\n";

// The input comes in three pieces, the second a byte inside a line.
fn waiting(alloc: Global, disk: &str) -> Result<BareHost, AllocError> {
    let mut host = host(alloc, disk)?;
    let (first, rest) = INPUT.split_at_checked(30).unwrap_or((INPUT, &[]));
    let (second, third) = rest.split_at_checked(1).unwrap_or((rest, &[]));
    host.add_input(first)?;
    host.add_input(second)?;
    host.add_input(third)?;
    Ok(host)
}

// The status is that of the call that failed, its count alone rose, and what was said begins what is said without a fault.
#[test]
fn a_failed_call_ends_the_session(rt: HostRuntime) -> Result<(), Fail> {
    fails_once(&rt, rt.alloc(), "root")?;
    fails_once(&rt, rt.alloc(), "mail")
}

fn fails_once(rt: &impl Abort, alloc: Global, disk: &str) -> Result<(), Fail> {
    let mut whole = waiting(alloc, disk)?;
    let status = run(alloc, &mut whole)?;
    assert!(rt; status == Status::Done);
    assert!(rt; fault_of(&whole) == "none");
    for number in 0..whole.calls() {
        fails(rt, alloc, disk, number, whole.said())?;
    }
    Ok(())
}

fn fails(
    rt: &impl Abort,
    alloc: Global,
    disk: &str,
    number: u64,
    said: &[u8],
) -> Result<(), AllocError> {
    let mut host = waiting(alloc, disk)?;
    host.fail_call(number)?;
    let status = run(alloc, &mut host)?;
    assert!(rt; status_name(status) == fault_of(&host), "call {number}");
    assert!(rt; said.starts_with(host.said()), "call {number}");
    assert!(rt;
        host.calls().checked_sub(1) == Some(number),
        "call {number}"
    );
    Ok(())
}

// The status of the one count that is 1.
fn fault_of(host: &BareHost) -> &'static str {
    match (host.file_faults(), host.hear_faults(), host.say_faults()) {
        (1, 0, 0) => "FileFault",
        (0, 1, 0) => "HearFault",
        (0, 0, 1) => "SayFault",
        _ => "none",
    }
}
