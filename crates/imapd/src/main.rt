//! The program `imapd ROOT`: serves the mailboxes of a directory on standard input and output.
//!
//! It makes the host, reads the clock and the words, and calls `imapd_core::imapd`, whose status is the process's. Why it
//! ended, where it wasn't as it should, is a line on standard error. What the files, the clock, the words and the streams
//! really are no proof tells: this crate is trusted to pass them on.
#![tactic(auto)]

ghost use Rattle.std.specs.Prelude.{◌≤◌};

use imapd_core::{Status, imapd};
use real_host::RealHost;
use std::process::ExitCode;
use std::time::{SystemTime, UNIX_EPOCH};
use std::{env, io};

/// The exit status where the words can't be read. No status of the top call has this number.
const NO_WORDS: u8 = 10;

fn main(rt: HostRuntime) -> ExitCode {
    let alloc = rt.alloc();
    let words = match words(&rt) {
        Ok(words) => words,
        Err(error) => {
            let _told = eprintln!(rt; "imapd: the words can't be read: {error}");
            return ExitCode::from(NO_WORDS);
        }
    };
    let moment = moment(&rt);
    let mut host = RealHost::new(rt);
    let status = imapd(alloc, words.as_slice(), &mut host, moment);
    // Where standard error takes no line, the status alone tells.
    let _told = tell(&rt, status, &host);
    ExitCode::from(status.number())
}

// Says why the session ended, unless it was the client that ended it.
fn tell(rt: &HostRuntime, status: Status, host: &RealHost<HostRuntime>) -> io::Result<()> {
    match status {
        Status::Done | Status::Cut => Ok(()),
        Status::Words => eprintln!(rt; "usage: imapd ROOT"),
        Status::Memory => eprintln!(rt; "imapd: no memory is left"),
        Status::Long => eprintln!(rt; "imapd: the client sent more than a session may have"),
        Status::HearFault | Status::SayFault | Status::FileFault => match host.last_fault() {
            Some(fault) => eprintln!(rt; "imapd: {fault}"),
            None => eprintln!(rt; "imapd: a call of the system failed"),
        },
    }
}

// The words behind the program's name.
fn words(rt: &HostRuntime) -> io::Result<Vec<String>> {
    let mut words = env::args(rt)?;
    let _program = words.next();
    Ok(words.collect(rt.alloc())?)
}

// The seconds since 1970, or 1 where the clock can't be read.
fn moment(rt: &HostRuntime) -> u32
    ensures { 1 ≤ result }
{
    match seconds(rt) {
        Some(seconds) if seconds >= 1 => seconds,
        _ => 1,
    }
}

fn seconds(rt: &HostRuntime) -> Option<u32> {
    let now = SystemTime::now(rt).ok()?;
    let since = now.duration_since(UNIX_EPOCH).ok()?;
    u32::try_from(since.as_secs()).ok()
}
