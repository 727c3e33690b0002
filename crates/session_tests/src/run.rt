//! One run of the top call.
use bare_host::BareHost;
use imapd_core::{Status, imapd};
use std::alloc::{AllocError, Global};
use test_tables::Row;

/// What is said first.
pub const GREETING: &[u8] = b"* PREAUTH [CAPABILITY IMAP4rev1] ready\r\n";

// An INBOX with a message that was read, one that is flagged and recent, and one that is deleted.
const MAIL: &[u8] = b"From a@b Mon Apr  1 12:00:00 2024
Subject: one
Status: RO

first
From c@d Tue Apr  2 08:00:00 2024
X-Status: F
Subject: two

second
From e@f Wed Apr  3 09:30:00 2024
Status: O
X-Status: D
Subject: three

third
";

/// A host with a disk: `root` is an empty `/m`, `dir` has a directory at INBOX, `file TEXT` has this INBOX, and `mail` has three messages
/// there, an empty file at `team/work` and a directory `team/old`; so have `selected` and `examined`, and `blocked`,
/// with a directory where INBOX is written anew.
pub fn host(alloc: Global, disk: &str) -> Result<BareHost, AllocError> {
    let mut host = BareHost::new(alloc);
    match disk.strip_prefix("file ") {
        Some(text) => host.put_file("/m/INBOX", text.as_bytes())?,
        None if disk == "dir" => host.put_dir("/m/INBOX")?,
        None if disk == "root" => host.put_dir("/m")?,
        None if disk == "blocked" => put_blocked(&mut host)?,
        None => put_mail(&mut host)?,
    }
    Ok(host)
}

fn put_mail(host: &mut BareHost) -> Result<(), AllocError> {
    host.put_file("/m/INBOX", MAIL)?;
    host.put_file("/m/team/work", b"")?;
    host.put_dir("/m/team/old")
}

fn put_blocked(host: &mut BareHost) -> Result<(), AllocError> {
    put_mail(host)?;
    host.put_dir("/m/.newINBOX")
}

/// Adds an input, in one piece or with a piece for each byte.
pub fn add_input(host: &mut BareHost, input: &[u8], bytewise: bool) -> Result<(), AllocError> {
    if bytewise {
        return host.add_single_bytes(input);
    }
    host.add_input(input)
}

/// Runs the top call with these words.
pub fn run_words(alloc: Global, host: &mut BareHost, words: &[String]) -> Status {
    imapd(alloc, words, host, 1000)
}

/// Runs it over `/m`.
pub fn run(alloc: Global, host: &mut BareHost) -> Result<Status, AllocError> {
    let mut words = Vec::new(alloc);
    words.push(String::from_str(alloc, "/m")?)?;
    Ok(run_words(alloc, host, words.as_slice()))
}

/// The name of a status.
pub fn status_name(status: Status) -> &'static str {
    match status {
        Status::Done => "Done",
        Status::Cut => "Cut",
        Status::Words => "Words",
        Status::HearFault => "HearFault",
        Status::SayFault => "SayFault",
        Status::Memory => "Memory",
        Status::FileFault => "FileFault",
        Status::Long => "Long",
    }
}

// ---- Rows

// With these disks a command stands before the input, and its reply, which ends so, isn't shown.
fn first_command(disk: &str) -> (&'static [u8], &'static str) {
    match disk {
        "selected" => (b"s SELECT INBOX\r\n", " SELECT done\r\n"),
        "examined" => (b"s EXAMINE INBOX\r\n", " EXAMINE done\r\n"),
        _ => (b"", ""),
    }
}

/// What a row `DISK | INPUT` gives. A semicolon of the input stands for a line end.
pub fn answered(alloc: Global, row: &Row, bytewise: bool) -> Result<Vec<u8>, AllocError> {
    let case = str::from_utf8(row.text.as_slice()).unwrap_or("");
    let (disk, input) = case.split_once(" | ").unwrap_or((case, ""));
    given(alloc, disk, input, bytewise)
}

/// What an input over a disk gives.
pub fn given(
    alloc: Global,
    disk: &str,
    input: &str,
    bytewise: bool,
) -> Result<Vec<u8>, AllocError> {
    let (first, reply_end) = first_command(disk);
    let mut bytes = Vec::from_slice(alloc, first)?;
    add_lines(&mut bytes, input)?;
    let was = host(alloc, disk)?;
    let mut host = host(alloc, disk)?;
    add_input(&mut host, bytes.as_slice(), bytewise)?;
    let status = run(alloc, &mut host)?;
    outcome(alloc, &was, &host, status, reply_end)
}

/// The status where it isn't Done, what was said behind the greeting and this end of a reply, with a semicolon for each line end, and what stands otherwise than before:
/// `+` before a path that is new, `-` before one that is gone, and `*` before a file with other bytes.
pub fn outcome(
    alloc: Global,
    was: &BareHost,
    is: &BareHost,
    status: Status,
    reply_end: &str,
) -> Result<Vec<u8>, AllocError> {
    let mut shown = Vec::new(alloc);
    show_status(&mut shown, status)?;
    show_said(&mut shown, is.said(), reply_end)?;
    show_changes(&mut shown, was, is)?;
    Ok(shown)
}

// Adds the bytes with a line end for each semicolon.
fn add_lines(bytes: &mut Vec<u8>, input: &str) -> Result<(), AllocError> {
    for byte in input.as_bytes() {
        if *byte == b';' {
            bytes.extend_from_slice(b"\r\n")?;
        } else {
            bytes.push(*byte)?;
        }
    }
    Ok(())
}

fn show_status(shown: &mut Vec<u8>, status: Status) -> Result<(), AllocError> {
    if status == Status::Done {
        return Ok(());
    }
    shown.extend_from_slice(status_name(status).as_bytes())?;
    shown.extend_from_slice(b": ")
}

fn show_said(shown: &mut Vec<u8>, said: &[u8], reply_end: &str) -> Result<(), AllocError> {
    let Some(said) = said.strip_prefix(GREETING) else {
        return shown.extend_from_slice(if said.is_empty() {
            b"nothing"
        } else {
            b"no greeting"
        });
    };
    for byte in behind(said, reply_end) {
        match byte {
            b'\r' => {}
            b'\n' => shown.push(b';')?,
            byte => shown.push(*byte)?,
        }
    }
    Ok(())
}

// What was said behind this end of a reply, where it was said.
fn behind<'a>(said: &'a [u8], reply_end: &str) -> &'a [u8] {
    let text = str::from_utf8(said).unwrap_or("");
    match text.split_once(reply_end) {
        Some((_, rest)) => rest.as_bytes(),
        None => said,
    }
}

fn show_changes(shown: &mut Vec<u8>, was: &BareHost, is: &BareHost) -> Result<(), AllocError> {
    let before = was.paths()?;
    let after = is.paths()?;
    show_missing(shown, b" -", before.as_str(), after.as_str())?;
    show_missing(shown, b" +", after.as_str(), before.as_str())?;
    for path in after.as_str().split('\n') {
        if let (Some(old), Some(new)) = (was.file(path), is.file(path))
            && old != new
        {
            show_path(shown, b" *", path)?;
        }
    }
    Ok(())
}

// The paths of a list that aren't in another.
fn show_missing(
    shown: &mut Vec<u8>,
    sign: &[u8],
    paths: &str,
    others: &str,
) -> Result<(), AllocError> {
    for path in paths.split('\n') {
        if !others.split('\n').any(|other| other == path) {
            show_path(shown, sign, path)?;
        }
    }
    Ok(())
}

fn show_path(shown: &mut Vec<u8>, sign: &[u8], path: &str) -> Result<(), AllocError> {
    shown.extend_from_slice(sign)?;
    shown.extend_from_slice(path.strip_prefix("/m/").unwrap_or(path).as_bytes())
}
