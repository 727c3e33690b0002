//! The longest line, each run also with a byte for each read of the input.
use crate::run::{GREETING, add_input, host, run};
use imapd_core::Status;
use std::alloc::{AllocError, Global};
use std::process::Abort;

// The session ends well, and this is said behind the greeting.
fn says(
    rt: &impl Abort,
    alloc: Global,
    input: &[u8],
    said: &[u8],
    bytewise: bool,
) -> Result<(), AllocError> {
    let mut host = host(alloc, "root")?;
    add_input(&mut host, input, bytewise)?;
    let status = run(alloc, &mut host)?;
    assert!(rt; status == Status::Done);
    assert!(rt; host.said().strip_prefix(GREETING) == Some(said));
    Ok(())
}

// A line of so many bytes, and another.
fn answers(rt: &impl Abort, alloc: Global, length: usize, said: &[u8]) -> Result<(), AllocError> {
    let mut input = Vec::from_slice(alloc, b"a ")?;
    input.resize(length, b'x')?;
    input.extend_from_slice(b"\r\nb NOOP\r\n")?;
    says(rt, alloc, input.as_slice(), said, false)?;
    says(rt, alloc, input.as_slice(), said, true)
}

#[test]
fn a_line_has_65536_bytes(rt: HostRuntime) -> Result<(), AllocError> {
    answers(
        &rt,
        rt.alloc(),
        65_536,
        b"a BAD unknown command\r\nb OK NOOP done\r\n",
    )?;
    answers(
        &rt,
        rt.alloc(),
        65_537,
        b"a BAD line too long\r\nb OK NOOP done\r\n",
    )?;
    answers(
        &rt,
        rt.alloc(),
        200_000,
        b"a BAD line too long\r\nb OK NOOP done\r\n",
    )
}
