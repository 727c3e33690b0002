// Changes and readings of a store, as cells of a table have them.
use crate::calls::{
    Answer, PATH, add_word, append, expunge, expunge_none, not_open, opened, read_text, refused,
    set_flags,
};
use bare_host::BareHost;
use std::alloc::{AllocError, Global};
use std::test::Fail;
use store_trait::{Format, OpenFault, Store, StoreFault};

/// What stands before the first `|` of a cell, and what behind it.
pub(crate) fn cut(cell: &[u8]) -> (&[u8], &[u8]) {
    match cell.iter().position(|byte| *byte == b'|') {
        Some(at) => (
            cell.get(..at).unwrap_or(&[]),
            cell.get(at..).unwrap_or(&[]).get(1..).unwrap_or(&[]),
        ),
        None => (cell, &[]),
    }
}

/// A number in one byte, counted from `0` on: `9` is 9, and the bytes behind it go on with 10.
pub(crate) fn number(bytes: &[u8], at: usize) -> u8 {
    match bytes.get(at) {
        Some(byte) => byte.wrapping_sub(b'0'),
        None => 0,
    }
}

/// One change. `+` and a text appends it, `-` and a place removes the message there, `=`, a place, flag bits and keyword bits
/// sets them, and `!` and a name adds it to the keyword list.
pub(crate) fn step<S: Store<BareHost>>(
    alloc: Global,
    store: &mut S,
    host: &mut BareHost,
    call: &[u8],
) -> Answer {
    let rest = call.get(1..).unwrap_or(&[]);
    let place = usize::from(number(rest, 0));
    match call.first() {
        Some(b'+') => append(alloc, store, host, rest),
        Some(b'-') => expunge(store, host, place),
        Some(b'!') => add_word(alloc, store, host, rest),
        _ => {
            let bits = u16::from(number(rest, 1));
            set_flags(alloc, store, host, place, bits, u32::from(number(rest, 2)))
        }
    }
}

/// A host with this file where the mailbox of a test stands.
pub(crate) fn host_of(alloc: Global, file: &[u8]) -> Result<BareHost, AllocError> {
    let mut host = BareHost::new(alloc);
    host.put_file(PATH, file)?;
    Ok(host)
}

/// The mailbox that must be there.
pub(crate) fn open_store<S: Format<BareHost> + Drop>(
    alloc: Global,
    host: &mut BareHost,
) -> Result<S, Fail> {
    match opened(alloc, host) {
        Ok(store) => Ok(store),
        Err(fault) => Err(not_open(fault)),
    }
}

/// The changes of a cell, which have `;` between them.
pub(crate) fn run<S: Format<BareHost> + Drop>(
    alloc: Global,
    host: &mut BareHost,
    calls: &[u8],
) -> Result<(), Fail> {
    let mut store = open_store::<S>(alloc, host)?;
    for call in calls.split(|byte| *byte == b';') {
        if let Err(fault) = step(alloc, &mut store, host, call)? {
            return Err(refused(fault));
        }
    }
    Ok(())
}

// ---- Answers

/// Why a file can't be opened, as a table shows it.
pub(crate) fn shown_fault(alloc: Global, fault: OpenFault) -> Result<Vec<u8>, AllocError> {
    let shown = match fault {
        OpenFault::IllFormed(_, records) => format!(in alloc; "ill-formed after {records}")?,
        fault => format!(in alloc; "{fault}")?,
    };
    Vec::from_slice(alloc, shown.as_bytes())
}

/// What the one change of a cell answers.
pub(crate) fn answer<S: Format<BareHost> + Drop>(
    alloc: Global,
    host: &mut BareHost,
    call: &[u8],
) -> Result<Vec<u8>, Fail> {
    let mut store = open_store::<S>(alloc, host)?;
    let shown = match step(alloc, &mut store, host, call)? {
        Ok(()) => format!(in alloc; "done")?,
        Err(fault) => format!(in alloc; "{fault}")?,
    };
    Ok(Vec::from_slice(alloc, shown.as_bytes())?)
}

// ---- Texts

// Whether a text is read so from a byte on, in a piece of a width.
fn is_read_so<S: Store<BareHost>>(
    store: &mut S,
    host: &mut BareHost,
    place: usize,
    from: usize,
    width: usize,
    text: &[u8],
) -> Result<bool, Fail> {
    let mut buf = [0; 7];
    let part = buf.get_mut(..width).unwrap_or(&mut []);
    let count = read_text(store, host, place, from, part)?;
    let rest = text.get(from..).unwrap_or(&[]);
    Ok(count == rest.len().min(width) && buf.get(..count) == rest.get(..count))
}

/// Whether a text is read so from every byte on, in pieces of 1, 2 and 7 bytes.
pub(crate) fn is_text<S: Store<BareHost>>(
    store: &mut S,
    host: &mut BareHost,
    place: usize,
    text: &[u8],
) -> Result<bool, Fail> {
    for from in 0..text.len().saturating_add(1) {
        let one = is_read_so(store, host, place, from, 1, text)?;
        let two = is_read_so(store, host, place, from, 2, text)?;
        let seven = is_read_so(store, host, place, from, 7, text)?;
        if !(one && two && seven) {
            return Ok(false);
        }
    }
    Ok(true)
}

// ---- Calls of the host that fail

// How many calls of the host a change makes.
fn calls_of<S: Format<BareHost> + Drop>(
    alloc: Global,
    old: &[u8],
    call: &[u8],
) -> Result<u64, Fail> {
    let mut host = host_of(alloc, old)?;
    let mut store = open_store::<S>(alloc, &mut host)?;
    let before = host.calls();
    match step(alloc, &mut store, &mut host, call)? {
        Ok(()) => Ok(host.calls().saturating_sub(before)),
        Err(fault) => Err(refused(fault)),
    }
}

// The answer and the count of faults after a failed call, and that the store is broken from then on.
fn is_broken_by<S: Store<BareHost>>(
    store: &mut S,
    host: &mut BareHost,
    answer: Result<(), StoreFault>,
) -> bool {
    answer == Err(StoreFault::Failed)
        && host.file_faults() == 1
        && expunge_none(store, host) == Err(StoreFault::Broken)
}

// The call of this number fails.
fn fails_at<S: Format<BareHost> + Drop>(
    alloc: Global,
    old: &[u8],
    call: &[u8],
    new: &[u8],
    number: u64,
) -> Result<(), Fail> {
    let mut host = host_of(alloc, old)?;
    let mut store = open_store::<S>(alloc, &mut host)?;
    host.fail_call(host.calls().saturating_add(number))?;
    let answer = step(alloc, &mut store, &mut host, call)?;
    if !is_broken_by(&mut store, &mut host, answer) {
        return Err(Fail::new(format_args!("call {number} is answered otherwise")));
    }
    let file = host.file(PATH);
    if file == Some(old) || file == Some(new) {
        return Ok(());
    }
    Err(Fail::new(format_args!("call {number} leaves another file")))
}

/// Each call that a change makes fails once: then the old file stands or the new one.
pub(crate) fn fails_once<S: Format<BareHost> + Drop>(
    alloc: Global,
    old: &[u8],
    call: &[u8],
    new: &[u8],
) -> Result<(), Fail> {
    let count = calls_of::<S>(alloc, old, call)?;
    if count == 0 {
        return Err(Fail::new("a change without a call"));
    }
    for number in 0..count {
        fails_at::<S>(alloc, old, call, new, number)?;
    }
    Ok(())
}

// An opening of which the call of this number fails.
fn opening_fails_at<S: Format<BareHost> + Drop>(
    alloc: Global,
    file: &[u8],
    number: u64,
) -> Result<(), Fail> {
    let mut host = host_of(alloc, file)?;
    host.fail_call(number)?;
    match opened::<S>(alloc, &mut host) {
        Err(OpenFault::Failed) => Ok(()),
        _ => Err(Fail::new(format_args!("call {number} is answered otherwise"))),
    }
}

/// Each call that an opening makes fails once.
pub(crate) fn opening_fails<S: Format<BareHost> + Drop>(
    alloc: Global,
    file: &[u8],
) -> Result<(), Fail> {
    let mut host = host_of(alloc, file)?;
    open_store::<S>(alloc, &mut host)?;
    for number in 0..host.calls() {
        opening_fails_at::<S>(alloc, file, number)?;
    }
    Ok(())
}
