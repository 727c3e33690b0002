// The bytes of a file, and what a crash leaves of them.
ghost use Rattle.std.specs.Prelude.{◌≡◌, ◌<◌, ◌%◌, ◌/◌, List, ℕ, [], IfOk, OnOk};
ghost use Rattle.mem_host.specs.Crashes.{filled, laid, marred, part_of_write, left_of_edit, edited, content_left};
ghost use Rattle.mem_host.specs.Drafts.{edit_of, edits_of};

use crate::contents::write_bytes;
use std::alloc::{AllocError, Global};

/// A change of a file's bytes that no sync made durable.
#[derive(Clone, Copy, Drop)]
pub(crate) enum Edit<'a> {
    Wrote(u64, &'a [u8]),
    Shortened(u64),
}

/// A file as its last sync left it, and the edits since, the oldest first.
#[derive(Drop)]
pub(crate) struct Draft<'a> {
    pub(crate) durable: Vec<u8>,
    pub(crate) edits: Vec<Edit<'a>>,
}

// Bytes at a place, with zeros up to it where the content ends before.
fn lay(content: &mut Vec<u8>, place: usize, bytes: &[u8]) -> Result<(), AllocError>
    ensures { OnOk result (content.new.items ≡ laid place bytes.now content.old.items) }
{
    if content.len() < place {
        content.resize(place, 0)?;
    }
    write_bytes(content, place, bytes)
}

// The bytes, of which the first is another.
fn marred(alloc: Global, bytes: &[u8]) -> Result<Vec<u8>, AllocError>
    ensures { IfOk result (λ other. other.items ≡ marred bytes.now) }
{
    let mut other = Vec::from_slice(alloc, bytes)?;
    if let Some(first) = other.first_mut() {
        *first = 255 - *first;
    }
    Ok(other)
}

fn leave_write(
    alloc: Global,
    content: &mut Vec<u8>,
    place: usize,
    bytes: &[u8],
    digit: u64,
) -> Result<(), AllocError>
    requires { 0 < digit }
    ensures { OnOk result (content.new.items ≡ laid place (part_of_write digit bytes.now) content.old.items) }
{
    if digit == 1 {
        lay(content, place, bytes)
    } else if digit == 2 {
        lay(content, place, &bytes[..bytes.len() / 2])
    } else {
        lay(content, place, marred(alloc, bytes)?.as_slice())
    }
}

// Leaves of an edit what a digit tells.
fn leave_edit(
    alloc: Global,
    content: &mut Vec<u8>,
    edit: Edit<'_>,
    digit: u64,
) -> Result<(), AllocError>
    ensures { OnOk result (content.new.items ≡ left_of_edit digit (edit_of edit.entry) content.old.items) }
{
    match edit {
        Edit::Wrote(place, bytes) if digit > 0 => {
            leave_write(alloc, content, place as usize, bytes, digit)
        }
        Edit::Wrote(_, _) => Ok(()),
        Edit::Shortened(length) => {
            if digit % 2 == 1 {
                content.truncate(length as usize);
            }
            Ok(())
        }
    }
}

/// The content that a pick leaves, and what is left of the pick.
pub(crate) fn leave_content(
    alloc: Global,
    draft: &Draft<'_>,
    pick: u64,
) -> Result<(Vec<u8>, u64), AllocError>
    ensures { IfOk result (λ left. (left.0.items, left.1) ≡ content_left (edits_of draft.now.edits.items) draft.now.durable.items pick) }
{
    let mut content = Vec::from_slice(alloc, draft.durable.as_slice())?;
    let mut left = pick;
    for edit in draft.edits.iter() {
        leave_edit(alloc, &mut content, *edit, left % 4)?;
        left /= 4;
    }
    Ok((content, left))
}

// Does the edits of a file, the oldest first.
fn settle(alloc: Global, content: &mut Vec<u8>, edits: &[Edit<'_>]) -> Result<(), AllocError>
    ensures { OnOk result (content.new.items ≡ edited (edits_of edits.now) content.old.items) }
{
    for edit in edits.iter() {
        leave_edit(alloc, content, *edit, 1)?;
    }
    Ok(())
}

/// Makes the edits durable.
pub(crate) fn settle_draft(alloc: Global, draft: &mut Draft<'_>) -> Result<(), AllocError>
    ensures durable { OnOk result (draft.new.durable.items ≡ edited (edits_of draft.old.edits.items) draft.old.durable.items) }
    ensures edits { OnOk result (draft.new.edits.items ≡ []) }
{
    settle(alloc, &mut draft.durable, draft.edits.as_slice())?;
    draft.edits.clear();
    Ok(())
}
