// Line ends, as they are kept and as they are stored.
ghost use Rattle.std.specs.Prelude.{◌≡◌, ◌≤◌, ◌∷◌, [], ◌++◌, true, ℕ, List, length, take, drop, IfOk, IfNone, IfSome, OnOk};
ghost use Rattle.text_lines.specs.Lines.{is_line_end};
ghost use Rattle.text_forms.specs.Lines.{with_end, kept_line, stored_line};
ghost use Rattle.text_forms.specs.Forms.{keep_lines, store_lf, end_last, is_whole};

use crate::line_form::{LineForm, change_lines};
use std::alloc::{AllocError, Global};
use text_lines::line_text;

// From where to where a line has another line end in place of one; none where it has that one already, or has none.
#[tactic(auto, using(crate::proofs::LineEnds::text_within, crate::proofs::LineEnds::no_end, crate::proofs::LineEnds::same_end, crate::proofs::LineEnds::other_end))]
fn other_end(line: &[u8], end: &[u8]) -> Option<(usize, usize)>
    requires { is_line_end end.now ≡ true }
    ensures stays { IfNone result (with_end end.now line.now ≡ line.now) }
    ensures from { IfSome result (λ place. place.0 ≤ length line.now) }
    ensures to { IfSome result (λ place. place.1 ≡ length line.now) }
    ensures changed { IfSome result (λ place. with_end end.now line.now ≡ take place.0 line.now ++ end.now) }
{
    let before = line_text(line).len();
    if before >= line.len() || line.len() - before == end.len() {
        return None;
    }
    Some((before, line.len()))
}

struct Kept;

impl LineForm for Kept {
    ghost form = { kept_line };

    ghost mark = { 13 ∷ 10 ∷ [] };

    fn change(line: &[u8]) -> Option<(usize, usize)> {
        other_end(line, b"\r\n")
    }

    fn put_mark(out: &mut Vec<u8>) -> Result<(), AllocError> {
        out.extend_from_slice(b"\r\n")
    }
}

struct Stored;

impl LineForm for Stored {
    ghost form = { stored_line };

    ghost mark = { 10 ∷ [] };

    fn change(line: &[u8]) -> Option<(usize, usize)> {
        other_end(line, b"\n")
    }

    fn put_mark(out: &mut Vec<u8>) -> Result<(), AllocError> {
        out.extend_from_slice(b"\n")
    }
}

/// The text with CRLF at the end of each line, as a message is read.
///
/// A CR elsewhere stays, and so does a last line without a line end.
pub fn keep_lines(alloc: Global, text: &[u8]) -> Result<Vec<u8>, AllocError>
    ensures { IfOk result (λ v. v.items ≡ keep_lines text.now) }
{
    change_lines::<Kept>(alloc, text)
}

/// The text with LF at the end of each line, as files of one LF a line store it.
#[tactic(auto, using(crate::proofs::Stored::keep_stored))]
pub fn store_lf(alloc: Global, text: &[u8]) -> Result<Vec<u8>, AllocError>
    ensures value { IfOk result (λ v. v.items ≡ store_lf text.now) }
    ensures kept { IfOk result (λ v. keep_lines v.items ≡ keep_lines text.now) }
{
    change_lines::<Stored>(alloc, text)
}

// Whether a text has no byte, or LF as its last one.
#[tactic(auto, using(crate::proofs::WholeLines::whole_is))]
fn is_whole(text: &[u8]) -> bool
    ensures { result ≡ is_whole text.now }
{
    match text.split_last() {
        Some((last, _)) => *last == b'\n',
        None => true,
    }
}

/// The text, with LF behind a last line without a line end.
#[tactic(auto, using(crate::proofs::WholeLines::end_last_is))]
pub fn end_last(alloc: Global, text: &[u8]) -> Result<Vec<u8>, AllocError>
    ensures { IfOk result (λ v. v.items ≡ end_last text.now) }
{
    let mut out = Vec::with_capacity(alloc, text.len())?;
    out.extend_from_slice(text)?;
    if !is_whole(text) {
        out.extend_from_slice(b"\n")?;
    }
    Ok(out)
}

// The text of whole lines with CRLF at the end of each.
#[tactic(auto, using(crate::proofs::WholeLines::end_last_is))]
pub(crate) fn keep_whole_lines(alloc: Global, text: &[u8]) -> Result<Vec<u8>, AllocError>
    ensures { IfOk result (λ v. v.items ≡ keep_lines (end_last text.now)) }
{
    if is_whole(text) {
        return keep_lines(alloc, text);
    }
    let ended = end_last(alloc, text)?;
    keep_lines(alloc, ended.as_slice())
}
