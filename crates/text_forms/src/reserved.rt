// Fields that a driver writes itself, and so takes from no message.
ghost use Rattle.std.specs.Prelude.{◌≡◌, ◌++◌, IfOk};
ghost use Rattle.text_lines.specs.Blanks.{is_blank, is_continuation};
ghost use Rattle.text_forms.specs.Lines.{begins_colon, is_field_named, is_reserved, is_dropped};
ghost use Rattle.text_lines.specs.Lines.{lines_of};
ghost use Rattle.text_forms.specs.Forms.{drop_reserved, has_reserved};

use std::alloc::{AllocError, Global};
use text_lines::{is_blank, is_continuation, is_empty_line, line_length};

// Whether a colon comes first, or behind blanks alone.
fn begins_colon(bytes: &[u8]) -> bool
    ensures { result ≡ begins_colon bytes.now }
{
    for byte in bytes {
        if *byte == b':' {
            return true;
        }
        if !is_blank(*byte) {
            return false;
        }
    }
    false
}

// Whether the line begins a field of that name, in any case.
fn is_field_named(line: &[u8], name: &[u8]) -> bool
    ensures { result ≡ is_field_named line.now name.now }
{
    match line.split_at_checked(name.len()) {
        Some((front, behind)) => front.eq_ignore_ascii_case(name) && begins_colon(behind),
        None => false,
    }
}

fn is_reserved(line: &[u8]) -> bool
    ensures { result ≡ is_reserved line.now }
{
    is_field_named(line, b"Status")
        || is_field_named(line, b"X-Status")
        || is_field_named(line, b"X-UID")
        || is_field_named(line, b"X-Keywords")
        || is_field_named(line, b"X-IMAP")
        || is_field_named(line, b"X-IMAPbase")
}

// Whether a header line goes, where the line above it did or did not belong to a field that goes.
fn is_dropped(above: bool, line: &[u8]) -> bool
    ensures { result ≡ is_dropped above line.now }
{
    if is_continuation(line) {
        above
    } else {
        is_reserved(line)
    }
}

/// The text without the reserved fields of its header.
///
/// They are Status, X-Status, X-UID, X-Keywords, X-IMAP and X-IMAPbase, in any case, each with its
/// continuation lines. The body stays as it is.
pub fn drop_reserved(alloc: Global, text: &[u8]) -> Result<Vec<u8>, AllocError>
    ensures { IfOk result (λ v. v.items ≡ drop_reserved text.now) }
{
    let mut out = Vec::with_capacity(alloc, text.len())?;
    let mut rest = text;
    let mut dropping = false;
    while !rest.is_empty() {
        let (line, behind) = rest.split_at(line_length(rest));
        if is_empty_line(line) {
            break;
        }
        dropping = is_dropped(dropping, line);
        if !dropping {
            out.extend_from_slice(line)?;
        }
        rest = behind;
    }
    out.extend_from_slice(rest)?;
    Ok(out)
}

// Whether a header line begins a reserved field.
#[tactic(auto, using(text_lines::proofs::Lines::no_lines))]
fn has_reserved(text: &[u8]) -> bool
    ensures { result ≡ has_reserved (lines_of text.now) }
{
    let mut rest = text;
    while !rest.is_empty() {
        let (line, behind) = rest.split_at(line_length(rest));
        if is_empty_line(line) {
            return false;
        }
        if is_reserved(line) {
            return true;
        }
        rest = behind;
    }
    false
}

// The text without the reserved fields of its header, of a text that is let go.
#[tactic(auto, using(crate::proofs::ReservedFields::none_dropped))]
pub(crate) fn drop_own_reserved(alloc: Global, text: Vec<u8>) -> Result<Vec<u8>, AllocError>
    ensures { IfOk result (λ v. v.items ≡ drop_reserved text.items) }
{
    if has_reserved(text.as_slice()) {
        drop_reserved(alloc, text.as_slice())
    } else {
        Ok(text)
    }
}
