// A field's value on one line.
ghost use Rattle.std.specs.Prelude.{◌≡◌, ◌++◌, IfOk, OnOk};
ghost use Rattle.head_fields.specs.Blanks.{trim_start};
ghost use Rattle.head_fields.specs.Folding.{unfolded};

use crate::blank::{trim_end, trim_start};
use std::alloc::{AllocError, Global};
use text_lines::{line_length, line_text};

/// The bytes without their line ends, and then without spaces and tabs at both sides.
///
/// A CR that belongs to no line end stays.
pub fn unfold(alloc: Global, bytes: &[u8]) -> Result<Vec<u8>, AllocError>
    ensures { IfOk result (λ v. v.items ≡ unfolded bytes.now) }
{
    let mut unfolded = Vec::new(alloc);
    let mut at = 0;
    while at < bytes.len() {
        let end = at + line_length(&bytes[at..]);
        push_text(&mut unfolded, line_text(&bytes[at..end]))?;
        at = end;
    }
    let length = trim_end(unfolded.as_slice()).len();
    unfolded.truncate(length);
    Ok(unfolded)
}

// Appends the text of a line, without the blanks at the front of the whole.
fn push_text(unfolded: &mut Vec<u8>, text: &[u8]) -> Result<(), AllocError>
    requires { trim_start unfolded.old.items ≡ unfolded.old.items }
    ensures { OnOk result (unfolded.new.items ≡ trim_start (unfolded.old.items ++ text.now)) }
{
    if unfolded.is_empty() {
        unfolded.extend_from_slice(trim_start(text))
    } else {
        unfolded.extend_from_slice(text)
    }
}
