// The empty line that ends a header.
ghost use Rattle.std.specs.Prelude.{◌≡◌, ◌++◌, IfOk};
ghost use Rattle.text_forms.specs.Forms.{has_empty_line, end_header};

use std::alloc::{AllocError, Global};
use text_lines::{is_empty_line, line_length};

// Whether a text has an empty line.
#[tactic(auto, using(text_lines::proofs::Lines::no_lines))]
fn has_empty_line(text: &[u8]) -> bool
    ensures { result ≡ has_empty_line text.now }
{
    let mut rest = text;
    while !rest.is_empty() {
        let (line, behind) = rest.split_at(line_length(rest));
        if is_empty_line(line) {
            return true;
        }
        rest = behind;
    }
    false
}

/// The text, with CRLF behind it where it has no empty line.
///
/// Behind a last line without a line end this makes no empty line: `end_last` goes before.
pub fn end_header(alloc: Global, text: &[u8]) -> Result<Vec<u8>, AllocError>
    ensures { IfOk result (λ v. v.items ≡ end_header text.now) }
{
    end_own_header(Vec::from_slice(alloc, text)?)
}

// The same of a text that is let go.
pub(crate) fn end_own_header(text: Vec<u8>) -> Result<Vec<u8>, AllocError>
    ensures { IfOk result (λ v. v.items ≡ end_header text.items) }
{
    let mut out = text;
    if !has_empty_line(out.as_slice()) {
        out.extend_from_slice(b"\r\n")?;
    }
    Ok(out)
}
