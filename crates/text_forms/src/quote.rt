// Lines that a reader would take as the border of a message, and how they are kept apart.
ghost use Rattle.std.specs.Prelude.{◌≡◌, ◌≤◌, ◌∷◌, [], ◌++◌, ℕ, List, length, take, drop, IfOk, IfNone, IfSome, OnOk};
ghost use Rattle.mail_fields.specs.DelimiterLine.{is_delimiter_line};
ghost use Rattle.text_forms.specs.Lines.{is_mmdf_line, quoted_from, quoted_mmdf};
ghost use Rattle.text_forms.specs.Forms.{quote_from, quote_mmdf};

use crate::line_form::{LineForm, change_lines, change_own_lines};
use mail_fields::is_delimiter_line;
use std::alloc::{AllocError, Global};
use text_lines::line_text;

// Whether the line is a delimiter line. Few lines begin with its first letter, and the others are told by that.
#[tactic(auto, using(crate::proofs::Borders::delimiter_first))]
fn is_from_line(line: &[u8]) -> bool
    ensures { result ≡ is_delimiter_line line.now }
{
    match line {
        [b'F', ..] => is_delimiter_line(line),
        _ => false,
    }
}

// Whether a line of an mmdf file stands between two messages.
#[tactic(auto, using(crate::proofs::Borders::border_first))]
fn is_mmdf_line(line: &[u8]) -> bool
    ensures { result ≡ is_mmdf_line line.now }
{
    match line {
        [1, ..] => line_text(line) == b"\x01\x01\x01\x01".as_slice(),
        _ => false,
    }
}

struct QuotedFrom;

impl LineForm for QuotedFrom {
    ghost form = { quoted_from };

    ghost mark = { 62 ∷ [] };

    fn change(line: &[u8]) -> Option<(usize, usize)> {
        if is_from_line(line) {
            Some((0, 0))
        } else {
            None
        }
    }

    fn put_mark(out: &mut Vec<u8>) -> Result<(), AllocError> {
        out.extend_from_slice(b">")
    }
}

struct QuotedMmdf;

impl LineForm for QuotedMmdf {
    ghost form = { quoted_mmdf };

    ghost mark = { 32 ∷ [] };

    fn change(line: &[u8]) -> Option<(usize, usize)> {
        if is_mmdf_line(line) {
            Some((0, 0))
        } else {
            None
        }
    }

    fn put_mark(out: &mut Vec<u8>) -> Result<(), AllocError> {
        out.extend_from_slice(b" ")
    }
}

/// The text with `>` before each delimiter line, so that none is taken for the next message.
pub fn quote_from(alloc: Global, text: &[u8]) -> Result<Vec<u8>, AllocError>
    ensures { IfOk result (λ v. v.items ≡ quote_from text.now) }
{
    change_lines::<QuotedFrom>(alloc, text)
}

/// The text with a space before each line of four bytes 01, which stands around messages in an mmdf file.
pub fn quote_mmdf(alloc: Global, text: &[u8]) -> Result<Vec<u8>, AllocError>
    ensures { IfOk result (λ v. v.items ≡ quote_mmdf text.now) }
{
    change_lines::<QuotedMmdf>(alloc, text)
}

// The same of a text that is let go.
pub(crate) fn quote_own_from(alloc: Global, text: Vec<u8>) -> Result<Vec<u8>, AllocError>
    ensures { IfOk result (λ v. v.items ≡ quote_from text.items) }
{
    change_own_lines::<QuotedFrom>(alloc, text)
}

pub(crate) fn quote_own_mmdf(alloc: Global, text: Vec<u8>) -> Result<Vec<u8>, AllocError>
    ensures { IfOk result (λ v. v.items ≡ quote_mmdf text.items) }
{
    change_own_lines::<QuotedMmdf>(alloc, text)
}
