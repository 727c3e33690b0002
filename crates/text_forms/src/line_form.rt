// One pass over the lines of a text.
ghost use Rattle.std.specs.Prelude.{◌≡◌, ◌∷◌, ◌++◌, ◌<◌, ◌≤◌, ℕ, List, length, take, drop, flat_map, IfOk, IfNone, IfSome, OnOk};
ghost use Rattle.text_lines.specs.Lines.{lines_of};

use std::alloc::{AllocError, Global};
use text_lines::line_length;

// What becomes of each line of a text.
pub trait LineForm {
    ghost form: { List ℕ → List ℕ };

    // what a changed line has in place of some of its bytes
    ghost mark: { List ℕ };

    // From where to where the line has the mark instead; none where it stays as it is.
    fn change(line: &[u8]) -> Option<(usize, usize)>
        ensures stays { IfNone result (form line.now ≡ line.now) }
        ensures from { IfSome result (λ place. place.0 ≤ length line.now) }
        ensures to { IfSome result (λ place. place.1 ≤ length line.now) }
        ensures changed { IfSome result (λ place. form line.now ≡ take place.0 line.now ++ (mark ++ drop place.1 line.now)) };

    fn put_mark(out: &mut Vec<u8>) -> Result<(), AllocError>
        ensures { OnOk result (out.new.items ≡ out.old.items ++ mark) };
}

// The first line of a text that isn't empty.
fn first_line(text: &[u8]) -> &[u8]
    requires { 0 < length text.now }
    ensures some { 0 < length result.now }
    ensures within { length result.now ≤ length text.now }
    ensures front { take (length result.now) text.now ≡ result.now }
    ensures lines { lines_of text.now ≡ result.now ∷ lines_of (drop (length result.now) text.now) }
{
    &text[..line_length(text)]
}

// Appends some bytes and the mark, with room for so many bytes where nothing stands there yet.
fn put_before_mark<F: LineForm>(
    out: &mut Vec<u8>,
    before: &[u8],
    room: usize,
) -> Result<(), AllocError>
    ensures { OnOk result (out.new.items ≡ (out.old.items ++ before.now) ++ F.mark) }
{
    if out.is_empty() {
        out.reserve(room)?;
    }
    out.extend_from_slice(before)?;
    F::put_mark(out)
}

// The text with each line in the form; none where that is the text itself.
//
// Lines that stay are copied together with what stands before the next change.
fn changed_lines<F: LineForm>(alloc: Global, text: &[u8]) -> Result<Option<Vec<u8>>, AllocError>
    ensures changed { IfOk result (λ found. IfSome found (λ v. v.items ≡ flat_map F.form (lines_of text.now))) }
    ensures same { IfOk result (λ found. IfNone found (flat_map F.form (lines_of text.now) ≡ text.now)) }
{
    let mut out = Vec::new(alloc);
    let mut is_changed = false;
    let mut copied = 0;
    let mut at = 0;
    while at < text.len() {
        let line = first_line(&text[at..]);
        if let Some((from, to)) = F::change(line) {
            put_before_mark::<F>(&mut out, &text[copied..at + from], text.len())?;
            is_changed = true;
            copied = at + to;
        }
        at += line.len();
    }
    if !is_changed {
        return Ok(None);
    }
    out.extend_from_slice(&text[copied..])?;
    Ok(Some(out))
}

// The text with each line in the form.
pub fn change_lines<F: LineForm>(alloc: Global, text: &[u8]) -> Result<Vec<u8>, AllocError>
    ensures { IfOk result (λ v. v.items ≡ flat_map F.form (lines_of text.now)) }
{
    match changed_lines::<F>(alloc, text)? {
        Some(out) => Ok(out),
        None => Vec::from_slice(alloc, text),
    }
}

// The same of a text that is let go; where no line changes it is the answer.
pub fn change_own_lines<F: LineForm>(alloc: Global, text: Vec<u8>) -> Result<Vec<u8>, AllocError>
    ensures { IfOk result (λ v. v.items ≡ flat_map F.form (lines_of text.items)) }
{
    match changed_lines::<F>(alloc, text.as_slice())? {
        Some(out) => Ok(out),
        None => Ok(text),
    }
}
