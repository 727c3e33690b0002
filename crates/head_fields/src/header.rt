// The header of a text: its fields, and the body behind it.
ghost use Rattle.std.specs.Prelude.{◌≡◌, ◌+◌, ◌<◌, ◌≤◌, ◌^◌, ℕ, [], length, take, drop, map, All, AllPairs, IfOk, IfNone, IfSome};
ghost use Rattle.std.specs.List.{concat};
ghost use Rattle.text_lines.specs.Lines.{header_of};
ghost use Rattle.head_fields.specs.Header.{body_start_of, BeginsHeader};
ghost use Rattle.head_fields.specs.Fields.{fields_of, fields_from, readings_of, reading_in, StandsWithin, continuations, span_at};

use crate::field::Field;
use crate::name::read_name;
use crate::span::Span;
use std::alloc::{AllocError, Global};
use text_lines::{is_blank, is_empty_line, line_length, line_text};

/// The offset of a text's body, behind the first empty line; the text's length where it has none.
pub fn body_start(text: &[u8]) -> usize
    ensures value { result ≡ body_start_of text.now }
    ensures within { result ≤ length text.now }
{
    let mut at = 0;
    while let Some(line) = header_line(&text[at..]) {
        at += line.len();
    }
    at + line_length(&text[at..])
}

/// The fields of a text's header in their order, by offsets in the whole text.
///
/// A header line that neither begins a field nor continues one is passed over.
pub fn fields(alloc: Global, text: &[u8]) -> Result<Vec<Field>, AllocError>
    ensures value { IfOk result (λ v. v.items ≡ fields_of text.now) }
    ensures readings { IfOk result (λ v. map (reading_in text.now) v.items ≡ readings_of (header_of text.now)) }
    ensures within { IfOk result (λ v. All (StandsWithin (length text.now)) v.items) }
    ensures in_order { IfOk result (λ v. AllPairs (λ a b. a.value.to ≤ b.name.from) v.items) }
{
    let mut fields = Vec::new(alloc);
    let mut at = 0;
    while let Some(line) = header_line(&text[at..]) {
        let mut end = at + line.len();
        if let Some((name_length, colon)) = read_name(line) {
            end += continuations_length(&text[end..]);
            let value = line_text(&text[at + colon + 1..end]);
            fields.push(Field {
                name: span(at, name_length),
                value: span(at + colon + 1, value.len()),
            })?;
        }
        at = end;
    }
    Ok(fields)
}

// So many bytes from an offset on.
fn span(from: usize, width: usize) -> Span
    requires { from + width < 2 ^ 64 }
    ensures { result ≡ span_at from width }
{
    Span {
        from,
        to: from + width,
    }
}

// The first line of a text, where it is a header line.
fn header_line(text: &[u8]) -> Option<&[u8]>
    ensures some { IfSome result (λ line. BeginsHeader text.now line.now) }
    ensures none { IfNone result (header_of text.now ≡ []) }
{
    let line = &text[..line_length(text)];
    if line.is_empty() || is_empty_line(line) {
        return None;
    }
    Some(line)
}

// How many bytes the lines in front take that continue a field.
fn continuations_length(text: &[u8]) -> usize
    ensures within { result ≤ length text.now }
    ensures lines { take result text.now ≡ concat (continuations (header_of text.now)) }
    // behind them the fields go on
    ensures later { (from : ℕ) → fields_from from (header_of text.now)
        ≡ fields_from (from + result) (header_of (drop result text.now)) }
{
    let mut at = 0;
    while at < text.len() && is_blank(text[at]) {
        at += line_length(&text[at..]);
    }
    at
}
