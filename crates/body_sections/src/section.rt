// Where a section of a message stands.
ghost use Rattle.std.specs.Prelude.{◌≡◌, None, Some, ◌≤◌, ◌<◌, ◌+◌, ◌^◌, ◌∷◌, [], IfOk, length};
ghost use Rattle.std.specs.List.{list_any};
ghost use Rattle.text_lines.specs.Lines.{lines_of};
ghost use Rattle.head_fields.specs.Fields.{StandsWithin};
ghost use Rattle.mime_parts.specs.Parts.{IsStructure};
ghost use Rattle.body_sections.specs.FieldLines.{first_line, field_end, lines_span};
ghost use Rattle.body_sections.specs.Sections.{is_named, has_field, chosen_spans, message_spans, inner_spans, part_spans, numbered_spans, head_span, body_span, HasSpans};

use crate::numbers::{message_of, part_of};
use head_fields::{Field, Span, Spans, body_start, fields};
use imap_arguments::{Section, SectionKind};
use mail_fields::Bytes;
use mime_parts::Part;
use std::alloc::{AllocError, Global};
use structure_text::slice_of;
use text_lines::line_length;

// Whether some name is this one, in any letter case.
fn is_named(names: &[Bytes], name: &[u8]) -> bool
    ensures { result ≡ is_named names.now name.now }
{
    names
        .iter()
        .any(|one| name.eq_ignore_ascii_case(one.as_slice()))
}

// Whether a section of fields has the field of a name.
fn has_field(kind: &SectionKind, name: &[u8]) -> bool
    ensures { result ≡ has_field kind.now name.now }
{
    match kind {
        SectionKind::Fields(names) => is_named(names.as_slice(), name),
        SectionKind::FieldsNot(names) => !is_named(names.as_slice(), name),
        SectionKind::All | SectionKind::Header | SectionKind::Text | SectionKind::Mime => false,
    }
}

// The length of the first line of a text, 0 where it has none.
#[tactic(auto, using(crate::proofs::FieldEnds::first_length))]
fn first_length(text: &[u8]) -> usize
    ensures value { result ≡ length (first_line (lines_of text.now)) }
    ensures within { result ≤ length text.now }
{
    line_length(text)
}

// Where the lines of a field stand, in the text where its header begins at an offset.
fn lines_span(at: usize, header: &[u8], field: &Field) -> Span
    requires stands { StandsWithin (length header.now) field.now }
    requires fits { at + length header.now < 2 ^ 64 }
    ensures { result ≡ lines_span at header.now field.now }
{
    let end = field.value.to + first_length(&header[field.value.to..]);
    Span {
        from: at + field.name.from,
        to: at + end,
    }
}

// Where the fields of a header stand that a section of fields has.
#[tactic(auto, using(crate::proofs::FieldEnds::slice_fits))]
fn chosen_spans(
    alloc: Global,
    text: &[u8],
    kind: &SectionKind,
    head: Span,
) -> Result<Spans, AllocError>
    ensures { IfOk result (λ spans. spans ≡ chosen_spans text.now kind.now head) }
{
    let header = slice_of(text, head);
    let mut spans = Vec::new(alloc);
    for field in fields(alloc, header)?.as_slice() {
        if has_field(kind, slice_of(header, field.name)) {
            spans.push(lines_span(head.from, header, field))?;
        }
    }
    Ok(Spans::of(spans))
}

fn one_span(alloc: Global, span: Span) -> Result<Spans, AllocError>
    ensures { IfOk result (λ spans. spans ≡ span ∷ []) }
{
    let mut spans = Vec::new(alloc);
    spans.push(span)?;
    Ok(Spans::of(spans))
}

// Where what is asked of a message stands, by its header and its body.
fn message_spans(
    alloc: Global,
    text: &[u8],
    kind: &SectionKind,
    head: Span,
    body: Span,
) -> Result<Option<Spans>, AllocError>
    ensures { IfOk result (λ found. found ≡ message_spans text.now kind.now head body) }
{
    let spans = match kind {
        SectionKind::All => one_span(
            alloc,
            Span {
                from: head.from,
                to: body.to,
            },
        )?,
        SectionKind::Header => one_span(alloc, head)?,
        SectionKind::Fields(_) | SectionKind::FieldsNot(_) => {
            chosen_spans(alloc, text, kind, head)?
        }
        SectionKind::Text => one_span(alloc, body)?,
        SectionKind::Mime => return Ok(None),
    };
    Ok(Some(spans))
}

// The same of the message that a part holds.
fn inner_spans(
    alloc: Global,
    text: &[u8],
    kind: &SectionKind,
    part: &Part,
) -> Result<Option<Spans>, AllocError>
    ensures { IfOk result (λ found. found ≡ inner_spans text.now kind.now part.now) }
{
    match message_of(part) {
        Some(message) => message_spans(alloc, text, kind, message.head, message.body),
        None => Ok(None),
    }
}

// Where what is asked of a numbered part stands.
fn part_spans(
    alloc: Global,
    text: &[u8],
    kind: &SectionKind,
    part: &Part,
) -> Result<Option<Spans>, AllocError>
    ensures { IfOk result (λ found. found ≡ part_spans text.now kind.now part.now) }
{
    match kind {
        SectionKind::All => Ok(Some(one_span(alloc, part.body)?)),
        SectionKind::Mime => Ok(Some(one_span(alloc, part.head)?)),
        SectionKind::Header
        | SectionKind::Fields(_)
        | SectionKind::FieldsNot(_)
        | SectionKind::Text => inner_spans(alloc, text, kind, part),
    }
}

// Where a section with part numbers stands, by a text's structure.
fn numbered_spans(
    alloc: Global,
    text: &[u8],
    part: &Part,
    section: &Section,
) -> Result<Option<Spans>, AllocError>
    ensures { IfOk result (λ found. found ≡ numbered_spans text.now section.now.kind section.now.parts part.now) }
{
    match part_of(section.parts.as_slice(), part) {
        Some(found) => part_spans(alloc, text, &section.kind, found),
        None => Ok(None),
    }
}

/// Where a section without part numbers stands, which no structure tells.
pub(crate) fn plain_spans(
    alloc: Global,
    text: &[u8],
    kind: &SectionKind,
) -> Result<Option<Spans>, AllocError>
    ensures { IfOk result (λ found. found ≡ message_spans text.now kind.now (head_span text.now) (body_span text.now)) }
{
    let start = body_start(text);
    let head = Span { from: 0, to: start };
    let body = Span {
        from: start,
        to: text.len(),
    };
    message_spans(alloc, text, kind, head, body)
}

/// Where a section of a text stands, by the text's structure; None where it doesn't exist.
#[tactic(auto, using(crate::proofs::Held::numbered_has))]
pub fn spans(
    alloc: Global,
    text: &[u8],
    part: &Part,
    section: &Section,
) -> Result<Option<Spans>, AllocError>
    requires { IsStructure text.now part.now }
    ensures { IfOk result (λ found. HasSpans text.now section.now found) }
{
    if section.parts.as_slice().is_empty() {
        return plain_spans(alloc, text, &section.kind);
    }
    numbered_spans(alloc, text, part, section)
}
