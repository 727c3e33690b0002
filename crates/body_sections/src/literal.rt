// What a client is told of a section.
ghost use Rattle.std.specs.Prelude.{◌≡◌, ◌++◌, ◌<◌, ◌^◌, None, Some, length, drop, take, IfOk, OnOk, IfSome};
ghost use Rattle.head_fields.specs.declared.span.Span.{Span};
ghost use Rattle.mime_parts.specs.Parts.{IsStructure};
ghost use Rattle.structure_text.specs.Strings.{literal_text};
ghost use Rattle.structure_text.specs.Appending.{Appends};
ghost use Rattle.body_sections.specs.Sections.{cut, cut_out, kind_end, section_bytes, partial_of, HasSpans};
ghost use Rattle.body_sections.specs.Values.{section_text, IsSectionOf};

use crate::section::{plain_spans, spans};
use head_fields::{Span, Spans};
use imap_arguments::{Section, SectionKind};
use mime_parts::{Part, structure};
use std::alloc::{AllocError, Global};
use structure_text::{put_literal, slice_of};

// So many bytes from an offset on, as far as they are there, or all.
#[tactic(auto, using(crate::proofs::Partials::cut_partial))]
fn partial_of(bytes: &[u8], partial: Option<(u32, u32)>) -> &[u8]
    ensures { result.now ≡ partial_of partial bytes.now }
{
    let Some((offset, count)) = partial else {
        return bytes;
    };
    let rest = &bytes[(offset as usize).min(bytes.len())..];
    &rest[..(count as usize).min(rest.len())]
}

// What stands behind the bytes of the text.
fn kind_end(kind: &SectionKind) -> &'static [u8]
    ensures { result.now ≡ kind_end kind.now }
{
    match kind {
        SectionKind::Fields(_) | SectionKind::FieldsNot(_) => b"\r\n",
        SectionKind::All | SectionKind::Header | SectionKind::Text | SectionKind::Mime => b"",
    }
}

// The bytes of some spans in a row.
fn cut_out(alloc: Global, text: &[u8], spans: &[Span]) -> Result<Vec<u8>, AllocError>
    ensures { IfOk result (λ v. v.items ≡ cut_out text.now spans.now) }
{
    let mut bytes = Vec::new(alloc);
    for span in spans {
        bytes.extend_from_slice(slice_of(text, *span))?;
    }
    Ok(bytes)
}

// Appends what stands at some spans, perhaps a part of it. The bytes of one span are written from the text;
// several go through a buffer, since their length stands before them.
fn put_spans(
    alloc: Global,
    out: &mut Vec<u8>,
    text: &[u8],
    kind: &SectionKind,
    partial: Option<(u32, u32)>,
    spans: &[Span],
) -> Result<(), AllocError>
    ensures { OnOk result (out.new.items ≡ out.old.items ++ literal_text (partial_of partial (section_bytes text.now kind.now spans.now))) }
{
    let end = kind_end(kind);
    match spans {
        [span] if end.is_empty() => put_literal(out, partial_of(slice_of(text, *span), partial)),
        _ => {
            let mut bytes = cut_out(alloc, text, spans)?;
            bytes.extend_from_slice(end)?;
            put_literal(out, partial_of(bytes.as_slice(), partial))
        }
    }
}

// Appends what a client is told of a section that was looked for.
fn put_found(
    alloc: Global,
    out: &mut Vec<u8>,
    text: &[u8],
    kind: &SectionKind,
    partial: Option<(u32, u32)>,
    found: &Option<Spans>,
) -> Result<(), AllocError>
    ensures { OnOk result (out.new.items ≡ out.old.items ++ section_text text.now kind.now partial found.now) }
{
    match found {
        Some(spans) => put_spans(alloc, out, text, kind, partial, spans.as_slice()),
        None => out.extend_from_slice(b"NIL"),
    }
}

// Where a section stands; the text's structure is read only where it tells the section and wasn't given.
fn found_spans(
    alloc: Global,
    text: &[u8],
    part: Option<&Part>,
    section: &Section,
) -> Result<Option<Spans>, AllocError>
    requires size { length text.now < 2 ^ 32 }
    requires part { IfSome part (λ p. IsStructure text.now p.now) }
    ensures { IfOk result (λ found. HasSpans text.now section.now found) }
{
    if let Some(part) = part {
        return spans(alloc, text, part, section);
    }
    if section.parts.as_slice().is_empty() {
        return plain_spans(alloc, text, &section.kind);
    }
    let part = structure(alloc, text)?;
    spans(alloc, text, &part, section)
}

/// Appends what a client is told of a section, perhaps of a part of it.
pub(crate) fn put_section(
    alloc: Global,
    out: &mut Vec<u8>,
    text: &[u8],
    part: Option<&Part>,
    section: &Section,
    partial: Option<(u32, u32)>,
) -> Result<(), AllocError>
    requires size { length text.now < 2 ^ 32 }
    requires part { IfSome part (λ p. IsStructure text.now p.now) }
    ensures { OnOk result (Appends (IsSectionOf text.now section.now partial) out.old.items out.new.items) }
{
    let found = found_spans(alloc, text, part, section)?;
    put_found(alloc, out, text, &section.kind, partial, &found)
}
