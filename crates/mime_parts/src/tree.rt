// The tree of a message's parts (RFC 2046, section 5).
ghost use Rattle.std.specs.Prelude.{◌≡◌, ◌≤◌, ◌<◌, ◌+◌, ◌-◌, ◌^◌, length, drop, map, All, IfOk};
ghost use Rattle.head_fields.specs.Header.{body_start_of};
ghost use Rattle.mime_parts.specs.Marks.{section_in, IsTail, IsSection};
ghost use Rattle.mime_parts.specs.Parts.{part_at, Each, IsDeepest, IsPart, IsStructure, IsOnlyStructure};
ghost use Rattle.mime_parts.specs.Readers.{division_in};

use crate::content::Content;
use crate::delimiter::Section;
use crate::division::{Division, as_bytes, is_digest, read_division};
use crate::header::read_content;
use crate::mark::{Marks, Tail, body_tail, find_marks};
use crate::part::{Inner, Part};
use head_fields::Span;
use sqlite_items::{Boxed, Items};
use std::alloc::{AllocError, Global};

// How many lines the rest of a text has.
fn count_of(text: &[u8], tail: &Tail<'_>) -> u32
    requires tail { IsTail text.now tail.now }
    requires size { length text.now < 2 ^ 32 }
    ensures { result ≡ tail.now.until - tail.now.before }
{
    (tail.until - tail.before) as u32
}

// The part that a text is from an offset on, by its body, its content and what it holds.
fn part_at(text: &[u8], from: usize, body: &Tail<'_>, content: Content, inner: Inner) -> Part
    requires tail { IsTail text.now body.now }
    requires place { body.now.from ≡ from + body_start_of (drop from text.now) }
    requires within { from ≤ length text.now }
    requires size { length text.now < 2 ^ 32 }
    ensures { result ≡ part_at from (drop from text.now) content inner }
{
    Part {
        head: Span {
            from,
            to: body.from,
        },
        body: Span {
            from: body.from,
            to: text.len(),
        },
        lines: count_of(text, body),
        content,
        inner,
    }
}

// A part below the deepest level: what would be divided is a leaf.
fn deepest_part(
    alloc: Global,
    text: &[u8],
    from: usize,
    body: &Tail<'_>,
    content: Content,
    division: Division<'_>,
) -> Result<Part, AllocError>
    requires tail { IsTail text.now body.now }
    requires place { body.now.from ≡ from + body_start_of (drop from text.now) }
    requires within { from ≤ length text.now }
    requires size { length text.now < 2 ^ 32 }
    ensures { IfOk result (λ part. IsDeepest (division_in text.now division.entry) from (drop from text.now) content part) }
{
    match division {
        Division::Undivided => Ok(part_at(text, from, body, content, Inner::Leaf)),
        _ => {
            let content = as_bytes(alloc, content)?;
            Ok(part_at(text, from, body, content, Inner::Leaf))
        }
    }
}

// The parts of a multipart.
#[cycle(tree)]
fn parts(
    alloc: Global,
    text: &[u8],
    sections: &[Section<'_>],
    digest: bool,
    levels: u32,
) -> Result<Items<Part>, AllocError>
    requires within { All (IsSection text.now) sections.now }
    requires size { length text.now < 2 ^ 32 }
    ensures { IfOk result (λ parts. Each (IsPart levels digest) (map (section_in text.now) sections.now) parts) }
{
    let mut parts = Items::new(alloc);
    for section in sections {
        parts.push(part(alloc, &text[..section.to], &section.tail, digest, levels)?)?;
    }
    Ok(parts)
}

// The part that the rest of a text is, where so many levels more may be divided.
#[cycle(tree)]
fn part(
    alloc: Global,
    text: &[u8],
    tail: &Tail<'_>,
    digest: bool,
    levels: u32,
) -> Result<Part, AllocError>
    requires tail { IsTail text.now tail.now }
    requires size { length text.now < 2 ^ 32 }
    ensures { IfOk result (λ part. IsPart levels digest tail.now.from (drop tail.now.from text.now) part) }
{
    let from = tail.from;
    let body = body_tail(text, tail);
    let content = read_content(alloc, &text[from..], digest)?;
    let division = read_division(alloc, &content, text, from, &body)?;
    if levels == 0 {
        return deepest_part(alloc, text, from, &body, content, division);
    }
    match division {
        Division::Several(sections) => {
            let digest = is_digest(&content);
            let parts = parts(alloc, text, sections.as_slice(), digest, levels - 1)?;
            Ok(part_at(text, from, &body, content, Inner::Parts(parts)))
        }
        Division::One => {
            let message = part(alloc, text, &body, false, levels - 1)?;
            let inner = Inner::Message(Boxed::new(alloc, message)?);
            Ok(part_at(text, from, &body, content, inner))
        }
        Division::NoParts => {
            let content = as_bytes(alloc, content)?;
            Ok(part_at(text, from, &body, content, Inner::Leaf))
        }
        Division::Undivided => Ok(part_at(text, from, &body, content, Inner::Leaf)),
    }
}

/// The parts of a message. No text is refused.
///
/// Multiparts and messages in them nest 50 deep; a deeper one is a leaf. The time is that of one pass
/// over the text, and of one for each level over its lines that begin with `--`.
pub fn structure(alloc: Global, text: &[u8]) -> Result<Part, AllocError>
    requires { length text.now < 2 ^ 32 }
    ensures is { IfOk result (λ part. IsStructure text.now part) }
    ensures only { IfOk result (λ part. IsOnlyStructure text.now part) }
{
    let Marks { items, lines } = find_marks(alloc, text)?;
    let tail = Tail {
        from: 0,
        before: 0,
        until: lines,
        marks: items.as_slice(),
    };
    part(alloc, text, &tail, false, 50)
}
