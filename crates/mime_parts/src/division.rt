// How a part's body is divided (RFC 2046, sections 5.1 and 5.2.1).
ghost use Rattle.std.specs.Prelude.{◌≡◌, ◌+◌, Some, None, drop, IfOk, MatchOption};
ghost use Rattle.head_fields.specs.Header.{body_start_of};
ghost use Rattle.mime_parts.specs.Contents.{is_multipart, is_digest, is_message, boundary_of, as_bytes};
ghost use Rattle.mime_parts.specs.Parts.{division_of};
ghost use Rattle.mime_parts.specs.Marks.{IsTail};
ghost use Rattle.mime_parts.specs.Readers.{division_in, AreSections};

use crate::content::Content;
use crate::delimiter::{Section, sections};
use crate::header::bare_media;
use crate::mark::Tail;
use crate::value::Media;
use crate::word::is_same_word;
use std::alloc::{AllocError, Global};

fn is_multipart(content: &Content) -> bool
    ensures { result ≡ is_multipart content.now }
{
    is_same_word(content.kind.as_slice(), b"multipart")
}

/// Whether the parts of a multipart are messages unless they say otherwise.
pub(crate) fn is_digest(content: &Content) -> bool
    ensures { result ≡ is_digest content.now }
{
    is_multipart(content) && is_same_word(content.subkind.as_slice(), b"digest")
}

fn is_message(content: &Content) -> bool
    ensures { result ≡ is_message content.now }
{
    is_same_word(content.kind.as_slice(), b"message")
        && is_same_word(content.subkind.as_slice(), b"rfc822")
}

// The boundary of a multipart: of its parameters of that name the first, unless it is empty.
fn boundary(content: &Content) -> Option<&[u8]>
    ensures { MatchOption result (boundary_of content.now ≡ None) (λ bytes. boundary_of content.now ≡ Some bytes.now) }
{
    for param in content.params.as_slice() {
        if is_same_word(param.0.as_slice(), b"boundary") {
            let bytes = param.1.as_slice();
            if bytes.is_empty() {
                return None;
            }
            return Some(bytes);
        }
    }
    None
}

/// The parts of a multipart, or that a message stands there, that a multipart has no part, or that nothing is divided.
#[derive(Drop)]
pub(crate) enum Division<'a> {
    Several(Vec<Section<'a>>),
    One,
    NoParts,
    Undivided,
}

/// How the body of the part is divided that a text is from an offset on.
pub(crate) fn read_division<'a>(
    alloc: Global,
    content: &Content,
    text: &'a [u8],
    from: usize,
    body: &Tail<'a>,
) -> Result<Division<'a>, AllocError>
    requires tail { IsTail text.now body.now }
    requires place { body.now.from ≡ from + body_start_of (drop from text.now) }
    ensures value { IfOk result (λ found. division_in text.now found ≡ division_of content.now from (drop from text.now)) }
    ensures within { IfOk result (λ found. AreSections text.now found) }
{
    if is_multipart(content) {
        let Some(boundary) = boundary(content) else {
            return Ok(Division::NoParts);
        };
        let sections = sections(alloc, boundary, text, body)?;
        if sections.is_empty() {
            return Ok(Division::NoParts);
        }
        return Ok(Division::Several(sections));
    }
    if is_message(content) {
        return Ok(Division::One);
    }
    Ok(Division::Undivided)
}

/// The content of a part that isn't divided although it says so.
pub(crate) fn as_bytes(alloc: Global, content: Content) -> Result<Content, AllocError>
    ensures { IfOk result (λ bytes. bytes ≡ as_bytes content) }
{
    let Media {
        kind,
        subkind,
        params,
    } = bare_media(alloc, b"APPLICATION", b"OCTET-STREAM")?;
    let Content {
        id,
        description,
        encoding,
        md5,
        disposition,
        language,
        location,
        ..
    } = content;
    Ok(Content {
        kind,
        subkind,
        params,
        id,
        description,
        encoding,
        md5,
        disposition,
        language,
        location,
    })
}
