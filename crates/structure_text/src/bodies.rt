// The structure of a message's body (RFC 3501, section 7.4.2).
ghost use Rattle.std.specs.Prelude.{◌≡◌, ◌++◌, ◌∷◌, codes, decimal, IfOk, OnOk};
ghost use Rattle.structure_text.specs.Strings.{after_spaces, word_text};
ghost use Rattle.structure_text.specs.Bodies.{type_fields, description_fields, leaf_fields, lines_text, leaf_text, leaf_extension, multipart_extension, IsBody, AreBodies, IsOnlyBody};
ghost use Rattle.structure_text.specs.Appending.{Appends};

use crate::content::{put_leaf_extension, put_multipart_extension, put_next_params};
use crate::envelopes::put_header_envelope;
use crate::span::slice_of;
use crate::string::{put_next_nstring, put_next_number, put_next_word, put_word};
use mime_parts::{Content, Inner, Part};
use std::alloc::{AllocError, Global};

// Appends a parenthesis, and the type of a part with its parameters.
fn put_type(alloc: Global, out: &mut Vec<u8>, content: &Content) -> Result<(), AllocError>
    ensures { OnOk result (out.new.items ≡ out.old.items ++ (codes "(" ++ (word_text content.now.kind ++ after_spaces (type_fields content.now)))) }
{
    out.push(b'(')?;
    put_word(alloc, out, content.kind.as_slice())?;
    put_next_word(alloc, out, content.subkind.as_slice())?;
    put_next_params(alloc, out, content.params.as_slice())
}

// Appends what else each part has that is no multipart, each behind a space.
fn put_description(alloc: Global, out: &mut Vec<u8>, part: &Part) -> Result<(), AllocError>
    ensures { OnOk result (out.new.items ≡ out.old.items ++ after_spaces (description_fields part.now)) }
{
    let content = &part.content;
    put_next_nstring(out, &content.id)?;
    put_next_nstring(out, &content.description)?;
    put_next_word(alloc, out, content.encoding.as_slice())?;
    put_next_number(out, part.body.to.saturating_sub(part.body.from))
}

// Appends a parenthesis, and the fields that each part begins with that is no multipart.
fn put_leaf_fields(alloc: Global, out: &mut Vec<u8>, part: &Part) -> Result<(), AllocError>
    ensures { OnOk result (out.new.items ≡ out.old.items ++ (codes "(" ++ (word_text part.now.content.kind ++ after_spaces (leaf_fields part.now)))) }
{
    put_type(alloc, out, &part.content)?;
    put_description(alloc, out, part)
}

fn put_text_lines(out: &mut Vec<u8>, part: &Part) -> Result<(), AllocError>
    ensures { OnOk result (out.new.items ≡ out.old.items ++ after_spaces (lines_text part.now)) }
{
    if part.content.kind.as_slice().eq_ignore_ascii_case(b"text") {
        put_next_number(out, part.lines as usize)?;
    }
    Ok(())
}

#[tactic(auto, unfolding(crate::specs::Bodies::leaf_text), using(crate::proofs::Lists::listed_front))]
fn put_leaf(alloc: Global, out: &mut Vec<u8>, part: &Part, extended: bool) -> Result<(), AllocError>
    ensures { OnOk result (out.new.items ≡ out.old.items ++ leaf_text extended part.now) }
{
    put_leaf_fields(alloc, out, part)?;
    put_text_lines(out, part)?;
    put_leaf_extension(alloc, out, &part.content, extended)?;
    out.extend_from_slice(b")")
}

// Appends the end of a multipart.
fn put_subtype(
    alloc: Global,
    out: &mut Vec<u8>,
    part: &Part,
    extended: bool,
) -> Result<(), AllocError>
    ensures { OnOk result (out.new.items ≡ out.old.items ++ (after_spaces (word_text part.now.content.subkind ∷ multipart_extension extended part.now.content) ++ codes ")")) }
{
    put_next_word(alloc, out, part.content.subkind.as_slice())?;
    put_multipart_extension(alloc, out, &part.content, extended)?;
    out.extend_from_slice(b")")
}

// Appends the end of a part that holds a message.
fn put_message_end(
    alloc: Global,
    out: &mut Vec<u8>,
    part: &Part,
    extended: bool,
) -> Result<(), AllocError>
    ensures { OnOk result (out.new.items ≡ out.old.items ++ (after_spaces (decimal part.now.lines ∷ leaf_extension extended part.now.content) ++ codes ")")) }
{
    put_next_number(out, part.lines as usize)?;
    put_leaf_extension(alloc, out, &part.content, extended)?;
    out.extend_from_slice(b")")
}

// Appends the structures of some parts, with nothing between them.
#[cycle(body)]
fn put_parts(
    alloc: Global,
    out: &mut Vec<u8>,
    text: &[u8],
    parts: &[Part],
    extended: bool,
) -> Result<(), AllocError>
    ensures { OnOk result (Appends (AreBodies text.now extended parts.now) out.old.items out.new.items) }
{
    for part in parts {
        put_part(alloc, out, text, part, extended)?;
    }
    Ok(())
}

// Appends the structure of a part. It goes as deep as the parts nest, which are at most 50 levels of
// multiparts and messages in what `mime_parts::structure` gives.
#[cycle(body)]
fn put_part(
    alloc: Global,
    out: &mut Vec<u8>,
    text: &[u8],
    part: &Part,
    extended: bool,
) -> Result<(), AllocError>
    ensures { OnOk result (Appends (IsBody text.now extended part.now) out.old.items out.new.items) }
{
    match &part.inner {
        Inner::Leaf => put_leaf(alloc, out, part, extended),
        Inner::Parts(parts) => {
            out.push(b'(')?;
            put_parts(alloc, out, text, parts.as_slice(), extended)?;
            put_subtype(alloc, out, part, extended)
        }
        Inner::Message(inner) => {
            let message = inner.get();
            put_leaf_fields(alloc, out, part)?;
            out.push(b' ')?;
            put_header_envelope(alloc, out, slice_of(text, message.head))?;
            out.push(b' ')?;
            put_part(alloc, out, text, message, extended)?;
            put_message_end(alloc, out, part, extended)
        }
    }
}

/// The structure of a part of a text, as `mime_parts::structure` gives the part for the whole text;
/// `extended` with what BODYSTRUCTURE has and BODY has not.
///
/// A part that is no multipart has its type, parameters, identifier, description, encoding and size,
/// a text also its lines, a message its envelope, structure and lines. Of a span that goes on behind
/// the text, what stands in the text counts.
pub fn body(alloc: Global, text: &[u8], part: &Part, extended: bool) -> Result<Vec<u8>, AllocError>
    ensures is { IfOk result (λ v. IsBody text.now extended part.now v.items) }
    ensures only { IfOk result (λ v. IsOnlyBody text.now extended part.now v.items) }
{
    let mut out = Vec::new(alloc);
    put_part(alloc, &mut out, text, part, extended)?;
    Ok(out)
}
