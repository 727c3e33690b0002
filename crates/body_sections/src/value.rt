// The values of items.
ghost use Rattle.std.specs.Prelude.{◌≡◌, ◌++◌, ◌<◌, ◌^◌, length, take, drop, OnOk, IfSome};
ghost use Rattle.mail_fields.specs.Stamps.{parts_of};
ghost use Rattle.mail_fields.specs.ImapDate.{imap_date_text};
ghost use Rattle.head_fields.specs.Header.{header_alone};
ghost use Rattle.mime_parts.specs.Parts.{IsStructure, body_of};
ghost use Rattle.structure_text.specs.Strings.{quoted_text};
ghost use Rattle.structure_text.specs.Envelopes.{IsEnvelope};
ghost use Rattle.structure_text.specs.Bodies.{IsBody};
ghost use Rattle.structure_text.specs.Appending.{Appends};
ghost use Rattle.looked_message.specs.Messages.{looked_at};
ghost use Rattle.body_sections.specs.Values.{IsBodyOf, IsValue};

use crate::flags::put_flags;
use crate::literal::put_section;
use head_fields::{Span, body_start};
use imap_arguments::Item;
use looked_message::Looked;
use mail_fields::{Stamp, put_imap_date};
use mime_parts::{Part, structure};
use std::alloc::{AllocError, Global};
use structure_text::{body, envelope, put_literal, put_number, put_quoted};

fn put_date(out: &mut Vec<u8>, stamp: Stamp) -> Result<(), AllocError>
    ensures { OnOk result (out.new.items ≡ out.old.items ++ quoted_text (imap_date_text (parts_of stamp))) }
{
    let mut date = [0; 26];
    put_imap_date(&mut date, 0, stamp);
    put_quoted(out, &date)
}

// The header of a text, with the empty line that ends it.
fn header_alone(text: &[u8]) -> &[u8]
    ensures { result.now ≡ header_alone text.now }
{
    &text[..body_start(text)]
}

// The body behind the header.
fn body_of(text: &[u8]) -> &[u8]
    ensures { result.now ≡ body_of text.now }
{
    &text[body_start(text)..]
}

fn put_envelope(alloc: Global, out: &mut Vec<u8>, header: &[u8]) -> Result<(), AllocError>
    ensures { OnOk result (Appends (IsEnvelope header.now) out.old.items out.new.items) }
{
    let span = Span {
        from: 0,
        to: header.len(),
    };
    let written = envelope(alloc, header, span)?;
    out.extend_from_slice(written.as_slice())
}

fn put_structure(
    alloc: Global,
    out: &mut Vec<u8>,
    text: &[u8],
    part: &Part,
    extended: bool,
) -> Result<(), AllocError>
    requires { IsStructure text.now part.now }
    ensures { OnOk result (Appends (IsBodyOf text.now extended) out.old.items out.new.items) }
{
    let written = body(alloc, text, part, extended)?;
    out.extend_from_slice(written.as_slice())
}

// Appends the structure of a text, which is read where it wasn't given.
fn put_body(
    alloc: Global,
    out: &mut Vec<u8>,
    text: &[u8],
    part: Option<&Part>,
    extended: bool,
) -> Result<(), AllocError>
    requires size { length text.now < 2 ^ 32 }
    requires part { IfSome part (λ p. IsStructure text.now p.now) }
    ensures { OnOk result (Appends (IsBodyOf text.now extended) out.old.items out.new.items) }
{
    if let Some(part) = part {
        return put_structure(alloc, out, text, part, extended);
    }
    let part = structure(alloc, text)?;
    put_structure(alloc, out, text, &part, extended)
}

/// Appends the value of an item. The text's structure is read only where it tells the item and wasn't given.
pub(crate) fn put_value(
    alloc: Global,
    out: &mut Vec<u8>,
    item: &Item,
    message: &Looked<'_>,
    part: Option<&Part>,
) -> Result<(), AllocError>
    requires size { length message.now.text.now < 2 ^ 32 }
    requires part { IfSome part (λ p. IsStructure message.now.text.now p.now) }
    ensures { OnOk result (Appends (IsValue item.now (looked_at message.now)) out.old.items out.new.items) }
{
    let info = &message.info;
    let text = message.text;
    match item {
        Item::Flags => put_flags(alloc, out, message),
        Item::InternalDate => put_date(out, info.stamp),
        Item::Size => put_number(out, info.size as usize),
        Item::Envelope => put_envelope(alloc, out, header_alone(text)),
        Item::Body => put_body(alloc, out, text, part, false),
        Item::BodyStructure => put_body(alloc, out, text, part, true),
        Item::Uid => put_number(out, info.uid as usize),
        Item::Rfc822 => put_literal(out, text),
        Item::Rfc822Header => put_literal(out, header_alone(text)),
        Item::Rfc822Text => put_literal(out, body_of(text)),
        Item::Part(section, partial, _) => put_section(alloc, out, text, part, section, *partial),
    }
}
