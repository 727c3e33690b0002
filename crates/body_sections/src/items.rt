// What FETCH says of a message.
ghost use Rattle.std.specs.Prelude.{◌≡◌, ◌++◌, ◌<◌, ◌^◌, length, IfOk, OnOk, IfSome};
ghost use Rattle.mime_parts.specs.Parts.{IsStructure};
ghost use Rattle.structure_text.specs.Appending.{Appends};
ghost use Rattle.looked_message.specs.Messages.{looked_at};
ghost use Rattle.body_sections.specs.Items.{IsItem, IsOnlyItem, AreMoreItems, AreSpacedItems};

use crate::label::put_label;
use crate::value::put_value;
use imap_arguments::Item;
use looked_message::Looked;
use mime_parts::{Part, structure};
use std::alloc::{AllocError, Global};

// Appends an item.
fn put_item(
    alloc: Global,
    out: &mut Vec<u8>,
    item: &Item,
    message: &Looked<'_>,
    part: Option<&Part>,
) -> Result<(), AllocError>
    requires size { length message.now.text.now < 2 ^ 32 }
    requires part { IfSome part (λ p. IsStructure message.now.text.now p.now) }
    ensures { OnOk result (Appends (IsItem item.now (looked_at message.now)) out.old.items out.new.items) }
{
    put_label(out, item)?;
    out.push(b' ')?;
    put_value(alloc, out, item, message, part)
}

/// An item of a message: its name, a space and its value.
pub fn item(alloc: Global, item: &Item, message: &Looked<'_>) -> Result<Vec<u8>, AllocError>
    requires { length message.now.text.now < 2 ^ 32 }
    ensures is { IfOk result (λ v. IsItem item.now (looked_at message.now) v.items) }
    ensures only { IfOk result (λ v. IsOnlyItem item.now (looked_at message.now) v.items) }
{
    let mut out = Vec::new(alloc);
    put_item(alloc, &mut out, item, message, None)?;
    Ok(out)
}

// Whether the structure of the text tells an item.
fn uses_structure(item: &Item) -> bool {
    match item {
        Item::Body | Item::BodyStructure => true,
        Item::Part(section, _, _) => !section.parts.as_slice().is_empty(),
        Item::Flags
        | Item::InternalDate
        | Item::Size
        | Item::Envelope
        | Item::Uid
        | Item::Rfc822
        | Item::Rfc822Header
        | Item::Rfc822Text => false,
    }
}

// The structure of a text, where it tells one of the items.
fn structure_for(alloc: Global, items: &[Item], text: &[u8]) -> Result<Option<Part>, AllocError>
    requires { length text.now < 2 ^ 32 }
    ensures { IfOk result (λ found. IfSome found (λ part. IsStructure text.now part)) }
{
    if items.iter().any(uses_structure) {
        Ok(Some(structure(alloc, text)?))
    } else {
        Ok(None)
    }
}

// Appends items, each behind a space.
fn put_more_items(
    alloc: Global,
    out: &mut Vec<u8>,
    items: &[Item],
    message: &Looked<'_>,
    part: Option<&Part>,
) -> Result<(), AllocError>
    requires size { length message.now.text.now < 2 ^ 32 }
    requires part { IfSome part (λ p. IsStructure message.now.text.now p.now) }
    ensures { OnOk result (Appends (AreMoreItems items.now (looked_at message.now)) out.old.items out.new.items) }
{
    for item in items {
        out.push(b' ')?;
        put_item(alloc, out, item, message, part)?;
    }
    Ok(())
}

// Appends items with one space between.
fn put_spaced_items(
    alloc: Global,
    out: &mut Vec<u8>,
    items: &[Item],
    message: &Looked<'_>,
    part: Option<&Part>,
) -> Result<(), AllocError>
    requires size { length message.now.text.now < 2 ^ 32 }
    requires part { IfSome part (λ p. IsStructure message.now.text.now p.now) }
    ensures { OnOk result (Appends (AreSpacedItems items.now (looked_at message.now)) out.old.items out.new.items) }
{
    match items {
        [] => Ok(()),
        [first, more @ ..] => {
            put_item(alloc, out, first, message, part)?;
            put_more_items(alloc, out, more, message, part)
        }
    }
}

/// Appends items of a message with one space between. The structure of the text is read at most once.
pub fn put_items(
    alloc: Global,
    out: &mut Vec<u8>,
    items: &[Item],
    message: &Looked<'_>,
) -> Result<(), AllocError>
    requires { length message.now.text.now < 2 ^ 32 }
    ensures { OnOk result (Appends (AreSpacedItems items.now (looked_at message.now)) out.old.items out.new.items) }
{
    let part = structure_for(alloc, items, message.text)?;
    put_spaced_items(alloc, out, items, message, part.as_ref())
}
