// What of a message's text an item needs.
ghost use Rattle.std.specs.Prelude.{◌≡◌};
ghost use Rattle.body_sections.specs.Needs.{partial_need, section_need, item_need, IsEnough};

use imap_arguments::{Item, Section, SectionKind};

/// What of a message's text tells an item.
#[derive(Clone, Copy, Debug, PartialEq, Eq)]
pub enum Need {
    Nothing,
    /// The header, with the empty line that ends it.
    Front,
    /// The bytes from one offset up to another.
    Part(u32, u32),
    Whole,
}

// Where a partial of a text of so many bytes begins and ends.
fn partial_need(partial: Option<(u32, u32)>, size: u32) -> Need
    ensures { result ≡ partial_need partial size }
{
    match partial {
        None => Need::Part(0, size),
        Some((offset, count)) => {
            Need::Part(offset.min(size), offset.saturating_add(count).min(size))
        }
    }
}

fn section_need(section: &Section, partial: Option<(u32, u32)>, size: u32) -> Need
    ensures { result ≡ section_need section.now.parts section.now.kind partial size }
{
    if !section.parts.as_slice().is_empty() {
        return Need::Whole;
    }
    match &section.kind {
        SectionKind::All => partial_need(partial, size),
        SectionKind::Header | SectionKind::Fields(_) | SectionKind::FieldsNot(_) => Need::Front,
        SectionKind::Text | SectionKind::Mime => Need::Whole,
    }
}

fn item_need(item: &Item, size: u32) -> Need
    ensures { result ≡ item_need item.now size }
{
    match item {
        Item::Flags | Item::InternalDate | Item::Size | Item::Uid => Need::Nothing,
        Item::Envelope | Item::Rfc822Header => Need::Front,
        Item::Rfc822 => Need::Part(0, size),
        Item::Part(section, partial, _) => section_need(section, *partial, size),
        Item::Body | Item::BodyStructure | Item::Rfc822Text => Need::Whole,
    }
}

/// What an item needs of a text of so many bytes.
///
/// Over what it needs it is as over the whole text. Where it needs a part of the text, it is what `part_head`
/// gives for the length of the part, and that part.
pub fn needed(item: &Item, size: u32) -> Need
    ensures value { result ≡ item_need item.now size }
    ensures enough { IsEnough item.now size result }
{
    item_need(item, size)
}
