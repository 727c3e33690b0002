// Whether two items of FETCH ask for the same.
ghost use Rattle.std.specs.Prelude.{◌≡◌, ◌↔◌, IsTrue};

use crate::item::Item;
use crate::section::{Section, SectionKind};
use mail_fields::{ByteStrings, Bytes};

// Whether two names are the same bytes.
fn is_same_name(one: &Bytes, other: &Bytes) -> bool
    ensures { IsTrue result ↔ (one.now ≡ other.now) }
{
    one.as_slice() == other.as_slice()
}

// Whether two lists have the same names in the same order.
fn are_same_names(one: &ByteStrings, other: &ByteStrings) -> bool
    ensures { IsTrue result ↔ (one.now ≡ other.now) }
{
    let (one, other) = (one.as_slice(), other.as_slice());
    if one.len() != other.len() {
        return false;
    }
    for place in 0..one.len() {
        if !is_same_name(&one[place], &other[place]) {
            return false;
        }
    }
    true
}

impl SectionKind {
    // Whether the two ask for the same of a part.
    fn is_same(&self, other: &SectionKind) -> bool
        ensures { IsTrue result ↔ (self.now ≡ other.now) }
    {
        match (self, other) {
            (SectionKind::All, SectionKind::All) => true,
            (SectionKind::Header, SectionKind::Header) => true,
            (SectionKind::Text, SectionKind::Text) => true,
            (SectionKind::Mime, SectionKind::Mime) => true,
            (SectionKind::Fields(names), SectionKind::Fields(others)) => are_same_names(
                names, others,
            ),
            (SectionKind::FieldsNot(names), SectionKind::FieldsNot(others)) => are_same_names(
                names, others,
            ),
            _ => false,
        }
    }
}

impl Section {
    /// Whether the two are the same section, names of fields byte for byte.
    pub fn is_same(&self, other: &Section) -> bool
        ensures { IsTrue result ↔ (self.now ≡ other.now) }
    {
        self.parts.as_slice() == other.parts.as_slice() && self.kind.is_same(&other.kind)
    }
}

// Whether two ranges of bytes are the same, or both none.
fn is_same_range(one: Option<(u32, u32)>, other: Option<(u32, u32)>) -> bool
    ensures { IsTrue result ↔ (one ≡ other) }
{
    match (one, other) {
        (Some(one), Some(other)) => one.0 == other.0 && one.1 == other.1,
        (None, None) => true,
        _ => false,
    }
}

impl Item {
    /// Whether the two are the same item: `BODY[]` and `BODY.PEEK[]` are two.
    pub fn is_same(&self, other: &Item) -> bool
        ensures { IsTrue result ↔ (self.now ≡ other.now) }
    {
        match (self, other) {
            (Item::Flags, Item::Flags) => true,
            (Item::InternalDate, Item::InternalDate) => true,
            (Item::Size, Item::Size) => true,
            (Item::Envelope, Item::Envelope) => true,
            (Item::Body, Item::Body) => true,
            (Item::BodyStructure, Item::BodyStructure) => true,
            (Item::Uid, Item::Uid) => true,
            (Item::Rfc822, Item::Rfc822) => true,
            (Item::Rfc822Header, Item::Rfc822Header) => true,
            (Item::Rfc822Text, Item::Rfc822Text) => true,
            (Item::Part(section, range, peek), Item::Part(other, span, peeks)) => {
                section.is_same(other) && is_same_range(*range, *span) && *peek == *peeks
            }
            _ => false,
        }
    }
}
