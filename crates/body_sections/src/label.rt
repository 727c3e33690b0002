// How items are named.
ghost use Rattle.std.specs.Prelude.{◌≡◌, ◌++◌, map, codes, decimal, IfOk, OnOk};
ghost use Rattle.std.specs.List.{list_all};
ghost use Rattle.mail_fields.specs.Keyword.{is_atom};
ghost use Rattle.imap_reply.specs.Texts.{in_parentheses, behind_spaces};
ghost use Rattle.body_sections.specs.Labels.{is_bare, field_text, kind_words, behind_dots, dotted, section_name, offset_text, item_label, literal_head};

use imap_arguments::{Item, Section, SectionKind, is_atom_byte};
use mail_fields::Bytes;
use std::alloc::{AllocError, Global};
use structure_text::{put_number, put_string};

fn are_atom_bytes(name: &[u8]) -> bool
    ensures { result ≡ list_all is_atom name.now }
{
    name.iter().all(|byte| is_atom_byte(*byte))
}

// Appends the name of a field as the client gave it.
#[tactic(auto, unfolding(crate::specs::Labels::field_text))]
fn put_field_name(out: &mut Vec<u8>, name: &[u8]) -> Result<(), AllocError>
    ensures { OnOk result (out.new.items ≡ out.old.items ++ field_text name.now) }
{
    if !name.is_empty() && are_atom_bytes(name) {
        out.extend_from_slice(name)
    } else {
        put_string(out, name)
    }
}

// Appends the names of fields in parentheses.
fn put_field_names(out: &mut Vec<u8>, names: &[Bytes]) -> Result<(), AllocError>
    ensures { OnOk result (out.new.items ≡ out.old.items ++ in_parentheses (map field_text names.now)) }
{
    let Some((first, more)) = names.split_first() else {
        return out.extend_from_slice(b"()");
    };
    out.push(b'(')?;
    put_field_name(out, first.as_slice())?;
    for name in more {
        out.push(b' ')?;
        put_field_name(out, name.as_slice())?;
    }
    out.extend_from_slice(b")")
}

// Appends a word and the names of fields.
fn put_fields(out: &mut Vec<u8>, word: &[u8], names: &[Bytes]) -> Result<(), AllocError>
    ensures { OnOk result (out.new.items ≡ out.old.items ++ (word.now ++ in_parentheses (map field_text names.now))) }
{
    out.extend_from_slice(word)?;
    put_field_names(out, names)
}

// Appends the word of what is asked, if it has one.
fn put_kind(out: &mut Vec<u8>, kind: &SectionKind) -> Result<(), AllocError>
    ensures { OnOk result (out.new.items ≡ out.old.items ++ dotted (kind_words kind.now)) }
{
    match kind {
        SectionKind::All => Ok(()),
        SectionKind::Header => out.extend_from_slice(b"HEADER"),
        SectionKind::Fields(names) => put_fields(out, b"HEADER.FIELDS ", names.as_slice()),
        SectionKind::FieldsNot(names) => put_fields(out, b"HEADER.FIELDS.NOT ", names.as_slice()),
        SectionKind::Text => out.extend_from_slice(b"TEXT"),
        SectionKind::Mime => out.extend_from_slice(b"MIME"),
    }
}

// Appends a dot and the word, if there is one.
fn put_next_kind(out: &mut Vec<u8>, kind: &SectionKind) -> Result<(), AllocError>
    ensures { OnOk result (out.new.items ≡ out.old.items ++ behind_dots (kind_words kind.now)) }
{
    if let SectionKind::All = kind {
        return Ok(());
    }
    out.push(b'.')?;
    put_kind(out, kind)
}

// Appends part numbers and a word, with dots between them.
#[tactic(auto, using(crate::proofs::Writing::dots_both))]
fn put_section_name(
    out: &mut Vec<u8>,
    numbers: &[u32],
    kind: &SectionKind,
) -> Result<(), AllocError>
    ensures { OnOk result (out.new.items ≡ out.old.items ++ dotted (map decimal numbers.now ++ kind_words kind.now)) }
{
    let Some((first, more)) = numbers.split_first() else {
        return put_kind(out, kind);
    };
    put_number(out, *first as usize)?;
    for number in more {
        out.push(b'.')?;
        put_number(out, *number as usize)?;
    }
    put_next_kind(out, kind)
}

fn put_offset(out: &mut Vec<u8>, partial: Option<(u32, u32)>) -> Result<(), AllocError>
    ensures { OnOk result (out.new.items ≡ out.old.items ++ offset_text partial) }
{
    if let Some((offset, _)) = partial {
        out.push(b'<')?;
        put_number(out, offset as usize)?;
        out.push(b'>')?;
    }
    Ok(())
}

// Appends the name of a section, perhaps of a part of it.
fn put_part_label(
    out: &mut Vec<u8>,
    section: &Section,
    partial: Option<(u32, u32)>,
) -> Result<(), AllocError>
    ensures { OnOk result (out.new.items ≡ out.old.items ++ (codes "BODY[" ++ (section_name section.now ++ (codes "]" ++ offset_text partial)))) }
{
    out.extend_from_slice(b"BODY[")?;
    put_section_name(out, section.parts.as_slice(), &section.kind)?;
    out.push(b']')?;
    put_offset(out, partial)
}

/// Appends the name of an item.
pub(crate) fn put_label(out: &mut Vec<u8>, item: &Item) -> Result<(), AllocError>
    ensures { OnOk result (out.new.items ≡ out.old.items ++ item_label item.now) }
{
    match item {
        Item::Flags => out.extend_from_slice(b"FLAGS"),
        Item::InternalDate => out.extend_from_slice(b"INTERNALDATE"),
        Item::Size => out.extend_from_slice(b"RFC822.SIZE"),
        Item::Envelope => out.extend_from_slice(b"ENVELOPE"),
        Item::Body => out.extend_from_slice(b"BODY"),
        Item::BodyStructure => out.extend_from_slice(b"BODYSTRUCTURE"),
        Item::Uid => out.extend_from_slice(b"UID"),
        Item::Rfc822 => out.extend_from_slice(b"RFC822"),
        Item::Rfc822Header => out.extend_from_slice(b"RFC822.HEADER"),
        Item::Rfc822Text => out.extend_from_slice(b"RFC822.TEXT"),
        Item::Part(section, partial, _) => put_part_label(out, section, *partial),
    }
}

/// What stands before the bytes of an item that is a literal of so many bytes.
///
/// Where `needed` says a part of the text, this and the part are the item.
pub fn part_head(alloc: Global, item: &Item, length: u32) -> Result<Vec<u8>, AllocError>
    ensures { IfOk result (λ v. v.items ≡ literal_head item.now length) }
{
    let mut out = Vec::new(alloc);
    put_label(&mut out, item)?;
    out.extend_from_slice(b" {")?;
    put_number(&mut out, length as usize)?;
    out.extend_from_slice(b"}\r\n")?;
    Ok(out)
}
