// The status fields of a message as they are written.
ghost use Rattle.std.specs.Prelude.{◌≡◌, ◌≤◌, ◌++◌, ℕ, List, true, IfOk, IfSome, OnOk};
ghost use Rattle.std.specs.List.{concat, list_all};
ghost use Rattle.text_forms.specs.Forms.{drop_reserved, has_empty_line};
ghost use Rattle.status_heads.specs.HeadTexts.{heads_text, letter_if, lines_of_field, more_text, names_text, spaced_names, status_text, uid_text};
ghost use Rattle.status_heads.specs.Heads.{heads_of};
ghost use Rattle.status_heads.specs.Insertions.{with_fields};
ghost use Rattle.mail_fields.specs.Keyword.{is_keyword};
ghost use Rattle.status_heads.specs.Numbers.{greatest_uid};

use crate::heads::Heads;
use itoa::Buffer;
use mail_fields::Keyword;
use mail_types::Flags;
use std::alloc::{AllocError, Global};

/// The status fields of a message, each on a line that LF ends; a field without a value is left out.
#[tactic(auto, using(crate::proofs::PutBack::read_back, crate::proofs::PutBack::drop_back))]
pub fn put_heads(alloc: Global, heads: &Heads) -> Result<Vec<u8>, AllocError>
    requires uid_low { IfSome heads.now.uid (λ uid. 1 ≤ uid) }
    requires uid_high { IfSome heads.now.uid (λ uid. uid ≤ greatest_uid) }
    ensures text { IfOk result (λ v. v.items ≡ heads_text heads.now) }
    // in a text with an empty line and without reserved fields they are read again, and dropped again
    ensures read { IfOk result (λ v. (text : List ℕ) → has_empty_line text ≡ true → drop_reserved text ≡ text
        → heads_of (with_fields v.items text) ≡ heads.now) }
    ensures dropped { IfOk result (λ v. (text : List ℕ) → has_empty_line text ≡ true → drop_reserved text ≡ text
        → drop_reserved (with_fields v.items text) ≡ text) }
{
    fields_bytes(alloc, heads)
}

/// The same of any heads, also of those that can't be read again: a UID may be 0 or the greatest number.
#[tactic(auto, unfolding(crate::specs::HeadTexts::head_lines))]
pub fn fields_bytes(alloc: Global, heads: &Heads) -> Result<Vec<u8>, AllocError>
    ensures text { IfOk result (λ v. v.items ≡ heads_text heads.now) }
    ensures keywords { IfOk result (λ _. list_all is_keyword heads.now.words ≡ true) }
{
    let status = status_bytes(alloc, heads.seen_old)?;
    let more = more_bytes(alloc, heads.seen_old)?;
    let names = names_bytes(alloc, heads.words.as_slice())?;
    let uid = uid_bytes(alloc, heads.uid)?;
    let mut text = Vec::new(alloc);
    put_field(&mut text, b"Status", status.as_slice())?;
    put_field(&mut text, b"X-Status", more.as_slice())?;
    put_field(&mut text, b"X-Keywords", names.as_slice())?;
    put_field(&mut text, b"X-UID", uid.as_slice())?;
    Ok(text)
}

// Appends a field, if its value has a byte.
#[tactic(auto, unfolding(crate::specs::HeadTexts::field_line))]
fn put_field(out: &mut Vec<u8>, name: &[u8], value: &[u8]) -> Result<(), AllocError>
    ensures { OnOk result (out.new.items ≡ out.old.items ++ concat (lines_of_field name.now value.now)) }
{
    if value.is_empty() {
        return Ok(());
    }
    out.extend_from_slice(name)?;
    out.extend_from_slice(b": ")?;
    out.extend_from_slice(value)?;
    out.extend_from_slice(b"\n")
}

// Appends a letter, if it is set.
fn put_letter(out: &mut Vec<u8>, set: bool, letter: u8) -> Result<(), AllocError>
    ensures { OnOk result (out.new.items ≡ out.old.items ++ letter_if set letter) }
{
    if set {
        out.push(letter)?;
    }
    Ok(())
}

#[tactic(auto, unfolding(crate::specs::HeadTexts::status_text))]
fn status_bytes(alloc: Global, flags: Flags) -> Result<Vec<u8>, AllocError>
    ensures { IfOk result (λ v. v.items ≡ status_text flags) }
{
    let mut letters = Vec::new(alloc);
    put_letter(&mut letters, flags.seen, b'R')?;
    put_letter(&mut letters, flags.old, b'O')?;
    Ok(letters)
}

#[tactic(auto, unfolding(crate::specs::HeadTexts::more_text))]
fn more_bytes(alloc: Global, flags: Flags) -> Result<Vec<u8>, AllocError>
    ensures { IfOk result (λ v. v.items ≡ more_text flags) }
{
    let mut letters = Vec::new(alloc);
    put_letter(&mut letters, flags.deleted, b'D')?;
    put_letter(&mut letters, flags.flagged, b'F')?;
    put_letter(&mut letters, flags.answered, b'A')?;
    put_letter(&mut letters, flags.draft, b'T')?;
    Ok(letters)
}

fn names_bytes(alloc: Global, names: &[Keyword]) -> Result<Vec<u8>, AllocError>
    ensures text { IfOk result (λ v. v.items ≡ names_text names.now) }
    ensures keywords { IfOk result (λ _. list_all is_keyword names.now ≡ true) }
{
    let mut text = Vec::new(alloc);
    if let Some((first, others)) = names.split_first() {
        text.extend_from_slice(first.as_slice())?;
        put_spaced(&mut text, others)?;
    }
    Ok(text)
}

// Appends a space and a name, for each name.
pub(crate) fn put_spaced(out: &mut Vec<u8>, names: &[Keyword]) -> Result<(), AllocError>
    ensures text { OnOk result (out.new.items ≡ out.old.items ++ spaced_names names.now) }
    ensures keywords { OnOk result (list_all is_keyword names.now ≡ true) }
{
    for name in names {
        out.extend_from_slice(b" ")?;
        out.extend_from_slice(name.as_slice())?;
    }
    Ok(())
}

fn uid_bytes(alloc: Global, uid: Option<u32>) -> Result<Vec<u8>, AllocError>
    ensures { IfOk result (λ v. v.items ≡ uid_text uid) }
{
    match uid {
        Some(uid) => {
            let mut digits = Buffer::new();
            Vec::from_slice(alloc, digits.format(uid).as_bytes())
        }
        None => Ok(Vec::new(alloc)),
    }
}
