// A message of a unix file, as it is written.
ghost use Rattle.std.specs.Prelude.{◌≡◌, ◌++◌, [], IfOk, OnOk};
ghost use Rattle.std.specs.List.{AllByRecursion};
ghost use Rattle.mail_fields.specs.Keyword.{IsKeyword};
ghost use Rattle.mail_types.specs.Stamps.{utc_stamp};
ghost use Rattle.status_heads.specs.Delimiters.{delimiter_text};
ghost use Rattle.status_heads.specs.HeadTexts.{heads_text};
ghost use Rattle.status_heads.specs.Insertions.{with_fields};
ghost use Rattle.store_index.specs.Told.{record_at};
ghost use Rattle.unix_form.specs.Form.{heads_for, message_text, names_by};
ghost use Rattle.unix_layout.specs.Writing.{in_utc, messages_text, file_text};

use mail_fields::{Bytes, Keyword, Keywords, Stamp, to_utc};
use status_heads::{Base, Heads, fields_bytes, pseudo_bytes, put_delimiter};
use std::alloc::{AllocError, Global};
use store_index::Told;
use store_trait::Info;
use text_forms::store_lf;
use text_lines::{is_empty_line, line_length};

// Appends a text with fields before its first empty line.
#[tactic(auto, using(crate::proofs::Fields::with_line))]
fn put_with_fields(out: &mut Vec<u8>, fields: &[u8], text: &[u8]) -> Result<(), AllocError>
    ensures { OnOk result (out.new.items ≡ out.old.items ++ with_fields fields.now text.now) }
{
    let mut rest = text;
    while !rest.is_empty() {
        let (line, behind) = rest.split_at(line_length(rest));
        if is_empty_line(line) {
            break;
        }
        out.extend_from_slice(line)?;
        rest = behind;
    }
    out.extend_from_slice(fields)?;
    out.extend_from_slice(rest)?;
    Ok(())
}

// The names whose numbers are bits of a number.
#[tactic(auto, using(crate::proofs::Names::names_step))]
fn names_by(alloc: Global, words: u32, names: &[Keyword]) -> Result<Keywords, AllocError>
    ensures { IfOk result (λ found. found ≡ names_by words names.now) }
{
    let mut found = Vec::new(alloc);
    let mut left = words;
    for name in names {
        if left % 2 == 1 {
            found.push(name.copy(alloc)?)?;
        }
        left = left / 2;
    }
    Ok(Keywords::of(found))
}

// The delimiter line of a stamp, in UTC.
fn delimiter(alloc: Global, stamp: Stamp) -> Result<Vec<u8>, AllocError>
    ensures { IfOk result (λ v. v.items ≡ delimiter_text (utc_stamp stamp).day (utc_stamp stamp).second) }
{
    put_delimiter(alloc, to_utc(stamp))
}

// The status fields of a message.
fn fields(alloc: Global, names: &[Keyword], info: &Info) -> Result<Vec<u8>, AllocError>
    ensures { IfOk result (λ v. v.items ≡ heads_text (heads_for names.now (record_at info.now []))) }
{
    let heads = Heads {
        seen_old: info.flags,
        words: names_by(alloc, info.words, names)?,
        uid: Some(info.uid),
    };
    fields_bytes(alloc, &heads)
}

/// Appends a message as it is written in a unix file, whose keywords have these names by number.
pub fn put_message(
    alloc: Global,
    out: &mut Vec<u8>,
    names: &[Keyword],
    info: &Info,
    text: &[u8],
) -> Result<(), AllocError>
    ensures { OnOk result (out.new.items ≡ out.old.items ++ message_text names.now (record_at (in_utc info.now) text.now)) }
{
    let line = delimiter(alloc, info.stamp)?;
    let fields = fields(alloc, names, info)?;
    let stored = store_lf(alloc, text)?;
    out.extend_from_slice(line.as_slice())?;
    put_with_fields(out, fields.as_slice(), stored.as_slice())?;
    out.extend_from_slice(b"\n")?;
    Ok(())
}

// Appends messages with their texts.
fn put_messages(
    alloc: Global,
    out: &mut Vec<u8>,
    names: &[Keyword],
    infos: &[Info],
    texts: &[Bytes],
) -> Result<(), AllocError>
    ensures { OnOk result (out.new.items ≡ out.old.items ++ messages_text names.now infos.now texts.now) }
{
    let count = infos.len().min(texts.len());
    for place in 0..count {
        put_message(alloc, out, names, &infos[place], texts[place].as_slice())?;
    }
    Ok(())
}

fn copied(alloc: Global, names: &[Keyword]) -> Result<Keywords, AllocError>
    ensures names { IfOk result (λ copies. copies ≡ names.now) }
    ensures keywords { IfOk result (λ _. AllByRecursion IsKeyword names.now) }
{
    let mut copies = Vec::new(alloc);
    for name in names {
        copies.push(name.copy(alloc)?)?;
    }
    Ok(Keywords::of(copies))
}

/// A unix file of what is told, with these texts.
pub fn put_file(alloc: Global, told: &Told, texts: &[Bytes]) -> Result<Vec<u8>, AllocError>
    ensures text { IfOk result (λ v. v.items ≡ file_text told.now texts.now) }
    ensures keywords { IfOk result (λ _. AllByRecursion IsKeyword told.now.words) }
{
    let base = Base {
        validity: told.validity(),
        last: told.last(),
        words: copied(alloc, told.words())?,
    };
    let mut out = pseudo_bytes(alloc, &base)?;
    out.extend_from_slice(b"\n")?;
    put_messages(alloc, &mut out, told.words(), told.infos(), texts)?;
    Ok(out)
}
