// The metadata of a mailbox.
ghost use Rattle.std.specs.Prelude.{◌≡◌, ◌≢◌, ◌<◌, ◌≤◌, ◌^◌, ◌++◌, Some, None, true, OnOk, IfOk, IfSome, MatchOption, length};
ghost use Rattle.mix_files.specs.Metadata.{meta_of, meta_text, kept_lines, number_first, number_of_line, number_line, names_alone, names_of_line, names_line};
ghost use Rattle.std.specs.List.{list_all};
ghost use Rattle.mail_fields.specs.Keyword.{is_keyword};
ghost use Rattle.mail_fields.specs.Names.{are_distinct};

use crate::line::{line_parts, next_line};
use crate::names::{put_names, read_names};
use mail_fields::{Keywords, put_hex, read_hex};
use std::alloc::{AllocError, Global};

/// What holds of a mix mailbox as a whole.
///
/// `sequence` is the greatest modification number, `last` the highest UID, `file` the number of
/// the data file that new messages go to, and `words` the names of the keywords.
#[derive(Debug, Drop)]
pub struct Meta {
    pub sequence: u32,
    pub validity: u32,
    pub last: u32,
    pub file: u32,
    pub words: Keywords,
}

/// The metadata that a text is.
#[tactic(auto, unfolding(crate::specs::Metadata::meta_of_lines))]
pub fn read_meta(alloc: Global, bytes: &[u8]) -> Result<Option<Meta>, AllocError>
    ensures value { IfOk result (λ found. found ≡ meta_of bytes.now) }
    // so that it can be written again
    ensures validity { IfOk result (λ found. IfSome found (λ meta. meta.validity ≢ 0)) }
    ensures few { IfOk result (λ found. IfSome found (λ meta. length meta.words ≤ 30)) }
    ensures differ { IfOk result (λ found. IfSome found (λ meta. are_distinct meta.words ≡ true)) }
{
    let Some((sequence, rest)) = read_number(bytes, b'S') else {
        return Ok(None);
    };
    let Some((validity, rest)) = read_number(rest, b'V') else {
        return Ok(None);
    };
    let Some((last, rest)) = read_number(rest, b'L') else {
        return Ok(None);
    };
    let Some((file, rest)) = read_number(rest, b'N') else {
        return Ok(None);
    };
    let Some(words) = read_names_alone(alloc, rest)? else {
        return Ok(None);
    };
    if validity == 0 {
        return Ok(None);
    }
    Ok(Some(Meta {
        sequence,
        validity,
        last,
        file,
        words,
    }))
}

// The number of the next line with a meaning, and what stands behind it.
fn read_number(text: &[u8], letter: u8) -> Option<(u32, &[u8])>
    ensures { MatchOption result (number_first letter (kept_lines text.now) ≡ None)
        (λ found. number_first letter (kept_lines text.now) ≡ Some (found.0, kept_lines found.1.now)) }
{
    let (line, behind) = next_line(text)?;
    let number = read_number_line(line, letter)?;
    Some((number, behind))
}

// The number of a line.
#[tactic(auto, unfolding(crate::specs::Metadata::number_of_line))]
fn read_number_line(line: &[u8], letter: u8) -> Option<u32>
    ensures { result ≡ number_of_line letter line.now }
{
    let (first, digits) = line_parts(line)?;
    if first != letter || digits.len() != 8 {
        return None;
    }
    let number = read_hex(digits, 8)?;
    Some(number as u32)
}

// The names of the next line with a meaning, behind which none stands.
fn read_names_alone(alloc: Global, text: &[u8]) -> Result<Option<Keywords>, AllocError>
    ensures value { IfOk result (λ found. found ≡ names_alone (kept_lines text.now)) }
    ensures few { IfOk result (λ found. IfSome found (λ names. length names ≤ 30)) }
    ensures differ { IfOk result (λ found. IfSome found (λ names. are_distinct names ≡ true)) }
{
    let Some((line, behind)) = next_line(text) else {
        return Ok(None);
    };
    if next_line(behind).is_some() {
        return Ok(None);
    }
    read_names_line(alloc, line)
}

// The names of a line.
#[tactic(auto, unfolding(crate::specs::Metadata::names_of_line))]
fn read_names_line(alloc: Global, line: &[u8]) -> Result<Option<Keywords>, AllocError>
    ensures value { IfOk result (λ found. found ≡ names_of_line line.now) }
    ensures few { IfOk result (λ found. IfSome found (λ names. length names ≤ 30)) }
    ensures differ { IfOk result (λ found. IfSome found (λ names. are_distinct names ≡ true)) }
{
    match line_parts(line) {
        Some((b'K', names)) => read_names(alloc, names),
        _ => Ok(None),
    }
}

/// The text of metadata, which is read again.
#[tactic(auto, unfolding(crate::specs::Metadata::meta_text))]
pub fn put_meta(alloc: Global, meta: &Meta) -> Result<Vec<u8>, AllocError>
    requires validity { meta.now.validity ≢ 0 }
    requires few { length meta.now.words ≤ 30 }
    requires differ { are_distinct meta.now.words ≡ true }
    ensures text { IfOk result (λ v. v.items ≡ meta_text meta.now) }
    ensures read { IfOk result (λ v. meta_of v.items ≡ Some meta.now) }
{
    let mut text = Vec::new(alloc);
    put_number(&mut text, b'S', meta.sequence)?;
    put_number(&mut text, b'V', meta.validity)?;
    put_number(&mut text, b'L', meta.last)?;
    put_number(&mut text, b'N', meta.file)?;
    put_names_line(&mut text, &meta.words)?;
    Ok(text)
}

// Appends the line of a number.
fn put_number(out: &mut Vec<u8>, letter: u8, number: u32) -> Result<(), AllocError>
    ensures { OnOk result (out.new.items ≡ out.old.items ++ number_line letter number) }
{
    let mut line = [letter, 0, 0, 0, 0, 0, 0, 0, 0, b'\r', b'\n'];
    put_hex(&mut line, 1, 8, u64::from(number));
    out.extend_from_slice(&line)
}

// Appends the line of names.
#[tactic(auto, unfolding(crate::specs::Metadata::names_line))]
fn put_names_line(out: &mut Vec<u8>, names: &Keywords) -> Result<(), AllocError>
    ensures text { OnOk result (out.new.items ≡ out.old.items ++ names_line names.now) }
    ensures keywords { OnOk result (list_all is_keyword names.now ≡ true) }
{
    out.extend_from_slice(b"K")?;
    put_names(out, names.as_slice())?;
    out.extend_from_slice(b"\r\n")
}
