// A unix file, as it is read.
ghost use Rattle.std.specs.Prelude.{◌≡◌, ◌≤◌, [], ◌∷◌, Bool, true, None, length, map, drop, ◌<◌, IfOk, IfSome, MatchOption};
ghost use Rattle.mail_fields.specs.DelimiterLine.{is_delimiter_line};
ghost use Rattle.text_forms.specs.Lines.{clean_byte};
ghost use Rattle.text_lines.specs.Lines.{lines_of};
ghost use Rattle.mail_fields.specs.Names.{are_distinct};
ghost use Rattle.unix_form.specs.Form.{file_of, file_in, contents_in, names_of_base, last_of_base};
ghost use Rattle.store_index.specs.Opened.{contents_at};
ghost use Rattle.file_store.specs.Standing.{IsSizedBy};
ghost use Rattle.unix_form.specs.Messages.{cut_lines, messages_in, raw_text, without_last_empty};
ghost use Rattle.unix_layout.specs.Files.{IsFoundIn, IsFoundText};

use crate::reading::{next_run, read_messages};
use mail_fields::{Bytes, Keywords, is_delimiter_line};
use status_heads::{Base, read_base};
use std::alloc::{AllocError, Global};
use store_index::Found;
use text_lines::line_length;

/// What a file says, with the texts of its messages.
#[derive(Debug, Drop)]
pub struct FileFound {
    pub found: Found,
    pub texts: Vec<Bytes>,
}

// The mailbox whose base this is, if there is one, and whose messages stand in a text.
fn read_behind(alloc: Global, text: &[u8], base: Option<Base>) -> Result<FileFound, AllocError>
    requires begins { (cut_lines (lines_of text.now)).loose ≡ [] }
    requires few { length (names_of_base base) ≤ 30 }
    requires distinct { are_distinct (names_of_base base) ≡ true }
    ensures says { IfOk result (λ f. (has : Bool) → contents_at f.found f.texts.items
        ≡ contents_in (record { base = base; has_pseudo = has; messages = (cut_lines (lines_of text.now)).messages })) }
    ensures sized { IfOk result (λ f. IsSizedBy f.found.infos.items f.texts.items) }
    ensures few { IfOk result (λ f. length f.found.words ≤ 30) }
{
    let (validity, last, names) = match base {
        Some(base) => (Some(base.validity), base.last, base.words),
        None => (None, 0, Keywords::of(Vec::new(alloc))),
    };
    let all = read_messages(alloc, text, names)?;
    let found = Found {
        validity,
        last,
        words: all.names,
        infos: all.infos,
    };
    Ok(FileFound {
        found,
        texts: all.texts,
    })
}

// The mailbox of a text that begins with a delimiter line.
fn read_first(alloc: Global, text: &[u8]) -> Result<FileFound, AllocError>
    requires some { 0 < length text.now }
    requires begins { (cut_lines (lines_of text.now)).loose ≡ [] }
    ensures found { IfOk result (λ f. IsFoundText text.now f.found f.texts.items) }
    ensures few { IfOk result (λ f. length f.found.words ≤ 30) }
{
    let behind = text.split_at(line_length(text)).1;
    let run = next_run(behind);
    let raw = behind.split_at(run.text).0;
    match read_base(alloc, raw, b"X-IMAP")? {
        Some(base) => {
            let found = read_behind(alloc, behind.split_at(run.whole).1, Some(base))?;
            Ok(found)
        }
        None => {
            let plain = read_base(alloc, raw, b"X-IMAPbase")?;
            let found = read_behind(alloc, text, plain)?;
            Ok(found)
        }
    }
}

// What a text without NUL says, and none where it is no file.
pub(crate) fn read_clean(alloc: Global, text: &[u8]) -> Result<Option<FileFound>, AllocError>
    ensures found { IfOk result (λ o. MatchOption o (messages_in (lines_of text.now) ≡ None) (λ f. IsFoundText text.now f.found f.texts.items)) }
    ensures few { IfOk result (λ o. IfSome o (λ f. length f.found.words ≤ 30)) }
{
    if text.is_empty() {
        return Ok(Some(read_behind(alloc, text, None)?));
    }
    if !is_delimiter_line(text.split_at(line_length(text)).0) {
        return Ok(None);
    }
    Ok(Some(read_first(alloc, text)?))
}
