// The messages of a unix file, as they are read.
ghost use Rattle.std.specs.Prelude.{◌≡◌, ◌≤◌, [], true, if◌then◌else◌, length, take, drop, IfOk};
ghost use Rattle.std.specs.List.{concat};
ghost use Rattle.text_lines.specs.Lines.{is_empty_line, lines_of};
ghost use Rattle.mail_fields.specs.Names.{are_distinct};
ghost use Rattle.mail_types.specs.Stamps.{utc_stamp};
ghost use Rattle.store_index.specs.Told.{record_at, records_at};
ghost use Rattle.unix_form.specs.Messages.{cut_lines, without_last_empty};
ghost use Rattle.unix_form.specs.Form.{found_messages};
ghost use Rattle.file_store.specs.Standing.{IsSizedBy};
ghost use Rattle.unix_layout.specs.Reading.{found_heads, found_record};

use mail_fields::{Bytes, Keywords, Stamp, is_delimiter_line, read_from_date, to_utc};
use status_heads::read_numbered_heads;
use std::alloc::{AllocError, Global};
use store_trait::Info;
use text_forms::unix_form;
use text_lines::{is_empty_line, line_length};

/// How far the lines go up to the next delimiter line, and how far without a last one that is empty.
#[derive(Clone, Copy, Debug)]
pub struct Run {
    pub whole: usize,
    pub text: usize,
}

// Where the text of a message ends, if this is its last line.
fn kept_to(line: &[u8], from: usize, to: usize) -> usize
    ensures { result ≡ if is_empty_line line.now then from else to }
{
    if is_empty_line(line) { from } else { to }
}

// The lines before the first delimiter line of a text.
pub(crate) fn next_run(text: &[u8]) -> Run
    ensures within { result.whole ≤ length text.now }
    ensures below { result.text ≤ length text.now }
    ensures text { take result.text text.now ≡ concat (without_last_empty (cut_lines (lines_of text.now)).loose) }
    ensures loose { (cut_lines (lines_of (drop result.whole text.now))).loose ≡ [] }
    ensures rest { (cut_lines (lines_of (drop result.whole text.now))).messages ≡ (cut_lines (lines_of text.now)).messages }
{
    let mut whole = 0;
    let mut kept = 0;
    while whole < text.len() {
        let rest = &text[whole..];
        let width = line_length(rest);
        let line = &rest[..width];
        if is_delimiter_line(line) {
            break;
        }
        kept = kept_to(line, whole, whole + width);
        whole += width;
    }
    Run { whole, text: kept }
}

// A message that was found, and the names that are known behind it.
#[derive(Debug, Drop)]
pub struct FoundMessage {
    pub names: Keywords,
    pub info: Info,
    pub text: Bytes,
}

#[tactic(auto, using(mail_types::proofs::Stamps::same_stamp))]
fn in_utc(stamp: Stamp) -> Stamp
    ensures { result ≡ utc_stamp stamp }
{
    to_utc(stamp)
}

// The size of a text. Want of memory stands for 4 GiB and more, which no text of a file of 512 MiB has.
fn size_of(text: &[u8]) -> Result<u32, AllocError>
    ensures { IfOk result (λ n. n ≡ length text.now) }
{
    match u32::try_from(text.len()) {
        Ok(size) => Ok(size),
        Err(_) => Err(AllocError),
    }
}

// A message with the stamp of its delimiter line and this text.
fn read_message(
    alloc: Global,
    names: Keywords,
    stamp: Stamp,
    text: &[u8],
) -> Result<FoundMessage, AllocError>
    requires few { length names ≤ 30 }
    requires distinct { are_distinct names ≡ true }
    ensures names { IfOk result (λ found. found.names ≡ (found_heads names text.now).names) }
    ensures record { IfOk result (λ found. record_at found.info found.text ≡ found_record names stamp text.now) }
    ensures sized { IfOk result (λ found. found.info.size ≡ length found.text) }
    ensures few { IfOk result (λ found. length found.names ≤ 30) }
    ensures distinct { IfOk result (λ found. are_distinct found.names ≡ true) }
{
    let heads = read_numbered_heads(alloc, text, names)?;
    let kept = unix_form(alloc, text)?;
    let size = size_of(kept.as_slice())?;
    let info = Info {
        uid: heads.uid.unwrap_or(0),
        stamp: in_utc(stamp),
        flags: heads.flags,
        words: heads.words,
        size,
    };
    Ok(FoundMessage {
        names: heads.names,
        info,
        text: Bytes::from_vec(kept),
    })
}

// The messages that were found, and the names that are known behind them.
#[derive(Debug, Drop)]
pub struct FoundAll {
    pub names: Keywords,
    pub infos: Vec<Info>,
    pub texts: Vec<Bytes>,
}

// The messages of a text that begins with a delimiter line, behind some names.
pub(crate) fn read_messages(
    alloc: Global,
    text: &[u8],
    names: Keywords,
) -> Result<FoundAll, AllocError>
    requires few { length names ≤ 30 }
    requires distinct { are_distinct names ≡ true }
    requires begins { (cut_lines (lines_of text.now)).loose ≡ [] }
    ensures found { IfOk result (λ found. found_messages names (cut_lines (lines_of text.now)).messages
        ≡ record { names = found.names; records = records_at found.infos.items found.texts.items }) }
    ensures sized { IfOk result (λ found. IsSizedBy found.infos.items found.texts.items) }
    ensures few { IfOk result (λ found. length found.names ≤ 30) }
{
    let mut infos = Vec::new(alloc);
    let mut texts = Vec::new(alloc);
    let mut known = names;
    let mut rest = text;
    while !rest.is_empty() {
        let (line, behind) = rest.split_at(line_length(rest));
        let Some(stamp) = read_from_date(line) else {
            break;
        };
        let run = next_run(behind);
        let message = read_message(alloc, known, stamp, behind.split_at(run.text).0)?;
        infos.push(message.info)?;
        texts.push(message.text)?;
        known = message.names;
        rest = behind.split_at(run.whole).1;
    }
    Ok(FoundAll {
        names: known,
        infos,
        texts,
    })
}
