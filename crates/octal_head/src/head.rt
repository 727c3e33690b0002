// Heads of records, `dd-Mon-yyyy hh:mm:ss +zzzz,size;` and 12 octal digits.
ghost use Rattle.std.specs.Prelude.{◌≡◌, ◌<◌, ◌^◌, ◌++◌, Some, IfOk, IfSome, length};
ghost use Rattle.std.specs.List.{before_first, after_first};
ghost use Rattle.mail_fields.specs.ImapDate.{imap_date_of, imap_date_text};
ghost use Rattle.mail_fields.specs.Stamps.{parts_of};
ghost use Rattle.octal_head.specs.Heads.{ReadsHead, head_parts, is_semicolon, octal_head_of, octal_parts_of, size_then_marks_of, octal_head_text, line_end};

use crate::marks::{mark_digits, read_marks};
use itoa::Buffer;
use mail_fields::{Stamp, put_imap_date, read_decimal, read_imap_date};
use memchr::memchr;
use std::alloc::{AllocError, Global};

/// What the head of a record says: when the message came, how many bytes it has, and its bits.
///
/// `words` are the bits of keywords, `bits` those of flags.
#[derive(Clone, Copy, Debug, PartialEq, Eq)]
pub struct Octal {
    pub stamp: Stamp,
    pub size: u64,
    pub words: u32,
    pub bits: u8,
}

/// The head that a line writes; the line comes without its line end.
#[tactic(auto, unfolding(crate::specs::Heads::octal_head_of))]
pub fn read_octal_head(line: &[u8]) -> Option<Octal>
    ensures value { ReadsHead result (octal_head_of line.now) }
    // so that it can be written again
    ensures size { IfSome result (λ head. head.size < 10 ^ 10) }
    ensures words { IfSome result (λ head. head.words < 2 ^ 30) }
    ensures bits { IfSome result (λ head. head.bits < 64) }
{
    if line.len() > 26 && line[26] == b',' {
        read_parts(&line[..26], &line[27..])
    } else {
        None
    }
}

// The parts of a line, its date and what stands behind the comma.
#[tactic(auto, unfolding(crate::specs::Heads::octal_parts_of))]
fn read_parts(date: &[u8], behind: &[u8]) -> Option<Octal>
    ensures value { ReadsHead result (octal_parts_of date.now behind.now) }
    ensures size { IfSome result (λ head. head.size < 10 ^ 10) }
    ensures words { IfSome result (λ head. head.words < 2 ^ 30) }
    ensures bits { IfSome result (λ head. head.bits < 64) }
{
    let stamp = read_imap_date(date)?;
    let (size, words, bits) = read_size_then_marks(behind)?;
    Some(Octal {
        stamp,
        size,
        words,
        bits,
    })
}

// What stands behind the comma.
#[tactic(auto, unfolding(crate::specs::Heads::size_then_marks_of))]
fn read_size_then_marks(text: &[u8]) -> Option<(u64, u32, u8)>
    ensures value { result ≡ size_then_marks_of text.now }
    ensures size { IfSome result (λ found. found.0 < 10 ^ 10) }
    ensures words { IfSome result (λ found. found.1 < 2 ^ 30) }
    ensures bits { IfSome result (λ found. found.2 < 64) }
{
    let (size, marks) = split_at_semicolon(text);
    let size = read_decimal(size)?;
    let (words, bits) = read_marks(marks)?;
    Some((size, words, bits))
}

// What stands before the first semicolon, and what behind it.
fn split_at_semicolon(text: &[u8]) -> (&[u8], &[u8])
    ensures before { result.0.now ≡ before_first is_semicolon text.now }
    ensures behind { result.1.now ≡ after_first is_semicolon text.now }
{
    match memchr(b';', text) {
        Some(at) => (&text[..at], &text[at + 1..]),
        None => (text, &text[text.len()..]),
    }
}

/// The line of a head, with its line end: CRLF as in mtx, or LF alone as in tenex.
pub fn put_octal_head(alloc: Global, head: &Octal, crlf: bool) -> Result<Vec<u8>, AllocError>
    requires size { head.now.size < 10 ^ 10 }
    requires words { head.now.words < 2 ^ 30 }
    requires bits { head.now.bits < 64 }
    ensures text { IfOk result (λ v. v.items ≡ octal_head_text (head_parts head.now) ++ line_end crlf) }
    ensures read { IfOk result (λ _. octal_head_of (octal_head_text (head_parts head.now)) ≡ Some (head_parts head.now)) }
{
    let mut digits = Buffer::new();
    let mut line = Vec::from_slice(alloc, &date_bytes(head.stamp))?;
    line.extend_from_slice(b",")?;
    line.extend_from_slice(digits.format(head.size).as_bytes())?;
    line.extend_from_slice(b";")?;
    line.extend_from_slice(&mark_digits(head.words, head.bits))?;
    line.extend_from_slice(line_end(crlf))?;
    Ok(line)
}

fn date_bytes(stamp: Stamp) -> [u8; 26]
    ensures text { result ≡ imap_date_text (parts_of stamp) }
    ensures width { length (imap_date_text (parts_of stamp)) ≡ 26 }
    ensures read { imap_date_of (imap_date_text (parts_of stamp)) ≡ Some (parts_of stamp) }
{
    let mut date = [0; 26];
    put_imap_date(&mut date, 0, stamp);
    date
}

fn line_end(crlf: bool) -> &'static [u8]
    ensures { result.now ≡ line_end crlf }
{
    if crlf { b"\r\n" } else { b"\n" }
}
