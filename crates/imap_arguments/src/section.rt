// Sections of a message.
ghost use Rattle.std.specs.Prelude.{◌≡◌, [], length};
ghost use Rattle.imap_arguments.specs.Readings.{Gives};
ghost use Rattle.imap_arguments.specs.Tokens.{separated};
ghost use Rattle.imap_arguments.specs.Sections.{begins_digit, parts_at, add_name, inner_names_at, names_at, word_kind, kind_at, section_at, partial_at};

use crate::number::{digits, nonzero_at, number_at};
use crate::reason::{Reason, Refused};
use crate::string::astring_at;
use crate::token::{begins, broken_off, byte_at, token_at};
use mail_fields::{ByteStrings, Bytes, Numbers};
use std::alloc::Global;
use std::collections::VecDeque;

/// A section of a message: part numbers and what is asked of the part (RFC 3501, section 6.4.5).
#[derive(Debug, Drop)]
pub struct Section {
    pub parts: Numbers,
    pub kind: SectionKind,
}

#[derive(Debug, Drop)]
pub enum SectionKind {
    /// All of the part.
    All,
    Header,
    /// The header fields of these names.
    Fields(ByteStrings),
    /// All but these.
    FieldsNot(ByteStrings),
    Text,
    Mime,
}

fn begins_digit(bytes: &[u8]) -> bool
    ensures { result ≡ begins_digit bytes.now }
{
    digits(bytes) != 0
}

// Part numbers, what stands behind them, and whether a word may stand there.
fn parts_at(alloc: Global, bytes: &[u8]) -> Result<(Vec<u32>, &[u8], bool), Refused>
    ensures { Gives (λ x. record { numbers = x.0.items; rest = x.1.now; word = x.2 }) result (parts_at bytes.now) }
{
    let mut numbers = Vec::new(alloc);
    let mut rest = bytes;
    for _ in 0..bytes.len() {
        if !begins_digit(rest) {
            return Ok((numbers, rest, true));
        }
        let (number, behind) = nonzero_at(rest)?;
        numbers.push(number)?;
        if !begins(b'.', behind) {
            return Ok((numbers, behind, false));
        }
        rest = &behind[1..];
    }
    Ok((numbers, rest, true))
}

// A name more behind those that are read.
fn add_name<'a>(
    alloc: Global,
    names: &mut Vec<Bytes>,
    literals: &mut VecDeque<Bytes>,
    bytes: &'a [u8],
) -> Result<&'a [u8], Refused>
    ensures { Gives (λ rest. (record { names = names.new.items; literals = literals.new.items }, rest.now)) result (add_name (record { names = names.old.items; literals = literals.old.items }) bytes.now) }
{
    let (name, rest) = astring_at(alloc, bytes, literals)?;
    names.push(name)?;
    Ok(rest)
}

// Names with a space between them.
fn inner_names_at<'a>(
    alloc: Global,
    literals: &mut VecDeque<Bytes>,
    bytes: &'a [u8],
) -> Result<(Vec<Bytes>, &'a [u8]), Refused>
    ensures { Gives (λ x. (record { names = x.0.items; literals = literals.new.items }, x.1.now)) result (inner_names_at bytes.now literals.old.items) }
{
    let mut names = Vec::new(alloc);
    let mut rest = bytes;
    for _ in 0..bytes.len() {
        let behind = add_name(alloc, &mut names, literals, rest)?;
        if !begins(b' ', behind) {
            return Ok((names, behind));
        }
        rest = &behind[1..];
    }
    Err(Refused::Bad(broken_off(rest)))
}

// A list of names in parentheses, behind a space.
#[tactic(auto, unfolding(crate::specs::Sections::names_at))]
fn names_at<'a>(
    alloc: Global,
    literals: &mut VecDeque<Bytes>,
    bytes: &'a [u8],
) -> Result<(ByteStrings, &'a [u8]), Refused>
    ensures { Gives (λ x. (record { names = x.0; literals = literals.new.items }, x.1.now)) result (names_at bytes.now literals.old.items) }
{
    let behind = byte_at(b' ', bytes)?;
    let inner = byte_at(b'(', behind)?;
    let (names, behind) = inner_names_at(alloc, literals, inner)?;
    let rest = byte_at(b')', behind)?;
    Ok((ByteStrings::of(names), rest))
}

// What a word asks for, behind part numbers or not.
#[tactic(auto, unfolding(crate::specs::Sections::word_kind))]
fn word_kind<'a>(
    alloc: Global,
    numbered: bool,
    word: &[u8],
    literals: &mut VecDeque<Bytes>,
    bytes: &'a [u8],
) -> Result<(SectionKind, &'a [u8]), Refused>
    ensures { Gives (λ x. record { kind = x.0; rest = x.1.now; literals = literals.new.items }) result (word_kind numbered word.now bytes.now literals.old.items) }
{
    if word.eq_ignore_ascii_case(b"HEADER") {
        return Ok((SectionKind::Header, bytes));
    }
    if word.eq_ignore_ascii_case(b"TEXT") {
        return Ok((SectionKind::Text, bytes));
    }
    if word.eq_ignore_ascii_case(b"MIME") && numbered {
        return Ok((SectionKind::Mime, bytes));
    }
    if word.eq_ignore_ascii_case(b"HEADER.FIELDS") {
        let (names, rest) = names_at(alloc, literals, bytes)?;
        return Ok((SectionKind::Fields(names), rest));
    }
    if word.eq_ignore_ascii_case(b"HEADER.FIELDS.NOT") {
        let (names, rest) = names_at(alloc, literals, bytes)?;
        return Ok((SectionKind::FieldsNot(names), rest));
    }
    Err(Refused::Bad(Reason::NotUnderstood))
}

// What is asked for behind part numbers, where a word may stand or not.
#[tactic(auto, unfolding(crate::specs::Sections::kind_at))]
fn kind_at<'a>(
    alloc: Global,
    numbered: bool,
    word: bool,
    literals: &mut VecDeque<Bytes>,
    bytes: &'a [u8],
) -> Result<(SectionKind, &'a [u8]), Refused>
    ensures { Gives (λ x. record { kind = x.0; rest = x.1.now; literals = literals.new.items }) result (kind_at numbered word bytes.now literals.old.items) }
{
    if !word || (!numbered && begins(b']', bytes)) {
        return Ok((SectionKind::All, bytes));
    }
    let (word, behind) = token_at(bytes)?;
    word_kind(alloc, numbered, word, literals, behind)
}

/// A section in brackets.
#[tactic(auto, unfolding(crate::specs::Sections::section_at))]
pub fn section_at<'a>(
    alloc: Global,
    bytes: &'a [u8],
    literals: &mut VecDeque<Bytes>,
) -> Result<(Section, &'a [u8]), Refused>
    ensures { Gives (λ x. record { section = x.0; rest = x.1.now; literals = literals.new.items }) result (section_at bytes.now literals.old.items) }
{
    let inner = byte_at(b'[', bytes)?;
    let (numbers, behind, word) = parts_at(alloc, inner)?;
    let (kind, behind) = kind_at(alloc, !numbers.is_empty(), word, literals, behind)?;
    let rest = byte_at(b']', behind)?;
    let parts = Numbers::of(numbers);
    Ok((Section { parts, kind }, rest))
}

/// An offset and a count between `<` and `>`, if they stand there.
#[tactic(auto, unfolding(crate::specs::Sections::partial_at))]
pub fn partial_at(bytes: &[u8]) -> Result<(Option<(u32, u32)>, &[u8]), Refused>
    ensures { Gives (λ x. (x.0, x.1.now)) result (partial_at bytes.now) }
{
    if !begins(b'<', bytes) {
        return Ok((None, bytes));
    }
    let (offset, behind) = number_at(&bytes[1..])?;
    let behind = byte_at(b'.', behind)?;
    let (count, behind) = nonzero_at(behind)?;
    let rest = byte_at(b'>', behind)?;
    Ok((Some((offset, count)), rest))
}
