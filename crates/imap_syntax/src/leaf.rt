// Search keys that have no keys in them.
ghost use Rattle.std.specs.Prelude.{◌≡◌, ◌≤◌, ◌<◌, length};
ghost use Rattle.imap_arguments.specs.Readings.{Gives};
ghost use Rattle.imap_syntax.specs.Keys.{plain_key, opposite_key, is_string_word, string_key, is_date_word, date_key, argument_key, is_argument_word, header_key, leaf_at};

use crate::key::Key;
use imap_arguments::{
    Reason, Refused, astring_at, byte_at, date_at, keyword_at, number_at, set_at,
};
use mail_fields::Bytes;
use std::alloc::Global;
use std::collections::VecDeque;

// A key that is one word, in any letter case.
fn plain_key(word: &[u8]) -> Option<Key>
    ensures { result ≡ plain_key word.now }
{
    if word.eq_ignore_ascii_case(b"ALL") {
        return Some(Key::All);
    }
    if word.eq_ignore_ascii_case(b"ANSWERED") {
        return Some(Key::Answered);
    }
    if word.eq_ignore_ascii_case(b"DELETED") {
        return Some(Key::Deleted);
    }
    if word.eq_ignore_ascii_case(b"DRAFT") {
        return Some(Key::Draft);
    }
    if word.eq_ignore_ascii_case(b"FLAGGED") {
        return Some(Key::Flagged);
    }
    if word.eq_ignore_ascii_case(b"SEEN") {
        return Some(Key::Seen);
    }
    if word.eq_ignore_ascii_case(b"RECENT") {
        return Some(Key::Recent);
    }
    opposite_key(word)
}

fn opposite_key(word: &[u8]) -> Option<Key>
    ensures { result ≡ opposite_key word.now }
{
    if word.eq_ignore_ascii_case(b"UNANSWERED") {
        return Some(Key::Unanswered);
    }
    if word.eq_ignore_ascii_case(b"UNDELETED") {
        return Some(Key::Undeleted);
    }
    if word.eq_ignore_ascii_case(b"UNDRAFT") {
        return Some(Key::Undraft);
    }
    if word.eq_ignore_ascii_case(b"UNFLAGGED") {
        return Some(Key::Unflagged);
    }
    if word.eq_ignore_ascii_case(b"UNSEEN") {
        return Some(Key::Unseen);
    }
    if word.eq_ignore_ascii_case(b"NEW") {
        return Some(Key::New);
    }
    if word.eq_ignore_ascii_case(b"OLD") {
        return Some(Key::Old);
    }
    None
}

fn is_string_word(word: &[u8]) -> bool
    ensures { result ≡ is_string_word word.now }
{
    word.eq_ignore_ascii_case(b"BCC")
        || word.eq_ignore_ascii_case(b"CC")
        || word.eq_ignore_ascii_case(b"FROM")
        || word.eq_ignore_ascii_case(b"SUBJECT")
        || word.eq_ignore_ascii_case(b"TO")
        || word.eq_ignore_ascii_case(b"BODY")
        || word.eq_ignore_ascii_case(b"TEXT")
}

// The key of such a word and its string.
fn string_key(word: &[u8], text: Bytes) -> Key
    ensures { result ≡ string_key word.now text }
{
    if word.eq_ignore_ascii_case(b"BCC") {
        return Key::Bcc(text);
    }
    if word.eq_ignore_ascii_case(b"CC") {
        return Key::Cc(text);
    }
    if word.eq_ignore_ascii_case(b"FROM") {
        return Key::From(text);
    }
    if word.eq_ignore_ascii_case(b"SUBJECT") {
        return Key::Subject(text);
    }
    if word.eq_ignore_ascii_case(b"TO") {
        return Key::To(text);
    }
    if word.eq_ignore_ascii_case(b"BODY") {
        return Key::Body(text);
    }
    Key::Text(text)
}

fn is_date_word(word: &[u8]) -> bool
    ensures { result ≡ is_date_word word.now }
{
    word.eq_ignore_ascii_case(b"BEFORE")
        || word.eq_ignore_ascii_case(b"ON")
        || word.eq_ignore_ascii_case(b"SINCE")
        || word.eq_ignore_ascii_case(b"SENTBEFORE")
        || word.eq_ignore_ascii_case(b"SENTON")
        || word.eq_ignore_ascii_case(b"SENTSINCE")
}

// The key of such a word and its date.
fn date_key(word: &[u8], day: i32) -> Key
    ensures { result ≡ date_key word.now day }
{
    if word.eq_ignore_ascii_case(b"BEFORE") {
        return Key::Before(day);
    }
    if word.eq_ignore_ascii_case(b"ON") {
        return Key::On(day);
    }
    if word.eq_ignore_ascii_case(b"SINCE") {
        return Key::Since(day);
    }
    if word.eq_ignore_ascii_case(b"SENTBEFORE") {
        return Key::SentBefore(day);
    }
    if word.eq_ignore_ascii_case(b"SENTON") {
        return Key::SentOn(day);
    }
    Key::SentSince(day)
}

fn is_argument_word(word: &[u8]) -> bool
    ensures { result ≡ is_argument_word word.now }
{
    is_date_word(word)
        || word.eq_ignore_ascii_case(b"LARGER")
        || word.eq_ignore_ascii_case(b"SMALLER")
        || word.eq_ignore_ascii_case(b"KEYWORD")
        || word.eq_ignore_ascii_case(b"UNKEYWORD")
        || word.eq_ignore_ascii_case(b"UID")
}

// The key of such a word, behind the space before its argument.
#[tactic(auto, unfolding(crate::specs::Keys::argument_key))]
fn argument_key<'a>(alloc: Global, word: &[u8], bytes: &'a [u8]) -> Result<(Key, &'a [u8]), Refused>
    ensures { Gives (λ x. (x.0, x.1.now)) result (argument_key word.now bytes.now) }
{
    if is_date_word(word) {
        let (day, rest) = date_at(alloc, bytes)?;
        return Ok((date_key(word, day), rest));
    }
    if word.eq_ignore_ascii_case(b"LARGER") {
        let (size, rest) = number_at(bytes)?;
        return Ok((Key::Larger(size), rest));
    }
    if word.eq_ignore_ascii_case(b"SMALLER") {
        let (size, rest) = number_at(bytes)?;
        return Ok((Key::Smaller(size), rest));
    }
    if word.eq_ignore_ascii_case(b"KEYWORD") {
        let (name, rest) = keyword_at(alloc, bytes)?;
        return Ok((Key::Keyword(name), rest));
    }
    if word.eq_ignore_ascii_case(b"UNKEYWORD") {
        let (name, rest) = keyword_at(alloc, bytes)?;
        return Ok((Key::Unkeyword(name), rest));
    }
    if word.eq_ignore_ascii_case(b"UID") {
        let (set, rest) = set_at(alloc, bytes)?;
        return Ok((Key::Uid(set), rest));
    }
    Err(Refused::Bad(Reason::NotUnderstood))
}

// HEADER, behind its space.
#[tactic(auto, unfolding(crate::specs::Keys::header_key))]
fn header_key<'a>(
    alloc: Global,
    bytes: &'a [u8],
    literals: &mut VecDeque<Bytes>,
) -> Result<(Key, &'a [u8]), Refused>
    ensures { Gives (λ x. record { key = x.0; rest = x.1.now; literals = literals.new.items }) result (header_key bytes.now literals.old.items) }
{
    let (name, behind) = astring_at(alloc, bytes, literals)?;
    let behind = byte_at(b' ', behind)?;
    let (text, rest) = astring_at(alloc, behind, literals)?;
    Ok((Key::Header(name, text), rest))
}

/// A key that has no keys in it, by its word and what stands behind that.
#[tactic(auto, unfolding(crate::specs::Keys::leaf_at))]
pub(crate) fn leaf_at<'a>(
    alloc: Global,
    word: &[u8],
    bytes: &'a [u8],
    literals: &mut VecDeque<Bytes>,
) -> Result<(Key, &'a [u8]), Refused>
    ensures { Gives (λ x. record { key = x.0; rest = x.1.now; literals = literals.new.items }) result (leaf_at word.now bytes.now literals.old.items) }
{
    if is_string_word(word) {
        let behind = byte_at(b' ', bytes)?;
        let (text, rest) = astring_at(alloc, behind, literals)?;
        return Ok((string_key(word, text), rest));
    }
    if is_argument_word(word) {
        let behind = byte_at(b' ', bytes)?;
        return argument_key(alloc, word, behind);
    }
    if word.eq_ignore_ascii_case(b"HEADER") {
        let behind = byte_at(b' ', bytes)?;
        return header_key(alloc, behind, literals);
    }
    match plain_key(word) {
        Some(key) => Ok((key, bytes)),
        None => Err(Refused::Bad(Reason::NotUnderstood)),
    }
}
