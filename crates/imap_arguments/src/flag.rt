// Flags that a client sets.
ghost use Rattle.std.specs.Prelude.{◌≡◌, ◌<◌, [], true, length, IfOk};
ghost use Rattle.std.specs.List.{list_all};
ghost use Rattle.mail_fields.specs.Keyword.{is_atom};
ghost use Rattle.mail_types.specs.Flags.{no_flags};
ghost use Rattle.imap_arguments.specs.Readings.{Gives};
ghost use Rattle.imap_arguments.specs.Flags.{system_flag, keyword_at, system_at, flag_at, flags_at, flag_list_at, store_flags_at};

use crate::reason::{Reason, Refused};
use crate::token::{atoms, begins, broken_off, byte_at, token_at};
use mail_fields::{Keyword, Keywords};
use mail_types::Flags;
use std::alloc::Global;

/// Flags and keywords; `old` is never among them, and keywords stand in the order in which they are given.
#[derive(Debug, Drop)]
pub struct FlagList {
    pub flags: Flags,
    pub words: Keywords,
}

// The system flag of a name, in any letter case.
fn system_flag(name: &[u8]) -> Option<Flags>
    ensures { result ≡ system_flag name.now }
{
    let mut flags = Flags::none();
    if name.eq_ignore_ascii_case(b"Seen") {
        flags.seen = true;
        return Some(flags);
    }
    if name.eq_ignore_ascii_case(b"Answered") {
        flags.answered = true;
        return Some(flags);
    }
    if name.eq_ignore_ascii_case(b"Flagged") {
        flags.flagged = true;
        return Some(flags);
    }
    if name.eq_ignore_ascii_case(b"Deleted") {
        flags.deleted = true;
        return Some(flags);
    }
    if name.eq_ignore_ascii_case(b"Draft") {
        flags.draft = true;
        return Some(flags);
    }
    None
}

/// A keyword: an atom of 1 to 64 bytes.
#[tactic(auto, unfolding(crate::specs::Flags::keyword_at))]
pub fn keyword_at(alloc: Global, bytes: &[u8]) -> Result<(Keyword, &[u8]), Refused>
    ensures { Gives (λ x. (x.0, x.1.now)) result (keyword_at bytes.now) }
{
    let (token, rest) = token_at(bytes)?;
    if token.len() > 64 {
        return Err(Refused::Bad(Reason::NotUnderstood));
    }
    match Keyword::read(alloc, token)? {
        Some(word) => Ok((word, rest)),
        None => Err(Refused::Bad(Reason::NotUnderstood)),
    }
}

// A system flag more, at its backslash.
#[tactic(auto, unfolding(crate::specs::Flags::system_at))]
fn system_at<'a>(flags: &mut Flags, bytes: &'a [u8]) -> Result<&'a [u8], Refused>
    requires { 0 < length bytes.now }
    ensures { Gives (λ rest. (flags.exit.now, rest.now)) result (system_at flags.entry.now bytes.now) }
{
    let name = &bytes[1..];
    let width = atoms(name);
    let Some(more) = system_flag(&name[..width]) else {
        return Err(Refused::Bad(Reason::NotUnderstood));
    };
    *flags = flags.or(more);
    Ok(&name[width..])
}

// A flag more behind those that are read.
#[tactic(auto, unfolding(crate::specs::Flags::flag_at))]
fn flag_at<'a>(
    alloc: Global,
    flags: &mut Flags,
    words: &mut Vec<Keyword>,
    bytes: &'a [u8],
) -> Result<&'a [u8], Refused>
    ensures { Gives (λ rest. (record { flags = flags.exit.now; words = words.new.items }, rest.now)) result (flag_at (record { flags = flags.entry.now; words = words.old.items }) bytes.now) }
{
    if begins(b'\\', bytes) {
        return system_at(flags, bytes);
    }
    let (word, rest) = keyword_at(alloc, bytes)?;
    words.push(word)?;
    Ok(rest)
}

/// Flags with a space between them.
pub fn flags_at(alloc: Global, bytes: &[u8]) -> Result<(FlagList, &[u8]), Refused>
    ensures { Gives (λ x. (x.0, x.1.now)) result (flags_at bytes.now) }
{
    let mut flags = Flags::none();
    let mut words = Vec::new(alloc);
    let mut rest = bytes;
    for _ in 0..bytes.len() {
        let behind = flag_at(alloc, &mut flags, &mut words, rest)?;
        if !begins(b' ', behind) {
            let words = Keywords::of(words);
            return Ok((FlagList { flags, words }, behind));
        }
        rest = &behind[1..];
    }
    Err(Refused::Bad(broken_off(rest)))
}

/// A list of flags in parentheses, which may be empty.
#[tactic(auto, unfolding(crate::specs::Flags::flag_list_at))]
pub fn flag_list_at(alloc: Global, bytes: &[u8]) -> Result<(FlagList, &[u8]), Refused>
    ensures { Gives (λ x. (x.0, x.1.now)) result (flag_list_at bytes.now) }
{
    let inner = byte_at(b'(', bytes)?;
    if begins(b')', inner) {
        let flags = Flags::none();
        let words = Keywords::of(Vec::new(alloc));
        return Ok((FlagList { flags, words }, &inner[1..]));
    }
    let (list, behind) = flags_at(alloc, inner)?;
    let rest = byte_at(b')', behind)?;
    Ok((list, rest))
}

/// The flags of STORE: a list, or flags without parentheses.
pub fn store_flags_at(alloc: Global, bytes: &[u8]) -> Result<(FlagList, &[u8]), Refused>
    ensures { Gives (λ x. (x.0, x.1.now)) result (store_flags_at bytes.now) }
{
    if begins(b'(', bytes) {
        flag_list_at(alloc, bytes)
    } else {
        flags_at(alloc, bytes)
    }
}
