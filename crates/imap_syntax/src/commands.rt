// The arguments of each command.
ghost use Rattle.std.specs.Prelude.{◌≡◌, ◌≤◌, length, map};
ghost use Rattle.imap_arguments.specs.Readings.{Gives};
ghost use Rattle.imap_syntax.specs.Commands.{string_argument, rename_at, patterns_at, list_at, lsub_at, status_at, append_at, fetch_at, store_at, copy_at, one_name, charset_at, search_at, message_command, uid_at, password_at, arguments_at, behind_tag};
ghost use Rattle.std.specs.List.{prefix_len};
ghost use Rattle.mail_fields.specs.Keyword.{is_atom};

use crate::argument::{
    append_date_at, append_flags_at, ended, mode_of, set_argument, string_argument,
};
use crate::command::Command;
use crate::search::search_keys_at;
use crate::verb::{Verb, message_verb, verb_of};
use imap_arguments::{
    Reason, Refused, byte_at, fetch_items_at, is_atom_byte, literal_at, pattern_at, status_list_at,
    store_flags_at, token_at,
};
use mail_fields::Bytes;
use std::alloc::Global;
use std::collections::VecDeque;

#[tactic(auto, unfolding(crate::specs::Commands::rename_at))]
fn rename_at(
    alloc: Global,
    bytes: &[u8],
    literals: &mut VecDeque<Bytes>,
) -> Result<Command, Refused>
    ensures { Gives (λ command. command) result (rename_at bytes.now literals.old.items) }
{
    let (one, behind) = string_argument(alloc, bytes, literals)?;
    let (other, rest) = string_argument(alloc, behind, literals)?;
    ended(Command::Rename(one, other), rest)
}

// A reference and a pattern.
#[tactic(auto, unfolding(crate::specs::Commands::patterns_at))]
fn patterns_at<'a>(
    alloc: Global,
    bytes: &'a [u8],
    literals: &mut VecDeque<Bytes>,
) -> Result<(Bytes, Bytes, &'a [u8]), Refused>
    ensures { Gives (λ x. (x.0, record { value = x.1; rest = x.2.now; literals = literals.new.items })) result (patterns_at bytes.now literals.old.items) }
{
    let (reference, behind) = string_argument(alloc, bytes, literals)?;
    let behind = byte_at(b' ', behind)?;
    let (pattern, rest) = pattern_at(alloc, behind, literals)?;
    Ok((reference, pattern, rest))
}

#[tactic(auto, unfolding(crate::specs::Commands::list_at))]
fn list_at(alloc: Global, bytes: &[u8], literals: &mut VecDeque<Bytes>) -> Result<Command, Refused>
    ensures { Gives (λ command. command) result (list_at bytes.now literals.old.items) }
{
    let (reference, pattern, rest) = patterns_at(alloc, bytes, literals)?;
    ended(Command::List(reference, pattern), rest)
}

#[tactic(auto, unfolding(crate::specs::Commands::lsub_at))]
fn lsub_at(alloc: Global, bytes: &[u8], literals: &mut VecDeque<Bytes>) -> Result<Command, Refused>
    ensures { Gives (λ command. command) result (lsub_at bytes.now literals.old.items) }
{
    let (reference, pattern, rest) = patterns_at(alloc, bytes, literals)?;
    ended(Command::Lsub(reference, pattern), rest)
}

#[tactic(auto, unfolding(crate::specs::Commands::status_at))]
fn status_at(
    alloc: Global,
    bytes: &[u8],
    literals: &mut VecDeque<Bytes>,
) -> Result<Command, Refused>
    ensures { Gives (λ command. command) result (status_at bytes.now literals.old.items) }
{
    let (name, behind) = string_argument(alloc, bytes, literals)?;
    let behind = byte_at(b' ', behind)?;
    let (items, rest) = status_list_at(alloc, behind)?;
    ended(Command::Status(name, items), rest)
}

#[tactic(auto, unfolding(crate::specs::Commands::append_at))]
fn append_at(
    alloc: Global,
    bytes: &[u8],
    literals: &mut VecDeque<Bytes>,
) -> Result<Command, Refused>
    ensures { Gives (λ command. command) result (append_at bytes.now literals.old.items) }
{
    let (name, behind) = string_argument(alloc, bytes, literals)?;
    let behind = byte_at(b' ', behind)?;
    let (flags, behind) = append_flags_at(alloc, behind)?;
    let (date, behind) = append_date_at(alloc, behind)?;
    let (text, rest) = literal_at(behind, literals)?;
    ended(Command::Append(name, flags, date, text), rest)
}

#[tactic(auto, unfolding(crate::specs::Commands::fetch_at))]
fn fetch_at(
    alloc: Global,
    uid: bool,
    bytes: &[u8],
    literals: &mut VecDeque<Bytes>,
) -> Result<Command, Refused>
    ensures { Gives (λ command. command) result (fetch_at uid bytes.now literals.old.items) }
{
    let (set, behind) = set_argument(alloc, bytes)?;
    let behind = byte_at(b' ', behind)?;
    let (items, rest) = fetch_items_at(alloc, behind, literals)?;
    ended(Command::Fetch(uid, set, items), rest)
}

#[tactic(auto, unfolding(crate::specs::Commands::store_at))]
fn store_at(alloc: Global, uid: bool, bytes: &[u8]) -> Result<Command, Refused>
    ensures { Gives (λ command. command) result (store_at uid bytes.now) }
{
    let (set, behind) = set_argument(alloc, bytes)?;
    let behind = byte_at(b' ', behind)?;
    let (word, behind) = token_at(behind)?;
    let (mode, silent) = mode_of(word)?;
    let behind = byte_at(b' ', behind)?;
    let (flags, rest) = store_flags_at(alloc, behind)?;
    ended(Command::Store(uid, set, mode, silent, flags), rest)
}

#[tactic(auto, unfolding(crate::specs::Commands::copy_at))]
fn copy_at(
    alloc: Global,
    uid: bool,
    bytes: &[u8],
    literals: &mut VecDeque<Bytes>,
) -> Result<Command, Refused>
    ensures { Gives (λ command. command) result (copy_at uid bytes.now literals.old.items) }
{
    let (set, behind) = set_argument(alloc, bytes)?;
    let (name, rest) = string_argument(alloc, behind, literals)?;
    ended(Command::Copy(uid, set, name), rest)
}

#[tactic(auto, unfolding(crate::specs::Commands::one_name))]
fn select_at(
    alloc: Global,
    bytes: &[u8],
    literals: &mut VecDeque<Bytes>,
) -> Result<Command, Refused>
    ensures { Gives (λ command. command) result (one_name Command.Select bytes.now literals.old.items) }
{
    let (name, rest) = string_argument(alloc, bytes, literals)?;
    ended(Command::Select(name), rest)
}

#[tactic(auto, unfolding(crate::specs::Commands::one_name))]
fn examine_at(
    alloc: Global,
    bytes: &[u8],
    literals: &mut VecDeque<Bytes>,
) -> Result<Command, Refused>
    ensures { Gives (λ command. command) result (one_name Command.Examine bytes.now literals.old.items) }
{
    let (name, rest) = string_argument(alloc, bytes, literals)?;
    ended(Command::Examine(name), rest)
}

#[tactic(auto, unfolding(crate::specs::Commands::one_name))]
fn create_at(
    alloc: Global,
    bytes: &[u8],
    literals: &mut VecDeque<Bytes>,
) -> Result<Command, Refused>
    ensures { Gives (λ command. command) result (one_name Command.Create bytes.now literals.old.items) }
{
    let (name, rest) = string_argument(alloc, bytes, literals)?;
    ended(Command::Create(name), rest)
}

#[tactic(auto, unfolding(crate::specs::Commands::one_name))]
fn delete_at(
    alloc: Global,
    bytes: &[u8],
    literals: &mut VecDeque<Bytes>,
) -> Result<Command, Refused>
    ensures { Gives (λ command. command) result (one_name Command.Delete bytes.now literals.old.items) }
{
    let (name, rest) = string_argument(alloc, bytes, literals)?;
    ended(Command::Delete(name), rest)
}

#[tactic(auto, unfolding(crate::specs::Commands::one_name))]
fn subscribe_at(
    alloc: Global,
    bytes: &[u8],
    literals: &mut VecDeque<Bytes>,
) -> Result<Command, Refused>
    ensures { Gives (λ command. command) result (one_name Command.Subscribe bytes.now literals.old.items) }
{
    let (name, rest) = string_argument(alloc, bytes, literals)?;
    ended(Command::Subscribe(name), rest)
}

#[tactic(auto, unfolding(crate::specs::Commands::one_name))]
fn unsubscribe_at(
    alloc: Global,
    bytes: &[u8],
    literals: &mut VecDeque<Bytes>,
) -> Result<Command, Refused>
    ensures { Gives (λ command. command) result (one_name Command.Unsubscribe bytes.now literals.old.items) }
{
    let (name, rest) = string_argument(alloc, bytes, literals)?;
    ended(Command::Unsubscribe(name), rest)
}

// A charset before the keys of SEARCH, if the word CHARSET stands there.
#[tactic(auto, unfolding(crate::specs::Commands::charset_at))]
fn charset_at<'a>(
    alloc: Global,
    bytes: &'a [u8],
    literals: &mut VecDeque<Bytes>,
) -> Result<(Option<Bytes>, &'a [u8]), Refused>
    ensures { Gives (λ x. record { charset = x.0; rest = x.1.now; literals = literals.new.items }) result (charset_at bytes.now literals.old.items) }
{
    let width = atoms(bytes);
    if !bytes[..width].eq_ignore_ascii_case(b"CHARSET") {
        return Ok((None, bytes));
    }
    let (name, behind) = string_argument(alloc, &bytes[width..], literals)?;
    let rest = byte_at(b' ', behind)?;
    Ok((Some(name), rest))
}

#[tactic(auto, unfolding(crate::specs::Commands::search_at))]
fn search_at(
    alloc: Global,
    uid: bool,
    bytes: &[u8],
    literals: &mut VecDeque<Bytes>,
) -> Result<Command, Refused>
    ensures { Gives (λ command. command) result (search_at uid bytes.now literals.old.items) }
{
    let behind = byte_at(b' ', bytes)?;
    let (charset, behind) = charset_at(alloc, behind, literals)?;
    let (key, rest) = search_keys_at(alloc, behind, literals)?;
    ended(Command::Search(uid, charset, key), rest)
}

// How many atom bytes stand at the front.
fn atoms(bytes: &[u8]) -> usize
    ensures value { result ≡ prefix_len is_atom bytes.now }
    ensures within { result ≤ length bytes.now }
{
    bytes.iter().take_while(|byte| is_atom_byte(**byte)).count()
}

// The command of a word that UID may stand before.
fn message_command(
    alloc: Global,
    uid: bool,
    verb: Option<Verb>,
    bytes: &[u8],
    literals: &mut VecDeque<Bytes>,
) -> Result<Command, Refused>
    ensures { Gives (λ command. command) result (message_command uid verb bytes.now literals.old.items) }
{
    match verb {
        Some(Verb::Search) => search_at(alloc, uid, bytes, literals),
        Some(Verb::Fetch) => fetch_at(alloc, uid, bytes, literals),
        Some(Verb::Store) => store_at(alloc, uid, bytes),
        Some(Verb::Copy) => copy_at(alloc, uid, bytes, literals),
        _ => Err(Refused::Bad(Reason::NotUnderstood)),
    }
}

#[tactic(auto, unfolding(crate::specs::Commands::uid_at))]
fn uid_at(alloc: Global, bytes: &[u8], literals: &mut VecDeque<Bytes>) -> Result<Command, Refused>
    ensures { Gives (λ command. command) result (uid_at bytes.now literals.old.items) }
{
    let behind = byte_at(b' ', bytes)?;
    let (word, behind) = token_at(behind)?;
    message_command(alloc, true, message_verb(word), behind, literals)
}

// STARTTLS, LOGIN and AUTHENTICATE, whatever follows.
fn password_at(alloc: Global, word: &[u8]) -> Result<Command, Refused>
    ensures { Gives (λ command. command) result (password_at word.now) }
{
    let mut bytes = Vec::from_slice(alloc, word)?;
    bytes.make_ascii_uppercase();
    Ok(Command::Password(Bytes::from_vec(bytes)))
}

// What stands behind a command's word.
#[tactic(auto, unfolding(crate::specs::Commands::arguments_at))]
fn arguments_at(
    alloc: Global,
    word: &[u8],
    verb: Verb,
    bytes: &[u8],
    literals: &mut VecDeque<Bytes>,
) -> Result<Command, Refused>
    ensures { Gives (λ command. command) result (arguments_at word.now verb bytes.now literals.old.items) }
{
    match verb {
        Verb::Capability => ended(Command::Capability, bytes),
        Verb::Noop => ended(Command::Noop, bytes),
        Verb::Check => ended(Command::Check, bytes),
        Verb::Close => ended(Command::Close, bytes),
        Verb::Expunge => ended(Command::Expunge, bytes),
        Verb::Logout => ended(Command::Logout, bytes),
        Verb::Password => password_at(alloc, word),
        Verb::Select => select_at(alloc, bytes, literals),
        Verb::Examine => examine_at(alloc, bytes, literals),
        Verb::Create => create_at(alloc, bytes, literals),
        Verb::Delete => delete_at(alloc, bytes, literals),
        Verb::Subscribe => subscribe_at(alloc, bytes, literals),
        Verb::Unsubscribe => unsubscribe_at(alloc, bytes, literals),
        Verb::Rename => rename_at(alloc, bytes, literals),
        Verb::List => list_at(alloc, bytes, literals),
        Verb::Lsub => lsub_at(alloc, bytes, literals),
        Verb::Status => status_at(alloc, bytes, literals),
        Verb::Append => append_at(alloc, bytes, literals),
        Verb::Search => search_at(alloc, false, bytes, literals),
        Verb::Fetch => fetch_at(alloc, false, bytes, literals),
        Verb::Store => store_at(alloc, false, bytes),
        Verb::Copy => copy_at(alloc, false, bytes, literals),
        Verb::Uid => uid_at(alloc, bytes, literals),
    }
}

/// What stands behind the tag: a space, the command's word and its arguments.
#[tactic(auto, unfolding(crate::specs::Commands::behind_tag))]
pub(crate) fn behind_tag(
    alloc: Global,
    bytes: &[u8],
    literals: &mut VecDeque<Bytes>,
) -> Result<Command, Refused>
    ensures { Gives (λ command. command) result (behind_tag bytes.now literals.old.items) }
{
    let behind = bytes.get(1..).unwrap_or(&[]);
    let width = atoms(behind);
    if width == 0 {
        return Err(Refused::Bad(Reason::NoCommand));
    }
    let word = &behind[..width];
    match verb_of(word) {
        Some(verb) => arguments_at(alloc, word, verb, &behind[width..], literals),
        None => Err(Refused::Bad(Reason::UnknownCommand)),
    }
}
