// Arguments behind their space.
ghost use Rattle.std.specs.Prelude.{◌≡◌};
ghost use Rattle.imap_arguments.specs.Readings.{Gives};
ghost use Rattle.imap_syntax.specs.Stamps.{stamp_text_at};
ghost use Rattle.imap_syntax.specs.Commands.{ended, string_argument, set_argument, append_flags_at, append_date_at, charset_at, some_mode, mode_of};

use crate::command::{Command, Mode};
use imap_arguments::{
    FlagList, Reason, Refused, Set, astring_at, begins, byte_at, date_time_at, flag_list_at, set_at,
};
use mail_fields::{Bytes, Keywords, Stamp};
use mail_types::Flags;
use std::alloc::Global;
use std::collections::VecDeque;

/// Nothing stands behind the last argument.
pub(crate) fn ended(command: Command, bytes: &[u8]) -> Result<Command, Refused>
    ensures { Gives (λ command. command) result (ended command bytes.now) }
{
    if bytes.is_empty() {
        Ok(command)
    } else {
        Err(Refused::Bad(Reason::TextBehind))
    }
}

/// An argument that is a string, behind its space.
pub(crate) fn string_argument<'a>(
    alloc: Global,
    bytes: &'a [u8],
    literals: &mut VecDeque<Bytes>,
) -> Result<(Bytes, &'a [u8]), Refused>
    ensures { Gives (λ x. record { value = x.0; rest = x.1.now; literals = literals.new.items }) result (string_argument bytes.now literals.old.items) }
{
    let behind = byte_at(b' ', bytes)?;
    astring_at(alloc, behind, literals)
}

/// A set behind its space.
pub(crate) fn set_argument(alloc: Global, bytes: &[u8]) -> Result<(Set, &[u8]), Refused>
    ensures { Gives (λ x. (x.0, x.1.now)) result (set_argument bytes.now) }
{
    let behind = byte_at(b' ', bytes)?;
    set_at(alloc, behind)
}

/// The flags of APPEND and a space, if a parenthesis stands there.
#[tactic(auto, unfolding(crate::specs::Commands::append_flags_at))]
pub(crate) fn append_flags_at(alloc: Global, bytes: &[u8]) -> Result<(FlagList, &[u8]), Refused>
    ensures { Gives (λ x. (x.0, x.1.now)) result (append_flags_at bytes.now) }
{
    if !begins(b'(', bytes) {
        let flags = Flags::none();
        let words = Keywords::of(Vec::new(alloc));
        return Ok((FlagList { flags, words }, bytes));
    }
    let (flags, behind) = flag_list_at(alloc, bytes)?;
    let rest = byte_at(b' ', behind)?;
    Ok((flags, rest))
}

/// A date with a time.
#[tactic(auto, using(crate::proofs::Bounds::meant_stamp))]
fn stamp_text_at(alloc: Global, bytes: &[u8]) -> Result<(Stamp, &[u8]), Refused>
    ensures { Gives (λ x. (x.0, x.1.now)) result (stamp_text_at bytes.now) }
{
    date_time_at(alloc, bytes)
}

/// The date of APPEND and a space, if a quote stands there.
#[tactic(auto, unfolding(crate::specs::Commands::append_date_at))]
pub(crate) fn append_date_at(alloc: Global, bytes: &[u8]) -> Result<(Option<Stamp>, &[u8]), Refused>
    ensures { Gives (λ x. (x.0, x.1.now)) result (append_date_at bytes.now) }
{
    if !begins(b'"', bytes) {
        return Ok((None, bytes));
    }
    let (stamp, behind) = stamp_text_at(alloc, bytes)?;
    let rest = byte_at(b' ', behind)?;
    Ok((Some(stamp), rest))
}

/// How STORE changes flags, and whether silently.
pub(crate) fn mode_of(word: &[u8]) -> Result<(Mode, bool), Refused>
    ensures { Gives (λ x. x) result (some_mode (mode_of word.now)) }
{
    if word.eq_ignore_ascii_case(b"FLAGS") {
        return Ok((Mode::Replace, false));
    }
    if word.eq_ignore_ascii_case(b"FLAGS.SILENT") {
        return Ok((Mode::Replace, true));
    }
    if word.eq_ignore_ascii_case(b"+FLAGS") {
        return Ok((Mode::Add, false));
    }
    if word.eq_ignore_ascii_case(b"+FLAGS.SILENT") {
        return Ok((Mode::Add, true));
    }
    if word.eq_ignore_ascii_case(b"-FLAGS") {
        return Ok((Mode::Remove, false));
    }
    if word.eq_ignore_ascii_case(b"-FLAGS.SILENT") {
        return Ok((Mode::Remove, true));
    }
    Err(Refused::Bad(Reason::NotUnderstood))
}
