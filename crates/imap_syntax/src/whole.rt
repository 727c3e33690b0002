// Whole commands.
ghost use Rattle.std.specs.Prelude.{◌≡◌, ◌≤◌, true, IfOk};
ghost use Rattle.imap_syntax.specs.Commands.{meaning_of, has_nul};
ghost use Rattle.imap_syntax.specs.Meanings.{meaning_in};
ghost use Rattle.imap_syntax.specs.Laws.{OnCommand, depth_of, numbers_in, texts_in};
ghost use Rattle.imap_arguments.specs.Laws.{nonzero};
ghost use Rattle.std.specs.List.{list_all, list_any};

use crate::command::Command;
use crate::commands::behind_tag;
use imap_arguments::{Reason, Refused, Tag, tag_of};
use mail_fields::Bytes;
use std::alloc::{AllocError, Global};
use std::collections::VecDeque;

/// A whole command by its tag, or the first reason against it; where no tag is, it is `*`.
#[derive(Drop)]
pub enum Meaning {
    Good(Tag, Command),
    Bad(Tag, Reason),
}

// Whether a NUL stands in a literal.
fn have_nul(literals: &VecDeque<Bytes>) -> bool
    ensures { result ≡ list_any has_nul literals.now.items }
{
    literals
        .iter()
        .any(|literal| literal.as_slice().contains(&0))
}

/// What a whole command means, by its text and its literals.
#[tactic(auto, unfolding(crate::specs::Commands::meaning_of))]
pub fn meaning_of(
    alloc: Global,
    text: &[u8],
    literals: &mut VecDeque<Bytes>,
) -> Result<Meaning, AllocError>
    ensures value { IfOk result (λ meaning. meaning_in meaning ≡ meaning_of text.now literals.old.items) }
    ensures shallow { IfOk result (λ meaning. OnCommand (meaning_in meaning) (λ command. depth_of command ≤ 101)) }
    ensures numbers { IfOk result (λ meaning. OnCommand (meaning_in meaning) (λ command. nonzero (numbers_in command) ≡ true)) }
    ensures texts { IfOk result (λ meaning. OnCommand (meaning_in meaning) (λ command. list_all nonzero (texts_in command) ≡ true)) }
{
    let Some(tag) = tag_of(text) else {
        return Ok(Meaning::Bad(Tag::of(b"*"), Reason::NoTag));
    };
    let own = Tag::of(tag);
    if text.contains(&0) || have_nul(literals) {
        return Ok(Meaning::Bad(own, Reason::Nul));
    }
    match behind_tag(alloc, text.get(tag.len()..).unwrap_or(&[]), literals) {
        Ok(command) => Ok(Meaning::Good(own, command)),
        Err(Refused::Bad(reason)) => Ok(Meaning::Bad(own, reason)),
        Err(Refused::Memory) => Err(AllocError),
    }
}
