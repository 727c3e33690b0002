// What a raw unit means.
ghost use Rattle.std.specs.Prelude.{◌≡◌, IfOk};
ghost use Rattle.imap_syntax.specs.Commands.{meaning_of};
ghost use Rattle.imap_grammar.specs.Units.{first_tag, unit_by, unit_of};

use crate::unit::Unit;
use imap_arguments::{Reason, Tag, tag_of};
use imap_syntax::{Meaning, meaning_of};
use raw_commands::{RawCommand, RawUnit};
use std::alloc::{AllocError, Global};
use std::collections::VecDeque;

// The tag at the front of a command's lines, else `*`.
fn first_tag(text: &[u8]) -> Tag
    ensures { result ≡ first_tag text.now }
{
    match tag_of(text) {
        Some(tag) => Tag::of(tag),
        None => Tag::of(b"*"),
    }
}

// A whole command. Its literals are moved, not copied.
fn whole_unit(alloc: Global, command: RawCommand) -> Result<Unit, AllocError>
    ensures { IfOk result (λ unit. unit ≡ unit_by (meaning_of command.text command.literals)) }
{
    let RawCommand { text, literals } = command;
    let mut literals = VecDeque::from_vec(literals.into_vec());
    match meaning_of(alloc, text.as_slice(), &mut literals)? {
        Meaning::Good(tag, command) => Ok(Unit::Command(tag, command)),
        Meaning::Bad(tag, reason) => Ok(Unit::Bad(tag, reason.number())),
    }
}

/// What a raw unit means.
pub(crate) fn unit_of(alloc: Global, raw: RawUnit) -> Result<Unit, AllocError>
    ensures { IfOk result (λ unit. unit ≡ unit_of raw) }
{
    match raw {
        RawUnit::Announce => Ok(Unit::Announce),
        RawUnit::Whole(command) => whole_unit(alloc, command),
        RawUnit::TooLong(text) => {
            let tag = first_tag(text.as_slice());
            Ok(Unit::Bad(tag, Reason::TooLong.number()))
        }
        RawUnit::TooLarge(text) => Ok(Unit::Large(first_tag(text.as_slice()))),
    }
}
