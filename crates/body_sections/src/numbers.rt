// Part numbers.
ghost use Rattle.std.specs.Prelude.{◌≡◌, None, Some, MatchOption};
ghost use Rattle.body_sections.specs.PartNumbers.{parts_of, inner_parts, message_of, numbered, part_of};

use mime_parts::{Inner, Part};
use std::slice::from_ref;

// The parts of a message.
#[tactic(auto, using(crate::proofs::Held::held_parts))]
fn parts_of(message: &Part) -> &[Part]
    ensures { result.now ≡ parts_of message.now }
{
    match &message.inner {
        Inner::Parts(parts) => parts.as_slice(),
        Inner::Message(_) | Inner::Leaf => from_ref(message),
    }
}

// The parts of a part that was found by a number.
#[tactic(auto, using(crate::proofs::Held::held_parts))]
fn inner_parts(part: &Part) -> &[Part]
    ensures { result.now ≡ inner_parts part.now }
{
    match &part.inner {
        Inner::Parts(parts) => parts.as_slice(),
        Inner::Message(message) => parts_of(message.get()),
        Inner::Leaf => &[],
    }
}

/// The message that a part holds.
pub(crate) fn message_of(part: &Part) -> Option<&Part>
    ensures { MatchOption result (message_of part.now ≡ None) (λ found. message_of part.now ≡ Some found.now) }
{
    match &part.inner {
        Inner::Message(message) => Some(message.get()),
        Inner::Parts(_) | Inner::Leaf => None,
    }
}

// The part of a number, from 1.
fn numbered(parts: &[Part], number: u32) -> Option<&Part>
    ensures { MatchOption result (numbered parts.now number ≡ None) (λ found. numbered parts.now number ≡ Some found.now) }
{
    parts.get((number as usize).checked_sub(1)?)
}

/// The part that numbers lead to from a message.
pub(crate) fn part_of<'a>(numbers: &[u32], message: &'a Part) -> Option<&'a Part>
    ensures { MatchOption result (part_of numbers.now message.now ≡ None) (λ found. part_of numbers.now message.now ≡ Some found.now) }
{
    let mut parts = parts_of(message);
    let mut part = message;
    for number in numbers {
        part = numbered(parts, *number)?;
        parts = inner_parts(part);
    }
    Some(part)
}
