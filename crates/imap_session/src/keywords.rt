// The names of keywords in a mailbox, and the numbers by which messages have them.
ghost use Rattle.std.specs.Prelude.{◌≡◌, ◌++◌, ◌∷◌, ◌||◌, ◌≤◌, ◌<◌, [], nat_le, length, if◌then◌else◌, IfOk, OnOk};
ghost use Rattle.std.specs.List.{list_any};
ghost use Rattle.imap_session.specs.declared.adding.Brought.{Brought as Message};
ghost use Rattle.imap_session.specs.Adding.{names_among};
ghost use Rattle.imap_session.specs.Names.{has_name, grown, numbers_of, names_of};

use crate::adding::Brought;
use crate::told::copied;
use mail_fields::{Keyword, Keywords};
use std::alloc::{AllocError, Global};

fn has_name(names: &[Keyword], name: &Keyword) -> bool
    ensures { result ≡ has_name names.now name.now }
{
    names.iter().any(|other| name.same(other))
}

// Puts a new name behind the others, while there is room.
fn add_name(
    alloc: Global,
    names: &mut Vec<Keyword>,
    room: usize,
    name: &Keyword,
) -> Result<(), AllocError>
    ensures { OnOk result (names.new.items ≡ (if has_name names.old.items name.now || nat_le room (length names.old.items) then names.old.items else names.old.items ++ name.now ∷ [])) }
{
    if !has_name(names.as_slice(), name) && names.len() < room {
        names.push(name.copy(alloc)?)?;
    }
    Ok(())
}

fn grown(
    alloc: Global,
    room: usize,
    names: &[Keyword],
    given: &[Keyword],
) -> Result<Vec<Keyword>, AllocError>
    ensures { IfOk result (λ next. next.items ≡ grown room names.now given.now) }
{
    let mut next = copied(alloc, names)?;
    for name in given {
        add_name(alloc, &mut next, room, name)?;
    }
    Ok(next)
}

/// The names after a command, which adds the given ones or not.
#[tactic(auto, using(crate::proofs::Storing::grown_few))]
pub fn next_names(
    alloc: Global,
    adds: bool,
    room: usize,
    names: &[Keyword],
    given: &[Keyword],
) -> Result<Vec<Keyword>, AllocError>
    ensures are { IfOk result (λ next. next.items ≡ (if adds then grown room names.now given.now else names.now)) }
    ensures few { length names.now ≤ room → IfOk result (λ next. length next.items ≤ room) }
{
    if adds {
        grown(alloc, room, names, given)
    } else {
        copied(alloc, names)
    }
}

fn bit_if(set: bool) -> u32
    ensures { result ≡ (if set then 1 else 0) }
{
    u32::from(set)
}

/// The numbers of the given names, as bits: from the last number to the first.
pub fn numbers_of(given: &[Keyword], names: &[Keyword]) -> u32
    requires { length names.now ≤ 32 }
    ensures { result ≡ numbers_of given.now names.now }
{
    let mut bits = 0;
    for k in 0..names.len() {
        bits = 2 * bits + bit_if(has_name(given, &names[names.len() - 1 - k]));
    }
    bits
}

/// The names whose numbers are set.
pub fn names_of(alloc: Global, numbers: u32, names: &[Keyword]) -> Result<Keywords, AllocError>
    ensures { IfOk result (λ given. given ≡ names_of numbers names.now) }
{
    let mut given = Vec::new(alloc);
    let mut left = numbers;
    for name in names {
        if left % 2 == 1 {
            given.push(name.copy(alloc)?)?;
        }
        left /= 2;
    }
    Ok(Keywords::of(given))
}

fn any_has(brought: &[Brought], name: &Keyword) -> bool
    ensures { result ≡ list_any (λ (b : Message). has_name b.names name.now) brought.now }
{
    brought
        .iter()
        .any(|message| has_name(message.names.as_slice(), name))
}

// Puts a name behind others where a message has it.
fn add_if_had(
    alloc: Global,
    among: &mut Vec<Keyword>,
    brought: &[Brought],
    name: &Keyword,
) -> Result<(), AllocError>
    ensures { OnOk result (among.new.items ≡ (if list_any (λ (b : Message). has_name b.names name.now) brought.now then among.old.items ++ name.now ∷ [] else among.old.items)) }
{
    if any_has(brought, name) {
        among.push(name.copy(alloc)?)?;
    }
    Ok(())
}

/// The names that one of these messages has, in the order of the list.
pub fn names_among(
    alloc: Global,
    brought: &[Brought],
    names: &[Keyword],
) -> Result<Vec<Keyword>, AllocError>
    ensures { IfOk result (λ among. among.items ≡ names_among brought.now names.now) }
{
    let mut among = Vec::new(alloc);
    for name in names {
        add_if_had(alloc, &mut among, brought, name)?;
    }
    Ok(among)
}
