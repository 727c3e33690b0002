// The flags and keywords after STORE (RFC 3501, section 6.4.6).
ghost use Rattle.std.specs.Prelude.{◌≡◌, ◌++◌, ◌&&◌, ◌≤◌, ◌<◌, ℕ, List, slice_get, length, IfOk, OnOk};
ghost use Rattle.imap_arguments.specs.declared.flag.FlagList.{FlagList as GivenFlags};
ghost use Rattle.imap_session.specs.Names.{numbers_of};
ghost use Rattle.imap_session.specs.Store.{adds_names, stored_flags, stored_words, same_flags, real_change, change_of, changes_at};

use crate::keywords::numbers_of;
use imap_arguments::FlagList;
use imap_syntax::Mode;
use mail_fields::Keyword;
use mail_types::{FlagChange, Flags};
use std::alloc::{AllocError, Global};
use store_trait::Info;

pub fn adds_names(mode: Mode) -> bool
    ensures { result ≡ adds_names mode }
{
    match mode {
        Mode::Replace => true,
        Mode::Add => true,
        Mode::Remove => false,
    }
}

// ---- The flags

// `old` is no flag that a client sets.
fn stored_flags(mode: Mode, given: Flags, was: Flags) -> Flags
    ensures { result ≡ stored_flags mode given was }
{
    match mode {
        Mode::Replace => Flags {
            old: was.old,
            ..given
        },
        Mode::Add => was.or(given),
        Mode::Remove => was.without(given),
    }
}

fn stored_words(mode: Mode, given: u32, was: u32) -> u32
    ensures { result ≡ stored_words mode given was }
{
    match mode {
        Mode::Replace => given,
        Mode::Add => was | given,
        Mode::Remove => was & (u32::MAX - given),
    }
}

fn same_flags(one: Flags, other: Flags) -> bool
    ensures { result ≡ same_flags one other }
{
    one.bits() == other.bits()
}

// Puts a change of a message behind the others, unless it changes nothing.
fn add_real(
    changes: &mut Vec<FlagChange>,
    place: usize,
    flags: Flags,
    words: u32,
    info: &Info,
) -> Result<(), AllocError>
    ensures { OnOk result (changes.new.items ≡ changes.old.items ++ real_change place flags words info.now) }
{
    if same_flags(flags, info.flags) && words == info.words {
        return Ok(());
    }
    changes.push(FlagChange {
        place,
        flags,
        words,
    })?;
    Ok(())
}

/// How a command changes flags: its mode, the flags, and the numbers of the names.
#[derive(Clone, Copy)]
pub struct Setting {
    pub mode: Mode,
    pub flags: Flags,
    pub words: u32,
}

// Puts what a setting changes of the message at a place behind other changes.
fn add_change(
    changes: &mut Vec<FlagChange>,
    setting: Setting,
    place: usize,
    infos: &[Info],
) -> Result<(), AllocError>
    ensures { OnOk result ((given : GivenFlags) (names : List (List ℕ)) → setting.flags ≡ given.flags → setting.words ≡ numbers_of given.words names
        → changes.new.items ≡ changes.old.items ++ change_of setting.mode given names place (slice_get infos.now place)) }
{
    let Some(info) = infos.get(place) else {
        return Ok(());
    };
    let flags = stored_flags(setting.mode, setting.flags, info.flags);
    let words = stored_words(setting.mode, setting.words, info.words);
    add_real(changes, place, flags, words, info)?;
    Ok(())
}

// What a setting changes of the messages at places.
fn set_at(
    alloc: Global,
    setting: Setting,
    places: &[usize],
    infos: &[Info],
) -> Result<Vec<FlagChange>, AllocError>
    ensures { IfOk result (λ changes. (given : GivenFlags) (names : List (List ℕ)) → setting.flags ≡ given.flags → setting.words ≡ numbers_of given.words names
        → changes.items ≡ changes_at setting.mode given names infos.now places.now) }
{
    let mut changes = Vec::new(alloc);
    for place in places {
        add_change(&mut changes, setting, *place, infos)?;
    }
    Ok(changes)
}

/// What flags and keywords change of the messages at places.
pub fn changes_at(
    alloc: Global,
    mode: Mode,
    given: &FlagList,
    names: &[Keyword],
    places: &[usize],
    infos: &[Info],
) -> Result<Vec<FlagChange>, AllocError>
    requires { length names.now ≤ 32 }
    ensures { IfOk result (λ changes. changes.items ≡ changes_at mode given.now names.now infos.now places.now) }
{
    let setting = Setting {
        mode,
        flags: given.flags,
        words: numbers_of(given.words.as_slice(), names),
    };
    set_at(alloc, setting, places, infos)
}
