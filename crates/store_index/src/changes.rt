// What a step makes of what is told.
ghost use Rattle.std.specs.Prelude.{◌≡◌, ◌≤◌, ◌<◌, ◌+◌, ◌*◌, ◌/◌, ◌%◌, ◌^◌, ◌++◌, None, false, map, length, IfOk, OnOk};
ghost use Rattle.std.specs.List.{AllByRecursion};
ghost use Rattle.mail_fields.specs.Keyword.{IsKeyword};
ghost use Rattle.mail_types.specs.Limits.{record_limit, text_limit, has_large_text};
ghost use Rattle.mail_types.specs.Lists.{RiseBelow, places_of, undropped, added_record, added_records};
ghost use Rattle.store_trait.specs.declared.change.Change.TheVariants.{Append, SetFlags, Expunge};
ghost use Rattle.mail_types.specs.Keeping.{text_in_form, words_below};
ghost use Rattle.store_trait.specs.Changes.{CanChange, words_after};
ghost use Rattle.store_trait.specs.Views.{info_of};
ghost use Rattle.store_index.specs.Steps.{change_of, told_due};
ghost use Rattle.store_index.specs.Told.{changed_summary, cleared_info, changed_infos, added_infos};

use crate::{Step, Told};
use mail_fields::{Bytes, Keyword, Keywords};
use mail_types::{FlagChange, Keeps, NewMessage, Record, take};
use std::alloc::{AllocError, Global};
use store_trait::Info;

fn copy_words(alloc: Global, words: &[Keyword]) -> Result<Keywords, AllocError>
    ensures words { IfOk result (λ copies. copies ≡ words.now) }
    ensures names { IfOk result (λ copies. AllByRecursion IsKeyword words.now) }
{
    let mut copies = Vec::new(alloc);
    for word in words {
        copies.push(word.copy(alloc)?)?;
    }
    Ok(Keywords::of(copies))
}

fn copy_infos(alloc: Global, infos: &[Info]) -> Result<Vec<Info>, AllocError>
    ensures { IfOk result (λ copies. copies.items ≡ infos.now) }
{
    let mut copies = Vec::new(alloc);
    copies.extend_from_slice(infos)?;
    Ok(copies)
}

// Drops the messages at places that rise, the last first.
fn drop_places(infos: &mut Vec<Info>, places: &[usize])
    requires { RiseBelow 0 (length infos.old.items) places.now }
    ensures { infos.new.items ≡ undropped 0 places.now infos.old.items }
{
    for done in 0..places.len() {
        let _dropped = infos.remove(places[places.len() - 1 - done]);
    }
}

fn expunged(alloc: Global, _keeps: Keeps, told: &Told, places: &[usize]) -> Result<Told, AllocError>
    requires { RiseBelow 0 (length told.now.infos) places.now }
    ensures told { IfOk result (λ next. next ≡ changed_summary _keeps told.now (Expunge places.now)) }
    ensures names { IfOk result (λ next. AllByRecursion IsKeyword told.now.words) }
{
    let words = copy_words(alloc, told.words())?;
    let mut infos = copy_infos(alloc, told.infos())?;
    drop_places(&mut infos, places);
    Ok(Told::of(told.validity(), told.last(), words, infos))
}

// The keyword numbers from `old` up to `new` are cleared.
#[tactic(auto, using(crate::proofs::Words::cleared_small))]
fn clear_words(old: usize, new: usize, words: u32) -> u32
    requires order { old ≤ new }
    requires few { new ≤ 30 }
    ensures { result ≡ words % 2 ^ old + 2 ^ new * (words / 2 ^ new) }
{
    words % (1 << old) + (1 << new) * (words / (1 << new))
}

fn cleared(info: Info, old: usize, new: usize) -> Info
    requires order { old ≤ new }
    requires few { new ≤ 30 }
    ensures { result ≡ cleared_info old new info }
{
    Info {
        words: clear_words(old, new, info.words),
        ..info
    }
}

// Copies, in which keyword numbers that get a name are cleared.
fn all_cleared(
    alloc: Global,
    infos: &[Info],
    old: usize,
    new: usize,
) -> Result<Vec<Info>, AllocError>
    requires order { old ≤ new }
    requires few { new ≤ 30 }
    ensures { IfOk result (λ copies. copies.items ≡ map (cleared_info old new) infos.now) }
{
    let mut copies = Vec::new(alloc);
    for info in infos {
        copies.push(cleared(*info, old, new))?;
    }
    Ok(copies)
}

// The keyword numbers that have a name.
fn named(names: usize, words: u32) -> u32
    requires { names ≤ 30 }
    ensures { result ≡ words % 2 ^ names }
{
    words % (1 << names)
}

fn set_one(info: Info, names: usize, change: FlagChange) -> Info
    requires { names ≤ 30 }
    ensures { result ≡ record info { flags = change.flags; words = words_below names change.words } }
{
    Info {
        flags: change.flags,
        words: named(names, change.words),
        ..info
    }
}

// Sets the flags and keywords of the messages at places that rise.
fn set_all(infos: &mut Vec<Info>, names: usize, changes: &[FlagChange])
    requires few { names ≤ 30 }
    requires rise { RiseBelow 0 (length infos.old.items) (places_of changes.now) }
    ensures { infos.new.items ≡ changed_infos names 0 changes.now infos.old.items }
{
    for change in changes {
        infos[change.place] = set_one(infos[change.place], names, *change);
    }
}

fn flags_set(
    alloc: Global,
    keeps: Keeps,
    told: &Told,
    changes: &[FlagChange],
    words: &[Keyword],
) -> Result<Told, AllocError>
    requires can { CanChange keeps told.now.words (length told.now.infos) (SetFlags changes.now words.now) }
    requires few { keeps.words ≤ 30 }
    ensures told { IfOk result (λ next. next ≡ changed_summary keeps told.now (SetFlags changes.now words.now)) }
    ensures names { IfOk result (λ next. AllByRecursion IsKeyword words.now) }
{
    let names = copy_words(alloc, words)?;
    let mut infos = all_cleared(alloc, told.infos(), told.words().len(), words.len())?;
    set_all(&mut infos, words.len(), changes);
    Ok(Told::of(told.validity(), told.last(), names, infos))
}

fn added_info(
    alloc: Global,
    keeps: Keeps,
    message: &NewMessage,
    names: usize,
    uid: u32,
) -> Result<Info, AllocError>
    requires few { names ≤ 30 }
    requires short { length (text_in_form keeps.text message.now.text) ≤ text_limit }
    ensures { IfOk result (λ info. info ≡ info_of (added_record keeps names 0 uid message.now)) }
{
    let whole = Record {
        uid,
        text: Bytes::of(alloc, message.text.as_slice())?,
        stamp: message.stamp,
        flags: message.flags,
        words: message.words,
        number: 0,
    };
    let taken = take(alloc, keeps, &whole)?;
    Ok(Info {
        uid,
        stamp: taken.stamp,
        flags: message.flags,
        words: named(names, taken.words),
        size: taken.text.as_slice().len() as u32,
    })
}

// New messages take the UIDs behind the last one.
fn push_added(
    alloc: Global,
    keeps: Keeps,
    infos: &mut Vec<Info>,
    new: &[NewMessage],
    names: usize,
    last: u32,
) -> Result<(), AllocError>
    requires few { names ≤ 30 }
    requires room { last + length new.now < 2 ^ 32 }
    requires short { has_large_text (added_records keeps names 0 (last + 1) new.now) ≡ false }
    ensures { OnOk result (infos.new.items ≡ infos.old.items ++ added_infos keeps names (last + 1) new.now) }
{
    let mut uid = last;
    for message in new {
        uid += 1;
        infos.push(added_info(alloc, keeps, message, names, uid)?)?;
    }
    Ok(())
}

fn appended(
    alloc: Global,
    keeps: Keeps,
    told: &Told,
    new: &[NewMessage],
    words: &[Keyword],
) -> Result<Told, AllocError>
    requires can { CanChange keeps told.now.words (length told.now.infos) (Append new.now words.now) }
    requires few { keeps.words ≤ 30 }
    requires none { told_due keeps told.now (Append new.now words.now) ≡ None }
    ensures told { IfOk result (λ next. next ≡ changed_summary keeps told.now (Append new.now words.now)) }
    ensures names { IfOk result (λ next. AllByRecursion IsKeyword words.now) }
{
    let names = copy_words(alloc, words)?;
    let last = told.last();
    let mut infos = all_cleared(alloc, told.infos(), told.words().len(), words.len())?;
    push_added(alloc, keeps, &mut infos, new, words.len(), last)?;
    Ok(Told::of(told.validity(), last + new.len() as u32, names, infos))
}

/// What is told after a step.
#[tactic(auto, using(crate::proofs::Sizing::many_next, crate::proofs::Sizing::few_next))]
pub fn changed(alloc: Global, keeps: Keeps, told: &Told, step: Step<'_>) -> Result<Told, AllocError>
    requires can { CanChange keeps told.now.words (length told.now.infos) (change_of step) }
    requires few { keeps.words ≤ 30 }
    requires names { length told.now.words ≤ keeps.words }
    requires messages { length told.now.infos ≤ record_limit }
    requires none { told_due keeps told.now (change_of step) ≡ None }
    ensures told { IfOk result (λ next. next ≡ changed_summary keeps told.now (change_of step.entry)) }
    ensures few { IfOk result (λ next. length next.words ≤ keeps.words) }
    ensures many { IfOk result (λ next. length next.infos ≤ record_limit) }
    ensures names { IfOk result (λ next. AllByRecursion IsKeyword (words_after told.now.words (change_of step.entry))) }
{
    match step {
        Step::Append(new, words) => appended(alloc, keeps, told, new, words),
        Step::SetFlags(changes, words) => flags_set(alloc, keeps, told, changes, words),
        Step::Expunge(places) => expunged(alloc, keeps, told, places),
    }
}
