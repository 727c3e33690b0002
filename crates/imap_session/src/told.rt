// What SELECT tells of a mailbox, and that it was told.
ghost use Rattle.std.specs.Prelude.{◌≡◌, ◌≤◌, ◌+◌, List, ℕ, IfOk, OnOk, length};
ghost use Rattle.store_trait.specs.declared.store.Info.{Info as Message};
ghost use Rattle.imap_session.specs.Select.{told_from, count_unseen};

use mail_fields::{Keyword, Keywords};
use mail_types::{FlagChange, Flags};
use std::alloc::{AllocError, Global};
use store_trait::Info;

/// The changes by which each message is old from now on.
pub fn told_changes(alloc: Global, infos: &[Info]) -> Result<Vec<FlagChange>, AllocError>
    ensures { IfOk result (λ changes. changes.items ≡ told_from 0 infos.now) }
{
    let mut changes = Vec::new(alloc);
    for (place, info) in infos.iter().enumerate() {
        if !info.flags.old {
            changes.push(FlagChange {
                place,
                flags: Flags {
                    old: true,
                    ..info.flags
                },
                words: info.words,
            })?;
        }
    }
    Ok(changes)
}

/// Copies of names of keywords.
pub fn copied(alloc: Global, names: &[Keyword]) -> Result<Vec<Keyword>, AllocError>
    ensures { IfOk result (λ copies. copies.items ≡ names.now) }
{
    let mut copies = Vec::new(alloc);
    for name in names {
        copies.push(name.copy(alloc)?)?;
    }
    Ok(copies)
}

/// The same as a list of keywords.
pub fn copy_words(alloc: Global, words: &[Keyword]) -> Result<Keywords, AllocError>
    ensures { IfOk result (λ copy. copy ≡ words.now) }
{
    Ok(Keywords::of(copied(alloc, words)?))
}
