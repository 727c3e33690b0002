// Keyword names with spaces between.
ghost use Rattle.std.specs.Prelude.{◌≡◌, ◌<◌, ◌≤◌, ◌∷◌, ◌++◌, [], true, if◌then◌else◌, length, IfOk, IfSome, OnOk, MatchOption};
ghost use Rattle.std.specs.List.{before_first, after_first, list_any};
ghost use Rattle.mail_fields.specs.Keyword.{same_keyword};
ghost use Rattle.mail_fields.specs.Names.{is_space, are_distinct};
ghost use Rattle.status_heads.specs.Names.{words_of, names_of, is_new, with_names};

use mail_fields::{Keyword, Keywords, is_taken, split_at_space};
use std::alloc::{AllocError, Global};

// The first word of a value, and what stands behind it.
pub(crate) fn next_word(value: &[u8]) -> Option<(&[u8], &[u8])>
    ensures words { MatchOption result (words_of value.now ≡ [])
        (λ found. words_of value.now ≡ found.0.now ∷ words_of found.1.now) }
    ensures shorter { IfSome result (λ found. length found.1.now < length value.now) }
{
    let mut rest = value;
    while !rest.is_empty() {
        let (word, behind) = split_at_space(rest);
        if !word.is_empty() {
            return Some((word, behind));
        }
        rest = behind;
    }
    None
}

// The names of a value, all of them.
pub(crate) fn read_names(alloc: Global, value: &[u8]) -> Result<Keywords, AllocError>
    ensures { IfOk result (λ names. names ≡ names_of value.now) }
{
    let mut names = Vec::new(alloc);
    let mut rest = value;
    while let Some((word, behind)) = next_word(rest) {
        if let Some(name) = Keyword::read(alloc, word)? {
            names.push(name)?;
        }
        rest = behind;
    }
    Ok(Keywords::of(names))
}

// The first 30 names of a value, each once.
pub(crate) fn read_first_names(alloc: Global, value: &[u8]) -> Result<Keywords, AllocError>
    ensures value { IfOk result (λ names. names ≡ with_names [] (words_of value.now)) }
    ensures few { IfOk result (λ names. length names ≤ 30) }
    ensures distinct { IfOk result (λ names. are_distinct names ≡ true) }
{
    let mut names = Vec::new(alloc);
    let mut rest = value;
    while let Some((word, behind)) = next_word(rest) {
        add_name(alloc, &mut names, word)?;
        rest = behind;
    }
    Ok(Keywords::of(names))
}

// Adds a word that the names may get.
fn add_name(alloc: Global, names: &mut Vec<Keyword>, word: &[u8]) -> Result<(), AllocError>
    ensures { OnOk result (names.new.items ≡ (if is_new names.old.items word.now then names.old.items ++ word.now ∷ [] else names.old.items)) }
{
    if names.len() >= 30 {
        return Ok(());
    }
    let Some(name) = Keyword::read(alloc, word)? else {
        return Ok(());
    };
    if is_taken(names.as_slice(), &name) {
        return Ok(());
    }
    names.push(name)?;
    Ok(())
}
