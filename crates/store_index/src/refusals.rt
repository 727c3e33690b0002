// Which refusal is due.
ghost use Rattle.std.specs.Prelude.{◌≡◌, ◌≤◌, ◌+◌, ◌&&◌, ℕ, nat_lt, length, IfOk};
ghost use Rattle.mail_types.specs.Keeping.{text_in_form};
ghost use Rattle.mail_types.specs.Limits.{file_limit, record_limit, text_limit, has_large_text, given_length};
ghost use Rattle.mail_types.specs.Lists.{added_records};
ghost use Rattle.mail_types.specs.Opening.{greatest_given};
ghost use Rattle.store_trait.specs.declared.change.Change.TheVariants.{Append};
ghost use Rattle.store_trait.specs.Changes.{is_nothing};
ghost use Rattle.store_index.specs.Steps.{change_of, told_due};

use crate::{Step, Told};
use mail_fields::Keyword;
use mail_types::{
    FILE_LIMIT, GREATEST_GIVEN, Keeps, Limit, NewMessage, RECORD_LIMIT, TEXT_LIMIT, text_in_form,
};
use std::alloc::{AllocError, Global};
use store_trait::StoreFault;

/// Whether a step has no message, change, place or new name.
pub fn is_nothing(told: &Told, step: Step<'_>) -> bool
    ensures { result ≡ is_nothing told.now.words (change_of step.entry) }
{
    match step {
        Step::Append(new, words) => new.is_empty() && words.len() == told.words().len(),
        Step::SetFlags(changes, words) => {
            changes.is_empty() && words.len() == told.words().len()
        }
        Step::Expunge(places) => places.is_empty(),
    }
}

fn lacks_uids(last: u32, count: usize) -> bool
    ensures { result ≡ (nat_lt 0 count && nat_lt greatest_given (last + count)) }
{
    count > 0 && u128::from(last) + count as u128 > u128::from(GREATEST_GIVEN)
}

fn has_many(held: usize, count: usize) -> bool
    ensures { result ≡ nat_lt record_limit (held + count) }
{
    held as u128 + count as u128 > RECORD_LIMIT as u128
}

fn is_large(alloc: Global, keeps: Keeps, message: &NewMessage) -> Result<bool, AllocError>
    ensures { IfOk result (λ large. large ≡ nat_lt text_limit (length (text_in_form keeps.text message.now.text))) }
{
    let text = text_in_form(alloc, keeps.text, message.text.as_slice())?;
    Ok(text.len() > TEXT_LIMIT)
}

// Whether a new text, as the driver keeps it, is longer than 16 MiB.
fn has_large(alloc: Global, keeps: Keeps, new: &[NewMessage]) -> Result<bool, AllocError>
    ensures { (names number next : ℕ) → IfOk result (λ large. large ≡ has_large_text (added_records keeps names number next new.now)) }
{
    for message in new {
        if is_large(alloc, keeps, message)? {
            return Ok(true);
        }
    }
    Ok(false)
}

fn is_long(new: &[NewMessage]) -> bool
    ensures { result ≡ nat_lt file_limit (given_length new.now) }
{
    let mut length: u128 = 0;
    for message in new {
        length += message.text.as_slice().len() as u128;
    }
    length > u128::from(FILE_LIMIT)
}

fn append_due(
    alloc: Global,
    keeps: Keeps,
    told: &Told,
    new: &[NewMessage],
    words: &[Keyword],
) -> Result<Option<StoreFault>, AllocError>
    ensures { IfOk result (λ found. found ≡ told_due keeps told.now (Append new.now words.now)) }
{
    let _names = words;
    if lacks_uids(told.last(), new.len()) {
        return Ok(Some(StoreFault::NoUid));
    }
    if has_many(told.infos().len(), new.len()) {
        return Ok(Some(StoreFault::TooMany));
    }
    if has_large(alloc, keeps, new)? {
        return Ok(Some(StoreFault::TooLarge(Limit::Text)));
    }
    if is_long(new) {
        return Ok(Some(StoreFault::TooLarge(Limit::File)));
    }
    Ok(None)
}

/// The refusal that is due by what the store tells, whatever the file's length.
pub fn due(
    alloc: Global,
    keeps: Keeps,
    told: &Told,
    step: Step<'_>,
) -> Result<Option<StoreFault>, AllocError>
    ensures { IfOk result (λ found. found ≡ told_due keeps told.now (change_of step.entry)) }
{
    match step {
        Step::Append(new, words) => append_due(alloc, keeps, told, new, words),
        _ => Ok(None),
    }
}
