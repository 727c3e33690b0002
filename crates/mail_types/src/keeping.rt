// A message limited to what a driver declares to keep.
ghost use Rattle.std.specs.Prelude.{◌≡◌, IfOk};
ghost use Rattle.mail_types.specs.Keeping.{stamp_in_form, text_in_form, words_below, take_record, kept_record, IsInForm};

use crate::{DateKeep, Keeps, Record, TextKeep};
use mail_fields::{Bytes, Stamp, stamp_of, to_utc};
use std::alloc::{AllocError, Global};
use text_forms::{lines_form, mmdf_form, unix_form};

// A stamp as a driver keeps dates.
#[tactic(auto, using(crate::proofs::Stamps::same_stamp))]
fn stamp_in_form(date: DateKeep, stamp: Stamp) -> Stamp
    ensures { result ≡ stamp_in_form date stamp }
{
    match date {
        DateKeep::Zone => stamp,
        DateKeep::Second => to_utc(stamp),
        DateKeep::Epoch => stamp_of(0),
    }
}

/// A text as a driver keeps texts.
pub fn text_in_form(alloc: Global, form: TextKeep, text: &[u8]) -> Result<Vec<u8>, AllocError>
    ensures { IfOk result (λ v. v.items ≡ text_in_form form text.now) }
{
    match form {
        TextKeep::Exact => Vec::from_slice(alloc, text),
        TextKeep::Lines => lines_form(alloc, text),
        TextKeep::Unix => unix_form(alloc, text),
        TextKeep::Mmdf => mmdf_form(alloc, text),
    }
}

// The keyword numbers below one.
fn words_below(number: u32, words: u32) -> u32
    ensures { result ≡ words_below number words }
{
    if number < 32 {
        words % (1 << number)
    } else {
        words
    }
}

/// The message as a driver keeps it, but with all its flags.
pub fn take(alloc: Global, keeps: Keeps, message: &Record) -> Result<Record, AllocError>
    ensures value { IfOk result (λ r. r ≡ take_record keeps message.now) }
    ensures twice { IfOk result (λ r. take_record keeps r ≡ r) }
    ensures kept { IfOk result (λ r. kept_record keeps r ≡ kept_record keeps message.now) }
{
    let text = text_in_form(alloc, keeps.text, message.text.as_slice())?;
    Ok(Record {
        uid: message.uid,
        text: Bytes::from_vec(text),
        stamp: stamp_in_form(keeps.date, message.stamp),
        flags: message.flags,
        words: words_below(keeps.words, message.words),
        number: if keeps.numbers { message.number } else { 0 },
    })
}

/// The message as a driver keeps it.
#[tactic(auto, using(crate::proofs::Twice::kept_stays, crate::proofs::Twice::passes))]
pub fn kept(alloc: Global, keeps: Keeps, message: &Record) -> Result<Record, AllocError>
    ensures value { IfOk result (λ r. r ≡ kept_record keeps message.now) }
    ensures twice { IfOk result (λ r. kept_record keeps r ≡ r) }
    ensures unchanged { IsInForm keeps message.now → IfOk result (λ r. r ≡ message.now) }
{
    let mut taken = take(alloc, keeps, message)?;
    taken.flags = taken.flags.and(keeps.flags);
    Ok(taken)
}
