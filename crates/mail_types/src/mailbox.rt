// A mailbox.
ghost use Rattle.std.specs.Prelude.{◌≡◌, ◌≤◌, ◌↔◌, true, length, nat_le, IfOk, IfSome, IfNone, IsTrue};
ghost use Rattle.std.specs.List.{list_all, list_any};
ghost use Rattle.mail_fields.specs.Keyword.{same_keyword};
ghost use Rattle.mail_fields.specs.Names.{are_distinct};
ghost use Rattle.mail_types.specs.Mailboxes.{uids_rise, has_no_nul, IsMailbox};

use crate::limits::WORD_LIMIT;
use crate::{Record, Records};
use mail_fields::{Keyword, Keywords};
use std::alloc::{AllocError, Global};

/// A mailbox: its UIDVALIDITY, its modification number, the highest UID that it ever gave, the names of its keywords by number, and its messages.
#[derive(Debug, Drop)]
pub struct Mailbox {
    pub validity: u32,
    pub number: u32,
    pub last: u32,
    pub words: Keywords,
    pub records: Records,
}

fn is_among(word: &Keyword, others: &[Keyword]) -> bool
    ensures { result ≡ list_any (same_keyword word.now) others.now }
{
    others.iter().any(|other| word.same(other))
}

fn are_distinct(words: &[Keyword]) -> bool
    ensures { result ≡ are_distinct words.now }
{
    for (number, word) in words.iter().enumerate() {
        if is_among(word, &words[number + 1..]) {
            return false;
        }
    }
    true
}

fn uids_rise(records: &[Record]) -> bool
    ensures { result ≡ uids_rise 0 records.now }
{
    let mut above = 0;
    for message in records {
        if message.uid <= above {
            return false;
        }
        above = message.uid;
    }
    true
}

fn has_no_nul(text: &[u8]) -> bool
    ensures { result ≡ has_no_nul text.now }
{
    text.iter().all(|byte| *byte != 0)
}

fn are_clean(records: &[Record]) -> bool
    ensures { result ≡ list_all (λ r. has_no_nul r.text) records.now }
{
    records
        .iter()
        .all(|message| has_no_nul(message.text.as_slice()))
}

fn are_within(last: u32, records: &[Record]) -> bool
    ensures { result ≡ list_all (λ r. nat_le r.uid last) records.now }
{
    records.iter().all(|message| message.uid <= last)
}

fn are_numbered(number: u32, records: &[Record]) -> bool
    ensures { result ≡ list_all (λ r. nat_le r.number number) records.now }
{
    records.iter().all(|message| message.number <= number)
}

fn copy_words(alloc: Global, words: &[Keyword]) -> Result<Keywords, AllocError>
    ensures { IfOk result (λ copies. copies ≡ words.now) }
{
    let mut copies = Vec::new(alloc);
    for word in words {
        copies.push(word.copy(alloc)?)?;
    }
    Ok(Keywords::of(copies))
}

fn copy_records(alloc: Global, records: &[Record]) -> Result<Records, AllocError>
    ensures { IfOk result (λ copies. copies ≡ records.now) }
{
    let mut copies = Vec::new(alloc);
    for message in records {
        copies.push(message.copy(alloc)?)?;
    }
    Ok(Records::of(copies))
}

impl Mailbox {
    /// A mailbox of copies, if these make one.
    pub fn new(
        alloc: Global,
        validity: u32,
        number: u32,
        last: u32,
        words: &[Keyword],
        records: &[Record],
    ) -> Result<Option<Mailbox>, AllocError>
        ensures some { IfOk result (λ made. IfSome made (λ m. (m ≡ record { validity = validity; number = number; last = last; words = words.now; records = records.now }) × IsMailbox m)) }
        ensures none { IfOk result (λ made. IfNone made (IsMailbox (record { validity = validity; number = number; last = last; words = words.now; records = records.now }) → ⊥)) }
    {
        if validity == 0 || words.len() > WORD_LIMIT || !are_distinct(words) {
            return Ok(None);
        }
        if !uids_rise(records) || !are_within(last, records) || !are_clean(records) {
            return Ok(None);
        }
        if !are_numbered(number, records) {
            return Ok(None);
        }
        let words = copy_words(alloc, words)?;
        let records = copy_records(alloc, records)?;
        Ok(Some(Mailbox {
            validity,
            number,
            last,
            words,
            records,
        }))
    }
}
