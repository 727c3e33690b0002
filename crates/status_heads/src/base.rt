// The base of a mailbox.
ghost use Rattle.std.specs.Prelude.{◌≡◌, ◌≢◌, ◌≤◌, Some, None, true, length, IfOk, IfSome, MatchOption};
ghost use Rattle.mail_fields.specs.Names.{are_distinct};
ghost use Rattle.status_heads.specs.Bases.{number_first, base_of, base_of_words};
ghost use Rattle.status_heads.specs.Names.{words_of};
ghost use Rattle.status_heads.specs.Numbers.{greatest_uid};

use crate::names::{next_word, read_first_names};
use crate::number::{GREATEST_UID, read_between};
use crate::value::value_named;
use head_fields::fields;
use mail_fields::Keywords;
use std::alloc::{AllocError, Global};

/// What holds of a mailbox as a whole: its UIDVALIDITY, the highest UID that it gave, and the names of its keywords.
#[derive(Debug, Drop)]
pub struct Base {
    pub validity: u32,
    pub last: u32,
    pub words: Keywords,
}

/// The base that the first field of a name in a text's header says.
///
/// The name is `X-IMAP` for the message that holds the base, and else `X-IMAPbase`. The words of the
/// value have spaces between; of the names the first 30 count, each once whatever the case of its letters.
pub fn read_base(alloc: Global, text: &[u8], name: &[u8]) -> Result<Option<Base>, AllocError>
    ensures value { IfOk result (λ found. found ≡ base_of text.now name.now) }
    // so that it can be written again
    ensures validity { IfOk result (λ found. IfSome found (λ base. base.validity ≢ 0)) }
    ensures last { IfOk result (λ found. IfSome found (λ base. base.last ≤ greatest_uid)) }
    ensures few { IfOk result (λ found. IfSome found (λ base. length base.words ≤ 30)) }
    ensures distinct { IfOk result (λ found. IfSome found (λ base. are_distinct base.words ≡ true)) }
{
    let fields = fields(alloc, text)?;
    let value = value_named(alloc, text, fields.as_slice(), name)?;
    read_base_value(alloc, value.as_slice())
}

// The base that a value says.
#[tactic(auto, unfolding(crate::specs::Bases::base_of_words))]
fn read_base_value(alloc: Global, value: &[u8]) -> Result<Option<Base>, AllocError>
    ensures value { IfOk result (λ found. found ≡ base_of_words (words_of value.now)) }
    ensures validity { IfOk result (λ found. IfSome found (λ base. base.validity ≢ 0)) }
    ensures last { IfOk result (λ found. IfSome found (λ base. base.last ≤ greatest_uid)) }
    ensures few { IfOk result (λ found. IfSome found (λ base. length base.words ≤ 30)) }
    ensures distinct { IfOk result (λ found. IfSome found (λ base. are_distinct base.words ≡ true)) }
{
    let Some((validity, rest)) = read_number(1, u32::MAX, value) else {
        return Ok(None);
    };
    let Some((last, rest)) = read_number(0, GREATEST_UID, rest) else {
        return Ok(None);
    };
    let words = read_first_names(alloc, rest)?;
    Ok(Some(Base {
        validity,
        last,
        words,
    }))
}

// The number that the first word of a value is, and what stands behind it.
fn read_number(low: u32, high: u32, value: &[u8]) -> Option<(u32, &[u8])>
    ensures value { MatchOption result (number_first low high (words_of value.now) ≡ None)
        (λ found. number_first low high (words_of value.now) ≡ Some (found.0, words_of found.1.now)) }
    ensures low { IfSome result (λ found. low ≤ found.0) }
    ensures high { IfSome result (λ found. found.0 ≤ high) }
{
    let (word, behind) = next_word(value)?;
    let number = read_between(low, high, word)?;
    Some((number, behind))
}
