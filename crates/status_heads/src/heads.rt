// The status fields of a message.
ghost use Rattle.std.specs.Prelude.{◌≡◌, ◌≤◌, IfOk, IfSome};
ghost use Rattle.status_heads.specs.Heads.{has_letter, flags_of, heads_of};
ghost use Rattle.status_heads.specs.Numbers.{greatest_uid};

use crate::names::read_names;
use crate::number::{GREATEST_UID, read_between};
use crate::value::value_named;
use head_fields::fields;
use mail_fields::Keywords;
use mail_types::Flags;
use std::alloc::{AllocError, Global};

/// What the status fields of a message say.
///
/// `seen_old` holds all six flags, `words` the names of the message's keywords.
#[derive(Debug, Drop)]
pub struct Heads {
    pub seen_old: Flags,
    pub words: Keywords,
    pub uid: Option<u32>,
}

/// The heads of a text, by the first field of each name in its header.
///
/// Status has R and O, X-Status D, F, A and T, X-UID a UID, and X-Keywords names with spaces between.
/// What is in none of these forms is passed over.
#[tactic(auto, unfolding(crate::specs::Heads::heads_in))]
pub fn read_heads(alloc: Global, text: &[u8]) -> Result<Heads, AllocError>
    ensures value { IfOk result (λ heads. heads ≡ heads_of text.now) }
    // so that they can be written again
    ensures uid_low { IfOk result (λ heads. IfSome heads.uid (λ uid. 1 ≤ uid)) }
    ensures uid_high { IfOk result (λ heads. IfSome heads.uid (λ uid. uid ≤ greatest_uid)) }
{
    let fields = fields(alloc, text)?;
    let status = value_named(alloc, text, fields.as_slice(), b"Status")?;
    let more = value_named(alloc, text, fields.as_slice(), b"X-Status")?;
    let words = value_named(alloc, text, fields.as_slice(), b"X-Keywords")?;
    let uid = value_named(alloc, text, fields.as_slice(), b"X-UID")?;
    Ok(Heads {
        seen_old: read_flags(status.as_slice(), more.as_slice()),
        words: read_names(alloc, words.as_slice())?,
        uid: read_between(1, GREATEST_UID, uid.as_slice()),
    })
}

pub(crate) fn read_flags(status: &[u8], more: &[u8]) -> Flags
    ensures { result ≡ flags_of status.now more.now }
{
    Flags {
        seen: has_letter(status, b'R'),
        answered: has_letter(more, b'A'),
        flagged: has_letter(more, b'F'),
        deleted: has_letter(more, b'D'),
        draft: has_letter(more, b'T'),
        old: has_letter(status, b'O'),
    }
}

fn has_letter(value: &[u8], letter: u8) -> bool
    ensures { result ≡ has_letter letter value.now }
{
    value.iter().any(|byte| letter == *byte)
}
