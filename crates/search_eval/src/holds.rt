// Whether a message matches a search key.
ghost use Rattle.std.specs.Prelude.{◌≡◌, ◌≤◌, IfOk};
ghost use Rattle.std.specs.List.{list_all};
ghost use Rattle.imap_syntax.specs.Laws.{key_parts};
ghost use Rattle.looked_message.specs.Messages.{looked_at};
ghost use Rattle.search_eval.specs.Keys.{key_holds};

use crate::largest::Largest;
use crate::text::MessageText;
use crate::told::told;
use imap_syntax::Key;
use looked_message::Looked;
use std::alloc::{AllocError, Global};

/// Whether a message matches a key, whose keys stand in one another at most 101 deep.
///
/// Of the message's text it takes no more than the key needs (`need_of`).
pub fn matches(
    alloc: Global,
    key: &Key,
    message: &Looked<'_>,
    largest: Largest,
) -> Result<bool, AllocError>
    requires { (key_parts key.now).depth ≤ 101 }
    ensures { IfOk result (λ is. is ≡ key_holds largest (looked_at message.now) key.now) }
{
    let mut text = MessageText::of(message.text);
    holds(alloc, key, message, largest, &mut text)
}

#[cycle(holds)]
fn holds(
    alloc: Global,
    key: &Key,
    message: &Looked<'_>,
    largest: Largest,
    text: &mut MessageText<'_>,
) -> Result<bool, AllocError>
    requires { text.old ≡ message.now.text.now }
    ensures same { text.new ≡ text.old }
    ensures value { IfOk result (λ is. is ≡ key_holds largest (looked_at message.now) key.now) }
{
    match key {
        Key::Not(inner) => Ok(!holds(alloc, inner.get(), message, largest, text)?),
        Key::Or(one, other) => Ok(
            holds(alloc, one.get(), message, largest, text)?
                || holds(alloc, other.get(), message, largest, text)?,
        ),
        Key::AllOf(all) => all_hold(alloc, all.as_slice(), message, largest, text),
        Key::Bcc(string) => text.header_has(alloc, b"Bcc", string.as_slice()),
        Key::Cc(string) => text.header_has(alloc, b"Cc", string.as_slice()),
        Key::From(string) => text.header_has(alloc, b"From", string.as_slice()),
        Key::Subject(string) => text.header_has(alloc, b"Subject", string.as_slice()),
        Key::To(string) => text.header_has(alloc, b"To", string.as_slice()),
        Key::Header(name, string) => text.header_has(alloc, name.as_slice(), string.as_slice()),
        Key::SentBefore(day) => Ok(text.sent_day(alloc)?.is_some_and(|sent| sent < *day)),
        Key::SentOn(day) => Ok(text.sent_day(alloc)?.is_some_and(|sent| sent == *day)),
        Key::SentSince(day) => Ok(text.sent_day(alloc)?.is_some_and(|sent| sent >= *day)),
        Key::Body(string) => text.body_has(alloc, string.as_slice()),
        Key::Text(string) => text.has(alloc, string.as_slice()),
        // what is left asks of no text
        _ => Ok(told(key, message, largest).unwrap_or(false)),
    }
}

// Whether a message matches all of some keys.
#[cycle(holds)]
fn all_hold(
    alloc: Global,
    keys: &[Key],
    message: &Looked<'_>,
    largest: Largest,
    text: &mut MessageText<'_>,
) -> Result<bool, AllocError>
    requires { text.old ≡ message.now.text.now }
    ensures same { text.new ≡ text.old }
    ensures value { IfOk result (λ is. is ≡ list_all (key_holds largest (looked_at message.now)) keys.now) }
{
    for key in keys {
        if !holds(alloc, key, message, largest, text)? {
            return Ok(false);
        }
    }
    Ok(true)
}
