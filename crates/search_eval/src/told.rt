// What is told of a search key without a message's text.
ghost use Rattle.std.specs.Prelude.{◌≡◌, ◌≤◌, ℕ, List, IfSome, IsSome, map};
ghost use Rattle.imap_syntax.specs.Laws.{key_parts};
ghost use Rattle.looked_message.specs.Messages.{looked_at, with_text};
ghost use Rattle.search_eval.specs.Keys.{key_holds};
ghost use Rattle.search_eval.specs.Needs.{key_need};
ghost use Rattle.search_eval.specs.declared.need.KeyNeed.TheVariants.{Nothing};
ghost use Rattle.search_eval.specs.Told.{opposite_told, either_told, both_told, all_told, key_told};

use crate::keyword::has_keyword;
use crate::largest::Largest;
use imap_syntax::Key;
use looked_message::Looked;

/// Whether a message matches a key, where that is told without its text, which isn't looked at.
///
/// `UNSEEN TEXT x` is told of a message that is seen, `TEXT x` of none. It takes no memory.
pub fn told_of(key: &Key, message: &Looked<'_>, largest: Largest) -> Option<bool>
    requires { (key_parts key.now).depth ≤ 101 }

    ensures value { result ≡ key_told largest (looked_at message.now) key.now }

    // so it is whatever the text is
    ensures holds { (text : List ℕ) → IfSome result (λ is. key_holds largest (with_text (looked_at message.now) text) key.now ≡ is) }

    // a key that needs nothing of the text is told
    ensures sure { key_need key.now ≡ Nothing → IsSome result }
{
    told(key, message, largest)
}

#[cycle(told)]
pub(crate) fn told(key: &Key, message: &Looked<'_>, largest: Largest) -> Option<bool>
    ensures { result ≡ key_told largest (looked_at message.now) key.now }
{
    let info = &message.info;
    let flags = info.flags;
    match key {
        Key::All => Some(true),
        Key::Answered => Some(flags.answered),
        Key::Deleted => Some(flags.deleted),
        Key::Draft => Some(flags.draft),
        Key::Flagged => Some(flags.flagged),
        Key::Seen => Some(flags.seen),
        Key::Recent => Some(message.recent),
        Key::Unanswered => Some(!flags.answered),
        Key::Undeleted => Some(!flags.deleted),
        Key::Undraft => Some(!flags.draft),
        Key::Unflagged => Some(!flags.flagged),
        Key::Unseen => Some(!flags.seen),
        Key::New => Some(message.recent && !flags.seen),
        Key::Old => Some(!message.recent),
        Key::Keyword(name) => Some(has_keyword(name, message.words, info.words)),
        Key::Unkeyword(name) => Some(!has_keyword(name, message.words, info.words)),
        Key::Larger(size) => Some(info.size > *size),
        Key::Smaller(size) => Some(info.size < *size),
        Key::Before(day) => Some(info.stamp.day < *day),
        Key::On(day) => Some(info.stamp.day == *day),
        Key::Since(day) => Some(info.stamp.day >= *day),
        Key::Uid(set) => Some(set.has(info.uid, largest.uid)),
        Key::Numbers(set) => Some(set.has(message.number, largest.number)),
        Key::Bcc(_) | Key::Cc(_) | Key::From(_) | Key::Subject(_) | Key::To(_) => None,
        Key::Header(_, _) | Key::Body(_) | Key::Text(_) => None,
        Key::SentBefore(_) | Key::SentOn(_) | Key::SentSince(_) => None,
        Key::Not(inner) => opposite_told(told(inner.get(), message, largest)),
        Key::Or(one, other) => either_told(
            told(one.get(), message, largest),
            told(other.get(), message, largest),
        ),
        Key::AllOf(all) => all_told(all.as_slice(), message, largest),
    }
}

// What is told of several keys together.
#[cycle(told)]
fn all_told(keys: &[Key], message: &Looked<'_>, largest: Largest) -> Option<bool>
    ensures { result ≡ all_told (map (key_told largest (looked_at message.now)) keys.now) }
{
    let mut all = Some(true);
    for key in keys {
        all = both_told(all, told(key, message, largest));
    }
    all
}

fn opposite_told(told: Option<bool>) -> Option<bool>
    ensures { result ≡ opposite_told told }
{
    match told {
        Some(is) => Some(!is),
        None => None,
    }
}

fn either_told(one: Option<bool>, other: Option<bool>) -> Option<bool>
    ensures { result ≡ either_told one other }
{
    match (one, other) {
        (Some(true), _) | (_, Some(true)) => Some(true),
        (Some(false), Some(false)) => Some(false),
        _ => None,
    }
}

fn both_told(one: Option<bool>, other: Option<bool>) -> Option<bool>
    ensures { result ≡ both_told one other }
{
    match (one, other) {
        (Some(false), _) | (_, Some(false)) => Some(false),
        (Some(true), Some(true)) => Some(true),
        _ => None,
    }
}
