// What of a message's text a search key needs.
ghost use Rattle.std.specs.Prelude.{◌≡◌, ◌≤◌, map};
ghost use Rattle.imap_syntax.specs.Laws.{key_parts};
ghost use Rattle.search_eval.specs.declared.largest.Largest.{Largest};
ghost use Rattle.search_eval.specs.Keys.{key_holds};
ghost use Rattle.search_eval.specs.Needs.{key_need, greater_need, all_needs, IsNeedOf};

use imap_syntax::Key;

/// What of a message's text tells whether a key holds.
#[derive(Clone, Copy, Debug, PartialEq, Eq)]
pub enum KeyNeed {
    Nothing,
    /// The header, with the empty line that ends it.
    Header,
    Text,
}

/// What of a message's text a key needs: over that it holds as over the whole text.
pub fn need_of(key: &Key) -> KeyNeed
    requires { (key_parts key.now).depth ≤ 101 }

    ensures value { result ≡ key_need key.now }
    ensures enough { (largest : Largest) → IsNeedOf (λ m. key_holds largest m key.now) result }
{
    need(key)
}

#[cycle(need)]
fn need(key: &Key) -> KeyNeed
    ensures { result ≡ key_need key.now }
{
    match key {
        Key::Bcc(_) | Key::Cc(_) | Key::From(_) | Key::Subject(_) | Key::To(_) => KeyNeed::Header,
        Key::Header(_, _) => KeyNeed::Header,
        Key::SentBefore(_) | Key::SentOn(_) | Key::SentSince(_) => KeyNeed::Header,
        Key::Body(_) | Key::Text(_) => KeyNeed::Text,
        Key::Not(inner) => need(inner.get()),
        Key::Or(one, other) => greater_need(need(one.get()), need(other.get())),
        Key::AllOf(all) => all_needs(all.as_slice()),
        _ => KeyNeed::Nothing,
    }
}

// What several keys need together.
#[cycle(need)]
fn all_needs(keys: &[Key]) -> KeyNeed
    ensures { result ≡ all_needs (map key_need keys.now) }
{
    let mut all = KeyNeed::Nothing;
    for key in keys {
        all = greater_need(all, need(key));
    }
    all
}

fn greater_need(one: KeyNeed, other: KeyNeed) -> KeyNeed
    ensures { result ≡ greater_need one other }
{
    match (one, other) {
        (KeyNeed::Text, _) | (_, KeyNeed::Text) => KeyNeed::Text,
        (KeyNeed::Header, _) | (_, KeyNeed::Header) => KeyNeed::Header,
        (KeyNeed::Nothing, KeyNeed::Nothing) => KeyNeed::Nothing,
    }
}
