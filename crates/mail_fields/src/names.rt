// Names of keywords with spaces between.
ghost use Rattle.std.specs.Prelude.{◌≡◌};
ghost use Rattle.std.specs.List.{before_first, after_first, list_any};
ghost use Rattle.mail_fields.specs.Keyword.{same_keyword};
ghost use Rattle.mail_fields.specs.Names.{is_space};

use crate::keyword::Keyword;
use memchr::memchr;

/// What stands before the first space of a text, and what behind it; all of it and nothing where it has none.
pub fn split_at_space(text: &[u8]) -> (&[u8], &[u8])
    ensures before { result.0.now ≡ before_first is_space text.now }
    ensures behind { result.1.now ≡ after_first is_space text.now }
{
    match memchr(b' ', text) {
        Some(at) => (&text[..at], &text[at + 1..]),
        None => (text, &text[text.len()..]),
    }
}

/// Whether one of some names is the same as a name but for the case of its letters.
pub fn is_taken(names: &[Keyword], name: &Keyword) -> bool
    ensures { result ≡ list_any (λ each. same_keyword each name.now) names.now }
{
    names.iter().any(|each| each.same(name))
}
