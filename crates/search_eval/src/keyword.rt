// Whether a message has a keyword.
ghost use Rattle.std.specs.Prelude.{◌≡◌};
ghost use Rattle.std.specs.List.{list_any};
ghost use Rattle.mail_fields.specs.Keyword.{same_keyword};
ghost use Rattle.looked_message.specs.Messages.{names_of};

use mail_fields::Keyword;

/// Whether one of the names whose bits are set is this name, in any letter case.
pub(crate) fn has_keyword(name: &Keyword, words: &[Keyword], bits: u32) -> bool
    ensures { result ≡ list_any (same_keyword name.now) (names_of bits words.now) }
{
    let mut left = bits;
    for word in words {
        if left % 2 == 1 && name.same(word) {
            return true;
        }
        left /= 2;
    }
    false
}
