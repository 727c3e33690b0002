// The words of commands.
ghost use Rattle.std.specs.Prelude.{◌≡◌};
ghost use Rattle.imap_syntax.specs.Verbs.{plain_verb, name_verb, message_verb, uid_verb, verb_of};

/// A command's word. `Uid` stands before another.
#[derive(Clone, Copy, Debug, PartialEq, Eq)]
pub(crate) enum Verb {
    Capability,
    Noop,
    Check,
    Close,
    Expunge,
    Logout,
    Password,
    Select,
    Examine,
    Create,
    Delete,
    Subscribe,
    Unsubscribe,
    Rename,
    List,
    Lsub,
    Status,
    Append,
    Search,
    Fetch,
    Store,
    Copy,
    Uid,
}

// A command without arguments that are read.
fn plain_verb(word: &[u8]) -> Option<Verb>
    ensures { result ≡ plain_verb word.now }
{
    if word.eq_ignore_ascii_case(b"CAPABILITY") {
        return Some(Verb::Capability);
    }
    if word.eq_ignore_ascii_case(b"NOOP") {
        return Some(Verb::Noop);
    }
    if word.eq_ignore_ascii_case(b"CHECK") {
        return Some(Verb::Check);
    }
    if word.eq_ignore_ascii_case(b"CLOSE") {
        return Some(Verb::Close);
    }
    if word.eq_ignore_ascii_case(b"EXPUNGE") {
        return Some(Verb::Expunge);
    }
    if word.eq_ignore_ascii_case(b"LOGOUT") {
        return Some(Verb::Logout);
    }
    if word.eq_ignore_ascii_case(b"STARTTLS") {
        return Some(Verb::Password);
    }
    if word.eq_ignore_ascii_case(b"LOGIN") {
        return Some(Verb::Password);
    }
    if word.eq_ignore_ascii_case(b"AUTHENTICATE") {
        return Some(Verb::Password);
    }
    None
}

// A command with the name of a mailbox.
fn name_verb(word: &[u8]) -> Option<Verb>
    ensures { result ≡ name_verb word.now }
{
    if word.eq_ignore_ascii_case(b"SELECT") {
        return Some(Verb::Select);
    }
    if word.eq_ignore_ascii_case(b"EXAMINE") {
        return Some(Verb::Examine);
    }
    if word.eq_ignore_ascii_case(b"CREATE") {
        return Some(Verb::Create);
    }
    if word.eq_ignore_ascii_case(b"DELETE") {
        return Some(Verb::Delete);
    }
    if word.eq_ignore_ascii_case(b"SUBSCRIBE") {
        return Some(Verb::Subscribe);
    }
    if word.eq_ignore_ascii_case(b"UNSUBSCRIBE") {
        return Some(Verb::Unsubscribe);
    }
    if word.eq_ignore_ascii_case(b"RENAME") {
        return Some(Verb::Rename);
    }
    if word.eq_ignore_ascii_case(b"LIST") {
        return Some(Verb::List);
    }
    if word.eq_ignore_ascii_case(b"LSUB") {
        return Some(Verb::Lsub);
    }
    if word.eq_ignore_ascii_case(b"STATUS") {
        return Some(Verb::Status);
    }
    if word.eq_ignore_ascii_case(b"APPEND") {
        return Some(Verb::Append);
    }
    None
}

/// A command that UID may stand before.
pub(crate) fn message_verb(word: &[u8]) -> Option<Verb>
    ensures { result ≡ message_verb word.now }
{
    if word.eq_ignore_ascii_case(b"SEARCH") {
        return Some(Verb::Search);
    }
    if word.eq_ignore_ascii_case(b"FETCH") {
        return Some(Verb::Fetch);
    }
    if word.eq_ignore_ascii_case(b"STORE") {
        return Some(Verb::Store);
    }
    if word.eq_ignore_ascii_case(b"COPY") {
        return Some(Verb::Copy);
    }
    None
}

fn uid_verb(word: &[u8]) -> Option<Verb>
    ensures { result ≡ uid_verb word.now }
{
    if word.eq_ignore_ascii_case(b"UID") {
        Some(Verb::Uid)
    } else {
        None
    }
}

/// The command of a word, in any letter case.
#[tactic(auto, unfolding(crate::specs::Verbs::verb_of))]
pub(crate) fn verb_of(word: &[u8]) -> Option<Verb>
    ensures { result ≡ verb_of word.now }
{
    plain_verb(word)
        .or(name_verb(word))
        .or(message_verb(word))
        .or(uid_verb(word))
}
