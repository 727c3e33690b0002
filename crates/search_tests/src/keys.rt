//! Each search key over ten messages. What is expected was made by a model of the server in another language.
ghost use Rattle.std.specs.Prelude.{◌≤◌};
ghost use Rattle.imap_syntax.specs.Laws.{key_parts};

use crate::messages::{LARGEST, MESSAGES, key, message, names};
use head_fields::body_start;
use imap_syntax::Key;
use looked_message::Looked;
use search_eval::{KeyNeed, matches, need_of};
use std::alloc::Global;
use std::test::Fail;
use test_tables::{Row, rows};

/// Keys, and the numbers of the messages that they match.
const KEYS: &str = r#"
# each key
ALL => 1 2 3 4 5 6 7 8 9 10
ANSWERED => 4 8
DELETED => 4 10
DRAFT => 5
FLAGGED => 2 10
SEEN => 1 4 7
RECENT => 3 6 7
UNANSWERED => 1 2 3 5 6 7 9 10
UNDELETED => 1 2 3 5 6 7 8 9
UNDRAFT => 1 2 3 4 6 7 8 9 10
UNFLAGGED => 1 3 4 5 6 7 8 9
UNSEEN => 2 3 5 6 8 9 10
NEW => 3 6
OLD => 1 2 4 5 8 9 10
KEYWORD work => 2 5 10
KEYWORD $junk => 4 5
KEYWORD other => \e
UNKEYWORD WORK => 1 3 4 6 7 8 9
UNKEYWORD $Junk => 1 2 3 6 7 8 9 10
UNKEYWORD other => 1 2 3 4 5 6 7 8 9 10
BCC hidden => 5
BCC bob => \e
CC X@Y => 7
CC hello => \e
FROM ann => 1 2
FROM LEE => 1
FROM "caf\xe9" => 4
TO "lee, cy" => 2
TO ann => \e
SUBJECT hello => 1
SUBJECT "a folded\tsubject" => 5
SUBJECT "subject " => \e
SUBJECT second => 9
SUBJECT "" => 1 2 3 4 5 7 9
SUBJECT " " => 4 5
SUBJECT "\xc3\xa9" => 4
SUBJECT "\xc3\x89" => \e
SUBJECT "in the body" => \e
HEADER X-A "" => 10
HEADER X-A " " => \e
HEADER x-b "x  y" => 10
HEADER "" "" => \e
HEADER Subject first => 9
HEADER content-type BOUNDARY=B1 => 3
HEADER Subjec hello => \e
BODY hi => 1 3
BODY Subject => 8
BODY "the end" => \e
BODY "" => 1 2 3 4 5 6 7 8 9 10
TEXT subject => 1 2 3 4 5 7 8 9
TEXT aaaab => 9
TEXT aaab => 9
TEXT AAAAAAAAB => \e
TEXT end => 7 8
TEXT "the end" => 7
TEXT "\xff" => 4
TEXT "" => 1 2 3 4 5 6 7 8 9 10
LARGER 0 => 1 2 3 4 5 7 8 9 10
LARGER 56 => 1 2 3 4 5 9 10
LARGER 155 => 3
SMALLER 0 => \e
SMALLER 1 => 6
SMALLER 56 => 6 7 8
# the edges of days, by the local day of the stamp
BEFORE 1-Apr-2024 => 4 7 9 10
ON 1-Apr-2024 => 1 5
SINCE 1-Apr-2024 => 1 2 3 5 6 8
BEFORE 2-Jan-1970 => 7
ON 31-Dec-9999 => 8
SINCE 31-Dec-9999 => 8
ON 1-Mar-2000 => \e
ON 31-Mar-2024 => 4
# and by the Date field
SENTBEFORE 1-Apr-2024 => 5 9
SENTON 1-Apr-2024 => 1
SENTON 2-Apr-2024 => 2
SENTSINCE 2-Apr-2024 => 2 3
SENTON 29-Feb-2000 => 9
SENTBEFORE 31-Dec-9999 => 1 2 3 5 9
SENTSINCE 1-Jan-0000 => 1 2 3 5 9
NOT SENTON 1-Apr-2024 => 2 3 4 5 6 7 8 9 10
SENTON 1-Jan-2020 => \e
# sets
1 => 1
2:4,7 => 2 3 4 7
4:2 => 2 3 4
* => 10
*:9 => 9 10
11 => \e
4294967295 => \e
UID 1:4 => 1 2
UID * => 10
UID 13:* => 8 9 10
UID 5 => \e
UID 4294967295:100 => 10
# keys in keys
NOT ALL => \e
NOT NOT SEEN => 1 4 7
NOT (SEEN ANSWERED) => 1 2 3 5 6 7 8 9 10
OR SEEN FLAGGED => 1 2 4 7 10
OR FLAGGED SEEN => 1 2 4 7 10
OR DRAFT DELETED => 4 5 10
(SEEN) => 1 4 7
SEEN OLD => 1 4
(SEEN (OLD UNFLAGGED)) => 1 4
OR (SEEN RECENT) NOT (UNSEEN) => 1 4 7
OR SINCE 3-Apr-2024 NOT FROM lee => 2 3 4 5 6 7 8 9 10
UNSEEN SUBJECT "pl" => 2
OR TEXT hi OR SUBJECT only UID 20 => 1 3 5 7 9
NOT OR SUBJECT "" ALL => \e
FROM ann SUBJECT plan SENTON 2-Apr-2024 => 2
OR SUBJECT second OR CC x@y HEADER date 31 => 5 7 9
# a hundred levels, and one more around several keys
\(99:NOT \)SEEN => 2 3 5 6 8 9 10
\(98:NOT \)SEEN => 1 4 7
RECENT \(99:NOT \)SEEN => 3 6
"#;

// The message with as much of its text as the key needs.
fn needed<'a>(key: &Key, message: Looked<'a>) -> Looked<'a>
    requires { (key_parts key.now).depth ≤ 101 }
{
    let text = match need_of(key) {
        KeyNeed::Nothing => b"",
        KeyNeed::Header => &message.text[..body_start(message.text)],
        KeyNeed::Text => message.text,
    };
    Looked { text, ..message }
}

// The numbers of the messages that a key matches, over what it needs of their texts or over all.
fn found(alloc: Global, key: &Key, messages: &[Row], whole: bool) -> Result<Vec<u8>, Fail>
    requires { (key_parts key.now).depth ≤ 101 }
{
    let names = names(alloc)?;
    let mut found = Vec::new(alloc);
    for (number, row) in (1..=10).zip(messages) {
        let message = message(number, row, names.as_slice())?;
        let message = if whole { message } else { needed(key, message) };
        if matches(alloc, key, &message, LARGEST)? {
            let space = if found.is_empty() { "" } else { " " };
            found.extend_from_slice(format!(in alloc; "{space}{number}")?.as_bytes())?;
        }
    }
    Ok(found)
}

fn all_are_found(alloc: Global, whole: bool) -> Result<(), Fail> {
    let messages = rows(alloc, MESSAGES)?;
    for row in &rows(alloc, KEYS)? {
        let key = key(alloc, row.text.as_slice())?;
        row.agrees(found(alloc, &key, messages.as_slice(), whole)?.as_slice())?;
    }
    Ok(())
}

#[test]
fn keys_match_these_messages(rt: HostRuntime) -> Result<(), Fail> {
    all_are_found(rt.alloc(), true)
}

#[test]
fn keys_match_the_same_over_what_they_need(rt: HostRuntime) -> Result<(), Fail> {
    all_are_found(rt.alloc(), false)
}
