//! What is told of search keys without texts, and what of a text they need.
ghost use Rattle.std.specs.Prelude.{◌≤◌};
ghost use Rattle.imap_syntax.specs.Laws.{key_parts};

use crate::messages::{LARGEST, MESSAGES, key, message, names};
use imap_syntax::Key;
use search_eval::{KeyNeed, need_of, told_of};
use std::alloc::Global;
use std::test::Fail;
use test_tables::{Row, rows};

/// Keys, and what is told of the ten messages without their texts.
const TOLD: &str = r#"
ALL => yyyyyyyyyy
TEXT hi => ??????????
SEEN TEXT hi => ?nn?nn?nnn
TEXT hi SEEN => ?nn?nn?nnn
OR SEEN SUBJECT x => y??y??y???
OR BODY x SEEN => y??y??y???
NOT (SEEN TEXT hi) => ?yy?yy?yyy
OR (TEXT hi UID 4) NOT DELETED => yyynyyyyyn
FROM x => ??????????
SENTON 1-Apr-2024 SINCE 2-Apr-2024 => n??nn?n?nn
OR TEXT x NOT TEXT x => ??????????
OR (FROM x SEEN) (BODY x FLAGGED) => ??n?nn?nn?
NOT OR SEEN FLAGGED => nnynyynyyn
"#;

// A letter for each message: what is told of it.
fn letters(alloc: Global, key: &Key, messages: &[Row]) -> Result<Vec<u8>, Fail>
    requires { (key_parts key.now).depth ≤ 101 }
{
    let names = names(alloc)?;
    let mut letters = Vec::new(alloc);
    for (number, row) in (1..=10).zip(messages) {
        let message = message(number, row, names.as_slice())?;
        let letter = match told_of(key, &message, LARGEST) {
            Some(true) => b'y',
            Some(false) => b'n',
            None => b'?',
        };
        letters.push(letter)?;
    }
    Ok(letters)
}

#[test]
fn keys_are_told_without_texts(rt: HostRuntime) -> Result<(), Fail> {
    let alloc = rt.alloc();
    let messages = rows(alloc, MESSAGES)?;
    for row in &rows(alloc, TOLD)? {
        let key = key(alloc, row.text.as_slice())?;
        row.agrees(letters(alloc, &key, messages.as_slice())?.as_slice())?;
    }
    Ok(())
}

/// Keys and what they need.
const NEEDS: &str = r#"
ALL => nothing
NOT SEEN => nothing
UID 1 => nothing
SINCE 1-Apr-2024 => nothing
LARGER 5 KEYWORD x 1:4 => nothing
FROM x => header
SENTON 1-Apr-2024 => header
HEADER a b => header
OR SEEN NOT CC x => header
BODY x => text
TEXT x => text
NOT (SEEN OR FROM x BODY y) => text
TEXT x FROM y => text
"#;

#[test]
fn keys_need_no_more_than_this(rt: HostRuntime) -> Result<(), Fail> {
    let alloc = rt.alloc();
    for row in &rows(alloc, NEEDS)? {
        let key = key(alloc, row.text.as_slice())?;
        let need: &[u8] = match need_of(&key) {
            KeyNeed::Nothing => b"nothing",
            KeyNeed::Header => b"header",
            KeyNeed::Text => b"text",
        };
        row.agrees(need)?;
    }
    Ok(())
}
