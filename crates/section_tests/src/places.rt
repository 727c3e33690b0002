//! Where sections of the messages of `messages` stand.
use crate::messages::{items_of, looked, messages, number_of, words};
use body_sections::spans;
use head_fields::Spans;
use imap_arguments::{Item, Section, SectionKind};
use mail_fields::{Numbers, split_at_space};
use mime_parts::structure;
use std::alloc::{AllocError, Global};
use std::test::Fail;
use test_tables::rows;

/// The number of a message and a section, and where it stands.
const SPANS: &str = r#"
1 BODY[] => 0-148
1 BODY[HEADER] => 0-139
1 BODY[TEXT] => 139-148
1 BODY[HEADER.FIELDS (subject from)] => 38-71 92-108
1 BODY[HEADER.FIELDS (x)] => \e
1 BODY[1] => 139-148
1 BODY[1.MIME] => 0-139
1 BODY[1.TEXT] => none
1 BODY[2] => none
3 BODY[1] => 225-227
6 BODY[] => 0-0
9 BODY[HEADER.FIELDS (subject)] => 18-41 56-73
9 BODY[HEADER.FIELDS (x-last)] => 94-104
"#;

fn shown(alloc: Global, found: &Option<Spans>) -> Result<String, AllocError> {
    let Some(spans) = found else {
        return format!(in alloc; "none");
    };
    let mut text = String::new(alloc);
    for span in spans.as_slice() {
        let gap = if text.is_empty() { "" } else { " " };
        let (from, to) = (span.from, span.to);
        text.push_str(&format!(in alloc; "{gap}{from}-{to}")?)?;
    }
    Ok(text)
}

// Where a section stands in a text.
fn spans_in(alloc: Global, text: &[u8], section: &Section) -> Result<Option<Spans>, Fail> {
    if text.len() >= 4294967296 {
        return Err(Fail::new("a text that is too long"));
    }
    let part = structure(alloc, text)?;
    Ok(spans(alloc, text, &part, section)?)
}

#[test]
fn sections_stand_here(rt: HostRuntime) -> Result<(), Fail> {
    let alloc = rt.alloc();
    let words = words(alloc)?;
    let messages = messages(alloc)?;
    for row in &rows(alloc, SPANS)? {
        let (number, text) = split_at_space(row.text.as_slice());
        let message = looked(messages.as_slice(), number_of(number)?, words.as_slice())?;
        for item in items_of(alloc, text)?.as_slice() {
            let Item::Part(section, _, _) = item else {
                return Err(Fail::new("an item without a section"));
            };
            let found = spans_in(alloc, message.text, section)?;
            row.agrees(shown(alloc, &found)?.as_bytes())?;
        }
    }
    Ok(())
}

// No command can ask for it.
#[test]
fn a_message_has_no_mime_header(rt: HostRuntime) -> Result<(), Fail> {
    let alloc = rt.alloc();
    let section = Section {
        parts: Numbers::of(Vec::new(alloc)),
        kind: SectionKind::Mime,
    };
    match spans_in(alloc, b"A: b\r\n\r\nc", &section)? {
        None => Ok(()),
        Some(_) => Err(Fail::new("a MIME header of a whole message")),
    }
}
