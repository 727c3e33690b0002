//! Units, commands and keys as lines of text, to be compared with the cells of a table.
//!
//! A command is its tag, its word and its arguments: `a Fetch uid 1:3,*:* [Uid,Part(1.2.Header)<0.5>peek]`. Each range has two
//! ends, a string stands between quotes as it is, and what is absent and may be isn't written.
use imap_arguments::{End, FlagList, Item, Section, SectionKind, Set, StatusItem};
use imap_grammar::{Feed, Unit};
use imap_syntax::{Command, Key, Mode};
use mail_fields::{ByteStrings, Bytes, Stamp};
use std::alloc::{AllocError, Global};

/// The units of a stream, with `; ` between them.
pub fn units_text(alloc: Global, units: &[Unit]) -> Result<Vec<u8>, AllocError> {
    let mut shown = Shown::new(alloc);
    for (at, unit) in units.iter().enumerate() {
        if at != 0 {
            shown.put("; ")?;
        }
        shown.put_unit(unit)?;
    }
    Ok(shown.bytes)
}

/// The units of a stream that comes in pieces, and ` ..` where it ends within a command.
pub fn pieces_text(alloc: Global, pieces: &[&[u8]]) -> Result<Vec<u8>, AllocError> {
    let mut feed = Feed::new(alloc);
    let mut units = Vec::new(alloc);
    for piece in pieces {
        feed.take(piece, &mut units)?;
    }
    let mut shown = units_text(alloc, units.as_slice())?;
    if !feed.at_rest() {
        shown.extend_from_slice(b" ..")?;
    }
    Ok(shown)
}

/// A search key, or `none`.
pub fn key_text(alloc: Global, found: Option<Key>) -> Result<Vec<u8>, AllocError> {
    let mut shown = Shown::new(alloc);
    match &found {
        Some(key) => shown.put_key(key)?,
        None => shown.put("none")?,
    }
    Ok(shown.bytes)
}

#[derive(Drop)]
struct Shown {
    alloc: Global,
    bytes: Vec<u8>,
}

// What is to be written next of a key.
#[derive(Clone, Copy)]
enum Next<'a> {
    Key(&'a Key),
    Text(&'static str),
}

// No key of a line has as many parts.
const MOST_PARTS: usize = 1_000_000;

impl Shown {
    fn new(alloc: Global) -> Shown {
        Shown {
            alloc,
            bytes: Vec::new(alloc),
        }
    }

    fn put(&mut self, text: &str) -> Result<(), AllocError> {
        self.bytes.extend_from_slice(text.as_bytes())
    }

    fn put_number(&mut self, number: u32) -> Result<(), AllocError> {
        let text = format!(in self.alloc; "{number}")?;
        self.put(text.as_str())
    }

    fn put_string(&mut self, string: &[u8]) -> Result<(), AllocError> {
        self.bytes.push(b'"')?;
        self.bytes.extend_from_slice(string)?;
        self.bytes.push(b'"')?;
        Ok(())
    }

    // A comma before each part of a list but its first.
    fn put_comma(&mut self, at: usize) -> Result<(), AllocError> {
        if at == 0 {
            return Ok(());
        }
        self.put(",")
    }

    fn put_unit(&mut self, unit: &Unit) -> Result<(), AllocError> {
        match unit {
            Unit::Announce => self.put("Announce"),
            Unit::Command(tag, command) => {
                self.bytes.extend_from_slice(tag.as_slice())?;
                self.put(" ")?;
                self.put_command(command)
            }
            Unit::Bad(tag, reason) => {
                self.put("Bad ")?;
                self.bytes.extend_from_slice(tag.as_slice())?;
                self.put(" ")?;
                self.put_number(u32::from(*reason))
            }
            Unit::Large(tag) => {
                self.put("Large ")?;
                self.bytes.extend_from_slice(tag.as_slice())
            }
        }
    }

    fn put_command(&mut self, command: &Command) -> Result<(), AllocError> {
        if let Some(word) = plain_command(command) {
            return self.put(word);
        }
        if let Some((word, name)) = named_command(command) {
            return self.put_word(word, name);
        }
        match command {
            Command::Rename(one, other) => self.put_pair("Rename", one, other),
            Command::List(reference, pattern) => self.put_pair("List", reference, pattern),
            Command::Lsub(reference, pattern) => self.put_pair("Lsub", reference, pattern),
            Command::Status(name, items) => {
                self.put_word("Status", name)?;
                self.put_status(items.as_slice())
            }
            Command::Append(name, flags, date, text) => {
                self.put_word("Append", name)?;
                self.put(" ")?;
                self.put_flags(flags)?;
                self.put_date(*date)?;
                self.put(" ")?;
                self.put_string(text.as_slice())
            }
            _ => self.put_message_command(command),
        }
    }

    // A command that UID may stand before.
    fn put_message_command(&mut self, command: &Command) -> Result<(), AllocError> {
        match command {
            Command::Search(uid, charset, key) => {
                self.put_uid("Search ", *uid)?;
                self.put_charset(charset.as_ref())?;
                self.put_key(key)
            }
            Command::Fetch(uid, set, items) => {
                self.put_uid("Fetch ", *uid)?;
                self.put_set(set)?;
                self.put_items(items.as_slice())
            }
            Command::Store(uid, set, mode, silent, flags) => {
                self.put_uid("Store ", *uid)?;
                self.put_set(set)?;
                self.put_mode(*mode, *silent)?;
                self.put_flags(flags)
            }
            Command::Copy(uid, set, name) => {
                self.put_uid("Copy ", *uid)?;
                self.put_set(set)?;
                self.put(" ")?;
                self.put_string(name.as_slice())
            }
            _ => self.put("?"),
        }
    }

    fn put_word(&mut self, word: &str, name: &Bytes) -> Result<(), AllocError> {
        self.put(word)?;
        self.put(" ")?;
        self.put_string(name.as_slice())
    }

    fn put_pair(&mut self, word: &str, one: &Bytes, other: &Bytes) -> Result<(), AllocError> {
        self.put_word(word, one)?;
        self.put(" ")?;
        self.put_string(other.as_slice())
    }

    fn put_uid(&mut self, word: &str, uid: bool) -> Result<(), AllocError> {
        self.put(word)?;
        if uid {
            self.put("uid ")?;
        }
        Ok(())
    }

    fn put_charset(&mut self, charset: Option<&Bytes>) -> Result<(), AllocError> {
        if let Some(name) = charset {
            self.put_word("charset", name)?;
            self.put(" ")?;
        }
        Ok(())
    }

    fn put_mode(&mut self, mode: Mode, silent: bool) -> Result<(), AllocError> {
        self.put(match mode {
            Mode::Replace => " Replace ",
            Mode::Add => " Add ",
            Mode::Remove => " Remove ",
        })?;
        if silent {
            self.put("silent ")?;
        }
        Ok(())
    }

    // The day from 1-Jan-1970, the second of the day and the zone in minutes.
    fn put_date(&mut self, date: Option<Stamp>) -> Result<(), AllocError> {
        if let Some(stamp) = date {
            let text = format!(in self.alloc;
                " {} {} {}",
                stamp.day, stamp.second, stamp.zone_minutes
            )?;
            self.put(text.as_str())?;
        }
        Ok(())
    }

    fn put_flag(&mut self, is_set: bool, name: &str) -> Result<(), AllocError> {
        if is_set {
            self.put(name)?;
        }
        Ok(())
    }

    // Each flag has a comma behind it.
    fn put_flags(&mut self, list: &FlagList) -> Result<(), AllocError> {
        self.put("(")?;
        self.put_flag(list.flags.seen, "Seen,")?;
        self.put_flag(list.flags.answered, "Answered,")?;
        self.put_flag(list.flags.flagged, "Flagged,")?;
        self.put_flag(list.flags.deleted, "Deleted,")?;
        self.put_flag(list.flags.draft, "Draft,")?;
        self.put_flag(list.flags.old, "Old,")?;
        for word in list.words.as_slice() {
            self.bytes.extend_from_slice(word.as_slice())?;
            self.put(",")?;
        }
        self.put(")")
    }

    fn put_end(&mut self, end: End) -> Result<(), AllocError> {
        match end {
            End::Number(number) => self.put_number(number),
            End::Largest => self.put("*"),
        }
    }

    fn put_set(&mut self, set: &Set) -> Result<(), AllocError> {
        for (at, range) in set.ranges.as_slice().iter().enumerate() {
            self.put_comma(at)?;
            self.put_end(range.0)?;
            self.put(":")?;
            self.put_end(range.1)?;
        }
        Ok(())
    }

    fn put_status(&mut self, items: &[StatusItem]) -> Result<(), AllocError> {
        self.put(" [")?;
        for (at, item) in items.iter().enumerate() {
            self.put_comma(at)?;
            self.put(match item {
                StatusItem::Messages => "Messages",
                StatusItem::Recent => "Recent",
                StatusItem::UidNext => "UidNext",
                StatusItem::UidValidity => "UidValidity",
                StatusItem::Unseen => "Unseen",
            })?;
        }
        self.put("]")
    }

    fn put_items(&mut self, items: &[Item]) -> Result<(), AllocError> {
        self.put(" [")?;
        for (at, item) in items.iter().enumerate() {
            self.put_comma(at)?;
            self.put_item(item)?;
        }
        self.put("]")
    }

    fn put_item(&mut self, item: &Item) -> Result<(), AllocError> {
        match item {
            Item::Flags => self.put("Flags"),
            Item::InternalDate => self.put("InternalDate"),
            Item::Size => self.put("Size"),
            Item::Envelope => self.put("Envelope"),
            Item::Body => self.put("Body"),
            Item::BodyStructure => self.put("BodyStructure"),
            Item::Uid => self.put("Uid"),
            Item::Rfc822 => self.put("Rfc822"),
            Item::Rfc822Header => self.put("Rfc822Header"),
            Item::Rfc822Text => self.put("Rfc822Text"),
            Item::Part(section, partial, peek) => {
                self.put_section(section)?;
                self.put_partial(*partial)?;
                self.put_flag(*peek, "peek")
            }
        }
    }

    fn put_section(&mut self, section: &Section) -> Result<(), AllocError> {
        self.put("Part(")?;
        for number in section.parts.as_slice() {
            self.put_number(*number)?;
            self.put(".")?;
        }
        match &section.kind {
            SectionKind::All => self.put("All")?,
            SectionKind::Header => self.put("Header")?,
            SectionKind::Fields(names) => self.put_names("Fields", names)?,
            SectionKind::FieldsNot(names) => self.put_names("FieldsNot", names)?,
            SectionKind::Text => self.put("Text")?,
            SectionKind::Mime => self.put("Mime")?,
        }
        self.put(")")
    }

    fn put_names(&mut self, word: &str, names: &ByteStrings) -> Result<(), AllocError> {
        self.put(word)?;
        for name in names.as_slice() {
            self.put(" ")?;
            self.put_string(name.as_slice())?;
        }
        Ok(())
    }

    fn put_partial(&mut self, partial: Option<(u32, u32)>) -> Result<(), AllocError> {
        if let Some((offset, count)) = partial {
            let text = format!(in self.alloc; "<{offset}.{count}>")?;
            self.put(text.as_str())?;
        }
        Ok(())
    }

    // A key and those in it: what is still to be written stands on a stack.
    fn put_key(&mut self, key: &Key) -> Result<(), AllocError> {
        let mut stack = Vec::new(self.alloc);
        stack.push(Next::Key(key))?;
        for _ in 0..MOST_PARTS {
            match stack.pop() {
                Some(Next::Text(text)) => self.put(text)?,
                Some(Next::Key(inner)) => self.put_outside(inner, &mut stack)?,
                None => break,
            }
        }
        Ok(())
    }

    // What is written of a key before the keys in it, which are put on the stack.
    fn put_outside<'a>(
        &mut self,
        key: &'a Key,
        stack: &mut Vec<Next<'a>>,
    ) -> Result<(), AllocError> {
        match key {
            Key::Not(inner) => {
                self.put("Not(")?;
                stack.push(Next::Text(")"))?;
                stack.push(Next::Key(inner.get()))?;
            }
            Key::Or(one, other) => {
                self.put("Or(")?;
                stack.push(Next::Text(")"))?;
                stack.push(Next::Key(other.get()))?;
                stack.push(Next::Text(","))?;
                stack.push(Next::Key(one.get()))?;
            }
            Key::AllOf(keys) => {
                self.put("AllOf(")?;
                stack.push(Next::Text(")"))?;
                for inner in keys.as_slice().iter().rev() {
                    stack.push(Next::Text(","))?;
                    stack.push(Next::Key(inner))?;
                }
            }
            _ => self.put_leaf(key)?,
        }
        Ok(())
    }

    fn put_leaf(&mut self, key: &Key) -> Result<(), AllocError> {
        if let Some(word) = plain_key(key) {
            return self.put(word);
        }
        if let Some((word, text)) = string_key(key) {
            return self.put_word(word, text);
        }
        if let Some((word, day)) = date_key(key) {
            let text = format!(in self.alloc; "{word} {day}")?;
            return self.put(text.as_str());
        }
        match key {
            Key::Header(name, text) => self.put_pair("Header", name, text),
            Key::Keyword(name) => self.put_name("Keyword ", name.as_slice()),
            Key::Unkeyword(name) => self.put_name("Unkeyword ", name.as_slice()),
            Key::Uid(set) => {
                self.put("Uid ")?;
                self.put_set(set)
            }
            Key::Numbers(set) => self.put_set(set),
            _ => self.put("?"),
        }
    }

    fn put_name(&mut self, word: &str, name: &[u8]) -> Result<(), AllocError> {
        self.put(word)?;
        self.bytes.extend_from_slice(name)
    }
}

fn plain_command(command: &Command) -> Option<&'static str> {
    match command {
        Command::Capability => Some("Capability"),
        Command::Noop => Some("Noop"),
        Command::Check => Some("Check"),
        Command::Close => Some("Close"),
        Command::Expunge => Some("Expunge"),
        Command::Logout => Some("Logout"),
        _ => None,
    }
}

fn named_command(command: &Command) -> Option<(&'static str, &Bytes)> {
    match command {
        Command::Password(word) => Some(("Password", word)),
        Command::Select(name) => Some(("Select", name)),
        Command::Examine(name) => Some(("Examine", name)),
        Command::Create(name) => Some(("Create", name)),
        Command::Delete(name) => Some(("Delete", name)),
        Command::Subscribe(name) => Some(("Subscribe", name)),
        Command::Unsubscribe(name) => Some(("Unsubscribe", name)),
        _ => None,
    }
}

fn plain_key(key: &Key) -> Option<&'static str> {
    match key {
        Key::All => Some("All"),
        Key::Answered => Some("Answered"),
        Key::Deleted => Some("Deleted"),
        Key::Draft => Some("Draft"),
        Key::Flagged => Some("Flagged"),
        Key::Seen => Some("Seen"),
        Key::Recent => Some("Recent"),
        Key::Unanswered => Some("Unanswered"),
        Key::Undeleted => Some("Undeleted"),
        Key::Undraft => Some("Undraft"),
        Key::Unflagged => Some("Unflagged"),
        Key::Unseen => Some("Unseen"),
        Key::New => Some("New"),
        Key::Old => Some("Old"),
        _ => None,
    }
}

fn string_key(key: &Key) -> Option<(&'static str, &Bytes)> {
    match key {
        Key::Bcc(text) => Some(("Bcc", text)),
        Key::Cc(text) => Some(("Cc", text)),
        Key::From(text) => Some(("From", text)),
        Key::Subject(text) => Some(("Subject", text)),
        Key::To(text) => Some(("To", text)),
        Key::Body(text) => Some(("Body", text)),
        Key::Text(text) => Some(("Text", text)),
        _ => None,
    }
}

// A key with a number or a day from 1-Jan-1970.
fn date_key(key: &Key) -> Option<(&'static str, i64)> {
    match key {
        Key::Larger(size) => Some(("Larger", i64::from(*size))),
        Key::Smaller(size) => Some(("Smaller", i64::from(*size))),
        Key::Before(day) => Some(("Before", i64::from(*day))),
        Key::On(day) => Some(("On", i64::from(*day))),
        Key::Since(day) => Some(("Since", i64::from(*day))),
        Key::SentBefore(day) => Some(("SentBefore", i64::from(*day))),
        Key::SentOn(day) => Some(("SentOn", i64::from(*day))),
        Key::SentSince(day) => Some(("SentSince", i64::from(*day))),
        _ => None,
    }
}
