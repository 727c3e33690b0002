// What FETCH says of a message (RFC 3501, section 7.4.2), for items that need no text of it.
ghost use Rattle.std.specs.Prelude.{◌≡◌, ◌++◌, ◌+◌, ◌≤◌, ◌<◌, List, ℕ, OnOk, IfOk, codes, decimal, drop, length, nat_eq, true};
ghost use Rattle.std.specs.List.{list_all, list_any};
ghost use Rattle.imap_reply.specs.Replies.{reply_bytes};
ghost use Rattle.imap_reply.specs.Texts.{behind_spaces, in_parentheses, system_flags, text_if};
ghost use Rattle.mail_fields.specs.ImapDate.{imap_date_text};
ghost use Rattle.mail_fields.specs.Stamps.{parts_of};
ghost use Rattle.mail_types.specs.Limits.{record_limit};
ghost use Rattle.session_loop.specs.Outcome.{UnitCause};
ghost use Rattle.imap_session.specs.Items.{IsItem, AreItems, is_built};
ghost use Rattle.imap_session.specs.Lines.{SaysLine, message_line};
ghost use Rattle.imap_session.specs.Names.{names_of};
ghost use Rattle.imap_session.specs.Putting.{PutsLines};
ghost use Rattle.imap_session.specs.Told.{HasSame, told, told_line, told_lines};

use crate::uids::Uids;
use file_model::Host;
use imap_arguments::Item;
use imap_reply::{ItemTexts, Reply, ReplyBuffer};
use itoa::Buffer;
use mail_fields::{Bytes, Keyword, Stamp, put_imap_date};
use mail_types::Flags;
use session_loop::Stop;
use std::alloc::{AllocError, Global};
use store_trait::Info;

/// What the lines of a command look at.
#[derive(Clone, Copy)]
pub struct Looking<'a> {
    pub alloc: Global,
    pub infos: &'a [Info],
    pub words: &'a [Keyword],
    /// The UIDs of the recent messages.
    pub recent: &'a [u32],
    pub items: &'a [Item],
}

/// One line for each of these places, whatever the texts of the messages are.
pub fn put_lines<H: Host>(
    looking: &Looking<'_>,
    places: &[usize],
    host: &mut H,
    out: &mut ReplyBuffer,
) -> Result<(), Stop>
    requires built { list_all is_built looking.now.items.now ≡ true }
    requires few { length looking.now.infos.now ≤ record_limit }
    ensures puts { (texts : ℕ → List ℕ) → PutsLines (told_lines texts looking.now.items.now looking.now.words.now looking.now.recent.now looking.now.infos.now places.now)
        out.old out.new result (H.history host.old) (H.history host.new) }
    ensures cause { UnitCause (H.faults host.old) (H.faults host.new) result }
{
    match Uids::of(looking.alloc, looking.recent) {
        Ok(recent) => put_each(looking, &recent, places, host, out),
        Err(_) => Err(Stop::Memory),
    }
}

fn put_each<H: Host>(
    looking: &Looking<'_>,
    recent: &Uids,
    places: &[usize],
    host: &mut H,
    out: &mut ReplyBuffer,
) -> Result<(), Stop>
    requires built { list_all is_built looking.now.items.now ≡ true }
    requires few { length looking.now.infos.now ≤ record_limit }
    requires same { HasSame recent.now looking.now.recent.now }
    ensures puts { (texts : ℕ → List ℕ) → PutsLines (told_lines texts looking.now.items.now looking.now.words.now looking.now.recent.now looking.now.infos.now places.now)
        out.old out.new result (H.history host.old) (H.history host.new) }
    ensures cause { UnitCause (H.faults host.old) (H.faults host.new) result }
{
    for place in places {
        put_line(looking, recent, *place, host, out)?;
    }
    Ok(())
}

fn put_line<H: Host>(
    looking: &Looking<'_>,
    recent: &Uids,
    place: usize,
    host: &mut H,
    out: &mut ReplyBuffer,
) -> Result<(), Stop>
    requires built { list_all is_built looking.now.items.now ≡ true }
    requires few { length looking.now.infos.now ≤ record_limit }
    requires same { HasSame recent.now looking.now.recent.now }
    ensures puts { (texts : ℕ → List ℕ) → PutsLines (told_line texts looking.now.items.now looking.now.words.now looking.now.recent.now looking.now.infos.now place)
        out.old out.new result (H.history host.old) (H.history host.new) }
    ensures cause { UnitCause (H.faults host.old) (H.faults host.new) result }
{
    let Some(info) = looking.infos.get(place) else {
        return Ok(());
    };
    match line_of(looking, recent, place, *info) {
        Ok(line) => out.put(host, &line),
        Err(_) => Err(Stop::Memory),
    }
}

fn line_of(
    looking: &Looking<'_>,
    recent: &Uids,
    place: usize,
    info: Info,
) -> Result<Reply, AllocError>
    requires built { list_all is_built looking.now.items.now ≡ true }
    requires few { place < record_limit }
    requires same { HasSame recent.now looking.now.recent.now }
    ensures { IfOk result (λ line. (text : List ℕ)
        → SaysLine (message_line looking.now.items.now (told (place + 1) info (list_any (nat_eq info.uid) looking.now.recent.now) looking.now.words.now text)) (reply_bytes line)) }
{
    let texts = item_texts(looking, info, recent.has(info.uid))?;
    Ok(Reply::Fetch(place as u32 + 1, ItemTexts::of(texts)))
}

fn item_texts(looking: &Looking<'_>, info: Info, recent: bool) -> Result<Vec<Bytes>, AllocError>
    requires { list_all is_built looking.now.items.now ≡ true }
    ensures { IfOk result (λ texts. (number : ℕ) (text : List ℕ) → AreItems looking.now.items.now (told number info recent looking.now.words.now text) texts.items) }
{
    let mut texts = Vec::new(looking.alloc);
    for item in looking.items {
        texts.push(item_text(looking.alloc, item, info, looking.words, recent)?)?;
    }
    Ok(texts)
}

fn item_text(
    alloc: Global,
    item: &Item,
    info: Info,
    words: &[Keyword],
    recent: bool,
) -> Result<Bytes, AllocError>
    requires { is_built item.now ≡ true }
    ensures { IfOk result (λ said. (number : ℕ) (text : List ℕ) → IsItem item.now (told number info recent words.now text) said) }
{
    match item {
        Item::Flags => flags_text(alloc, info, words, recent),
        Item::InternalDate => date_text(alloc, info.stamp),
        Item::Size => number_text(alloc, b"RFC822.SIZE ", info.size),
        _ => number_text(alloc, b"UID ", info.uid),
    }
}

fn number_text(alloc: Global, front: &[u8], n: u32) -> Result<Bytes, AllocError>
    ensures { IfOk result (λ text. text ≡ front.now ++ decimal n) }
{
    let mut digits = Buffer::new();
    let mut text = Vec::from_slice(alloc, front)?;
    text.extend_from_slice(digits.format(n).as_bytes())?;
    Ok(Bytes::from_vec(text))
}

fn date_text(alloc: Global, stamp: Stamp) -> Result<Bytes, AllocError>
    ensures { IfOk result (λ text. text ≡ codes "INTERNALDATE \"" ++ (imap_date_text (parts_of stamp) ++ codes "\"")) }
{
    let mut date = [0; 26];
    put_imap_date(&mut date, 0, stamp);
    let mut text = Vec::from_slice(alloc, b"INTERNALDATE \"")?;
    text.extend_from_slice(&date)?;
    text.extend_from_slice(b"\"")?;
    Ok(Bytes::from_vec(text))
}

fn flags_text(
    alloc: Global,
    info: Info,
    words: &[Keyword],
    recent: bool,
) -> Result<Bytes, AllocError>
    ensures { IfOk result (λ text. text ≡ codes "FLAGS " ++ in_parentheses (system_flags info.flags ++ (names_of info.words words.now ++ text_if recent (codes "\\Recent")))) }
{
    let mut inner = Vec::new(alloc);
    add_flags(&mut inner, info.flags)?;
    add_names(&mut inner, info.words, words)?;
    add_if(&mut inner, recent, b"\\Recent")?;
    let mut text = Vec::from_slice(alloc, b"FLAGS (")?;
    text.extend_from_slice(without_first(inner.as_slice()))?;
    text.extend_from_slice(b")")?;
    Ok(Bytes::from_vec(text))
}

fn without_first(bytes: &[u8]) -> &[u8]
    ensures { result.now ≡ drop 1 bytes.now }
{
    if bytes.is_empty() {
        return bytes;
    }
    &bytes[1..]
}

fn add_if(out: &mut Vec<u8>, set: bool, text: &[u8]) -> Result<(), AllocError>
    ensures { OnOk result (out.new.items ≡ out.old.items ++ behind_spaces (text_if set text.now)) }
{
    if set {
        out.extend_from_slice(b" ")?;
        out.extend_from_slice(text)?;
    }
    Ok(())
}

fn add_flags(out: &mut Vec<u8>, flags: Flags) -> Result<(), AllocError>
    ensures { OnOk result (out.new.items ≡ out.old.items ++ behind_spaces (system_flags flags)) }
{
    add_if(out, flags.seen, b"\\Seen")?;
    add_if(out, flags.answered, b"\\Answered")?;
    add_if(out, flags.flagged, b"\\Flagged")?;
    add_if(out, flags.deleted, b"\\Deleted")?;
    add_if(out, flags.draft, b"\\Draft")
}

// The names whose numbers are set, from the first number on.
fn add_names(out: &mut Vec<u8>, numbers: u32, words: &[Keyword]) -> Result<(), AllocError>
    ensures { OnOk result (out.new.items ≡ out.old.items ++ behind_spaces (names_of numbers words.now)) }
{
    let mut left = numbers;
    for name in words {
        add_if(out, left % 2 == 1, name.as_slice())?;
        left /= 2;
    }
    Ok(())
}
