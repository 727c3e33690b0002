// The bytes of each line, piece by piece.
ghost use Rattle.std.specs.Prelude.{◌≡◌, ◌++◌, ◌||◌, if◌then◌else◌, List, ℕ, Bool, [], codes, decimal, flat_map, map};
ghost use Rattle.std.specs.List.{list_all};
ghost use Rattle.mail_fields.specs.Keyword.{is_atom};
ghost use Rattle.mail_types.specs.declared.flags.Flags.{Flags as FlagSet};
ghost use Rattle.imap_reply.specs.Replies.{tagged, untagged, reply_bytes};
ghost use Rattle.imap_reply.specs.Texts.{words_text, spaced, behind_spaces, behind_some, system_flags, has_some, name_text, no_text, reason_text, driver_word, text_if};

use crate::piece::{Piece, put_texts};
use crate::reply::Reply;
use crate::sink::Sink;
use crate::text::{NoText, Words};
use imap_arguments::is_atom_byte;
use itoa::Buffer;
use mail_types::{Driver, Flags};
use session_loop::Stop;

// Texts, one behind the other.
pub(crate) fn put_all<W, S: Sink<W>>(out: &mut S, host: &mut W, texts: &[&[u8]]) -> Result<(), Stop>
    ensures { S.puts (flat_map (λ t. t.now) texts.now) result out.old out.new host.old host.new }
{
    for text in texts {
        out.put(host, text)?;
    }
    Ok(())
}

// ---- Lines without lists

// A line that ends the command of a tag.
pub(crate) fn put_tagged<W, S: Sink<W>>(
    out: &mut S,
    host: &mut W,
    tag: &[u8],
    text: &[u8],
) -> Result<(), Stop>
    ensures { S.puts (tagged tag.now text.now) result out.old out.new host.old host.new }
{
    put_all(out, host, &[tag, b" ", text, b"\r\n"])
}

// Such a line, whose text is in three parts.
pub(crate) fn put_tagged_parts<W, S: Sink<W>>(
    out: &mut S,
    host: &mut W,
    tag: &[u8],
    front: &[u8],
    middle: &[u8],
    rest: &[u8],
) -> Result<(), Stop>
    ensures { S.puts (tagged tag.now (front.now ++ (middle.now ++ rest.now))) result out.old out.new host.old host.new }
{
    put_all(out, host, &[tag, b" ", front, middle, rest, b"\r\n"])
}

// A line that ends no command.
pub(crate) fn put_untagged<W, S: Sink<W>>(
    out: &mut S,
    host: &mut W,
    text: &[u8],
) -> Result<(), Stop>
    ensures { S.puts (untagged text.now) result out.old out.new host.old host.new }
{
    put_all(out, host, &[b"* ", text, b"\r\n"])
}

// A line with a number between two texts.
pub(crate) fn put_number<W, S: Sink<W>>(
    out: &mut S,
    host: &mut W,
    front: &[u8],
    n: u32,
    rest: &[u8],
) -> Result<(), Stop>
    ensures { S.puts (untagged (front.now ++ (decimal n ++ rest.now))) result out.old out.new host.old host.new }
{
    let mut digits = Buffer::new();
    let number = digits.format(n).as_bytes();
    put_all(out, host, &[b"* ", front, number, rest, b"\r\n"])
}

// Why a store can't be read.
pub(crate) fn put_ill_formed<W, S: Sink<W>>(
    out: &mut S,
    host: &mut W,
    tag: &[u8],
    driver: &[u8],
    records: u32,
) -> Result<(), Stop>
    ensures { S.puts (tagged tag.now (codes "NO ill-formed " ++ (driver.now ++ (codes " store after " ++ (decimal records ++ codes " records"))))) result out.old out.new host.old host.new }
{
    let mut digits = Buffer::new();
    let number = digits.format(records).as_bytes();
    put_all(
        out,
        host,
        &[
            tag,
            b" NO ill-formed ",
            driver,
            b" store after ",
            number,
            b" records",
            b"\r\n",
        ],
    )
}

// Whether a name can stand without quotes.
fn is_atom(name: &[u8]) -> bool
    ensures { result ≡ list_all is_atom name.now }
{
    name.iter().all(|byte| is_atom_byte(*byte))
}

// A line with a name.
pub(crate) fn put_named<W, S: Sink<W>>(
    out: &mut S,
    host: &mut W,
    front: &[u8],
    name: &[u8],
    rest: &[u8],
) -> Result<(), Stop>
    ensures { S.puts (front.now ++ (name_text name.now ++ rest.now)) result out.old out.new host.old host.new }
{
    if is_atom(name) {
        put_all(out, host, &[front, name, rest])
    } else {
        put_all(out, host, &[front, b"\"", name, b"\"", rest])
    }
}

// ---- Lines with lists

// A list behind a text, and a text behind it.
pub(crate) fn put_list<W, S: Sink<W>, T: Piece>(
    out: &mut S,
    host: &mut W,
    front: &[u8],
    some: bool,
    items: &[T],
    rest: &[u8],
) -> Result<(), Stop>
    ensures { S.puts (front.now ++ (behind_some some (map T.text items.now) ++ rest.now)) result out.old out.new host.old host.new }
{
    out.put(host, front)?;
    put_texts(out, host, some, items)?;
    out.put(host, rest)
}

// A text where it is to stand.
fn text_where(stands: bool, text: &[u8]) -> &[u8]
    ensures { result.now ≡ if stands then text.now else [] }
{
    if stands { text } else { b"" }
}

// Whether there is a flag that a client can set.
pub(crate) fn has_some(flags: Flags) -> bool
    ensures { result ≡ has_some flags }
{
    flags.seen || flags.answered || flags.flagged || flags.deleted || flags.draft
}

// The flags that a client can set, with one space between, behind a text.
pub(crate) fn put_flags<W, S: Sink<W>>(
    out: &mut S,
    host: &mut W,
    front: &[u8],
    flags: Flags,
) -> Result<(), Stop>
    ensures { S.puts (front.now ++ spaced (system_flags flags)) result out.old out.new host.old host.new }
{
    let before_flagged = flags.seen || flags.answered;
    let before_deleted = before_flagged || flags.flagged;
    let before_draft = before_deleted || flags.deleted;
    put_all(
        out,
        host,
        &[
            front,
            text_where(flags.seen, b"\\Seen"),
            text_where(flags.seen && flags.answered, b" "),
            text_where(flags.answered, b"\\Answered"),
            text_where(before_flagged && flags.flagged, b" "),
            text_where(flags.flagged, b"\\Flagged"),
            text_where(before_deleted && flags.deleted, b" "),
            text_where(flags.deleted, b"\\Deleted"),
            text_where(before_draft && flags.draft, b" "),
            text_where(flags.draft, b"\\Draft"),
        ],
    )
}
