// Each line of a reply.
ghost use Rattle.std.specs.Prelude.{◌≡◌, ◌++◌, ◌||◌, codes, decimal, map};
ghost use Rattle.imap_reply.specs.Replies.{crlf, list_mark, lsub_mark, tagged, untagged, reply_bytes};
ghost use Rattle.imap_reply.specs.Texts.{words_text, plain_text, no_text, reason_text, driver_word, in_parentheses, behind_spaces, behind_some, has_some, has_texts, count_text, every_system_flag, name_text, system_flags, text_if};

use crate::line::{
    has_some, put_all, put_flags, put_ill_formed, put_list, put_named, put_number, put_tagged,
    put_tagged_parts, put_untagged,
};
use crate::reply::Reply;
use crate::sink::Sink;
use crate::text::{NoText, Words};
use imap_arguments::StatusItem;
use itoa::Buffer;
use mail_fields::{Bytes, Keyword};
use mail_types::{Driver, Flags};
use session_loop::Stop;

fn words_text(words: Words) -> &'static [u8]
    ensures { result.now ≡ words_text words }
{
    match words {
        Words::Capability => b"CAPABILITY",
        Words::Noop => b"NOOP",
        Words::Check => b"CHECK",
        Words::Logout => b"LOGOUT",
        Words::Create => b"CREATE",
        Words::Delete => b"DELETE",
        Words::Rename => b"RENAME",
        Words::Subscribe => b"SUBSCRIBE",
        Words::Unsubscribe => b"UNSUBSCRIBE",
        Words::List => b"LIST",
        Words::Lsub => b"LSUB",
        Words::Status => b"STATUS",
        Words::Append => b"APPEND",
        Words::Close => b"CLOSE",
        Words::Expunge => b"EXPUNGE",
        Words::Search => b"SEARCH",
        Words::Fetch => b"FETCH",
        Words::Store => b"STORE",
        Words::Copy => b"COPY",
        Words::UidSearch => b"UID SEARCH",
        Words::UidFetch => b"UID FETCH",
        Words::UidStore => b"UID STORE",
        Words::UidCopy => b"UID COPY",
    }
}

fn driver_word(driver: Driver) -> &'static [u8]
    ensures { result.now ≡ driver_word driver }
{
    match driver {
        Driver::Unix => b"unix",
        Driver::Mmdf => b"mmdf",
        Driver::Mbx => b"mbx",
        Driver::Mtx => b"mtx",
        Driver::Tenex => b"tenex",
        Driver::Mh => b"mh",
        Driver::Mix => b"mix",
    }
}

fn reason_text(reason: u8) -> &'static [u8]
    ensures { result.now ≡ reason_text reason }
{
    match reason {
        0 => b"not built",
        1 => b"no tag",
        2 => b"line too long",
        3 => b"no command",
        4 => b"unknown command",
        5 => b"argument missing",
        6 => b"argument not understood",
        7 => b"text after the command",
        8 => b"NUL in the command",
        9 => b"number out of range",
        _ => b"",
    }
}

// The last line of a command that was done.
fn put_done<W, S: Sink<W>>(out: &mut S, host: &mut W, tag: &[u8], words: &[u8]) -> Result<(), Stop>
    ensures { S.puts (tagged tag.now (codes "OK " ++ (words.now ++ codes " done"))) result out.old out.new host.old host.new }
{
    put_tagged_parts(out, host, tag, b"OK ", words, b" done")
}

// Why a command was refused, but for the count of a store's records.
fn plain_text(why: NoText) -> &'static [u8]
    ensures { result.now ≡ plain_text why }
{
    match why {
        NoText::BadName => b"bad mailbox name",
        NoText::There => b"mailbox exists",
        NoText::Absent => b"no such mailbox",
        NoText::NotStore => b"not a mailbox",
        NoText::HasChildren => b"directory not empty",
        NoText::Reserved => b"INBOX is reserved",
        NoText::Selected => b"mailbox is selected",
        NoText::IllFormed(_, _) => b"",
        NoText::StoreTooLarge => b"store too large",
        NoText::MessageTooLarge => b"message too large",
        NoText::TooManyMessages => b"too many messages",
        NoText::NoUid => b"no UID left",
    }
}

// A command that was refused.
fn put_plain<W, S: Sink<W>>(out: &mut S, host: &mut W, tag: &[u8], text: &[u8]) -> Result<(), Stop>
    ensures { S.puts (tagged tag.now (codes "NO " ++ text.now)) result out.old out.new host.old host.new }
{
    put_tagged_parts(out, host, tag, b"NO ", text, b"")
}

fn put_refused<W, S: Sink<W>>(
    out: &mut S,
    host: &mut W,
    tag: &[u8],
    why: NoText,
) -> Result<(), Stop>
    ensures { S.puts (tagged tag.now (codes "NO " ++ no_text why)) result out.old out.new host.old host.new }
{
    match why {
        NoText::IllFormed(driver, records) => {
            put_ill_formed(out, host, tag, driver_word(driver), records)
        }
        why => put_plain(out, host, tag, plain_text(why)),
    }
}

// ---- Lines with lists

// What begins a line about a message.
fn put_message_number<W, S: Sink<W>>(out: &mut S, host: &mut W, n: u32) -> Result<(), Stop>
    ensures { S.puts (codes "* " ++ decimal n) result out.old out.new host.old host.new }
{
    let mut digits = Buffer::new();
    put_all(out, host, &[b"* ", digits.format(n).as_bytes()])
}

fn put_fetch<W, S: Sink<W>>(out: &mut S, host: &mut W, n: u32, texts: &[Bytes]) -> Result<(), Stop>
    ensures { S.puts (untagged (decimal n ++ (codes " FETCH " ++ in_parentheses texts.now))) result out.old out.new host.old host.new }
{
    put_message_number(out, host, n)?;
    put_list(out, host, b" FETCH (", false, texts, b")\r\n")
}

fn put_status<W, S: Sink<W>>(
    out: &mut S,
    host: &mut W,
    name: &[u8],
    counts: &[(StatusItem, u32)],
) -> Result<(), Stop>
    ensures { S.puts (untagged (codes "STATUS " ++ (name_text name.now ++ (codes " " ++ in_parentheses (map count_text counts.now))))) result out.old out.new host.old host.new }
{
    put_named(out, host, b"* STATUS ", name, b" (")?;
    put_list(out, host, b"", false, counts, b")\r\n")
}

fn put_search<W, S: Sink<W>>(out: &mut S, host: &mut W, numbers: &[u32]) -> Result<(), Stop>
    ensures { S.puts (untagged (codes "SEARCH" ++ behind_spaces (map decimal numbers.now))) result out.old out.new host.old host.new }
{
    put_list(out, host, b"* SEARCH", true, numbers, b"\r\n")
}

fn put_keywords<W, S: Sink<W>>(out: &mut S, host: &mut W, names: &[Keyword]) -> Result<(), Stop>
    ensures { S.puts (untagged (codes "FLAGS " ++ in_parentheses (every_system_flag ++ names.now))) result out.old out.new host.old host.new }
{
    put_list(
        out,
        host,
        b"* FLAGS (\\Seen \\Answered \\Flagged \\Deleted \\Draft",
        true,
        names,
        b")\r\n",
    )
}

// What ends the list of the flags that are kept.
fn permanent_rest(some: bool, more: bool) -> &'static [u8]
    ensures { result.now ≡ behind_some some (text_if more (codes "\\*")) ++ codes ")] flags kept\r\n" }
{
    match (some, more) {
        (true, true) => b" \\*)] flags kept\r\n",
        (false, true) => b"\\*)] flags kept\r\n",
        (_, false) => b")] flags kept\r\n",
    }
}

// Whether there are names.
fn has_names(names: &[Keyword]) -> bool
    ensures { result ≡ has_texts names.now }
{
    match names.first() {
        Some(_) => true,
        None => false,
    }
}

// What ends the list of the flags that are kept.
fn permanent_end(flags: Flags, names: &[Keyword], more: bool) -> &'static [u8]
    ensures { result.now ≡ behind_some (has_some flags || has_texts names.now) (text_if more (codes "\\*")) ++ codes ")] flags kept\r\n" }
{
    permanent_rest(has_some(flags) || has_names(names), more)
}

fn put_permanent_flags<W, S: Sink<W>>(
    out: &mut S,
    host: &mut W,
    flags: Flags,
    names: &[Keyword],
    more: bool,
) -> Result<(), Stop>
    ensures { S.puts (untagged (codes "OK [PERMANENTFLAGS " ++ (in_parentheses ((system_flags flags ++ names.now) ++ text_if more (codes "\\*")) ++ codes "] flags kept"))) result out.old out.new host.old host.new }
{
    let rest = permanent_end(flags, names, more);
    put_flags(out, host, b"* OK [PERMANENTFLAGS (", flags)?;
    put_list(out, host, b"", has_some(flags), names, rest)
}

fn list_front(directory: bool) -> &'static [u8]
    ensures { result.now ≡ codes "* LIST (" ++ (list_mark directory ++ codes ") \"/\" ") }
{
    if directory {
        b"* LIST (\\Noselect) \"/\" "
    } else {
        b"* LIST (\\NoInferiors) \"/\" "
    }
}

fn lsub_front(leads: bool) -> &'static [u8]
    ensures { result.now ≡ codes "* LSUB (" ++ (lsub_mark leads ++ codes ") \"/\" ") }
{
    if leads {
        b"* LSUB (\\Noselect) \"/\" "
    } else {
        b"* LSUB () \"/\" "
    }
}

// A line with a name at its end.
fn put_name_line<W, S: Sink<W>>(
    out: &mut S,
    host: &mut W,
    front: &[u8],
    name: &[u8],
) -> Result<(), Stop>
    ensures { S.puts (front.now ++ (name_text name.now ++ crlf)) result out.old out.new host.old host.new }
{
    put_named(out, host, front, name, b"\r\n")
}

fn put_password<W, S: Sink<W>>(
    out: &mut S,
    host: &mut W,
    tag: &[u8],
    word: &[u8],
) -> Result<(), Stop>
    ensures { S.puts (tagged tag.now (codes "NO " ++ (word.now ++ codes " not available"))) result out.old out.new host.old host.new }
{
    put_tagged_parts(out, host, tag, b"NO ", word, b" not available")
}

fn put_bad<W, S: Sink<W>>(out: &mut S, host: &mut W, tag: &[u8], reason: &[u8]) -> Result<(), Stop>
    ensures { S.puts (tagged tag.now (codes "BAD " ++ reason.now)) result out.old out.new host.old host.new }
{
    put_tagged_parts(out, host, tag, b"BAD ", reason, b"")
}

impl Reply {
    /// Puts the bytes of the line.
    pub fn put<W, S: Sink<W>>(&self, out: &mut S, host: &mut W) -> Result<(), Stop>
        ensures { S.puts (reply_bytes self.now) result out.old out.new host.old host.new }
    {
        match self {
            Reply::Greeting => put_untagged(out, host, b"PREAUTH [CAPABILITY IMAP4rev1] ready"),
            Reply::Announce => out.put(host, b"+ Ready\r\n"),
            Reply::Done(tag, words) => put_done(out, host, tag.as_slice(), words_text(*words)),
            Reply::Selected(tag) => put_tagged(
                out,
                host,
                tag.as_slice(),
                b"OK [READ-WRITE] SELECT done",
            ),
            Reply::Examined(tag) => put_tagged(
                out,
                host,
                tag.as_slice(),
                b"OK [READ-ONLY] EXAMINE done",
            ),
            Reply::Capability => put_untagged(out, host, b"CAPABILITY IMAP4rev1"),
            Reply::Bye => put_untagged(out, host, b"BYE bye"),
            Reply::Password(tag, word) => put_password(out, host, tag.as_slice(), word.as_slice()),
            Reply::Large(tag) => put_tagged(out, host, tag.as_slice(), b"NO literal too large"),
            Reply::ReadOnly(tag) => put_tagged(
                out,
                host,
                tag.as_slice(),
                b"NO mailbox is read-only",
            ),
            Reply::Charset(tag) => put_tagged(
                out,
                host,
                tag.as_slice(),
                b"NO [BADCHARSET (US-ASCII)] charset not known",
            ),
            Reply::NotSelected(tag) => put_tagged(
                out,
                host,
                tag.as_slice(),
                b"BAD no mailbox selected",
            ),
            Reply::NoMessage(tag) => put_tagged(out, host, tag.as_slice(), b"BAD no such message"),
            Reply::Bad(tag, reason) => put_bad(out, host, tag.as_slice(), reason_text(*reason)),
            Reply::Refused(tag, why) => put_refused(out, host, tag.as_slice(), *why),
            Reply::TryCreate(tag) => put_tagged(
                out,
                host,
                tag.as_slice(),
                b"NO [TRYCREATE] no such mailbox",
            ),
            Reply::Flags(names) => put_keywords(out, host, names.as_slice()),
            Reply::Exists(n) => put_number(out, host, b"", *n, b" EXISTS"),
            Reply::Recent(n) => put_number(out, host, b"", *n, b" RECENT"),
            Reply::Unseen(n) => put_number(out, host, b"OK [UNSEEN ", *n, b"] first unseen"),
            Reply::PermanentFlags(flags, names, more) => put_permanent_flags(
                out,
                host,
                *flags,
                names.as_slice(),
                *more,
            ),
            Reply::UidNext(n) => put_number(out, host, b"OK [UIDNEXT ", *n, b"] next UID"),
            Reply::UidValidity(n) => put_number(
                out,
                host,
                b"OK [UIDVALIDITY ",
                *n,
                b"] UIDs valid",
            ),
            Reply::List(name, directory) => put_name_line(
                out,
                host,
                list_front(*directory),
                name.as_slice(),
            ),
            Reply::ListEmpty => put_untagged(out, host, b"LIST (\\Noselect) \"/\" \"\""),
            Reply::Lsub(name, leads) => put_name_line(
                out,
                host,
                lsub_front(*leads),
                name.as_slice(),
            ),
            Reply::Status(name, counts) => put_status(
                out,
                host,
                name.as_slice(),
                counts.as_slice(),
            ),
            Reply::Search(numbers) => put_search(out, host, numbers.as_slice()),
            Reply::Expunge(n) => put_number(out, host, b"", *n, b" EXPUNGE"),
            Reply::Fetch(n, texts) => put_fetch(out, host, *n, texts.as_slice()),
        }
    }
}
