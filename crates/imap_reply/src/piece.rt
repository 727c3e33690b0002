// Texts of which a line has a list.
ghost use Rattle.std.specs.Prelude.{◌≡◌, ◌++◌, List, ℕ, codes, decimal, flat_map, map};
ghost use Rattle.imap_arguments.specs.declared.item.StatusItem.{StatusItem as Item};
ghost use Rattle.imap_reply.specs.Texts.{item_word, count_text, spaced, behind_some};

use crate::line::put_all;
use crate::sink::Sink;
use imap_arguments::StatusItem;
use itoa::Buffer;
use mail_fields::{Bytes, Keyword};
use session_loop::Stop;

/// A text of which a line has a list.
pub(crate) trait Piece {
    ghost text: { Self → List ℕ };

    /// Puts the text behind a gap.
    fn put_behind<W, S: Sink<W>>(&self, out: &mut S, host: &mut W, gap: &[u8]) -> Result<(), Stop>
        ensures { S.puts (gap.now ++ text self.now) result out.old out.new host.old host.new };
}

impl Piece for Bytes {
    ghost text = { λ t. t };

    fn put_behind<W, S: Sink<W>>(&self, out: &mut S, host: &mut W, gap: &[u8]) -> Result<(), Stop> {
        put_all(out, host, &[gap, self.as_slice()])
    }
}

impl Piece for Keyword {
    ghost text = { λ t. t };

    fn put_behind<W, S: Sink<W>>(&self, out: &mut S, host: &mut W, gap: &[u8]) -> Result<(), Stop> {
        put_all(out, host, &[gap, self.as_slice()])
    }
}

impl Piece for u32 {
    ghost text = { λ n. decimal n };

    fn put_behind<W, S: Sink<W>>(&self, out: &mut S, host: &mut W, gap: &[u8]) -> Result<(), Stop> {
        let mut digits = Buffer::new();
        put_all(out, host, &[gap, digits.format(*self).as_bytes()])
    }
}

// The word of an item.
fn item_word(item: StatusItem) -> &'static [u8]
    ensures { result.now ≡ item_word item }
{
    match item {
        StatusItem::Messages => b"MESSAGES",
        StatusItem::Recent => b"RECENT",
        StatusItem::UidNext => b"UIDNEXT",
        StatusItem::UidValidity => b"UIDVALIDITY",
        StatusItem::Unseen => b"UNSEEN",
    }
}

// An item's word and its number.
fn put_count<W, S: Sink<W>>(
    out: &mut S,
    host: &mut W,
    gap: &[u8],
    word: &[u8],
    number: &[u8],
) -> Result<(), Stop>
    ensures { S.puts (gap.now ++ (word.now ++ codes " " ++ number.now)) result out.old out.new host.old host.new }
{
    put_all(out, host, &[gap, word, b" ", number])
}

impl Piece for (StatusItem, u32) {
    ghost text = { λ count. count_text count };

    fn put_behind<W, S: Sink<W>>(&self, out: &mut S, host: &mut W, gap: &[u8]) -> Result<(), Stop> {
        let mut digits = Buffer::new();
        put_count(
            out,
            host,
            gap,
            item_word(self.0),
            digits.format(self.1).as_bytes(),
        )
    }
}

// Texts, each behind a space.
fn put_behind_spaces<W, S: Sink<W>, T: Piece>(
    out: &mut S,
    host: &mut W,
    texts: &[T],
) -> Result<(), Stop>
    ensures { S.puts (flat_map (λ t. codes " " ++ T.text t) texts.now) result out.old out.new host.old host.new }
{
    for text in texts {
        text.put_behind(out, host, b" ")?;
    }
    Ok(())
}

// Texts with one space between.
fn put_spaced<W, S: Sink<W>, T: Piece>(out: &mut S, host: &mut W, texts: &[T]) -> Result<(), Stop>
    ensures { S.puts (spaced (map T.text texts.now)) result out.old out.new host.old host.new }
{
    let Some((first, rest)) = texts.split_first() else {
        return Ok(());
    };
    first.put_behind(out, host, b"")?;
    put_behind_spaces(out, host, rest)
}

/// Texts with one space between, and one before the first too where some stand before it.
#[tactic(auto, using(crate::proofs::Steps::behind_one_by_one))]
pub(crate) fn put_texts<W, S: Sink<W>, T: Piece>(
    out: &mut S,
    host: &mut W,
    some: bool,
    texts: &[T],
) -> Result<(), Stop>
    ensures { S.puts (behind_some some (map T.text texts.now)) result out.old out.new host.old host.new }
{
    if some {
        put_behind_spaces(out, host, texts)
    } else {
        put_spaced(out, host, texts)
    }
}
