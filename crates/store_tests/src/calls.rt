// The calls of a store, as a row of a table has them.
ghost use Rattle.std.specs.Prelude.{◌≡◌, IfOk};
ghost use Rattle.std.specs.List.{list_any};
ghost use Rattle.mail_fields.specs.Keyword.{same_keyword};
ghost use Rattle.mail_types.specs.Drivers.{keeps_of};
ghost use Rattle.mail_types.specs.Mailboxes.{has_no_nul};
ghost use Rattle.store_trait.specs.Changes.{IsNextWords};

use bare_host::BareHost;
use mail_fields::{Bytes, Keyword, Stamp};
use mail_types::{FlagChange, Flags, NewMessage, keeps_of};
use std::alloc::{AllocError, Global};
use std::test::Fail;
use store_trait::{Format, Info, OpenFault, Store, StoreFault};

/// Where the mailbox of a test stands.
pub(crate) const PATH: &str = "/m/box";

/// What a change answers, unless the test itself is wrong.
pub(crate) type Answer = Result<Result<(), StoreFault>, Fail>;

// 1-Jan-2024 01:02:03 +0200
const NEW_YEAR: Stamp = Stamp {
    day: 19723,
    second: 3723,
    zone_minutes: 120,
};

/// Opens it, where a fresh validity is 77.
pub(crate) fn opened<S: Format<BareHost>>(
    alloc: Global,
    host: &mut BareHost,
) -> Result<S, OpenFault> {
    S::open(alloc, host, "/m/box", 77)
}

/// Makes it, with the validity 18.
pub(crate) fn made<S: Format<BareHost>>(
    alloc: Global,
    host: &mut BareHost,
) -> Result<S, StoreFault> {
    S::create(alloc, host, "/m/box", 18)
}

/// An error that names an answer.
pub(crate) fn refused(fault: StoreFault) -> Fail {
    Fail::new(format_args!("{fault}"))
}

pub(crate) fn not_open(fault: OpenFault) -> Fail {
    Fail::new(format_args!("{fault}"))
}

pub(crate) fn is_clean(text: &[u8]) -> bool
    ensures { result ≡ has_no_nul text.now }
{
    text.iter().all(|byte| *byte != 0)
}

pub(crate) fn copies(alloc: Global, words: &[Keyword]) -> Result<Vec<Keyword>, AllocError>
    ensures { IfOk result (λ v. v.items ≡ words.now) }
{
    let mut copies = Vec::new(alloc);
    for word in words {
        copies.push(word.copy(alloc)?)?;
    }
    Ok(copies)
}

// The same names.
#[tactic(auto, using(crate::proofs::Words::same_next))]
fn same_words<S: Store<BareHost>>(alloc: Global, store: &S) -> Result<Vec<Keyword>, Fail>
    ensures { IfOk result (λ v. IsNextWords (keeps_of (S.view store.now).driver) (S.view store.now).summary.words v.items) }
{
    Ok(copies(alloc, store.words())?)
}

fn has_word(words: &[Keyword], name: &Keyword) -> bool
    ensures { result ≡ list_any (same_keyword name.now) words.now }
{
    words.iter().any(|word| name.same(word))
}

/// The names and a new one.
#[tactic(auto, using(crate::proofs::Words::more_next))]
pub(crate) fn more_words<S: Store<BareHost>>(
    alloc: Global,
    store: &S,
    name: Keyword,
) -> Result<Vec<Keyword>, Fail>
    ensures { IfOk result (λ v. IsNextWords (keeps_of (S.view store.now).driver) (S.view store.now).summary.words v.items) }
{
    let mut words = copies(alloc, store.words())?;
    if has_word(words.as_slice(), &name) {
        return Err(Fail::new("no new name"));
    }
    if words.len() >= keeps_of(store.driver()).words as usize {
        return Err(Fail::new("no room for a name"));
    }
    words.push(name)?;
    Ok(words)
}

/// Appends a message that was seen and has keyword 0.
pub(crate) fn append<S: Store<BareHost>>(
    alloc: Global,
    store: &mut S,
    host: &mut BareHost,
    text: &[u8],
) -> Answer {
    if !is_clean(text) {
        return Err(Fail::new("a NUL in a text"));
    }
    let words = same_words(alloc, store)?;
    let mut flags = Flags::none();
    flags.seen = true;
    let message = NewMessage {
        text: Bytes::of(alloc, text)?,
        stamp: NEW_YEAR,
        flags,
        words: 1,
    };
    Ok(store.append(host, &[message], words.as_slice()))
}

/// Sets flags and keywords of the message at a place.
pub(crate) fn set_flags<S: Store<BareHost>>(
    alloc: Global,
    store: &mut S,
    host: &mut BareHost,
    place: usize,
    bits: u16,
    keywords: u32,
) -> Answer {
    if place >= store.count() {
        return Err(Fail::new("no such place"));
    }
    let words = same_words(alloc, store)?;
    let change = FlagChange {
        place,
        flags: Flags::of_bits(bits),
        words: keywords,
    };
    Ok(store.set_flags(host, &[change], words.as_slice()))
}

/// Changes no message, but adds a name to the keyword list.
pub(crate) fn add_word<S: Store<BareHost>>(
    alloc: Global,
    store: &mut S,
    host: &mut BareHost,
    name: &[u8],
) -> Answer {
    let Some(name) = Keyword::read(alloc, name)? else {
        return Err(Fail::new("no keyword"));
    };
    let words = more_words(alloc, store, name)?;
    Ok(store.set_flags(host, &[], words.as_slice()))
}

/// Removes the message at a place.
pub(crate) fn expunge<S: Store<BareHost>>(
    store: &mut S,
    host: &mut BareHost,
    place: usize,
) -> Answer {
    if place >= store.count() {
        return Err(Fail::new("no such place"));
    }
    Ok(store.expunge(host, &[place]))
}

/// A change of nothing.
pub(crate) fn expunge_none<S: Store<BareHost>>(
    store: &mut S,
    host: &mut BareHost,
) -> Result<(), StoreFault> {
    store.expunge(host, &[])
}

/// Some bytes of the text at a place, from a byte on.
pub(crate) fn read_text<S: Store<BareHost>>(
    store: &mut S,
    host: &mut BareHost,
    place: usize,
    from: usize,
    buf: &mut [u8],
) -> Result<usize, Fail> {
    if place >= store.count() {
        return Err(Fail::new("no such place"));
    }
    if from > store.info(place).size as usize {
        return Err(Fail::new("no such byte"));
    }
    match store.text(host, place, from, buf) {
        Ok(count) => Ok(count),
        Err(fault) => Err(refused(fault)),
    }
}

// A message as a table shows it: its UID, the bits of its flags, its keyword bits and its size.
fn put_info(alloc: Global, out: &mut Vec<u8>, info: Info) -> Result<(), AllocError> {
    let bits = info.flags.bits();
    let shown = format!(in alloc; " {}.{}.{}.{}", info.uid, bits, info.words, info.size)?;
    out.extend_from_slice(shown.as_bytes())?;
    Ok(())
}

/// What an open store tells: its validity, its last UID, its names, and each message.
pub(crate) fn told<S: Store<BareHost>>(alloc: Global, store: &S) -> Result<Vec<u8>, AllocError> {
    let validity = store.validity();
    let last = store.last();
    let shown = format!(in alloc; "{validity} {last}")?;
    let mut out = Vec::from_slice(alloc, shown.as_bytes())?;
    for word in store.words() {
        out.push(b' ')?;
        out.extend_from_slice(word.as_slice())?;
    }
    for place in 0..store.count() {
        put_info(alloc, &mut out, store.info(place))?;
    }
    Ok(out)
}
