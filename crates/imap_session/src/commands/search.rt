// SEARCH (RFC 3501, section 6.4.4).
ghost use Rattle.std.specs.Prelude.{◌≡◌, ◌≤◌, ◌<◌, ◌+◌, ◌++◌, ◌∷◌, [], if◌then◌else◌, ℕ, length, map, nat_eq, IfOk, OnOk};
ghost use Rattle.std.specs.List.{list_any};
ghost use Rattle.any_store.specs.Choice.{formats_of, chosen};
ghost use Rattle.file_model.specs.Disk.{seen};
ghost use Rattle.file_model.specs.Histories.{Now};
ghost use Rattle.imap_syntax.specs.Laws.{key_parts};
ghost use Rattle.looked_message.specs.Messages.{looked_at, with_text};
ghost use Rattle.mail_types.specs.Limits.{record_limit};
ghost use Rattle.search_eval.specs.Keys.{key_holds};
ghost use Rattle.session_loop.specs.Outcome.{UnitCause};
ghost use Rattle.store_trait.specs.Views.{text_at};
ghost use Rattle.imap_session.specs.Doing.{Does};
ghost use Rattle.imap_session.specs.Protocol.{stop_in};
ghost use Rattle.imap_session.specs.Reading.{ReadsOn};
ghost use Rattle.imap_session.specs.Search.{is_known, largest_of, found_from, found, told_at, searched, search};
ghost use Rattle.imap_session.specs.Standing.{StandsFor};
ghost use Rattle.imap_session.specs.State.{State};
ghost use Rattle.imap_session.specs.Told.{HasSame};

use crate::infos::infos_of;
use crate::named::{greatest_uid, number_at};
use crate::reading::read_whole;
use crate::refusal::{Refusal, ends_with};
use crate::session::Session;
use crate::told::copied;
use crate::uids::Uids;
use any_store::AnyMailbox;
use file_model::{Files, Host};
use imap_arguments::Tag;
use imap_reply::{Reply, ReplyBuffer, Words};
use imap_syntax::Key;
use looked_message::Looked;
use mail_fields::{Bytes, Keyword, Numbers};
use search_eval::{Largest, matches, told_of};
use session_loop::Stop;
use std::alloc::{AllocError, Global};
use store_trait::{Info, Store};

/// Says the numbers of the messages that a key matches. Behind UID it says their UIDs.
#[tactic(auto, using(crate::proofs::Exits::refuses_at, crate::proofs::Selections::unselected_refused))]
pub fn answer<H: Host, S: AnyMailbox<H> + Drop>(
    session: &mut Session<S>,
    host: &mut H,
    tag: Tag,
    uid: bool,
    charset: &Option<Bytes>,
    key: &Key,
    out: &mut ReplyBuffer,
) -> Result<Reply, Refusal>
    requires empty { out.old ≡ [] }
    requires shallow { (key_parts key.now).depth ≤ 101 }
    requires stands { Now (H.history host.old) (λ w. (state : State) × StandsFor (formats_of S.forms chosen) S.view session.old w.disk state) }
    ensures does { Does (formats_of S.forms chosen) (StandsFor (formats_of S.forms chosen) S.view session.old) (StandsFor (formats_of S.forms chosen) S.view session.new)
        (search tag uid charset.now key.now) result out.new (H.history host.old) (H.history host.new) }
    ensures cause { UnitCause (H.faults host.old) (H.faults host.new) (stop_in result) }
{
    let Some(mut open) = session.selected.take() else {
        return Err(Refusal::Line(Reply::NotSelected(tag)));
    };
    if !is_known(charset) {
        session.selected = Some(open);
        return Err(Refusal::Line(Reply::Charset(tag)));
    }
    let lent = &mut open;
    let recent = lent.recent.as_slice();
    let numbers = found(session.alloc, uid, key, recent, &mut lent.store, host)?;
    session.selected = Some(open);
    ends_with(
        out.put(host, &Reply::Search(numbers)),
        Reply::Done(tag, searched(uid)),
    )
}

fn searched(uid: bool) -> Words
    ensures { result ≡ searched uid }
{
    if uid { Words::UidSearch } else { Words::Search }
}

fn is_known(charset: &Option<Bytes>) -> bool
    ensures { result ≡ is_known charset.now }
{
    match charset {
        Some(name) => name.as_slice().eq_ignore_ascii_case(b"US-ASCII"),
        None => true,
    }
}

// What a search looks for, and what it has of the mailbox while texts are read.
#[derive(Drop)]
struct Searching<'a> {
    alloc: Global,
    key: &'a Key,
    largest: Largest,
    /// The UIDs of the recent messages.
    recent: Uids,
    words: Vec<Keyword>,
}

// The numbers of the messages that a key matches, or their UIDs, by rising place.
fn found<F: Files, S: Store<F>>(
    alloc: Global,
    uid: bool,
    key: &Key,
    recent: &[u32],
    store: &mut S,
    files: &mut F,
) -> Result<Numbers, Stop>
    requires shallow { (key_parts key.now).depth ≤ 101 }
    requires stands { Now (F.history files.old) (λ w. (S.view store.old).stands (seen w.disk)) }
    ensures found { IfOk result (λ numbers. Now (F.history files.old) (λ w. numbers ≡ found uid key.now recent.now ((S.view store.old).mailbox (seen w.disk)))) }
    ensures reads_on { OnOk result (ReadsOn (S.view store.old) (S.view store.new) (F.history files.old)) }
    ensures history { F.history files.new ≡ F.history files.old }
    ensures cause { UnitCause (F.faults files.old) (F.faults files.new) result }
{
    let Ok(infos) = infos_of::<F, S>(alloc, store) else {
        return Err(Stop::Memory);
    };
    let words = Store::<F>::words(store);
    let Ok(searching) = search_for(alloc, key, recent, infos.as_slice(), words) else {
        return Err(Stop::Memory);
    };
    found_among(&searching, uid, infos.as_slice(), store, files)
}

fn search_for<'a>(
    alloc: Global,
    key: &'a Key,
    recent: &[u32],
    infos: &[Info],
    words: &[Keyword],
) -> Result<Searching<'a>, AllocError>
    requires few { length infos.now ≤ record_limit }
    ensures key { IfOk result (λ s. s.key.now ≡ key.now) }
    ensures largest { IfOk result (λ s. s.largest ≡ largest_of infos.now) }
    ensures recent { IfOk result (λ s. HasSame s.recent recent.now) }
    ensures words { IfOk result (λ s. s.words.items ≡ words.now) }
{
    Ok(Searching {
        alloc,
        key,
        largest: largest_of(infos),
        recent: Uids::of(alloc, recent)?,
        words: copied(alloc, words)?,
    })
}

fn largest_of(infos: &[Info]) -> Largest
    requires { length infos.now ≤ record_limit }
    ensures { result ≡ largest_of infos.now }
{
    Largest {
        number: infos.len() as u32,
        uid: greatest_uid(infos),
    }
}

// Those among the messages of which a store tells.
fn found_among<F: Files, S: Store<F>>(
    searching: &Searching<'_>,
    uid: bool,
    infos: &[Info],
    store: &mut S,
    files: &mut F,
) -> Result<Numbers, Stop>
    requires infos { infos.now ≡ (S.view store.old).summary.infos }
    requires few { length infos.now ≤ record_limit }
    requires words { searching.now.words.items ≡ (S.view store.old).summary.words }
    requires shallow { (key_parts searching.now.key.now).depth ≤ 101 }
    requires stands { Now (F.history files.old) (λ w. (S.view store.old).stands (seen w.disk)) }
    ensures found { IfOk result (λ numbers. Now (F.history files.old) (λ w. numbers ≡ found_from uid searching.now.key.now searching.now.largest searching.now.recent searching.now.words.items 0 ((S.view store.old).mailbox (seen w.disk)).records)) }
    ensures reads_on { OnOk result (ReadsOn (S.view store.old) (S.view store.new) (F.history files.old)) }
    ensures history { F.history files.new ≡ F.history files.old }
    ensures cause { UnitCause (F.faults files.old) (F.faults files.new) result }
{
    let mut numbers = Vec::new(searching.alloc);
    let mut text = Vec::new(searching.alloc);
    for (place, info) in infos.iter().enumerate() {
        let is = is_found(searching, place, *info, store, files, &mut text)?;
        let Ok(()) = add_found(&mut numbers, is, number_at(uid, place, info)) else {
            return Err(Stop::Memory);
        };
    }
    Ok(Numbers::of(numbers))
}

fn add_found(numbers: &mut Vec<u32>, is: bool, number: u32) -> Result<(), AllocError>
    ensures { OnOk result (numbers.new.items ≡ (if is then numbers.old.items ++ number ∷ [] else numbers.old.items)) }
{
    if is {
        numbers.push(number)?;
    }
    Ok(())
}

// Whether the key matches the message at a place. Its text is read where nothing else tells.
fn is_found<F: Files, S: Store<F>>(
    searching: &Searching<'_>,
    place: usize,
    info: Info,
    store: &mut S,
    files: &mut F,
    text: &mut Vec<u8>,
) -> Result<bool, Stop>
    requires place { place < length (S.view store.old).summary.infos }
    requires few { place < record_limit }
    requires shallow { (key_parts searching.now.key.now).depth ≤ 101 }
    requires stands { Now (F.history files.old) (λ w. (S.view store.old).stands (seen w.disk)) }
    ensures is { IfOk result (λ is. Now (F.history files.old) (λ w. is ≡ key_holds searching.now.largest
        (told_at (place + 1) info (list_any (nat_eq info.uid) searching.now.recent) searching.now.words.items (text_at ((S.view store.old).mailbox (seen w.disk)) place)) searching.now.key.now)) }
    ensures reads_on { OnOk result (ReadsOn (S.view store.old) (S.view store.new) (F.history files.old)) }
    ensures history { F.history files.new ≡ F.history files.old }
    ensures cause { UnitCause (F.faults files.old) (F.faults files.new) result }
{
    let looked = looked_at(searching, place, info, &[]);
    if let Some(is) = told_of(searching.key, &looked, searching.largest) {
        return Ok(is);
    }
    read_whole(store, files, place, text)?;
    let looked = looked_at(searching, place, info, text.as_slice());
    match matches(searching.alloc, searching.key, &looked, searching.largest) {
        Ok(is) => Ok(is),
        Err(_) => Err(Stop::Memory),
    }
}

// The message at a place, with as much of its text as is known.
fn looked_at<'a>(
    searching: &'a Searching<'_>,
    place: usize,
    info: Info,
    text: &'a [u8],
) -> Looked<'a>
    requires { place < record_limit }
    ensures { looked_at result ≡ with_text (told_at (place + 1) info (list_any (nat_eq info.uid) searching.now.recent) searching.now.words.items []) text.now }
{
    Looked {
        number: place as u32 + 1,
        info,
        modseq: 0,
        recent: searching.recent.has(info.uid),
        words: searching.words.as_slice(),
        text,
    }
}
