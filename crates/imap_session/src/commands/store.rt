// STORE (RFC 3501, section 6.4.6).
ghost use Rattle.std.specs.Prelude.{◌≡◌, ◌++◌, ◌∷◌, ◌≤◌, [], ℕ, List, length, nat_lt, true, if◌then◌else◌, IfOk};
ghost use Rattle.std.specs.List.{list_all};
ghost use Rattle.any_store.specs.Choice.{formats_of, chosen};
ghost use Rattle.file_model.specs.Disk.{seen};
ghost use Rattle.file_model.specs.Histories.{Now};
ghost use Rattle.mail_types.specs.Drivers.{keeps_of};
ghost use Rattle.mail_types.specs.Lists.{RiseBelow};
ghost use Rattle.session_loop.specs.Outcome.{UnitCause};
ghost use Rattle.store_trait.specs.Promises.{CanAsk, RanOnFiles};
ghost use Rattle.imap_session.specs.Committed.{IsHere, Commits};
ghost use Rattle.imap_session.specs.Doing.{Does};
ghost use Rattle.imap_session.specs.Items.{is_built};
ghost use Rattle.imap_session.specs.Lines.{reply_line};
ghost use Rattle.imap_session.specs.Protocol.{stop_in};
ghost use Rattle.imap_session.specs.Putting.{PutsLines};
ghost use Rattle.imap_session.specs.Standing.{StandsFor};
ghost use Rattle.imap_session.specs.State.{Selected, State};
ghost use Rattle.imap_session.specs.Store.{store, stored, flag_items};
ghost use Rattle.imap_session.specs.Told.{told_change, told_lines};

use crate::commands::fetch_line::{Looking, put_lines};
use crate::commands::store_change::{adds_names, changes_at};
use crate::commit::commit;
use crate::infos::infos_of;
use crate::keywords::next_names;
use crate::named::{named_places, names_missing};
use crate::refusal::{Refusal, ends_with};
use crate::session::{Open, Session};
use crate::told::copy_words;
use any_store::AnyMailbox;
use file_model::{Files, Host};
use imap_arguments::{FlagList, Item, Set, Tag};
use imap_reply::{Reply, ReplyBuffer, Words};
use imap_syntax::Mode;
use mail_fields::{Keyword, Keywords};
use mail_types::{FlagChanges, keeps_of};
use session_loop::Stop;
use std::alloc::{AllocError, Global};
use store_trait::{Change, Info, Store};

/// Sets flags and keywords of messages, and says them unless it is silent. Behind UID the set has UIDs, and each line its own.
#[tactic(auto, using(crate::proofs::Exits::refuses_at, crate::proofs::Selections::unselected_refused))]
pub fn answer<H: Host, S: AnyMailbox<H> + Drop>(
    session: &mut Session<S>,
    host: &mut H,
    tag: Tag,
    uid: bool,
    set: &Set,
    mode: Mode,
    silent: bool,
    given: &FlagList,
    out: &mut ReplyBuffer,
) -> Result<Reply, Refusal>
    requires empty { out.old ≡ [] }
    requires stands { Now (H.history host.old) (λ w. (state : State) × StandsFor (formats_of S.forms chosen) S.view session.old w.disk state) }
    ensures does { Does (formats_of S.forms chosen) (StandsFor (formats_of S.forms chosen) S.view session.old) (StandsFor (formats_of S.forms chosen) S.view session.new)
        (store (formats_of S.forms chosen) tag uid set.now mode silent given.now) result out.new (H.history host.old) (H.history host.new) }
    ensures cause { UnitCause (H.faults host.old) (H.faults host.new) (stop_in result) }
{
    let alloc = session.alloc;
    let Some(mut open) = session.selected.take() else {
        return Err(Refusal::Line(Reply::NotSelected(tag)));
    };
    let told = infos_of::<H, S>(alloc, &open.store)?;
    let infos = told.as_slice();
    if names_missing(uid, infos.len(), set) {
        session.selected = Some(open);
        return Err(Refusal::Line(Reply::NoMessage(tag)));
    }
    if open.read_only {
        session.selected = Some(open);
        return Err(Refusal::Line(Reply::ReadOnly(tag)));
    }
    let named = named_places(alloc, uid, set, infos)?;
    let places = named.as_slice();
    let names = Store::<H>::words(&open.store).len();
    set_flags(alloc, &mut open, host, mode, given, infos, places)?;
    let lines = put_changed(alloc, &open, names, uid, silent, places, host, out);
    session.selected = Some(open);
    ends_with(lines, Reply::Done(tag, stored(uid)))
}

fn stored(uid: bool) -> Words
    ensures { result ≡ stored uid }
{
    if uid { Words::UidStore } else { Words::Store }
}

// Sets flags and keywords of the messages at places of an open mailbox, of which it tells `infos`.
#[tactic(auto, using(crate::proofs::Expunging::nothing_committed))]
fn set_flags<F: Files, S: AnyMailbox<F>>(
    alloc: Global,
    open: &mut Open<S>,
    files: &mut F,
    mode: Mode,
    given: &FlagList,
    infos: &[Info],
    places: &[usize],
) -> Result<(), Stop>
    requires infos { infos.now ≡ (S.view open.old.store).summary.infos }
    requires rise { RiseBelow 0 (length infos.now) places.now }
    requires standing { CanAsk (S.view open.old.store) (F.history files.old) }
    ensures commits { (state : State) (s : Selected) (recent : List ℕ) → Now (F.history files.old) (λ w. IsHere (formats_of S.forms chosen) state s (S.view open.old.store) (seen w.disk))
        → Commits (formats_of S.forms chosen) state s recent (told_change mode given.now (S.view open.old.store).driver (S.view open.old.store).summary.words infos.now places.now) (S.view open.new.store)
        result (F.history files.old) (F.history files.new) }
    ensures files { RanOnFiles (F.history files.old) (F.history files.new) }
    ensures name { open.new.name ≡ open.old.name }
    ensures recent { open.new.recent ≡ open.old.recent }
    ensures read_only { open.new.read_only ≡ open.old.read_only }
    ensures cause { UnitCause (F.faults files.old) (F.faults files.new) result }
{
    match change_of::<F, S>(alloc, &open.store, mode, given, infos, places) {
        Ok(change) => commit(&mut open.store, files, &change),
        Err(_) => Err(Stop::Memory),
    }
}

// The change of an open mailbox that sets flags and keywords of the messages at places.
fn change_of<F: Files, S: AnyMailbox<F>>(
    alloc: Global,
    store: &S,
    mode: Mode,
    given: &FlagList,
    infos: &[Info],
    places: &[usize],
) -> Result<Change, AllocError>
    ensures is { IfOk result (λ change. change ≡ told_change mode given.now (S.view store.now).driver (S.view store.now).summary.words infos.now places.now) }
    ensures few { length (S.view store.now).summary.words ≤ (keeps_of (S.view store.now).driver).words }
{
    let room = keeps_of(Store::<F>::driver(store)).words as usize;
    let adds = adds_names(mode) && !places.is_empty();
    let names = next_names(
        alloc,
        adds,
        room,
        Store::<F>::words(store),
        given.words.as_slice(),
    )?;
    let changes = changes_at(alloc, mode, given, names.as_slice(), places, infos)?;
    Ok(Change::SetFlags(FlagChanges::of(changes), Keywords::of(names)))
}

// Puts the names where the list grew past so many, and the flags unless the command is silent.
fn put_changed<H: Host, S: AnyMailbox<H>>(
    alloc: Global,
    open: &Open<S>,
    names: usize,
    uid: bool,
    silent: bool,
    places: &[usize],
    host: &mut H,
    out: &mut ReplyBuffer,
) -> Result<(), Stop>
    ensures puts { (texts : ℕ → List ℕ) → PutsLines
        ((if nat_lt names (length (S.view open.now.store).summary.words) then reply_line (Reply.Flags (S.view open.now.store).summary.words) ∷ [] else [])
        ++ (if silent then [] else told_lines texts (flag_items uid) (S.view open.now.store).summary.words open.now.recent (S.view open.now.store).summary.infos places.now))
        out.old out.new result (H.history host.old) (H.history host.new) }
    ensures cause { UnitCause (H.faults host.old) (H.faults host.new) result }
{
    put_names(alloc, names, Store::<H>::words(&open.store), host, out)?;
    put_unless_silent(alloc, open, uid, silent, places, host, out)
}

fn put_unless_silent<H: Host, S: AnyMailbox<H>>(
    alloc: Global,
    open: &Open<S>,
    uid: bool,
    silent: bool,
    places: &[usize],
    host: &mut H,
    out: &mut ReplyBuffer,
) -> Result<(), Stop>
    ensures puts { (texts : ℕ → List ℕ) → PutsLines
        (if silent then [] else told_lines texts (flag_items uid) (S.view open.now.store).summary.words open.now.recent (S.view open.now.store).summary.infos places.now)
        out.old out.new result (H.history host.old) (H.history host.new) }
    ensures cause { UnitCause (H.faults host.old) (H.faults host.new) result }
{
    if silent {
        return Ok(());
    }
    put_flags(alloc, open, uid, places, host, out)
}

fn put_names<H: Host>(
    alloc: Global,
    before: usize,
    names: &[Keyword],
    host: &mut H,
    out: &mut ReplyBuffer,
) -> Result<(), Stop>
    ensures puts { PutsLines (if nat_lt before (length names.now) then reply_line (Reply.Flags names.now) ∷ [] else []) out.old out.new result (H.history host.old) (H.history host.new) }
    ensures cause { UnitCause (H.faults host.old) (H.faults host.new) result }
{
    if names.len() <= before {
        return Ok(());
    }
    match copy_words(alloc, names) {
        Ok(names) => out.put(host, &Reply::Flags(names)),
        Err(_) => Err(Stop::Memory),
    }
}

fn flag_items(alloc: Global, uid: bool) -> Result<Vec<Item>, AllocError>
    ensures are { IfOk result (λ items. items.items ≡ flag_items uid) }
    ensures built { IfOk result (λ items. list_all is_built items.items ≡ true) }
{
    let mut items = Vec::new(alloc);
    if uid {
        items.push(Item::Uid)?;
    }
    items.push(Item::Flags)?;
    Ok(items)
}

// Puts the flags of the messages at places.
fn put_flags<H: Host, S: AnyMailbox<H>>(
    alloc: Global,
    open: &Open<S>,
    uid: bool,
    places: &[usize],
    host: &mut H,
    out: &mut ReplyBuffer,
) -> Result<(), Stop>
    ensures puts { (texts : ℕ → List ℕ) → PutsLines (told_lines texts (flag_items uid) (S.view open.now.store).summary.words open.now.recent (S.view open.now.store).summary.infos places.now)
        out.old out.new result (H.history host.old) (H.history host.new) }
    ensures cause { UnitCause (H.faults host.old) (H.faults host.new) result }
{
    let Ok(infos) = infos_of::<H, S>(alloc, &open.store) else {
        return Err(Stop::Memory);
    };
    let Ok(items) = flag_items(alloc, uid) else {
        return Err(Stop::Memory);
    };
    let looking = Looking {
        alloc,
        infos: infos.as_slice(),
        words: Store::<H>::words(&open.store),
        recent: open.recent.as_slice(),
        items: items.as_slice(),
    };
    put_lines(&looking, places, host, out)
}
