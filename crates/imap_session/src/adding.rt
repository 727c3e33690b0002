// Messages that a command adds to a mailbox.
ghost use Rattle.std.specs.Prelude.{◌≡◌, ◌≤◌, ◌<◌, ◌+◌, ◌^◌, ◌++◌, ◌∷◌, [], false, true, map, length, not, IfOk, IfSome, IfNone, Some, None};
ghost use Rattle.any_store.specs.Choice.{formats_of, chosen};
ghost use Rattle.file_model.specs.Histories.{Now};
ghost use Rattle.mail_types.specs.Drivers.{keeps_of};
ghost use Rattle.mail_types.specs.Opening.{numbers_from};
ghost use Rattle.session_loop.specs.Outcome.{UnitCause};
ghost use Rattle.imap_session.specs.Adding.{new_message, addition, add_here, add_there, add, are_clean, target_refused};
ghost use Rattle.imap_session.specs.Asking.{is_named};
ghost use Rattle.imap_session.specs.Doing.{Does};
ghost use Rattle.imap_session.specs.Lines.{reply_lines};
ghost use Rattle.imap_session.specs.Protocol.{stop_in};
ghost use Rattle.imap_session.specs.Putting.{PutsLines};
ghost use Rattle.imap_session.specs.Standing.{StandsFor};
ghost use Rattle.imap_session.specs.State.{State, or_leaves};

use crate::commit::commit_undue;
use crate::counts::{count_of, recent_count};
use crate::keywords::{next_names, numbers_of};
use crate::lines::put_replies;
use crate::opening::open_named;
use crate::refusal::{Refusal, ends_with, refused_by};
use crate::session::{Open, Session};
use any_store::AnyMailbox;
use file_model::{Files, Host};
use imap_arguments::Tag;
use imap_reply::{Reply, ReplyBuffer, Words};
use mail_fields::{Bytes, Keyword, Keywords, Numbers, Stamp};
use mail_tree::{Name, TreeFault};
use mail_types::{Flags, NewMessage, NewMessages, keeps_of};
use session_loop::Stop;
use std::alloc::{AllocError, Global};
use store_trait::{Change, Store};

/// A message as a command brings it: its keywords by name.
#[derive(Drop)]
pub struct Brought {
    pub text: Bytes,
    pub stamp: Stamp,
    pub flags: Flags,
    pub names: Keywords,
}

// ---- The change

fn new_message(told: bool, names: &[Keyword], brought: Brought) -> NewMessage
    requires { length names.now ≤ 32 }
    ensures { result ≡ new_message told names.now brought }
{
    let words = numbers_of(brought.names.as_slice(), names);
    NewMessage {
        text: brought.text,
        stamp: brought.stamp,
        flags: Flags {
            old: told,
            ..brought.flags
        },
        words,
    }
}

fn new_messages(
    alloc: Global,
    told: bool,
    names: &[Keyword],
    brought: Vec<Brought>,
) -> Result<Vec<NewMessage>, AllocError>
    requires { length names.now ≤ 32 }
    ensures { IfOk result (λ new. new.items ≡ map (new_message told names.now) brought.items) }
{
    let mut new = Vec::new(alloc);
    for message in brought {
        new.push(new_message(told, names, message))?;
    }
    Ok(new)
}

// The change that adds messages to an open mailbox, whose keyword list gets their names.
fn addition<F: Files, S: AnyMailbox<F>>(
    alloc: Global,
    told: bool,
    store: &S,
    brought: Vec<Brought>,
    names: &[Keyword],
) -> Result<Change, AllocError>
    ensures is { IfOk result (λ change. change ≡ addition told (S.view store.now).driver (S.view store.now).summary.words brought.items names.now) }
    ensures few { length (S.view store.now).summary.words ≤ (keeps_of (S.view store.now).driver).words }
{
    let room = keeps_of(Store::<F>::driver(store)).words as usize;
    let adds = !brought.is_empty();
    let next = next_names(alloc, adds, room, Store::<F>::words(store), names)?;
    let new = new_messages(alloc, told, next.as_slice(), brought)?;
    Ok(Change::Append(NewMessages::of(new), Keywords::of(next)))
}

// ---- The selected mailbox

// The recent messages and so many new ones, which take the next UIDs.
fn with_new(alloc: Global, recent: &[u32], last: u32, count: usize) -> Result<Vec<u32>, AllocError>
    ensures { IfOk result (λ all. (0 < count → last + count < 2 ^ 32) → all.items ≡ recent.now ++ numbers_from (last + 1) count) }
{
    let mut all = Vec::from_slice(alloc, recent)?;
    let mut uid = last;
    for _ in 0..count {
        uid = uid.saturating_add(1);
        all.push(uid)?;
    }
    Ok(all)
}

// Takes the selected mailbox, where it has this name.
fn take_named<S: Drop>(selected: &mut Option<Open<S>>, name: &Name) -> Option<Open<S>>
    ensures named { IfSome result (λ o. (selected.old ≡ Some o) × (is_named selected.old name.now ≡ true)) }
    ensures taken { IfSome result (λ o. selected.new ≡ None) }
    ensures other { IfNone result (is_named selected.old name.now ≡ false) }
    ensures left { IfNone result (selected.new ≡ selected.old) }
{
    let Some(mailbox) = selected.take() else {
        return None;
    };
    if mailbox.name == *name {
        return Some(mailbox);
    }
    *selected = Some(mailbox);
    None
}

// Puts the numbers of all messages and of the recent ones.
fn put_counts<H: Host, S: AnyMailbox<H>>(
    mailbox: &Open<S>,
    host: &mut H,
    out: &mut ReplyBuffer,
) -> Result<(), Stop>
    ensures puts { PutsLines (reply_lines (Reply.Exists (length (S.view mailbox.now.store).summary.infos) ∷ Reply.Recent (length mailbox.now.recent) ∷ []))
        out.old out.new result (H.history host.old) (H.history host.new) }
    ensures cause { UnitCause (H.faults host.old) (H.faults host.new) result }
{
    let Ok(recent) = recent_count(&mailbox.recent) else {
        return Err(Stop::Memory);
    };
    let lines = [
        Reply::Exists(count_of::<H, S>(&mailbox.store)),
        Reply::Recent(recent),
    ];
    put_replies(&lines, host, out)
}

// Adds messages to the mailbox that was selected, where they are recent; it is selected again, unless the session ends.
fn add_here<H: Host, S: AnyMailbox<H> + Drop>(
    session: &mut Session<S>,
    host: &mut H,
    tag: Tag,
    word: Words,
    mut mailbox: Open<S>,
    brought: Vec<Brought>,
    names: &[Keyword],
    out: &mut ReplyBuffer,
) -> Result<Reply, Refusal>
    requires empty { out.old ≡ [] }
    requires clean { are_clean brought.items ≡ true }
    requires stands { Now (H.history host.old) (λ w. (state : State) × StandsFor (formats_of S.forms chosen) S.view (record session.old { selected = Some mailbox }) w.disk state) }
    ensures does { Does (formats_of S.forms chosen) (StandsFor (formats_of S.forms chosen) S.view (record session.old { selected = Some mailbox })) (StandsFor (formats_of S.forms chosen) S.view session.new)
        (λ state. or_leaves state (add_here (formats_of S.forms chosen) tag word state brought.items names.now)) result out.new (H.history host.old) (H.history host.new) }
    ensures cause { UnitCause (H.faults host.old) (H.faults host.new) (stop_in result) }
{
    let alloc = session.alloc;
    let last = Store::<H>::last(&mailbox.store);
    let recent = with_new(alloc, mailbox.recent.as_slice(), last, brought.len())?;
    let change = addition::<H, S>(alloc, !mailbox.read_only, &mailbox.store, brought, names)?;
    if let Err(refusal) = commit_undue(&mut mailbox.store, host, &change, tag) {
        session.selected = Some(mailbox);
        return Err(refusal);
    }
    mailbox.recent = Numbers::of(recent);
    let lines = put_counts(&mailbox, host, out);
    session.selected = Some(mailbox);
    ends_with(lines, Reply::Done(tag, word))
}

// ---- Another mailbox

// The mailbox can't be opened; one that is absent may be created first.
fn target_refused(tag: Tag, fault: TreeFault) -> Refusal
    ensures { result ≡ target_refused tag fault }
{
    match fault {
        TreeFault::Absent => Refusal::Line(Reply::TryCreate(tag)),
        fault => refused_by(tag, fault),
    }
}

fn add_there<F: Files, S: AnyMailbox<F> + Drop>(
    session: &Session<S>,
    files: &mut F,
    tag: Tag,
    word: Words,
    name: Name,
    brought: Vec<Brought>,
    names: &[Keyword],
) -> Result<Reply, Refusal>
    requires clean { are_clean brought.items ≡ true }
    requires other { is_named session.now.selected name ≡ false }
    requires stands { Now (F.history files.old) (λ w. (state : State) × StandsFor (formats_of S.forms chosen) S.view session.now w.disk state) }
    ensures does { Does (formats_of S.forms chosen) (StandsFor (formats_of S.forms chosen) S.view session.now) (StandsFor (formats_of S.forms chosen) S.view session.now)
        (λ state. or_leaves state (add_there (formats_of S.forms chosen) tag word state name brought.items names.now)) result [] (F.history files.old) (F.history files.new) }
    ensures cause { UnitCause (F.faults files.old) (F.faults files.new) (stop_in result) }
{
    let mut mailbox = match open_named(session, files, name, true) {
        Ok(mailbox) => mailbox,
        Err(fault) => return Err(target_refused(tag, fault)),
    };
    let change = addition::<F, S>(session.alloc, false, &mailbox.store, brought, names)?;
    commit_undue(&mut mailbox.store, files, &change, tag)?;
    Ok(Reply::Done(tag, word))
}

/// Adds messages to the mailbox of a name. Their keywords get numbers in the order of `names`, while there is room.
pub fn add<H: Host, S: AnyMailbox<H> + Drop>(
    session: &mut Session<S>,
    host: &mut H,
    tag: Tag,
    word: Words,
    name: Name,
    brought: Vec<Brought>,
    names: &[Keyword],
    out: &mut ReplyBuffer,
) -> Result<Reply, Refusal>
    requires empty { out.old ≡ [] }
    requires clean { are_clean brought.items ≡ true }
    requires stands { Now (H.history host.old) (λ w. (state : State) × StandsFor (formats_of S.forms chosen) S.view session.old w.disk state) }
    ensures does { Does (formats_of S.forms chosen) (StandsFor (formats_of S.forms chosen) S.view session.old) (StandsFor (formats_of S.forms chosen) S.view session.new)
        (λ state. or_leaves state (add (formats_of S.forms chosen) tag word state name brought.items names.now)) result out.new (H.history host.old) (H.history host.new) }
    ensures cause { UnitCause (H.faults host.old) (H.faults host.new) (stop_in result) }
{
    match take_named(&mut session.selected, &name) {
        Some(mailbox) => add_here(session, host, tag, word, mailbox, brought, names, out),
        None => add_there(session, host, tag, word, name, brought, names),
    }
}
