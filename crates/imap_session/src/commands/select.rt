// SELECT and EXAMINE (RFC 3501, sections 6.3.1 and 6.3.2).
ghost use Rattle.std.specs.Prelude.{◌≡◌, ◌++◌, ◌∷◌, [], IfOk, OnOk};
ghost use Rattle.any_store.specs.Choice.{formats_of, chosen};
ghost use Rattle.file_model.specs.Disk.{seen};
ghost use Rattle.file_model.specs.Histories.{Now};
ghost use Rattle.mail_types.specs.Drivers.{keeps_of};
ghost use Rattle.session_loop.specs.Outcome.{UnitCause};
ghost use Rattle.store_trait.specs.Changes.{CanChangeStore};
ghost use Rattle.store_trait.specs.Promises.{CanAsk, RanOnFiles};
ghost use Rattle.imap_session.specs.Committed.{IsHere};
ghost use Rattle.imap_session.specs.Doing.{Does};
ghost use Rattle.imap_session.specs.Protocol.{stop_in};
ghost use Rattle.imap_session.specs.Select.{select, last_line, first_unseen};
ghost use Rattle.imap_session.specs.Selecting.{lasting_flags, told_lines, old_change, TellsAll};
ghost use Rattle.imap_session.specs.Standing.{StandsFor};
ghost use Rattle.imap_session.specs.State.{Selected, State};

use crate::commit::commit;
use crate::counts::{count_of, first_unseen, next_uid, recent_count};
use crate::infos::infos_of;
use crate::lines::put_replies;
use crate::opening::open_named;
use crate::refusal::{Refusal, ends_with, refused_by};
use crate::session::{Open, Session};
use crate::told::{copy_words, told_changes};
use any_store::AnyMailbox;
use file_model::{Files, Host};
use imap_arguments::Tag;
use imap_reply::{NoText, Reply, ReplyBuffer};
use mail_fields::Keywords;
use mail_tree::Name;
use mail_types::{FlagChanges, Flags, keeps_of};
use session_loop::Stop;
use std::alloc::{AllocError, Global};
use store_trait::{Change, Store};

/// Leaves the mailbox that was selected, without expunging, and opens another.
pub fn answer<H: Host, S: AnyMailbox<H> + Drop>(
    session: &mut Session<S>,
    host: &mut H,
    tag: Tag,
    read_only: bool,
    name: &[u8],
    out: &mut ReplyBuffer,
) -> Result<Reply, Refusal>
    requires empty { out.old ≡ [] }
    requires stands { Now (H.history host.old) (λ w. (state : State) × StandsFor (formats_of S.forms chosen) S.view session.old w.disk state) }
    ensures does { Does (formats_of S.forms chosen) (StandsFor (formats_of S.forms chosen) S.view session.old) (StandsFor (formats_of S.forms chosen) S.view session.new) (select (formats_of S.forms chosen) read_only tag name.now)
        result out.new (H.history host.old) (H.history host.new) }
    ensures cause { UnitCause (H.faults host.old) (H.faults host.new) (stop_in result) }
{
    session.selected = None;
    let Some(name) = Name::read(session.alloc, name)? else {
        return Err(Refusal::Line(Reply::Refused(tag, NoText::BadName)));
    };
    let mut open = match open_named(session, host, name, read_only) {
        Ok(open) => open,
        Err(fault) => return Err(refused_by(tag, fault)),
    };
    let lines = lines_of::<H, S>(session.alloc, &open)?;
    make_old(session.alloc, &mut open, host)?;
    session.selected = Some(open);
    ends_with(
        put_replies(lines.as_slice(), host, out),
        last_line(tag, read_only),
    )
}

fn last_line(tag: Tag, read_only: bool) -> Reply
    ensures { result ≡ last_line tag read_only }
{
    if read_only {
        Reply::Examined(tag)
    } else {
        Reply::Selected(tag)
    }
}

// From now on each message is old; EXAMINE changes nothing.
#[tactic(auto, using(crate::proofs::Selecting::tells_none, crate::proofs::Selecting::tells_stop))]
fn make_old<F: Files, S: AnyMailbox<F>>(
    alloc: Global,
    open: &mut Open<S>,
    files: &mut F,
) -> Result<(), Stop>
    requires standing { CanAsk (S.view open.old.store) (F.history files.old) }
    ensures tells { (state : State) (s : Selected) → s.read_only ≡ open.old.read_only → Now (F.history files.old) (λ w. IsHere (formats_of S.forms chosen) state s (S.view open.old.store) (seen w.disk))
        → TellsAll (formats_of S.forms chosen) state s (S.view open.new.store) result (F.history files.old) (F.history files.new) }
    ensures files { RanOnFiles (F.history files.old) (F.history files.new) }
    ensures name { open.new.name ≡ open.old.name }
    ensures read_only { open.new.read_only ≡ open.old.read_only }
    ensures recent { open.new.recent ≡ open.old.recent }
    ensures cause { UnitCause (F.faults files.old) (F.faults files.new) result }
{
    if open.read_only {
        return Ok(());
    }
    let Ok(change) = old_from_now::<F, S>(alloc, &open.store) else {
        return Err(Stop::Memory);
    };
    commit(&mut open.store, files, &change)
}

// The change by which each message is old.
fn old_from_now<F: Files, S: AnyMailbox<F>>(alloc: Global, store: &S) -> Result<Change, AllocError>
    ensures value { IfOk result (λ change. change ≡ old_change (S.view store.now).summary) }
    ensures can { IfOk result (λ change. CanChangeStore (S.view store.now) change) }
{
    let infos = infos_of::<F, S>(alloc, store)?;
    let changes = told_changes(alloc, infos.as_slice())?;
    let words = copy_words(alloc, Store::<F>::words(store))?;
    Ok(Change::SetFlags(FlagChanges::of(changes), words))
}

// What is said of the mailbox.
fn lines_of<F: Files, S: AnyMailbox<F>>(
    alloc: Global,
    open: &Open<S>,
) -> Result<Vec<Reply>, AllocError>
    ensures { IfOk result (λ lines. lines.items ≡ told_lines (S.view open.now.store).driver open.now.read_only open.now.recent (S.view open.now.store).summary) }
{
    let store = &open.store;
    let mut lines = Vec::new(alloc);
    add_flags::<F, S>(alloc, store, &mut lines)?;
    add(&mut lines, Reply::Exists(count_of::<F, S>(store)))?;
    add(&mut lines, Reply::Recent(recent_count(&open.recent)?))?;
    add_unseen::<F, S>(store, &mut lines)?;
    add_lasting_flags::<F, S>(alloc, open, &mut lines)?;
    add(&mut lines, Reply::UidNext(next_uid::<F, S>(store)))?;
    add(&mut lines, Reply::UidValidity(Store::<F>::validity(store)))?;
    Ok(lines)
}

fn add(lines: &mut Vec<Reply>, line: Reply) -> Result<(), AllocError>
    ensures { OnOk result (lines.new.items ≡ lines.old.items ++ line ∷ []) }
{
    lines.push(line)?;
    Ok(())
}

fn add_flags<F: Files, S: AnyMailbox<F>>(
    alloc: Global,
    store: &S,
    lines: &mut Vec<Reply>,
) -> Result<(), AllocError>
    ensures { OnOk result (lines.new.items ≡ lines.old.items ++ Reply.Flags (S.view store.now).summary.words ∷ []) }
{
    let words = copy_words(alloc, Store::<F>::words(store))?;
    lines.push(Reply::Flags(words))?;
    Ok(())
}

fn add_unseen<F: Files, S: AnyMailbox<F>>(
    store: &S,
    lines: &mut Vec<Reply>,
) -> Result<(), AllocError>
    ensures { OnOk result (lines.new.items ≡ lines.old.items ++ first_unseen 1 (S.view store.now).summary.infos) }
{
    if let Some(number) = first_unseen::<F, S>(store) {
        lines.push(Reply::Unseen(number))?;
    }
    Ok(())
}

// The flags that last in the mailbox.
fn add_lasting_flags<F: Files, S: AnyMailbox<F>>(
    alloc: Global,
    open: &Open<S>,
    lines: &mut Vec<Reply>,
) -> Result<(), AllocError>
    ensures { OnOk result (lines.new.items ≡ lines.old.items ++ lasting_flags (keeps_of (S.view open.now.store).driver) open.now.read_only (S.view open.now.store).summary.words ∷ []) }
{
    if open.read_only {
        let none = Keywords::of(Vec::new(alloc));
        lines.push(Reply::PermanentFlags(Flags::none(), none, false))?;
        return Ok(());
    }
    let keeps = keeps_of(Store::<F>::driver(&open.store));
    let words = copy_words(alloc, Store::<F>::words(&open.store))?;
    let more = words.as_slice().len() < keeps.words as usize;
    lines.push(Reply::PermanentFlags(keeps.flags, words, more))?;
    Ok(())
}
