// EXPUNGE (RFC 3501, section 6.4.3).
ghost use Rattle.std.specs.Prelude.{◌≡◌, ◌≤◌, ◌+◌, [], ◌∷◌, List, ℕ, length, not, nat_eq, if◌then◌else◌, OnOk, IfOk};
ghost use Rattle.std.specs.List.{filter, list_any};
ghost use Rattle.any_store.specs.Choice.{formats_of, chosen};
ghost use Rattle.file_model.specs.Disk.{seen};
ghost use Rattle.file_model.specs.Histories.{Now};
ghost use Rattle.mail_types.specs.Limits.{record_limit};
ghost use Rattle.session_loop.specs.Outcome.{UnitCause};
ghost use Rattle.store_trait.specs.declared.change.Change.TheVariants.{Expunge};
ghost use Rattle.store_trait.specs.Promises.{CanAsk, RanOnFiles};
ghost use Rattle.imap_session.specs.Committed.{IsHere, Commits};
ghost use Rattle.imap_session.specs.Doing.{Does};
ghost use Rattle.imap_session.specs.Expunge.{expunge, deleted_from, is_deleted, expunge_lines};
ghost use Rattle.imap_session.specs.Lines.{reply_lines};
ghost use Rattle.imap_session.specs.Protocol.{stop_in};
ghost use Rattle.imap_session.specs.Putting.{PutsLines};
ghost use Rattle.imap_session.specs.Standing.{StandsFor};
ghost use Rattle.imap_session.specs.State.{Selected, State};
ghost use Rattle.imap_session.specs.Told.{deleted_uids};

use crate::commit::commit;
use crate::infos::infos_of;
use crate::refusal::{Refusal, ends_with};
use crate::session::{Open, Session, is_read_only};
use crate::uids::Uids;
use any_store::AnyMailbox;
use file_model::{Files, Host};
use imap_arguments::Tag;
use imap_reply::{Reply, ReplyBuffer, Words};
use mail_fields::{Numbers, Places};
use session_loop::Stop;
use std::alloc::{AllocError, Global};
use store_trait::{Change, Info};

/// Removes the deleted messages, and says the number of each.
#[tactic(auto, using(crate::proofs::Exits::refuses_at, crate::proofs::Selections::read_only_refused, crate::proofs::Selections::unselected_refused))]
pub fn answer<H: Host, S: AnyMailbox<H> + Drop>(
    session: &mut Session<S>,
    host: &mut H,
    tag: Tag,
    out: &mut ReplyBuffer,
) -> Result<Reply, Refusal>
    requires empty { out.old ≡ [] }
    requires stands { Now (H.history host.old) (λ w. (state : State) × StandsFor (formats_of S.forms chosen) S.view session.old w.disk state) }
    ensures does { Does (formats_of S.forms chosen) (StandsFor (formats_of S.forms chosen) S.view session.old) (StandsFor (formats_of S.forms chosen) S.view session.new)
        (expunge (formats_of S.forms chosen) tag) result out.new (H.history host.old) (H.history host.new) }
    ensures cause { UnitCause (H.faults host.old) (H.faults host.new) (stop_in result) }
{
    if is_read_only(session) {
        return Err(Refusal::Line(Reply::ReadOnly(tag)));
    }
    let alloc = session.alloc;
    let Some(mut open) = session.selected.take() else {
        return Err(Refusal::Line(Reply::NotSelected(tag)));
    };
    let told = infos_of::<H, S>(alloc, &open.store)?;
    let infos = told.as_slice();
    drop_deleted(alloc, &mut open, host, infos)?;
    session.selected = Some(open);
    ends_with(
        put_lines(infos, host, out),
        Reply::Done(tag, Words::Expunge),
    )
}

/// Removes the deleted messages of an open mailbox, of which it tells `infos`.
#[tactic(auto, using(crate::proofs::Expunging::nothing_committed))]
pub fn drop_deleted<F: Files, S: AnyMailbox<F>>(
    alloc: Global,
    open: &mut Open<S>,
    files: &mut F,
    infos: &[Info],
) -> Result<(), Stop>
    requires infos { infos.now ≡ (S.view open.old.store).summary.infos }
    requires standing { CanAsk (S.view open.old.store) (F.history files.old) }
    ensures commits { (state : State) (s : Selected) (recent : List ℕ) → Now (F.history files.old) (λ w. IsHere (formats_of S.forms chosen) state s (S.view open.old.store) (seen w.disk))
        → Commits (formats_of S.forms chosen) state s recent (Expunge (deleted_from 0 infos.now)) (S.view open.new.store) result (F.history files.old) (F.history files.new) }
    ensures files { RanOnFiles (F.history files.old) (F.history files.new) }
    ensures recent { OnOk result (open.new.recent ≡ filter (λ uid. not (is_deleted infos.now uid)) open.old.recent) }
    ensures name { open.new.name ≡ open.old.name }
    ensures read_only { open.new.read_only ≡ open.old.read_only }
    ensures cause { UnitCause (F.faults files.old) (F.faults files.new) result }
{
    let Ok(recent) = recent_left(alloc, infos, open.recent.as_slice()) else {
        return Err(Stop::Memory);
    };
    let Ok(places) = deleted_places(alloc, infos) else {
        return Err(Stop::Memory);
    };
    commit(&mut open.store, files, &Change::Expunge(Places::of(places)))?;
    open.recent = Numbers::of(recent);
    Ok(())
}

// The places of the deleted messages.
fn deleted_places(alloc: Global, infos: &[Info]) -> Result<Vec<usize>, AllocError>
    ensures { IfOk result (λ places. places.items ≡ deleted_from 0 infos.now) }
{
    let mut places = Vec::new(alloc);
    for (place, info) in infos.iter().enumerate() {
        if info.flags.deleted {
            places.push(place)?;
        }
    }
    Ok(places)
}

// The UIDs of the deleted messages.
fn deleted_uids(alloc: Global, infos: &[Info]) -> Result<Vec<u32>, AllocError>
    ensures { IfOk result (λ uids. uids.items ≡ deleted_uids infos.now) }
{
    let mut uids = Vec::new(alloc);
    for info in infos {
        if info.flags.deleted {
            uids.push(info.uid)?;
        }
    }
    Ok(uids)
}

// The recent messages that are left.
fn recent_left(alloc: Global, infos: &[Info], recent: &[u32]) -> Result<Vec<u32>, AllocError>
    ensures { IfOk result (λ left. left.items ≡ filter (λ uid. not (is_deleted infos.now uid)) recent.now) }
{
    let deleted = deleted_uids(alloc, infos)?;
    let deleted = Uids::of(alloc, deleted.as_slice())?;
    without(alloc, recent, &deleted)
}

fn without(alloc: Global, uids: &[u32], dropped: &Uids) -> Result<Vec<u32>, AllocError>
    ensures { IfOk result (λ left. left.items ≡ filter (λ uid. not (list_any (nat_eq uid) dropped.now)) uids.now) }
{
    let mut left = Vec::new(alloc);
    for uid in uids {
        if !dropped.has(*uid) {
            left.push(*uid)?;
        }
    }
    Ok(left)
}

// One line for each deleted message, by the number that the lines before it have left it.
fn put_lines<H: Host>(infos: &[Info], host: &mut H, out: &mut ReplyBuffer) -> Result<(), Stop>
    requires { length infos.now ≤ record_limit }
    ensures puts { PutsLines (reply_lines (expunge_lines 1 infos.now)) out.old out.new result (H.history host.old) (H.history host.new) }
    ensures cause { UnitCause (H.faults host.old) (H.faults host.new) result }
{
    let mut number: u32 = 1;
    for info in infos {
        put_line(info.flags.deleted, number, host, out)?;
        number = after_line(info.flags.deleted, number);
    }
    Ok(())
}

fn put_line<H: Host>(
    deleted: bool,
    number: u32,
    host: &mut H,
    out: &mut ReplyBuffer,
) -> Result<(), Stop>
    ensures puts { PutsLines (reply_lines (if deleted then Reply.Expunge number ∷ [] else [])) out.old out.new result (H.history host.old) (H.history host.new) }
    ensures cause { UnitCause (H.faults host.old) (H.faults host.new) result }
{
    if !deleted {
        return Ok(());
    }
    out.put(host, &Reply::Expunge(number))
}

// The number of the next message, behind one that goes or stays.
fn after_line(deleted: bool, number: u32) -> u32
    requires { number ≤ record_limit }
    ensures { result ≡ (if deleted then number else number + 1) }
{
    if deleted { number } else { number + 1 }
}
