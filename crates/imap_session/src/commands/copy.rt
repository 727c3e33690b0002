// COPY (RFC 3501, section 6.4.7).
ghost use Rattle.std.specs.Prelude.{◌≡◌, ◌∷◌, ◌++◌, ◌<◌, [], length, true, IfOk, OnOk};
ghost use Rattle.std.specs.List.{AllByRecursion};
ghost use Rattle.any_store.specs.Choice.{formats_of, chosen};
ghost use Rattle.file_model.specs.Disk.{seen};
ghost use Rattle.file_model.specs.Histories.{Now};
ghost use Rattle.mail_types.specs.Mailboxes.{has_no_nul};
ghost use Rattle.session_loop.specs.Outcome.{UnitCause};
ghost use Rattle.store_trait.specs.Promises.{CanAsk};
ghost use Rattle.imap_session.specs.Adding.{are_clean, brought_from, copied, copy};
ghost use Rattle.imap_session.specs.Doing.{Does};
ghost use Rattle.imap_session.specs.Protocol.{stop_in};
ghost use Rattle.imap_session.specs.Reading.{ReadsOn};
ghost use Rattle.imap_session.specs.Standing.{StandsFor};
ghost use Rattle.imap_session.specs.State.{State};

use crate::adding::{Brought, add};
use crate::infos::infos_of;
use crate::keywords::{names_among, names_of};
use crate::named::{named_places, names_missing};
use crate::reading::read_whole;
use crate::refusal::Refusal;
use crate::session::Session;
use any_store::AnyMailbox;
use file_model::{Files, Host};
use imap_arguments::{Set, Tag};
use imap_reply::{NoText, Reply, ReplyBuffer, Words};
use mail_fields::Bytes;
use mail_tree::Name;
use session_loop::Stop;
use std::alloc::{AllocError, Global};
use store_trait::Store;

/// Copies messages to a mailbox, with their flags, their dates and their keywords. Behind UID the set has UIDs.
#[tactic(auto, using(crate::proofs::Exits::refuses_at, crate::proofs::Selections::unselected_refused))]
pub fn answer<H: Host, S: AnyMailbox<H> + Drop>(
    session: &mut Session<S>,
    host: &mut H,
    tag: Tag,
    uid: bool,
    set: &Set,
    name: &[u8],
    out: &mut ReplyBuffer,
) -> Result<Reply, Refusal>
    requires empty { out.old ≡ [] }
    requires stands { Now (H.history host.old) (λ w. (state : State) × StandsFor (formats_of S.forms chosen) S.view session.old w.disk state) }
    ensures does { Does (formats_of S.forms chosen) (StandsFor (formats_of S.forms chosen) S.view session.old) (StandsFor (formats_of S.forms chosen) S.view session.new)
        (copy (formats_of S.forms chosen) tag uid set.now name.now) result out.new (H.history host.old) (H.history host.new) }
    ensures cause { UnitCause (H.faults host.old) (H.faults host.new) (stop_in result) }
{
    let alloc = session.alloc;
    let Some(mut mailbox) = session.selected.take() else {
        return Err(Refusal::Line(Reply::NotSelected(tag)));
    };
    let told = infos_of::<H, S>(alloc, &mailbox.store)?;
    let infos = told.as_slice();
    if names_missing(uid, infos.len(), set) {
        session.selected = Some(mailbox);
        return Err(Refusal::Line(Reply::NoMessage(tag)));
    }
    let Some(name) = Name::read(alloc, name)? else {
        session.selected = Some(mailbox);
        return Err(Refusal::Line(Reply::Refused(tag, NoText::BadName)));
    };
    let places = named_places(alloc, uid, set, infos)?;
    let brought = brought_from(alloc, &mut mailbox.store, host, places.as_slice())?;
    let names = names_among(alloc, brought.as_slice(), Store::<H>::words(&mailbox.store))?;
    session.selected = Some(mailbox);
    add(
        session,
        host,
        tag,
        copied(uid),
        name,
        brought,
        names.as_slice(),
        out,
    )
}

fn copied(uid: bool) -> Words
    ensures { result ≡ copied uid }
{
    if uid { Words::UidCopy } else { Words::Copy }
}

// The messages at places of an open mailbox.
fn brought_from<F: Files, S: Store<F>>(
    alloc: Global,
    store: &mut S,
    files: &mut F,
    places: &[usize],
) -> Result<Vec<Brought>, Stop>
    requires places { AllByRecursion (λ place. place < length (S.view store.old).summary.infos) places.now }
    requires standing { CanAsk (S.view store.old) (F.history files.old) }
    ensures gives { IfOk result (λ brought. Now (F.history files.old) (λ w. (S.view store.old).stands (seen w.disk) → brought.items ≡ brought_from ((S.view store.old).mailbox (seen w.disk)) places.now)) }
    ensures clean { IfOk result (λ brought. are_clean brought.items ≡ true) }
    ensures reads_on { OnOk result (ReadsOn (S.view store.old) (S.view store.new) (F.history files.old)) }
    ensures history { F.history files.new ≡ F.history files.old }
    ensures cause { UnitCause (F.faults files.old) (F.faults files.new) result }
{
    let mut brought = Vec::new(alloc);
    for place in places {
        let message = brought_at(alloc, store, files, *place)?;
        let Ok(()) = add_message(&mut brought, message) else {
            return Err(Stop::Memory);
        };
    }
    Ok(brought)
}

fn add_message(brought: &mut Vec<Brought>, message: Brought) -> Result<(), AllocError>
    ensures { OnOk result (brought.new.items ≡ brought.old.items ++ message ∷ []) }
{
    brought.push(message)?;
    Ok(())
}

// The message at a place.
fn brought_at<F: Files, S: Store<F>>(
    alloc: Global,
    store: &mut S,
    files: &mut F,
    place: usize,
) -> Result<Brought, Stop>
    requires place { place < length (S.view store.old).summary.infos }
    requires standing { CanAsk (S.view store.old) (F.history files.old) }
    ensures gives { IfOk result (λ b. Now (F.history files.old) (λ w. b ∷ [] ≡ brought_from ((S.view store.old).mailbox (seen w.disk)) (place ∷ []))) }
    ensures clean { IfOk result (λ b. has_no_nul b.text ≡ true) }
    ensures reads_on { OnOk result (ReadsOn (S.view store.old) (S.view store.new) (F.history files.old)) }
    ensures standing { CanAsk (S.view store.new) (F.history files.old) }
    ensures history { F.history files.new ≡ F.history files.old }
    ensures cause { UnitCause (F.faults files.old) (F.faults files.new) result }
{
    let info = Store::<F>::info(store, place);
    let Ok(names) = names_of(alloc, info.words, Store::<F>::words(store)) else {
        return Err(Stop::Memory);
    };
    let mut text = Vec::new(alloc);
    read_whole(store, files, place, &mut text)?;
    Ok(Brought {
        text: Bytes::from_vec(text),
        stamp: info.stamp,
        flags: info.flags,
        names,
    })
}
