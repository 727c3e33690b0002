// STATUS (RFC 3501, section 6.3.10).
ghost use Rattle.std.specs.Prelude.{◌≡◌, [], map, IfOk, IfErr};
ghost use Rattle.any_store.specs.Choice.{formats_of, chosen};
ghost use Rattle.file_model.specs.Histories.{Now};
ghost use Rattle.imap_arguments.specs.declared.item.StatusItem.{StatusItem as Asked};
ghost use Rattle.mail_tree.specs.Promises.{TreeCause};
ghost use Rattle.session_loop.specs.Outcome.{UnitCause};
ghost use Rattle.imap_session.specs.Asking.{told_count, told_status, AsksInVain, SaysAsked};
ghost use Rattle.imap_session.specs.Doing.{Does};
ghost use Rattle.imap_session.specs.Protocol.{stop_in};
ghost use Rattle.imap_session.specs.Standing.{StandsFor};
ghost use Rattle.imap_session.specs.State.{State};
ghost use Rattle.imap_session.specs.Status.{status};

use crate::asking::selected_named;
use crate::counts::{count_of, count_unseen, next_uid, recent_count};
use crate::opening::open_named;
use crate::refusal::{Refusal, ends_with, refused_by};
use crate::session::{Open, Session};
use any_store::AnyMailbox;
use file_model::{Files, Host};
use imap_arguments::{StatusItem, Tag};
use imap_reply::{Counts, NoText, Reply, ReplyBuffer, Words};
use mail_fields::Bytes;
use mail_tree::{Name, TreeFault};
use std::alloc::{AllocError, Global};
use store_trait::Store;

/// Says what is asked of a mailbox, which isn't selected by it.
pub fn answer<H: Host, S: AnyMailbox<H> + Drop>(
    session: &mut Session<S>,
    host: &mut H,
    tag: Tag,
    name: &[u8],
    items: &[StatusItem],
    out: &mut ReplyBuffer,
) -> Result<Reply, Refusal>
    requires empty { out.old ≡ [] }
    requires stands { Now (H.history host.old) (λ w. (state : State) × StandsFor (formats_of S.forms chosen) S.view session.old w.disk state) }
    ensures does { Does (formats_of S.forms chosen) (StandsFor (formats_of S.forms chosen) S.view session.old) (StandsFor (formats_of S.forms chosen) S.view session.new) (status tag name.now items.now)
        result out.new (H.history host.old) (H.history host.new) }
    ensures cause { UnitCause (H.faults host.old) (H.faults host.new) (stop_in result) }
{
    let Some(name) = Name::read(session.alloc, name)? else {
        return Err(Refusal::Line(Reply::Refused(tag, NoText::BadName)));
    };
    let line = match asked_line(session, host, name, items) {
        Ok(line) => line,
        Err(fault) => return Err(refused_by(tag, fault)),
    };
    ends_with(out.put(host, &line), Reply::Done(tag, Words::Status))
}

// The line of the selected mailbox where the name is its, and of another as it opens.
fn asked_line<F: Files, S: AnyMailbox<F> + Drop>(
    session: &Session<S>,
    files: &mut F,
    name: Name,
    items: &[StatusItem],
) -> Result<Reply, TreeFault>
    ensures says { IfOk result (λ line. Now (F.history files.old) (λ w. (state : State) → StandsFor (formats_of S.forms chosen) S.view session.now w.disk state → SaysAsked state name items.now line)) }
    ensures refused { IfErr result (λ fault. Now (F.history files.old) (λ w. (state : State) → StandsFor (formats_of S.forms chosen) S.view session.now w.disk state → AsksInVain state name fault)) }
    ensures history { F.history files.new ≡ F.history files.old }
    ensures cause { TreeCause (F.faults files.old) (F.faults files.new) result }
{
    match selected_named(session, &name) {
        Some(open) => Ok(line_of::<F, S>(session.alloc, open, items)?),
        None => {
            let open = open_named(session, files, name, true)?;
            Ok(line_of::<F, S>(session.alloc, &open, items)?)
        }
    }
}

fn line_of<F: Files, S: AnyMailbox<F>>(
    alloc: Global,
    open: &Open<S>,
    items: &[StatusItem],
) -> Result<Reply, AllocError>
    ensures { IfOk result (λ line. line ≡ told_status open.now.name open.now.recent (S.view open.now.store).summary items.now) }
{
    let counts = counts_of::<F, S>(alloc, open, items)?;
    let name = Bytes::of(alloc, open.name.as_slice())?;
    Ok(Reply::Status(name, Counts::of(counts)))
}

fn counts_of<F: Files, S: AnyMailbox<F>>(
    alloc: Global,
    open: &Open<S>,
    items: &[StatusItem],
) -> Result<Vec<(StatusItem, u32)>, AllocError>
    ensures { IfOk result (λ counts. counts.items ≡ map (λ (item : Asked). (item, told_count open.now.recent (S.view open.now.store).summary item)) items.now) }
{
    let mut counts = Vec::new(alloc);
    for item in items {
        counts.push((*item, count::<F, S>(open, *item)?))?;
    }
    Ok(counts)
}

fn count<F: Files, S: AnyMailbox<F>>(open: &Open<S>, item: StatusItem) -> Result<u32, AllocError>
    ensures { IfOk result (λ count. count ≡ told_count open.now.recent (S.view open.now.store).summary item) }
{
    let store = &open.store;
    match item {
        StatusItem::Messages => Ok(count_of::<F, S>(store)),
        StatusItem::Recent => recent_count(&open.recent),
        StatusItem::UidNext => Ok(next_uid::<F, S>(store)),
        StatusItem::UidValidity => Ok(Store::<F>::validity(store)),
        StatusItem::Unseen => Ok(count_unseen::<F, S>(store)),
    }
}
