// CLOSE (RFC 3501, section 6.4.2).
ghost use Rattle.std.specs.Prelude.{[]};
ghost use Rattle.any_store.specs.Choice.{formats_of, chosen};
ghost use Rattle.file_model.specs.Histories.{Now};
ghost use Rattle.session_loop.specs.Outcome.{UnitCause};
ghost use Rattle.imap_session.specs.Doing.{Does};
ghost use Rattle.imap_session.specs.Expunge.{close};
ghost use Rattle.imap_session.specs.Protocol.{stop_in};
ghost use Rattle.imap_session.specs.Standing.{StandsFor};
ghost use Rattle.imap_session.specs.State.{State};

use crate::commands::expunge::drop_deleted;
use crate::infos::infos_of;
use crate::refusal::Refusal;
use crate::session::Session;
use any_store::AnyMailbox;
use file_model::Files;
use imap_arguments::Tag;
use imap_reply::{Reply, Words};

/// Leaves the selected mailbox, without its deleted messages where they may be removed.
#[tactic(auto, using(crate::proofs::Exits::refuses_at, crate::proofs::Selections::unselected_refused))]
pub fn answer<F: Files, S: AnyMailbox<F> + Drop>(
    session: &mut Session<S>,
    files: &mut F,
    tag: Tag,
) -> Result<Reply, Refusal>
    requires { Now (F.history files.old) (λ w. (state : State) × StandsFor (formats_of S.forms chosen) S.view session.old w.disk state) }
    ensures does { Does (formats_of S.forms chosen) (StandsFor (formats_of S.forms chosen) S.view session.old) (StandsFor (formats_of S.forms chosen) S.view session.new)
        (close (formats_of S.forms chosen) tag) result [] (F.history files.old) (F.history files.new) }
    ensures cause { UnitCause (F.faults files.old) (F.faults files.new) (stop_in result) }
{
    let alloc = session.alloc;
    let Some(mut open) = session.selected.take() else {
        return Err(Refusal::Line(Reply::NotSelected(tag)));
    };
    if open.read_only {
        return Ok(Reply::Done(tag, Words::Close));
    }
    let infos = infos_of::<F, S>(alloc, &open.store)?;
    drop_deleted(alloc, &mut open, files, infos.as_slice())?;
    Ok(Reply::Done(tag, Words::Close))
}
