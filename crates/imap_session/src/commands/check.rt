// CHECK (RFC 3501, section 6.4.1).
ghost use Rattle.any_store.specs.Choice.{formats_of, chosen};
ghost use Rattle.file_model.specs.Histories.{Now};
ghost use Rattle.session_loop.specs.Outcome.{UnitCause};
ghost use Rattle.imap_session.specs.Doing.{Does};
ghost use Rattle.imap_session.specs.Plain.{check};
ghost use Rattle.imap_session.specs.Protocol.{stop_in};
ghost use Rattle.imap_session.specs.Standing.{StandsFor};
ghost use Rattle.imap_session.specs.State.{State};
ghost use Rattle.std.specs.Prelude.{[]};

use crate::refusal::Refusal;
use crate::session::Session;
use any_store::AnyMailbox;
use file_model::Files;
use imap_arguments::Tag;
use imap_reply::{Reply, Words};

/// Each change is durable already.
#[tactic(auto, using(crate::proofs::Exits::refuses_at, crate::proofs::Selections::untold_refused, crate::proofs::Exits::says_at, crate::proofs::Exits::selected_says))]
pub fn answer<F: Files, S: AnyMailbox<F>>(
    session: &mut Session<S>,
    files: &mut F,
    tag: Tag,
) -> Result<Reply, Refusal>
    requires { Now (F.history files.old) (λ w. (state : State) × StandsFor (formats_of S.forms chosen) S.view session.old w.disk state) }
    ensures does { Does (formats_of S.forms chosen) (StandsFor (formats_of S.forms chosen) S.view session.old) (StandsFor (formats_of S.forms chosen) S.view session.new) (check tag)
        result [] (F.history files.old) (F.history files.new) }
    ensures cause { UnitCause (F.faults files.old) (F.faults files.new) (stop_in result) }
{
    let _ = files;
    if session.selected.is_none() {
        return Err(Refusal::Line(Reply::NotSelected(tag)));
    }
    Ok(Reply::Done(tag, Words::Check))
}
