// SUBSCRIBE (RFC 3501, section 6.3.6).
ghost use Rattle.std.specs.Prelude.{[]};
ghost use Rattle.any_store.specs.Choice.{formats_of, chosen};
ghost use Rattle.file_model.specs.Histories.{Now};
ghost use Rattle.session_loop.specs.Outcome.{UnitCause};
ghost use Rattle.imap_session.specs.Subscribe.{subscribe};
ghost use Rattle.imap_session.specs.Doing.{Does};
ghost use Rattle.imap_session.specs.Protocol.{stop_in};
ghost use Rattle.imap_session.specs.Standing.{StandsFor};
ghost use Rattle.imap_session.specs.State.{State};

use crate::refusal::{Refusal, answered_by};
use crate::session::Session;
use any_store::AnyMailbox;
use file_model::Files;
use imap_arguments::Tag;
use imap_reply::{NoText, Reply, Words};
use mail_tree::{Name, subscribe};

/// No mailbox has to stand at the name.
#[tactic(auto, using(crate::proofs::Exits::refuses_at))]
pub fn answer<F: Files, S: AnyMailbox<F> + Drop>(
    session: &mut Session<S>,
    files: &mut F,
    tag: Tag,
    name: &[u8],
) -> Result<Reply, Refusal>
    requires stands { Now (F.history files.old) (λ w. (state : State) × StandsFor (formats_of S.forms chosen) S.view session.old w.disk state) }
    ensures does { Does (formats_of S.forms chosen) (StandsFor (formats_of S.forms chosen) S.view session.old) (StandsFor (formats_of S.forms chosen) S.view session.new) (subscribe tag name.now)
        result [] (F.history files.old) (F.history files.new) }
    ensures cause { UnitCause (F.faults files.old) (F.faults files.new) (stop_in result) }
{
    let Some(name) = Name::read(session.alloc, name)? else {
        return Err(Refusal::Line(Reply::Refused(tag, NoText::BadName)));
    };
    let done = subscribe::<F, S>(session.alloc, files, session.root.as_str(), &name);
    answered_by(done, tag, Words::Subscribe)
}
