// STARTTLS, LOGIN and AUTHENTICATE (RFC 3501, section 6.2).
ghost use Rattle.std.specs.Prelude.{[]};
ghost use Rattle.any_store.specs.Choice.{formats_of, chosen};
ghost use Rattle.file_model.specs.Histories.{Now};
ghost use Rattle.session_loop.specs.Outcome.{UnitCause};
ghost use Rattle.imap_session.specs.Doing.{Does};
ghost use Rattle.imap_session.specs.Plain.{password};
ghost use Rattle.imap_session.specs.Protocol.{stop_in};
ghost use Rattle.imap_session.specs.Standing.{StandsFor};
ghost use Rattle.imap_session.specs.State.{State};

use crate::refusal::Refusal;
use crate::session::Session;
use any_store::AnyMailbox;
use file_model::Files;
use imap_arguments::Tag;
use imap_reply::Reply;
use mail_fields::Bytes;

/// Whoever can start the program is known already.
#[tactic(auto, using(crate::proofs::Exits::refuses_at, crate::proofs::Exits::says_only))]
pub fn answer<F: Files, S: AnyMailbox<F>>(
    session: &mut Session<S>,
    files: &mut F,
    tag: Tag,
    word: &Bytes,
) -> Result<Reply, Refusal>
    requires { Now (F.history files.old) (λ w. (state : State) × StandsFor (formats_of S.forms chosen) S.view session.old w.disk state) }
    ensures does { Does (formats_of S.forms chosen) (StandsFor (formats_of S.forms chosen) S.view session.old) (StandsFor (formats_of S.forms chosen) S.view session.new) (password tag word.now)
        result [] (F.history files.old) (F.history files.new) }
    ensures cause { UnitCause (F.faults files.old) (F.faults files.new) (stop_in result) }
{
    let _ = files;
    let word = Bytes::of(session.alloc, word.as_slice())?;
    Err(Refusal::Line(Reply::Password(tag, word)))
}
