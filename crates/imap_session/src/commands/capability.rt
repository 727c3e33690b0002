// CAPABILITY (RFC 3501, section 6.1.1).
ghost use Rattle.std.specs.Prelude.{◌≡◌, []};
ghost use Rattle.any_store.specs.Choice.{formats_of, chosen};
ghost use Rattle.file_model.specs.Histories.{Now};
ghost use Rattle.session_loop.specs.Outcome.{UnitCause};
ghost use Rattle.imap_session.specs.Doing.{Does};
ghost use Rattle.imap_session.specs.Plain.{capability};
ghost use Rattle.imap_session.specs.Protocol.{stop_in};
ghost use Rattle.imap_session.specs.Standing.{StandsFor};
ghost use Rattle.imap_session.specs.State.{State};

use crate::refusal::{Refusal, ends_with};
use crate::session::Session;
use any_store::AnyMailbox;
use file_model::Host;
use imap_arguments::Tag;
use imap_reply::{Reply, ReplyBuffer, Words};

/// Says what the server can do.
pub fn answer<H: Host, S: AnyMailbox<H>>(
    session: &mut Session<S>,
    host: &mut H,
    tag: Tag,
    out: &mut ReplyBuffer,
) -> Result<Reply, Refusal>
    requires empty { out.old ≡ [] }
    requires stands { Now (H.history host.old) (λ w. (state : State) × StandsFor (formats_of S.forms chosen) S.view session.old w.disk state) }
    ensures does { Does (formats_of S.forms chosen) (StandsFor (formats_of S.forms chosen) S.view session.old) (StandsFor (formats_of S.forms chosen) S.view session.new) (capability tag)
        result out.new (H.history host.old) (H.history host.new) }
    ensures cause { UnitCause (H.faults host.old) (H.faults host.new) (stop_in result) }
{
    let _ = session;
    ends_with(
        out.put(host, &Reply::Capability),
        Reply::Done(tag, Words::Capability),
    )
}
