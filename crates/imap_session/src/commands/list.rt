// LIST (RFC 3501, section 6.3.8).
ghost use Rattle.std.specs.Prelude.{◌≡◌, []};
ghost use Rattle.any_store.specs.Choice.{formats_of, chosen};
ghost use Rattle.file_model.specs.Histories.{Now};
ghost use Rattle.session_loop.specs.Outcome.{UnitCause};
ghost use Rattle.imap_session.specs.Doing.{Does};
ghost use Rattle.imap_session.specs.Listed.{list};
ghost use Rattle.imap_session.specs.Protocol.{stop_in};
ghost use Rattle.imap_session.specs.Standing.{StandsFor};
ghost use Rattle.imap_session.specs.State.{State};

use crate::lines::put_replies;
use crate::listing::name_lines;
use crate::refusal::{Refusal, ends_with, refused_by};
use crate::session::Session;
use any_store::AnyMailbox;
use file_model::Host;
use imap_arguments::Tag;
use imap_reply::{Reply, ReplyBuffer, Words};
use mail_tree::list;

/// An empty pattern asks for the delimiter alone.
#[tactic(auto, using(crate::proofs::ListedNames::broken_does, crate::proofs::ListedNames::ended_does))]
pub fn answer<H: Host, S: AnyMailbox<H> + Drop>(
    session: &mut Session<S>,
    host: &mut H,
    tag: Tag,
    reference: &[u8],
    pattern: &[u8],
    out: &mut ReplyBuffer,
) -> Result<Reply, Refusal>
    requires empty { out.old ≡ [] }
    requires stands { Now (H.history host.old) (λ w. (state : State) × StandsFor (formats_of S.forms chosen) S.view session.old w.disk state) }
    ensures does { Does (formats_of S.forms chosen) (StandsFor (formats_of S.forms chosen) S.view session.old) (StandsFor (formats_of S.forms chosen) S.view session.new) (list tag reference.now pattern.now)
        result out.new (H.history host.old) (H.history host.new) }
    ensures cause { UnitCause (H.faults host.old) (H.faults host.new) (stop_in result) }
{
    if pattern.is_empty() {
        return ends_with(
            out.put(host, &Reply::ListEmpty),
            Reply::Done(tag, Words::List),
        );
    }
    let root = session.root.as_str();
    let names = match list::<H, S>(session.alloc, host, root, reference, pattern) {
        Ok(names) => names,
        Err(fault) => return Err(refused_by(tag, fault)),
    };
    let lines = name_lines(session.alloc, names.as_slice(), false)?;
    ends_with(
        put_replies(lines.as_slice(), host, out),
        Reply::Done(tag, Words::List),
    )
}
