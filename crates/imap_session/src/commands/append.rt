// APPEND (RFC 3501, section 6.3.11).
ghost use Rattle.std.specs.Prelude.{◌≡◌, ◌∷◌, [], true, unwrap_or, IfOk};
ghost use Rattle.any_store.specs.Choice.{formats_of, chosen};
ghost use Rattle.file_model.specs.Histories.{Now};
ghost use Rattle.mail_types.specs.Mailboxes.{has_no_nul};
ghost use Rattle.mail_types.specs.Stamps.{moment_stamp};
ghost use Rattle.session_loop.specs.Outcome.{UnitCause};
ghost use Rattle.imap_session.specs.Adding.{append, appended};
ghost use Rattle.imap_session.specs.Doing.{Does};
ghost use Rattle.imap_session.specs.Protocol.{stop_in};
ghost use Rattle.imap_session.specs.Standing.{StandsFor};
ghost use Rattle.imap_session.specs.State.{State};

use crate::adding::{Brought, add};
use crate::refusal::Refusal;
use crate::session::Session;
use crate::told::copy_words;
use any_store::AnyMailbox;
use file_model::Host;
use imap_arguments::{FlagList, Tag};
use imap_reply::{NoText, Reply, ReplyBuffer, Words};
use mail_fields::{Bytes, Stamp, stamp_of, to_utc};
use mail_tree::Name;
use std::alloc::{AllocError, Global};

/// Appends a message to a mailbox.
#[tactic(auto, using(crate::proofs::Exits::refuses_at))]
pub fn answer<H: Host, S: AnyMailbox<H> + Drop>(
    session: &mut Session<S>,
    host: &mut H,
    tag: Tag,
    name: &[u8],
    flags: &FlagList,
    stamp: Option<Stamp>,
    text: &[u8],
    out: &mut ReplyBuffer,
) -> Result<Reply, Refusal>
    requires empty { out.old ≡ [] }
    requires clean { has_no_nul text.now ≡ true }
    requires stands { Now (H.history host.old) (λ w. (state : State) × StandsFor (formats_of S.forms chosen) S.view session.old w.disk state) }
    ensures does { Does (formats_of S.forms chosen) (StandsFor (formats_of S.forms chosen) S.view session.old) (StandsFor (formats_of S.forms chosen) S.view session.new)
        (append (formats_of S.forms chosen) tag name.now flags.now stamp text.now) result out.new (H.history host.old) (H.history host.new) }
    ensures cause { UnitCause (H.faults host.old) (H.faults host.new) (stop_in result) }
{
    let Some(name) = Name::read(session.alloc, name)? else {
        return Err(Refusal::Line(Reply::Refused(tag, NoText::BadName)));
    };
    let brought = appended(session.alloc, flags, stamp, text, session.moment)?;
    add(
        session,
        host,
        tag,
        Words::Append,
        name,
        brought,
        flags.words.as_slice(),
        out,
    )
}

// The one message; without a date it takes the session's moment.
fn appended(
    alloc: Global,
    flags: &FlagList,
    stamp: Option<Stamp>,
    text: &[u8],
    moment: u32,
) -> Result<Vec<Brought>, AllocError>
    ensures { IfOk result (λ brought. brought.items ≡ appended flags.now stamp text.now moment ∷ []) }
{
    let mut brought = Vec::new(alloc);
    brought.push(Brought {
        text: Bytes::of(alloc, text)?,
        stamp: dated(stamp, moment),
        flags: flags.flags,
        names: copy_words(alloc, flags.words.as_slice())?,
    })?;
    Ok(brought)
}

fn dated(stamp: Option<Stamp>, moment: u32) -> Stamp
    ensures { result ≡ unwrap_or stamp (moment_stamp moment) }
{
    match stamp {
        Some(stamp) => stamp,
        None => to_utc(stamp_of(moment)),
    }
}
