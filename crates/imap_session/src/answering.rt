// A session that answers commands.
ghost use Rattle.std.specs.Prelude.{◌≡◌, []};
ghost use Rattle.any_store.specs.Choice.{formats_of, chosen};
ghost use Rattle.file_model.specs.Histories.{Now};
ghost use Rattle.imap_grammar.specs.Sound.{IsSoundCommand};
ghost use Rattle.session_loop.specs.Outcome.{UnitCause};
ghost use Rattle.imap_session.specs.Doing.{Does};
ghost use Rattle.imap_session.specs.Protocol.{stop_in};
ghost use Rattle.imap_session.specs.Standing.{StandsFor};
ghost use Rattle.imap_session.specs.State.{State};
ghost use Rattle.imap_session.specs.Step.{commanded};

use crate::commands::{
    append, capability, check, close, copy, create, delete, expunge, fetch, list, logout, lsub,
    password, rename, search, select, status, store, subscribe, unsubscribe,
};
use crate::refusal::Refusal;
use crate::session::Session;
use any_store::AnyMailbox;
use file_model::Host;
use imap_arguments::Tag;
use imap_reply::{Reply, ReplyBuffer, Words};
use imap_syntax::Command;

/// Answers a command, in a session that has counted it: puts the untagged lines of its reply, and leaves its last.
#[tactic(auto, using(crate::proofs::Exits::refuses_at, crate::proofs::Exits::says_at, crate::proofs::Exits::says_only))]
pub fn command<H: Host, S: AnyMailbox<H> + Drop>(
    session: &mut Session<S>,
    host: &mut H,
    tag: Tag,
    command: &Command,
    out: &mut ReplyBuffer,
) -> Result<Reply, Refusal>
    requires empty { out.old ≡ [] }
    requires stands { Now (H.history host.old) (λ w. (state : State) × StandsFor (formats_of S.forms chosen) S.view session.old w.disk state) }
    requires sound { IsSoundCommand command.now }
    ensures does { Does (formats_of S.forms chosen) (StandsFor (formats_of S.forms chosen) S.view session.old) (StandsFor (formats_of S.forms chosen) S.view session.new)
        (commanded (formats_of S.forms chosen) tag command.now) result out.new (H.history host.old) (H.history host.new) }
    ensures cause { UnitCause (H.faults host.old) (H.faults host.new) (stop_in result) }
{
    match command {
        Command::Capability => capability::answer(session, host, tag, out),
        Command::Noop => Ok(Reply::Done(tag, Words::Noop)),
        Command::Check => check::answer(session, host, tag),
        Command::Close => close::answer(session, host, tag),
        Command::Expunge => expunge::answer(session, host, tag, out),
        Command::Fetch(uid, set, items) => fetch::answer(session, host, tag, *uid, set, items, out),
        Command::Logout => logout::answer(session, host, tag, out),
        Command::Password(word) => password::answer(session, host, tag, word),
        Command::Store(uid, set, mode, silent, given) => store::answer(
            session, host, tag, *uid, set, *mode, *silent, given, out,
        ),
        Command::Select(name) => select::answer(session, host, tag, false, name.as_slice(), out),
        Command::Examine(name) => select::answer(session, host, tag, true, name.as_slice(), out),
        Command::Status(name, items) => {
            status::answer(session, host, tag, name.as_slice(), items.as_slice(), out)
        }
        Command::Create(name) => create::answer(session, host, tag, name.as_slice()),
        Command::Delete(name) => delete::answer(session, host, tag, name.as_slice()),
        Command::Subscribe(name) => subscribe::answer(session, host, tag, name.as_slice()),
        Command::Unsubscribe(name) => unsubscribe::answer(session, host, tag, name.as_slice()),
        Command::Rename(from, to) => rename::answer(
            session,
            host,
            tag,
            from.as_slice(),
            to.as_slice(),
        ),
        Command::List(reference, pattern) => list::answer(
            session,
            host,
            tag,
            reference.as_slice(),
            pattern.as_slice(),
            out,
        ),
        Command::Lsub(reference, pattern) => lsub::answer(
            session,
            host,
            tag,
            reference.as_slice(),
            pattern.as_slice(),
            out,
        ),
        Command::Append(name, flags, stamp, text) => append::answer(
            session,
            host,
            tag,
            name.as_slice(),
            flags,
            *stamp,
            text.as_slice(),
            out,
        ),
        Command::Copy(uid, set, name) => copy::answer(
            session,
            host,
            tag,
            *uid,
            set,
            name.as_slice(),
            out,
        ),
        Command::Search(uid, charset, key) => search::answer(
            session, host, tag, *uid, charset, key, out,
        ),
    }
}
