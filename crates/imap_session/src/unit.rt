// A session that answers units.
ghost use Rattle.std.specs.Prelude.{◌≡◌, List, ℕ, [], OnOk};
ghost use Rattle.any_store.specs.Choice.{formats_of, chosen};
ghost use Rattle.file_model.specs.Causes.{Faults};
ghost use Rattle.file_model.specs.Histories.{Now};
ghost use Rattle.imap_grammar.specs.Sound.{IsSound};
ghost use Rattle.session_loop.specs.Outcome.{UnitCause, next_of};
ghost use Rattle.imap_session.specs.Doing.{DoesUnit};
ghost use Rattle.imap_session.specs.Laws.{of_grammar, kept};
ghost use Rattle.imap_session.specs.Protocol.{protocol, stop_in};
ghost use Rattle.imap_session.specs.Standing.{StandsFor};
ghost use Rattle.imap_session.specs.State.{State};
ghost use Rattle.imap_session.specs.Step.{is_last, is_logout};
ghost use Rattle.imap_session.specs.UnitDone.{Finishes};

use crate::answering::command;
use crate::refusal::Refusal;
use crate::session::Session;
use any_store::AnyMailbox;
use file_model::Host;
use imap_grammar::{Feed, Unit};
use imap_reply::{Reply, ReplyBuffer};
use imap_syntax::Command;
use session_loop::{Answers, Next, Stop};

/// A session and the bytes that it has to say.
#[derive(Drop)]
pub struct Server<S> {
    pub session: Session<S>,
    pub out: ReplyBuffer,
}

impl<H: Host, S: AnyMailbox<H> + Drop> Answers<H> for Server<S> {
    type Reader = Feed;

    ghost State = { State };

    ghost protocol = { protocol (formats_of S.forms chosen) };

    ghost stands = { λ server disk state. StandsFor (formats_of S.forms chosen) S.view server.session disk state };

    ghost of_grammar = { of_grammar (formats_of S.forms chosen) };

    ghost is_kept = { kept (formats_of S.forms chosen) (record { choice = S.is_choice; reads = S.all_read }) };

    fn unit(&mut self, host: &mut H, unit: &Unit) -> Result<Next, Stop> {
        self.out.clear();
        answer_unit(&mut self.session, host, unit, &mut self.out)?;
        self.out.say(host)?;
        Ok(next(unit))
    }
}

fn is_logout(command: &Command) -> bool
    ensures { result ≡ is_logout command.now }
{
    match command {
        Command::Logout => true,
        _ => false,
    }
}

fn next(unit: &Unit) -> Next
    ensures { result ≡ next_of (is_last unit.now) }
{
    match unit {
        Unit::Command(_, command) => {
            if is_logout(command) {
                Next::Bye
            } else {
                Next::Go
            }
        }
        _ => Next::Go,
    }
}

// Makes the changes of a unit, and puts its reply.
fn answer_unit<H: Host, S: AnyMailbox<H> + Drop>(
    session: &mut Session<S>,
    host: &mut H,
    unit: &Unit,
    out: &mut ReplyBuffer,
) -> Result<(), Stop>
    requires empty { out.old ≡ [] }
    requires stands { Now (H.history host.old) (λ w. (state : State) × StandsFor (formats_of S.forms chosen) S.view session.old w.disk state) }
    requires sound { IsSound unit.now }
    ensures does { DoesUnit (formats_of S.forms chosen) (StandsFor (formats_of S.forms chosen) S.view session.old) (StandsFor (formats_of S.forms chosen) S.view session.new)
        unit.now result out.new (H.history host.old) (H.history host.new) }
    ensures cause { UnitCause (H.faults host.old) (H.faults host.new) result }
{
    match unit {
        Unit::Announce => finish(Ok(Reply::Announce), host, out),
        Unit::Command(tag, asked) => {
            session.count();
            finish(command(session, host, *tag, asked, out), host, out)
        }
        Unit::Bad(tag, reason) => {
            session.count();
            finish(Ok(Reply::Bad(*tag, *reason)), host, out)
        }
        Unit::Large(tag) => {
            session.count();
            finish(Ok(Reply::Large(*tag)), host, out)
        }
    }
}

// Puts the line that a command leaves.
fn finish<H: Host>(
    done: Result<Reply, Refusal>,
    host: &mut H,
    out: &mut ReplyBuffer,
) -> Result<(), Stop>
    ensures finishes { Finishes done out.old result out.new (H.history host.old) (H.history host.new) }
    ensures cause { (start : Faults) → UnitCause start (H.faults host.old) (stop_in done) → UnitCause start (H.faults host.new) result }
{
    match done {
        Ok(line) => out.put(host, &line),
        Err(Refusal::Line(line)) => out.put(host, &line),
        Err(Refusal::Ends(stop)) => Err(stop),
    }
}
