// One change of an open mailbox.
ghost use Rattle.std.specs.Prelude.{List, ℕ, OnOk};
ghost use Rattle.any_store.specs.Choice.{formats_of, chosen};
ghost use Rattle.file_model.specs.Disk.{seen};
ghost use Rattle.file_model.specs.Histories.{Now};
ghost use Rattle.session_loop.specs.Outcome.{UnitCause};
ghost use Rattle.store_trait.specs.Changes.{CanChangeStore, IsSized};
ghost use Rattle.store_trait.specs.Promises.{CanAsk, IsSame, RanOnFiles};
ghost use Rattle.imap_session.specs.Committed.{IsHere, Commits, CommitsUndue, StaysIfRefused};
ghost use Rattle.imap_session.specs.Endings.{stop_of};
ghost use Rattle.imap_session.specs.Protocol.{stop_in};
ghost use Rattle.imap_session.specs.State.{Selected, State};
ghost use Rattle.file_model.specs.Histories.{Ended};
ghost use Rattle.store_trait.specs.OwnPaths.{IsNoPath, MayChange};
ghost use Rattle.store_trait.specs.Touching.{SeesBut};
ghost use Rattle.std.specs.Prelude.{◌≡◌};

use crate::refusal::{Refusal, refused_by_store};
use any_store::AnyMailbox;
use file_model::Files;
use imap_arguments::Tag;
use mail_tree::change_mailbox;
use session_loop::Stop;
use store_trait::{Change, StoreFault};

/// The end of a session whose store gave a fault.
pub fn stop_of(fault: StoreFault) -> Stop
    ensures { result ≡ stop_of fault }
{
    match fault {
        StoreFault::Failed => Stop::FileFault,
        _ => Stop::Memory,
    }
}

/// Makes a change durable of which no refusal is due.
pub fn commit<F: Files, S: AnyMailbox<F>>(
    store: &mut S,
    files: &mut F,
    change: &Change,
) -> Result<(), Stop>
    requires can { CanChangeStore (S.view store.old) change.now }
    requires standing { CanAsk (S.view store.old) (F.history files.old) }
    ensures commits { (state : State) (s : Selected) (recent : List ℕ) → Now (F.history files.old) (λ w. IsHere (formats_of S.forms chosen) state s (S.view store.old) (seen w.disk))
        → Commits (formats_of S.forms chosen) state s recent change.now (S.view store.new) result (F.history files.old) (F.history files.new) }
    ensures files { RanOnFiles (F.history files.old) (F.history files.new) }
    ensures sized { OnOk result (IsSized (S.view store.old).summary change.now (S.view store.new).summary) }
    ensures same { IsSame (S.view store.old) (S.view store.new) }
    ensures cause { UnitCause (F.faults files.old) (F.faults files.new) result }
{
    match change_mailbox(store, files, change) {
        Ok(()) => Ok(()),
        Err(fault) => Err(stop_of(fault)),
    }
}

/// Makes a change durable, unless a refusal is due.
pub fn commit_undue<F: Files, S: AnyMailbox<F>>(
    store: &mut S,
    files: &mut F,
    change: &Change,
    tag: Tag,
) -> Result<(), Refusal>
    requires can { CanChangeStore (S.view store.old) change.now }
    requires standing { CanAsk (S.view store.old) (F.history files.old) }
    ensures commits { (state : State) (s : Selected) (recent : List ℕ) → Now (F.history files.old) (λ w. IsHere (formats_of S.forms chosen) state s (S.view store.old) (seen w.disk))
        → CommitsUndue (formats_of S.forms chosen) tag state s recent change.now (S.view store.new) result (F.history files.old) (F.history files.new) }
    ensures stays { StaysIfRefused (S.view store.old) (S.view store.new) result (F.history files.old) (F.history files.new) }
    ensures files { RanOnFiles (F.history files.old) (F.history files.new) }
    ensures sees { OnOk result (Ended (SeesBut (MayChange (S.view store.old).driver (S.view store.old).path) IsNoPath) (F.history files.old) (F.history files.new)) }
    ensures sized { OnOk result (IsSized (S.view store.old).summary change.now (S.view store.new).summary) }
    ensures same { IsSame (S.view store.old) (S.view store.new) }
    ensures cause { UnitCause (F.faults files.old) (F.faults files.new) (stop_in result) }
{
    match change_mailbox(store, files, change) {
        Ok(()) => Ok(()),
        Err(fault) => Err(refused_by_store(tag, fault)),
    }
}
