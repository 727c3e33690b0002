// A mailbox is opened by its name.
ghost use Rattle.std.specs.Prelude.{◌≡◌, ◌⊎◌, IfOk, IfErr, true, map};
ghost use Rattle.any_store.specs.Choice.{formats_of, chosen};
ghost use Rattle.file_model.specs.Disk.{seen};
ghost use Rattle.file_model.specs.Histories.{Now};
ghost use Rattle.mail_tree.specs.Changes.{due_open, breaks_tree};
ghost use Rattle.mail_tree.specs.Promises.{TreeCause};
ghost use Rattle.store_trait.specs.declared.store.Info.{Info as Message};
ghost use Rattle.imap_session.specs.Opening.{OpensSelected};
ghost use Rattle.imap_session.specs.Select.{unseen_before};
ghost use Rattle.imap_session.specs.Standing.{StandsFor};
ghost use Rattle.imap_session.specs.State.{State};
ghost use Rattle.std.specs.Prelude.{Some};

use crate::infos::infos_of;
use crate::session::{Open, Session};
use any_store::AnyMailbox;
use file_model::Files;
use mail_fields::Numbers;
use mail_tree::{Name, TreeFault, open};
use std::alloc::{AllocError, Global};
use store_trait::Info;

/// Opens the mailbox of a name, with the messages that no session has been told of.
pub fn open_named<F: Files, S: AnyMailbox<F> + Drop>(
    session: &Session<S>,
    files: &mut F,
    name: Name,
    read_only: bool,
) -> Result<Open<S>, TreeFault>
    ensures opened { IfOk result (λ o. Now (F.history files.old) (λ w. (state : State) → StandsFor (formats_of S.forms chosen) S.view session.now w.disk state
        → OpensSelected (formats_of S.forms chosen) S.view state name read_only o (seen w.disk))) }
    ensures refused { IfErr result (λ fault. Now (F.history files.old) (λ w. (state : State) → StandsFor (formats_of S.forms chosen) S.view session.now w.disk state
        → (due_open state.tree name ≡ Some fault) ⊎ (breaks_tree fault ≡ true))) }
    ensures history { F.history files.new ≡ F.history files.old }
    ensures cause { TreeCause (F.faults files.old) (F.faults files.new) result }
{
    let store: S = open(
        session.alloc,
        files,
        session.root.as_str(),
        &name,
        session.fresh.number(),
    )?;
    let told = infos_of::<F, S>(session.alloc, &store)?;
    let recent = recent_in(session.alloc, told.as_slice())?;
    Ok(Open {
        name,
        read_only,
        recent: Numbers::of(recent),
        store,
    })
}

// The UIDs of the messages that aren't old.
fn recent_in(alloc: Global, infos: &[Info]) -> Result<Vec<u32>, AllocError>
    ensures { IfOk result (λ uids. uids.items ≡ map (λ (i : Message). i.uid) (unseen_before infos.now)) }
{
    let mut recent = Vec::new(alloc);
    for info in infos {
        if !info.flags.old {
            recent.push(info.uid)?;
        }
    }
    Ok(recent)
}
