// Changes of the subscribed names.
ghost use Rattle.std.specs.Prelude.{◌≤◌, length, OnOk, IfErr, IsErr, IsTrue};
ghost use Rattle.file_model.specs.Histories.{Now, Ended};
ghost use Rattle.file_model.specs.Kept.{NonePending};
ghost use Rattle.store_trait.specs.Promises.{RanOnFiles};
ghost use Rattle.any_store.specs.Choice.{formats_of, chosen};
ghost use Rattle.mail_tree.specs.Changes.{breaks_tree, due_unsubscribe, subscribed_tree, unsubscribed_tree};
ghost use Rattle.mail_tree.specs.Promises.{ActsUndue, AnswersBy, ChangesTree, CommitsTree, LeavesList, WritesList, BreaksTree, TreeCause, HasRoot, is_given};
ghost use Rattle.mail_tree.specs.Subscriptions.{subscription_text};

use crate::subscriptions::{list_path, list_text, subscribed};
use crate::{Name, TreeFault};
use any_store::AnyMailbox;
use file_model::{Fault, Files};
use safe_file::replace;
use std::alloc::Global;

// Writes the file with these names, whole or not at all.
fn write_names<F: Files>(
    alloc: Global,
    files: &mut F,
    root: &str,
    names: &[Name],
) -> Result<(), TreeFault>
    requires some { 1 ≤ length root.now }
    requires root { HasRoot root.now (F.history files.old) }

    ensures written { OnOk result (Ended (WritesList root.now (subscription_text names.now)) (F.history files.old) (F.history files.new)) }
    ensures none_pending { Now (F.history files.old) (λ w. NonePending w.disk) → OnOk result (Now (F.history files.new) (λ w. NonePending w.disk)) }
    ensures files { RanOnFiles (F.history files.old) (F.history files.new) }
    ensures leaves { LeavesList root.now result (F.history files.old) (F.history files.new) }
    ensures answer { IsErr result → BreaksTree result }
    ensures cause { TreeCause (F.faults files.old) (F.faults files.new) result }
{
    let path = list_path(alloc, root)?;
    let text = list_text(alloc, names)?;
    match replace(alloc, files, path.as_str(), text.as_slice()) {
        Ok(()) => Ok(()),
        Err(Fault::Failed) => Err(TreeFault::Failed),
        Err(Fault::Memory) => Err(TreeFault::Memory),
    }
}

/// Subscribes a name. One that is subscribed stays in its place, and then nothing is written.
pub fn subscribe<F: Files, S: AnyMailbox<F>>(
    alloc: Global,
    files: &mut F,
    root: &str,
    name: &Name,
) -> Result<(), TreeFault>
    requires some { 1 ≤ length root.now }
    requires root { HasRoot root.now (F.history files.old) }

    ensures given { IfErr result (λ fault. IsTrue (breaks_tree fault)) }
    ensures changes { ChangesTree (formats_of S.forms chosen) root.now (λ tree. subscribed_tree tree name.now) result (F.history files.old) (F.history files.new) }
    ensures leaves { LeavesList root.now result (F.history files.old) (F.history files.new) }
    ensures commits { CommitsTree (formats_of S.forms chosen) root.now (λ tree. subscribed_tree tree name.now) result (F.history files.old) (F.history files.new) }
    ensures cause { TreeCause (F.faults files.old) (F.faults files.new) result }
{
    let mut names = subscribed(alloc, files, root)?;
    let copy = name.copied(alloc)?;
    match names.insert(copy) {
        Ok(true) => write_names(alloc, files, root, names.as_slice()),
        Ok(false) => Ok(()),
        Err(_) => Err(TreeFault::Memory),
    }
}

/// Takes a name from the subscribed ones. Where it isn't one of them nothing is written.
#[tactic(auto, using(crate::proofs::Joined::acts_not))]
pub fn unsubscribe<F: Files, S: AnyMailbox<F>>(
    alloc: Global,
    files: &mut F,
    root: &str,
    name: &Name,
) -> Result<(), TreeFault>
    requires some { 1 ≤ length root.now }
    requires root { HasRoot root.now (F.history files.old) }

    ensures answer { AnswersBy (formats_of S.forms chosen) root.now (λ tree. due_unsubscribe tree name.now) result (F.history files.old) }
    ensures acts { ActsUndue (formats_of S.forms chosen) root.now (λ tree. due_unsubscribe tree name.now) (F.history files.old) (F.history files.new) }
    ensures given { IfErr result (λ fault. IsTrue (is_given fault)) }
    ensures changes { ChangesTree (formats_of S.forms chosen) root.now (λ tree. unsubscribed_tree tree name.now) result (F.history files.old) (F.history files.new) }
    ensures leaves { LeavesList root.now result (F.history files.old) (F.history files.new) }
    ensures commits { CommitsTree (formats_of S.forms chosen) root.now (λ tree. unsubscribed_tree tree name.now) result (F.history files.old) (F.history files.new) }
    ensures cause { TreeCause (F.faults files.old) (F.faults files.new) result }
{
    let mut names = subscribed(alloc, files, root)?;
    if !names.shift_remove(name) {
        return Err(TreeFault::Absent);
    }
    write_names(alloc, files, root, names.as_slice())
}
