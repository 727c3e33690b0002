// Mailboxes and directories that are deleted by their names.
ghost use Rattle.std.specs.Prelude.{◌≡◌, ◌≤◌, List, ℕ, Err, length, option_map, IfOk, IfErr, OnOk, IsTrue, true};
ghost use Rattle.std.specs.Borrow.{Bor};
ghost use Rattle.file_model.specs.Disk.{seen};
ghost use Rattle.file_model.specs.Histories.{Now};
ghost use Rattle.file_model.specs.Paths.{child};
ghost use Rattle.any_store.specs.Choice.{formats_of, chosen};
ghost use Rattle.any_store.specs.Stores.{is_known};
ghost use Rattle.mail_tree.specs.Changes.{due_delete, delete_refusal, deleted_tree, same_name};
ghost use Rattle.mail_tree.specs.Deleting.{IsKnownDoomed, StandsDoomed, SeesDoomed, RefusesDoomed};
ghost use Rattle.mail_tree.specs.Names.{IsName};
ghost use Rattle.mail_tree.specs.Promises.{ActsUndue, AnswersBy, ChangesTree, CommitsTree, LeavesBut, IsDeletable, TreeCause, RefusesBy, is_given};
ghost use Rattle.mail_tree.specs.Trees.{Tree, seen_node};
ghost use Rattle.mail_tree.specs.declared.deleting.Doomed.TheVariants.{Mailbox as MailboxDoomed};

use crate::emptying::remove_directory;
use crate::path::path_of;
use crate::sight::{broken, sees};
use crate::{Name, TreeFault};
use any_store::{AnyMailbox, is_known};
use file_model::{Files, Kind};
use mail_types::Driver;
use std::alloc::Global;

/// What a name that can be deleted names: a mailbox of a driver that stands, or a directory that is no mailbox.
#[derive(Clone, Copy, Debug, PartialEq, Eq)]
pub enum Doomed {
    Mailbox(Driver),
    Directory,
}

fn is_selected(selected: Option<&Name>, name: &Name) -> bool
    ensures { result ≡ same_name (option_map (λ (s : Bor (List ℕ)). s.now) selected.entry) name.now }
{
    match selected {
        Some(selected) => selected.as_str() == name.as_str(),
        None => false,
    }
}

// What stands at a path.
fn doomed_at<F: Files, S: AnyMailbox<F>>(
    alloc: Global,
    files: &mut F,
    path: &str,
) -> Result<Doomed, TreeFault>
    ensures found { IfOk result (λ found. Now (F.history files.old) (λ w. StandsDoomed found path.now (seen w.disk))) }
    ensures known { IfOk result IsKnownDoomed }
    ensures refused { IfErr result (λ fault. Now (F.history files.old) (λ w. RefusesDoomed fault path.now (seen w.disk))) }
    ensures given { IfErr result (λ fault. IsTrue (is_given fault)) }
    ensures history { F.history files.new ≡ F.history files.old }
    ensures cause { TreeCause (F.faults files.old) (F.faults files.new) result }
{
    let is_dir = match files.stat(path)? {
        Kind::Nothing => return Err(TreeFault::Absent),
        Kind::File(_) => false,
        Kind::Dir => true,
    };
    match S::driver_at(alloc, files, path) {
        Err(fault) => Err(broken(fault)),
        Ok(Some(driver)) => {
            if is_known(driver) {
                Ok(Doomed::Mailbox(driver))
            } else {
                Err(TreeFault::NotStore)
            }
        }
        Ok(None) => {
            if is_dir {
                Ok(Doomed::Directory)
            } else {
                Err(TreeFault::NotStore)
            }
        }
    }
}

// What a name names, if it can be deleted.
fn find_doomed<F: Files, S: AnyMailbox<F>>(
    alloc: Global,
    files: &mut F,
    root: &str,
    name: &Name,
    selected: Option<&Name>,
) -> Result<Doomed, TreeFault>
    ensures found { IfOk result (λ found. Now (F.history files.old) (λ w. SeesDoomed root.now name.now found (seen w.disk))) }
    ensures known { IfOk result IsKnownDoomed }
    ensures name { OnOk result (IsName name.now) }
    ensures due { OnOk result ((tree : Tree) → due_delete tree name.now (option_map (λ (s : Bor (List ℕ)). s.now) selected.entry) ≡ delete_refusal tree.nodes name.now (seen_node tree.nodes name.now)) }
    ensures refused { IfErr result (λ fault. RefusesBy (formats_of S.forms chosen) root.now (λ tree. due_delete tree name.now (option_map (λ (s : Bor (List ℕ)). s.now) selected.entry)) fault (F.history files.old)) }
    ensures given { IfErr result (λ fault. IsTrue (is_given fault)) }
    ensures history { F.history files.new ≡ F.history files.old }
    ensures cause { TreeCause (F.faults files.old) (F.faults files.new) result }
{
    if name.as_str() == "INBOX" {
        return Err(TreeFault::Reserved);
    }
    if is_selected(selected, name) {
        return Err(TreeFault::Selected);
    }
    let path = path_of(alloc, root, name)?;
    if !sees::<F, S>(alloc, files, root, path.as_str())? {
        return Err(TreeFault::Absent);
    }
    match doomed_at::<F, S>(alloc, files, path.as_str()) {
        Ok(found) => Ok(found),
        Err(fault) => Err(fault),
    }
}

// Removes the mailbox that a name sees.
#[tactic(auto, using(crate::proofs::Joined::acts_not))]
fn remove_mailbox<F: Files, S: AnyMailbox<F>>(
    alloc: Global,
    files: &mut F,
    root: &str,
    name: &Name,
    driver: Driver,
) -> Result<(), TreeFault>
    requires some { 1 ≤ length root.now }
    requires known { is_known driver ≡ true }
    requires found { Now (F.history files.old) (λ w. SeesDoomed root.now name.now (MailboxDoomed driver) (seen w.disk)) }

    ensures answer { AnswersBy (formats_of S.forms chosen) root.now (λ tree. delete_refusal tree.nodes name.now (seen_node tree.nodes name.now)) result (F.history files.old) }
    ensures acts { ActsUndue (formats_of S.forms chosen) root.now (λ tree. delete_refusal tree.nodes name.now (seen_node tree.nodes name.now)) (F.history files.old) (F.history files.new) }
    ensures given { IfErr result (λ fault. IsTrue (is_given fault)) }
    ensures changes { ChangesTree (formats_of S.forms chosen) root.now (λ tree. deleted_tree tree name.now) result (F.history files.old) (F.history files.new) }
    ensures leaves { LeavesBut (IsDeletable (child root.now name.now)) (λ start q. q ≡ child root.now name.now) result (F.history files.old) (F.history files.new) }
    ensures commits { CommitsTree (formats_of S.forms chosen) root.now (λ tree. deleted_tree tree name.now) result (F.history files.old) (F.history files.new) }
    ensures cause { TreeCause (F.faults files.old) (F.faults files.new) result }
{
    let path = path_of(alloc, root, name)?;
    match S::remove(alloc, files, path.as_str(), driver) {
        Ok(()) => Ok(()),
        Err(fault) => Err(broken(fault)),
    }
}

/// Deletes a mailbox, also one that is ill-formed, or a directory in which nothing but leftover files stands.
#[tactic(auto, using(crate::proofs::Joined::acts_not))]
pub fn delete<F: Files, S: AnyMailbox<F>>(
    alloc: Global,
    files: &mut F,
    root: &str,
    name: &Name,
    selected: Option<&Name>,
) -> Result<(), TreeFault>
    requires some { 1 ≤ length root.now }

    ensures answer { AnswersBy (formats_of S.forms chosen) root.now (λ tree. due_delete tree name.now (option_map (λ (s : Bor (List ℕ)). s.now) selected.entry)) result (F.history files.old) }
    ensures acts { ActsUndue (formats_of S.forms chosen) root.now (λ tree. due_delete tree name.now (option_map (λ (s : Bor (List ℕ)). s.now) selected.entry)) (F.history files.old) (F.history files.new) }
    ensures given { IfErr result (λ fault. IsTrue (is_given fault)) }
    ensures changes { ChangesTree (formats_of S.forms chosen) root.now (λ tree. deleted_tree tree name.now) result (F.history files.old) (F.history files.new) }
    ensures leaves { LeavesBut (IsDeletable (child root.now name.now)) (λ start q. q ≡ child root.now name.now) result (F.history files.old) (F.history files.new) }
    ensures commits { CommitsTree (formats_of S.forms chosen) root.now (λ tree. deleted_tree tree name.now) result (F.history files.old) (F.history files.new) }
    ensures cause { TreeCause (F.faults files.old) (F.faults files.new) result }
{
    match find_doomed::<F, S>(alloc, files, root, name, selected)? {
        Doomed::Mailbox(driver) => remove_mailbox::<F, S>(alloc, files, root, name, driver),
        Doomed::Directory => remove_directory::<F, S>(alloc, files, root, name),
    }
}
