// A mailbox or a directory gets another name.
ghost use Rattle.std.specs.Prelude.{◌≡◌, ◌≤◌, List, ℕ, length, true, false, option_map, bytes_eq, IfOk, IfErr, OnOk, IsErr, IsErrOf, IsTrue};
ghost use Rattle.std.specs.Borrow.{Bor};
ghost use Rattle.file_model.specs.Causes.{FileCause};
ghost use Rattle.file_model.specs.Disk.{seen, sync_dir};
ghost use Rattle.file_model.specs.Histories.{Now, Ran, Ended, GoesOn};
ghost use Rattle.file_model.specs.Images.{is_directory};
ghost use Rattle.file_model.specs.Kept.{NonePending, MovesWhole, SeesMoved};
ghost use Rattle.file_model.specs.Paths.{child, parent, is_top, is_inside};
ghost use Rattle.file_model.proofs.Renamed.{WasRenamed};
ghost use Rattle.store_trait.specs.Promises.{RanOnFiles};
ghost use Rattle.any_store.specs.Choice.{formats_of, chosen};
ghost use Rattle.mail_tree.specs.Changes.{is_selected_below, due_rename, renamed_tree};
ghost use Rattle.mail_tree.specs.Names.{IsName};
ghost use Rattle.mail_tree.specs.Promises.{ActsUndue, AnswersBy, ChangesTree, CommitsTree, LeavesMoved, BreaksTree, TreeCause, HasRoot, is_given};
ghost use Rattle.mail_tree.specs.Renaming.{sees_something, is_taken, CanRename, CanMoveWhole, KeepsAll, SeesAll};

use crate::making::make_parents;
use crate::path::path_of;
use crate::sight::{is_blocked, sees, stands};
use crate::{Name, TreeFault};
use any_store::AnyMailbox;
use file_model::{Failed, Files, split};
use std::alloc::Global;

// Whether a path leads into a directory.
fn is_inside(dir: &[u8], path: &[u8]) -> bool
    ensures { result ≡ is_inside dir.now path.now }
{
    path.starts_with(dir) && path[dir.len()..].starts_with(b"/")
}

// Whether the selected mailbox is at a name, or below it.
fn is_selected_below(selected: Option<&Name>, name: &Name) -> bool
    ensures { result ≡ is_selected_below (option_map (λ (s : Bor (List ℕ)). s.now) selected.entry) name.now }
{
    match selected {
        Some(selected) => selected == name || is_inside(name.as_slice(), selected.as_slice()),
        None => false,
    }
}

// Whether a name sees something.
fn sees_something<F: Files, S: AnyMailbox<F>>(
    alloc: Global,
    files: &mut F,
    root: &str,
    name: &Name,
) -> Result<bool, TreeFault>
    ensures value { IfOk result (λ there. Now (F.history files.old) (λ w. there ≡ sees_something root.now (seen w.disk) name.now)) }
    ensures answer { IsErr result → BreaksTree result }
    ensures history { F.history files.new ≡ F.history files.old }
    ensures cause { TreeCause (F.faults files.old) (F.faults files.new) result }
{
    let path = path_of(alloc, root, name)?;
    if !sees::<F, S>(alloc, files, root, path.as_str())? {
        return Ok(false);
    }
    stands(files, path.as_str())
}

// Whether nothing can be moved from one name to another, as that one is taken.
fn is_taken<F: Files, S: AnyMailbox<F>>(
    alloc: Global,
    files: &mut F,
    root: &str,
    from: &Name,
    to: &Name,
) -> Result<bool, TreeFault>
    ensures value { IfOk result (λ taken. Now (F.history files.old) (λ w. taken ≡ is_taken root.now (seen w.disk) from.now to.now)) }
    ensures name { OnOk result (IsName to.now) }
    ensures answer { IsErr result → BreaksTree result }
    ensures history { F.history files.new ≡ F.history files.old }
    ensures cause { TreeCause (F.faults files.old) (F.faults files.new) result }
{
    if is_inside(from.as_slice(), to.as_slice()) {
        return Ok(true);
    }
    let path = path_of(alloc, root, to)?;
    if stands(files, path.as_str())? {
        return Ok(true);
    }
    is_blocked::<F, S>(alloc, files, root, path.as_str())
}

// Refuses what can't be renamed.
fn check_rename<F: Files, S: AnyMailbox<F>>(
    alloc: Global,
    files: &mut F,
    root: &str,
    from: &Name,
    to: &Name,
    selected: Option<&Name>,
) -> Result<(), TreeFault>
    ensures answer { AnswersBy (formats_of S.forms chosen) root.now (λ tree. due_rename tree from.now to.now (option_map (λ (s : Bor (List ℕ)). s.now) selected.entry)) result (F.history files.old) }
    ensures given { IfErr result (λ fault. IsTrue (is_given fault)) }
    ensures can { OnOk result (Now (F.history files.old) (λ w. CanRename root.now from.now to.now (seen w.disk))) }
    ensures history { F.history files.new ≡ F.history files.old }
    ensures cause { TreeCause (F.faults files.old) (F.faults files.new) result }
{
    if from.as_slice() == b"INBOX".as_slice() {
        return Err(TreeFault::Reserved);
    }
    if is_selected_below(selected, from) {
        return Err(TreeFault::Selected);
    }
    if !sees_something::<F, S>(alloc, files, root, from)? {
        return Err(TreeFault::Absent);
    }
    if is_taken::<F, S>(alloc, files, root, from, to)? {
        return Err(TreeFault::There);
    }
    Ok(())
}

// Makes the names in the directory above a path durable.
fn sync_above<F: Files>(files: &mut F, path: &str) -> Result<(), Failed>
    requires below { is_top path.now ≡ false }
    requires room { Now (F.history files.old) (λ w. is_directory (seen w.disk) (parent path.now) ≡ true) }

    ensures goes_on { GoesOn (sync_dir (parent path.now)) result (F.history files.old) (F.history files.new) }
    ensures cause { FileCause (F.faults files.old) (F.faults files.new) result }
{
    let Some((directory, _)) = split(path) else {
        unreachable!()
    };
    files.sync_dir(directory)
}

// Whether two paths stand in one directory.
fn are_beside(one: &str, other: &str) -> bool
    requires one { is_top one.now ≡ false }
    requires other { is_top other.now ≡ false }
    ensures { result ≡ bytes_eq (parent one.now) (parent other.now) }
{
    let Some((here, _)) = split(one) else {
        unreachable!()
    };
    let Some((there, _)) = split(other) else {
        unreachable!()
    };
    here == there
}

// Makes a move durable, by both directories.
fn sync_move<F: Files>(files: &mut F, from: &str, to: &str) -> Result<(), Failed>
    requires below { is_top from.now ≡ false }
    requires under { is_top to.now ≡ false }
    requires left { Now (F.history files.old) (λ w. is_directory (seen w.disk) (parent from.now) ≡ true) }
    requires room { Now (F.history files.old) (λ w. is_directory (seen w.disk) (parent to.now) ≡ true) }

    ensures kept { Ran KeepsAll (F.history files.old) (F.history files.new) }
    ensures sees { OnOk result (Ended SeesAll (F.history files.old) (F.history files.new)) }
    ensures none_pending { Now (F.history files.old) (λ w. WasRenamed from.now to.now w.disk) → OnOk result (Now (F.history files.new) (λ w. NonePending w.disk)) }
    ensures cause { FileCause (F.faults files.old) (F.faults files.new) result }
{
    sync_above(files, to)?;
    if are_beside(from, to) {
        return Ok(());
    }
    sync_above(files, from)
}

// Moves what stands at a path to another, durably.
fn move_one<F: Files>(files: &mut F, from: &str, to: &str) -> Result<(), TreeFault>
    requires below { is_top from.now ≡ false }
    requires under { is_top to.now ≡ false }
    requires can { Now (F.history files.old) (λ w. CanMoveWhole from.now to.now (seen w.disk)) }

    ensures moved { OnOk result (Ended (SeesMoved from.now to.now) (F.history files.old) (F.history files.new)) }
    ensures none_pending { OnOk result (Now (F.history files.new) (λ w. NonePending w.disk)) }
    ensures kept { Ran (MovesWhole from.now to.now) (F.history files.old) (F.history files.new) }
    ensures failed { IsErr result → IsErrOf result TreeFault.Failed }
    ensures answer { IsErr result → BreaksTree result }
    ensures cause { TreeCause (F.faults files.old) (F.faults files.new) result }
{
    files.rename(from, to)?;
    sync_move(files, from, to)?;
    Ok(())
}

/// Gives what stands at a name, and all in it, another name. The directories above that are made where they are missing.
#[tactic(auto, using(crate::proofs::Joined::acts_not))]
pub fn rename<F: Files, S: AnyMailbox<F>>(
    alloc: Global,
    files: &mut F,
    root: &str,
    from: &Name,
    to: &Name,
    selected: Option<&Name>,
) -> Result<(), TreeFault>
    requires some { 1 ≤ length root.now }
    requires root { HasRoot root.now (F.history files.old) }

    ensures answer { AnswersBy (formats_of S.forms chosen) root.now (λ tree. due_rename tree from.now to.now (option_map (λ (s : Bor (List ℕ)). s.now) selected.entry)) result (F.history files.old) }
    ensures acts { ActsUndue (formats_of S.forms chosen) root.now (λ tree. due_rename tree from.now to.now (option_map (λ (s : Bor (List ℕ)). s.now) selected.entry)) (F.history files.old) (F.history files.new) }
    ensures given { IfErr result (λ fault. IsTrue (is_given fault)) }
    ensures changes { ChangesTree (formats_of S.forms chosen) root.now (λ tree. renamed_tree tree from.now to.now) result (F.history files.old) (F.history files.new) }
    ensures leaves { LeavesMoved root.now from.now to.now result (F.history files.old) (F.history files.new) }
    ensures commits { CommitsTree (formats_of S.forms chosen) root.now (λ tree. renamed_tree tree from.now to.now) result (F.history files.old) (F.history files.new) }
    ensures cause { TreeCause (F.faults files.old) (F.faults files.new) result }
{
    check_rename::<F, S>(alloc, files, root, from, to, selected)?;
    let source = path_of(alloc, root, from)?;
    let target = path_of(alloc, root, to)?;
    make_parents::<F, S>(files, root, target.as_str())?;
    move_one(files, source.as_str(), target.as_str())
}
