// Directories that are removed with the leftover files in them.
ghost use Rattle.std.specs.Prelude.{◌≡◌, ◌≢◌, ◌≤◌, List, ℕ, Bool, Err, length, map, is_some, string_bytes, IfOk, IfErr, IfSome, IsErr, IsErrOf, OnOk, IsTrue, IsPermutation, [], ◌∷◌, true, false};
ghost use Rattle.std.specs.List.{list_all};
ghost use Rattle.file_model.specs.Disk.{seen};
ghost use Rattle.file_model.specs.Histories.{Now, Ran, Ended};
ghost use Rattle.file_model.specs.Images.{is_directory, names_in};
ghost use Rattle.file_model.specs.Kept.{Keeps, KeepsDirectories, NonePending};
ghost use Rattle.file_model.specs.Kinds.{IsEmptyDirectory};
ghost use Rattle.file_model.specs.Paths.{child, is_top};
ghost use Rattle.file_model.specs.Reserved.{is_hex, is_numbered_mix, is_leftover};
ghost use Rattle.store_trait.specs.Promises.{RanOnFiles};
ghost use Rattle.any_store.specs.Choice.{formats_of, chosen, has_file};
ghost use Rattle.mail_tree.specs.Changes.{delete_refusal, deleted_tree};
ghost use Rattle.mail_tree.specs.Deleting.{SeesDoomed, is_left_file, holds_left_files, ArePathsIn, is_one_of, Cleared, RemovedDirectory};
ghost use Rattle.mail_tree.specs.Promises.{ActsUndue, AnswersBy, BreaksTree, ChangesTree, CommitsTree, LeavesBut, IsDeletable, TreeCause, is_given};
ghost use Rattle.mail_tree.specs.Trees.{seen_node};
ghost use Rattle.mail_tree.specs.declared.deleting.Doomed.TheVariants.{Directory as DirectoryDoomed};

use crate::path::path_of;
use crate::{Name, TreeFault};
use any_store::AnyMailbox;
use file_model::{Fault, Files, Kind, split};
use std::alloc::{AllocError, Global};

fn is_hex(byte: u8) -> bool
    ensures { result ≡ is_hex byte }
{
    matches!(byte, b'0'..=b'9' | b'a'..=b'f' | b'A'..=b'F')
}

fn are_hex(bytes: &[u8]) -> bool
    ensures { result ≡ list_all is_hex bytes.now }
{
    bytes.iter().all(|byte| is_hex(*byte))
}

fn is_numbered(name: &[u8]) -> bool
    ensures { result ≡ is_numbered_mix is_hex name.now }
{
    name.starts_with(b".mix") && name.len() == 12 && are_hex(&name[4..])
}

fn is_leftover(name: &[u8]) -> bool
    ensures { result ≡ is_leftover name.now }
{
    name == b".mixindex".as_slice()
        || name == b".mixstatus".as_slice()
        || is_numbered(name)
        || name.starts_with(b".new")
}

fn inside(alloc: Global, dir: &str, name: &str) -> Result<String, AllocError>
    ensures { IfOk result (λ path. string_bytes path ≡ child dir.now name.now) }
{
    let mut path = String::from_str(alloc, dir)?;
    path.push_str("/")?;
    path.push_str(name)?;
    Ok(path)
}

fn is_file<F: Files>(files: &mut F, path: &str) -> Result<bool, TreeFault>
    ensures value { IfOk result (λ there. Now (F.history files.old) (λ w. there ≡ has_file (seen w.disk) path.now)) }
    ensures failed { IsErr result → IsErrOf result TreeFault.Failed }
    ensures answer { IsErr result → BreaksTree result }
    ensures history { F.history files.new ≡ F.history files.old }
    ensures cause { TreeCause (F.faults files.old) (F.faults files.new) result }
{
    match files.stat(path)? {
        Kind::File(_) => Ok(true),
        Kind::Nothing => Ok(false),
        Kind::Dir => Ok(false),
    }
}

// Whether a leftover file stands in a directory under a name.
fn is_left_file<F: Files>(
    alloc: Global,
    files: &mut F,
    dir: &str,
    name: &str,
) -> Result<bool, TreeFault>
    ensures value { IfOk result (λ left. Now (F.history files.old) (λ w. left ≡ is_left_file (seen w.disk) dir.now name.now)) }
    ensures answer { IsErr result → BreaksTree result }
    ensures history { F.history files.new ≡ F.history files.old }
    ensures cause { TreeCause (F.faults files.old) (F.faults files.new) result }
{
    if !is_leftover(name.as_bytes()) {
        return Ok(false);
    }
    let path = inside(alloc, dir, name)?;
    is_file(files, path.as_str())
}

fn are_left_files<F: Files>(
    alloc: Global,
    files: &mut F,
    dir: &str,
    names: &[String],
) -> Result<bool, TreeFault>
    ensures value { IfOk result (λ left. Now (F.history files.old) (λ w. left ≡ list_all (is_left_file (seen w.disk) dir.now) (map string_bytes names.now))) }
    ensures answer { IsErr result → BreaksTree result }
    ensures history { F.history files.new ≡ F.history files.old }
    ensures cause { TreeCause (F.faults files.old) (F.faults files.new) result }
{
    let mut left = true;
    for name in names {
        if !is_left_file(alloc, files, dir, name.as_str())? {
            left = false;
        }
    }
    Ok(left)
}

fn paths_in(alloc: Global, dir: &str, names: &[String]) -> Result<Vec<String>, AllocError>
    ensures { IfOk result (λ paths. map string_bytes paths.items ≡ map (child dir.now) (map string_bytes names.now)) }
{
    let mut paths = Vec::new(alloc);
    for name in names {
        paths.push(inside(alloc, dir, name.as_str())?)?;
    }
    Ok(paths)
}

fn names_of<F: Files>(alloc: Global, files: &mut F, dir: &str) -> Result<Vec<String>, TreeFault>
    requires { Now (F.history files.old) (λ w. is_directory (seen w.disk) dir.now ≡ true) }
    ensures names { IfOk result (λ names. Now (F.history files.old) (λ w. IsPermutation (map string_bytes names.items) (names_in (seen w.disk) dir.now))) }
    ensures answer { IsErr result → BreaksTree result }
    ensures history { F.history files.new ≡ F.history files.old }
    ensures cause { TreeCause (F.faults files.old) (F.faults files.new) result }
{
    match files.names(alloc, dir) {
        Ok(names) => Ok(names),
        Err(Fault::Failed) => Err(TreeFault::Failed),
        Err(Fault::Memory) => Err(TreeFault::Memory),
    }
}

// The paths of all that stands in a directory, if that is leftover files alone.
fn left_paths<F: Files>(
    alloc: Global,
    files: &mut F,
    dir: &str,
) -> Result<Option<Vec<String>>, TreeFault>
    requires { Now (F.history files.old) (λ w. is_directory (seen w.disk) dir.now ≡ true) }
    ensures free { IfOk result (λ found. Now (F.history files.old) (λ w. is_some found ≡ holds_left_files (seen w.disk) dir.now)) }
    ensures paths { IfOk result (λ found. IfSome found (λ paths. Now (F.history files.old) (λ w. ArePathsIn dir.now (map string_bytes paths.items) (seen w.disk)))) }
    ensures answer { IsErr result → BreaksTree result }
    ensures history { F.history files.new ≡ F.history files.old }
    ensures cause { TreeCause (F.faults files.old) (F.faults files.new) result }
{
    let names = names_of(alloc, files, dir)?;
    if !are_left_files(alloc, files, dir, names.as_slice())? {
        return Ok(None);
    }
    let paths = paths_in(alloc, dir, names.as_slice())?;
    Ok(Some(paths))
}

// Removes the file at a path, if one stands there.
fn remove_one<F: Files>(files: &mut F, path: &str) -> Result<(), TreeFault>
    ensures cleared { OnOk result (Ended (Cleared (path.now ∷ [])) (F.history files.old) (F.history files.new)) }
    ensures directories { Ran KeepsDirectories (F.history files.old) (F.history files.new) }
    ensures kept { Ran (Keeps (λ q. q ≢ path.now)) (F.history files.old) (F.history files.new) }
    ensures failed { IsErr result → IsErrOf result TreeFault.Failed }
    ensures cause { TreeCause (F.faults files.old) (F.faults files.new) result }
{
    if is_file(files, path)? {
        files.remove(path)?;
    }
    Ok(())
}

// Removes the files at these paths.
fn remove_files<F: Files>(files: &mut F, paths: &[String]) -> Result<(), TreeFault>
    ensures cleared { OnOk result (Ended (Cleared (map string_bytes paths.now)) (F.history files.old) (F.history files.new)) }
    ensures directories { Ran KeepsDirectories (F.history files.old) (F.history files.new) }
    ensures kept { Ran (Keeps (λ q. is_one_of (map string_bytes paths.now) q ≡ false)) (F.history files.old) (F.history files.new) }
    ensures failed { IsErr result → IsErrOf result TreeFault.Failed }
    ensures cause { TreeCause (F.faults files.old) (F.faults files.new) result }
{
    for path in paths {
        remove_one(files, path.as_str())?;
    }
    Ok(())
}

// Removes an empty directory, durably.
fn remove_empty<F: Files>(files: &mut F, path: &str) -> Result<(), TreeFault>
    requires below { is_top path.now ≡ false }
    requires empty { Now (F.history files.old) (λ w. IsEmptyDirectory (seen w.disk) path.now) }

    ensures removed { OnOk result (Ended (λ start end. RemovedDirectory path.now (seen start) (seen end)) (F.history files.old) (F.history files.new)) }
    ensures none_pending { OnOk result (Now (F.history files.new) (λ w. NonePending w.disk)) }
    ensures files { RanOnFiles (F.history files.old) (F.history files.new) }
    ensures kept { Ran (Keeps (λ q. q ≢ path.now)) (F.history files.old) (F.history files.new) }
    ensures failed { IsErr result → IsErrOf result TreeFault.Failed }
    ensures cause { TreeCause (F.faults files.old) (F.faults files.new) result }
{
    files.remove_dir(path)?;
    if let Some((dir, _)) = split(path) {
        files.sync_dir(dir)?;
    }
    Ok(())
}

/// Removes the plain directory that a name sees, if nothing but leftover files stands in it.
#[tactic(auto, using(crate::proofs::Joined::acts_not))]
pub fn remove_directory<F: Files, S: AnyMailbox<F>>(
    alloc: Global,
    files: &mut F,
    root: &str,
    name: &Name,
) -> Result<(), TreeFault>
    requires some { 1 ≤ length root.now }
    requires found { Now (F.history files.old) (λ w. SeesDoomed root.now name.now DirectoryDoomed (seen w.disk)) }

    ensures answer { AnswersBy (formats_of S.forms chosen) root.now (λ tree. delete_refusal tree.nodes name.now (seen_node tree.nodes name.now)) result (F.history files.old) }
    ensures acts { ActsUndue (formats_of S.forms chosen) root.now (λ tree. delete_refusal tree.nodes name.now (seen_node tree.nodes name.now)) (F.history files.old) (F.history files.new) }
    ensures given { IfErr result (λ fault. IsTrue (is_given fault)) }
    ensures changes { ChangesTree (formats_of S.forms chosen) root.now (λ tree. deleted_tree tree name.now) result (F.history files.old) (F.history files.new) }
    ensures leaves { LeavesBut (IsDeletable (child root.now name.now)) (λ start q. q ≡ child root.now name.now) result (F.history files.old) (F.history files.new) }
    ensures commits { CommitsTree (formats_of S.forms chosen) root.now (λ tree. deleted_tree tree name.now) result (F.history files.old) (F.history files.new) }
    ensures cause { TreeCause (F.faults files.old) (F.faults files.new) result }
{
    let path = path_of(alloc, root, name)?;
    let Some(paths) = left_paths(alloc, files, path.as_str())? else {
        return Err(TreeFault::HasChildren);
    };
    remove_files(files, paths.as_slice())?;
    remove_empty(files, path.as_str())
}
