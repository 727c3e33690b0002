// The names that LIST gives.
ghost use Rattle.std.specs.Prelude.{◌≡◌, ◌≢◌, ◌≤◌, ◌<◌, ◌+◌, ◌++◌, ◌∷◌, [], ◌&&◌, List, ℕ, Bool, length, map, true, false, bytes_eq, string_bytes, IfOk, IfErr, OnOk, IfSome, IsErr, IsTrue, if◌then◌else◌};
ghost use Rattle.std.specs.FinMap.{FinMap, entries, insert};
ghost use Rattle.file_model.specs.Disk.{seen};
ghost use Rattle.file_model.specs.Histories.{Now};
ghost use Rattle.file_model.specs.Images.{path_cmp, is_directory};
ghost use Rattle.file_model.specs.Paths.{child, is_inside, is_at_or_inside};
ghost use Rattle.any_store.specs.Choice.{formats_of, chosen};
ghost use Rattle.mail_tree.specs.Changes.{breaks_tree};
ghost use Rattle.mail_tree.specs.Listing.{fits_name, listed};
ghost use Rattle.mail_tree.specs.Promises.{BreaksTree, TreeCause, HasRoot, ListsBy};
ghost use Rattle.mail_tree.specs.Sights.{sees_at, is_plain_sight};
ghost use Rattle.mail_tree.specs.Walks.{leads, name_as, is_something, may_lead, Walked, WalkedAll, covers_names, IsBelowRoot, IsWithin, IsOpen, AreNames};

use crate::finding::{Listed, as_list, put_name};
use crate::matching::Pattern;
use crate::path::path_of;
use crate::sight::{Sight, is_plain, look_at, sees};
use crate::{Name, TreeFault};
use any_store::AnyMailbox;
use file_model::{Fault, Files};
use std::alloc::{AllocError, Global};
use std::collections::BTreeMap;

// The name that a text is, as it stands.
fn name_as(alloc: Global, text: &[u8]) -> Result<Option<Name>, AllocError>
    ensures { IfOk result (λ found. found ≡ name_as text.now) }
{
    let Some(name) = Name::read(alloc, text)? else {
        return Ok(None);
    };
    if name.as_slice() != text {
        return Ok(None);
    }
    Ok(Some(name))
}

// A name, if something stands there and it matches.
fn put_seen(
    found: &mut BTreeMap<Name, bool>,
    pattern: &Pattern,
    name: Name,
    sight: Sight,
) -> Result<(), AllocError>
    ensures { (m : FinMap path_cmp Bool) → entries m ≡ found.old.entries → OnOk result (found.new.entries ≡ (if is_something sight && fits_name pattern.now name then entries (insert m name (is_plain_sight sight)) else entries m)) }
{
    if sight == Sight::Nothing {
        return Ok(());
    }
    if !pattern.fits(name.as_slice()) {
        return Ok(());
    }
    put_name(found, name, is_plain(sight))
}

// What stands behind the root in a path below it.
fn behind<'a>(root: &str, path: &'a str) -> &'a [u8]
    requires { IsBelowRoot root.now path.now }
    ensures { (name : List ℕ) → path.now ≡ child root.now name → result.now ≡ name }
{
    &path.as_bytes()[root.len() + 1..]
}

// Whether names in the directory of a name may match.
fn leads_into(alloc: Global, pattern: &Pattern, name: &Name) -> Result<bool, AllocError>
    ensures { IfOk result (λ into. into ≡ leads pattern.now (name.now ++ 47 ∷ [])) }
{
    let mut text = Vec::new(alloc);
    text.extend_from_slice(name.as_slice())?;
    text.push(b'/')?;
    Ok(pattern.leads(text.as_slice()))
}

// Puts what stands at a path, and tells whether names in it may match.
fn look_for<F: Files, S: AnyMailbox<F>>(
    alloc: Global,
    files: &mut F,
    root: &str,
    path: &str,
    pattern: &Pattern,
    found: &mut BTreeMap<Name, bool>,
) -> Result<bool, TreeFault>
    requires below { IsBelowRoot root.now path.now }
    requires seen { (name : List ℕ) → path.now ≡ child root.now name → Now (F.history files.old) (λ w. sees_at root.now (seen w.disk) name ≡ true) }

    ensures found { OnOk result (Now (F.history files.old) (λ w. Walked root.now pattern.now (bytes_eq path.now) (seen w.disk) found.old.entries found.new.entries)) }
    ensures enters { (name : List ℕ) → path.now ≡ child root.now name → IfOk result (λ enters. Now (F.history files.old) (λ w. enters ≡ may_lead root.now pattern.now (seen w.disk) name)) }
    ensures short { IfOk result (λ enters. IsTrue enters → length path.now ≤ length root.now + 256) }
    ensures answer { IsErr result → BreaksTree result }
    ensures history { F.history files.new ≡ F.history files.old }
    ensures cause { TreeCause (F.faults files.old) (F.faults files.new) result }
{
    let Some(name) = name_as(alloc, behind(root, path))? else {
        return Ok(false);
    };
    let leads = leads_into(alloc, pattern, &name)?;
    if !leads && !pattern.fits(name.as_slice()) {
        return Ok(false);
    }
    let sight = look_at::<F, S>(alloc, files, path)?;
    put_seen(found, pattern, name, sight)?;
    if !is_plain(sight) {
        return Ok(false);
    }
    Ok(leads)
}

// The names in a directory.
fn names_in<F: Files>(alloc: Global, files: &mut F, dir: &str) -> Result<Vec<String>, TreeFault>
    requires { Now (F.history files.old) (λ w. is_directory (seen w.disk) dir.now ≡ true) }

    ensures names { IfOk result (λ names. Now (F.history files.old) (λ w. AreNames dir.now (map string_bytes names.items) (seen w.disk))) }
    ensures answer { IsErr result → BreaksTree result }
    ensures history { F.history files.new ≡ F.history files.old }
    ensures cause { TreeCause (F.faults files.old) (F.faults files.new) result }
{
    match files.names(alloc, dir) {
        Ok(names) => Ok(names),
        Err(Fault::Failed) => Err(TreeFault::Failed),
        Err(Fault::Memory) => Err(TreeFault::Memory),
    }
}

// The path of a name in a directory.
fn path_in(alloc: Global, dir: &str, name: &str) -> Result<String, AllocError>
    ensures { IfOk result (λ path. string_bytes path ≡ child dir.now name.now) }
{
    let mut path = String::from_str(alloc, dir)?;
    path.push_str("/")?;
    path.push_str(name)?;
    Ok(path)
}

// Puts what stands at a path, and in it.
#[cycle(listing)]
fn walk_one<F: Files, S: AnyMailbox<F>>(
    alloc: Global,
    files: &mut F,
    root: &str,
    path: &str,
    pattern: &Pattern,
    found: &mut BTreeMap<Name, bool>,
) -> Result<(), TreeFault>
    requires below { IsBelowRoot root.now path.now }
    requires seen { (name : List ℕ) → path.now ≡ child root.now name → Now (F.history files.old) (λ w. sees_at root.now (seen w.disk) name ≡ true) }

    ensures found { OnOk result (Now (F.history files.old) (λ w. Walked root.now pattern.now (is_at_or_inside path.now) (seen w.disk) found.old.entries found.new.entries)) }
    ensures answer { IsErr result → BreaksTree result }
    ensures history { F.history files.new ≡ F.history files.old }
    ensures cause { TreeCause (F.faults files.old) (F.faults files.new) result }
{
    if !look_for::<F, S>(alloc, files, root, path, pattern, found)? {
        return Ok(());
    }
    walk::<F, S>(alloc, files, root, path, pattern, found)
}

// Puts what stands in a directory at these names, and in what stands there.
#[cycle(listing)]
fn walk_names<F: Files, S: AnyMailbox<F>>(
    alloc: Global,
    files: &mut F,
    root: &str,
    dir: &str,
    names: &[String],
    pattern: &Pattern,
    found: &mut BTreeMap<Name, bool>,
) -> Result<(), TreeFault>
    requires short { length dir.now ≤ length root.now + 256 }
    requires within { IsWithin root.now dir.now }
    requires opened { Now (F.history files.old) (λ w. IsOpen root.now dir.now (seen w.disk)) }
    requires names { Now (F.history files.old) (λ w. AreNames dir.now (map string_bytes names.now) (seen w.disk)) }

    ensures found { OnOk result (Now (F.history files.old) (λ w. Walked root.now pattern.now (covers_names dir.now (map string_bytes names.now)) (seen w.disk) found.old.entries found.new.entries)) }
    ensures answer { IsErr result → BreaksTree result }
    ensures history { F.history files.new ≡ F.history files.old }
    ensures cause { TreeCause (F.faults files.old) (F.faults files.new) result }
{
    for name in names {
        let path = path_in(alloc, dir, name.as_str())?;
        walk_one::<F, S>(alloc, files, root, path.as_str(), pattern, found)?;
    }
    Ok(())
}

// Puts all that stands in a directory, and in the directories in it that may lead to a match.
// It goes no deeper than a name may be long, so a link that leads in a circle ends.
#[cycle(listing)]
fn walk<F: Files, S: AnyMailbox<F>>(
    alloc: Global,
    files: &mut F,
    root: &str,
    dir: &str,
    pattern: &Pattern,
    found: &mut BTreeMap<Name, bool>,
) -> Result<(), TreeFault>
    requires short { length dir.now ≤ length root.now + 256 }
    requires within { IsWithin root.now dir.now }
    requires opened { Now (F.history files.old) (λ w. IsOpen root.now dir.now (seen w.disk)) }

    ensures found { OnOk result (Now (F.history files.old) (λ w. Walked root.now pattern.now (is_inside dir.now) (seen w.disk) found.old.entries found.new.entries)) }
    ensures answer { IsErr result → BreaksTree result }
    ensures history { F.history files.new ≡ F.history files.old }
    ensures cause { TreeCause (F.faults files.old) (F.faults files.new) result }
{
    let names = names_in(alloc, files, dir)?;
    walk_names::<F, S>(alloc, files, root, dir, names.as_slice(), pattern, found)
}

// Puts what stands in the directory of a text, if it is a name's.
fn walk_below<F: Files, S: AnyMailbox<F>>(
    alloc: Global,
    files: &mut F,
    root: &str,
    text: &[u8],
    pattern: &Pattern,
    found: &mut BTreeMap<Name, bool>,
) -> Result<(), TreeFault>
    requires front { (name : List ℕ) → fits_name pattern.now name ≡ true → (rest : List ℕ) × (name ≡ child text.now rest) }

    ensures found { OnOk result (Now (F.history files.old) (λ w. WalkedAll root.now pattern.now (seen w.disk) found.old.entries found.new.entries)) }
    ensures answer { IsErr result → BreaksTree result }
    ensures history { F.history files.new ≡ F.history files.old }
    ensures cause { TreeCause (F.faults files.old) (F.faults files.new) result }
{
    let Some(name) = name_as(alloc, text)? else {
        return Ok(());
    };
    let path = path_of(alloc, root, &name)?;
    if !sees::<F, S>(alloc, files, root, path.as_str())? {
        return Ok(());
    }
    if !is_plain(look_at::<F, S>(alloc, files, path.as_str())?) {
        return Ok(());
    }
    walk::<F, S>(alloc, files, root, path.as_str(), pattern, found)
}

// Puts all names that match, from the last directory that the pattern names.
fn walk_all<F: Files, S: AnyMailbox<F>>(
    alloc: Global,
    files: &mut F,
    root: &str,
    pattern: &Pattern,
    found: &mut BTreeMap<Name, bool>,
) -> Result<(), TreeFault>
    requires root { HasRoot root.now (F.history files.old) }

    ensures found { OnOk result (Now (F.history files.old) (λ w. WalkedAll root.now pattern.now (seen w.disk) found.old.entries found.new.entries)) }
    ensures answer { IsErr result → BreaksTree result }
    ensures history { F.history files.new ≡ F.history files.old }
    ensures cause { TreeCause (F.faults files.old) (F.faults files.new) result }
{
    match pattern.front() {
        Some(front) => walk_below::<F, S>(alloc, files, root, front, pattern, found),
        None => walk::<F, S>(alloc, files, root, root, pattern, found),
    }
}

/// The names that LIST gives: those that match the reference and then the pattern, and see something. None match an empty pattern.
///
/// It reads the directories that may lead to a match alone, from the last one that the pattern names before its first wildcard.
pub fn list<F: Files, S: AnyMailbox<F>>(
    alloc: Global,
    files: &mut F,
    root: &str,
    reference: &[u8],
    pattern: &[u8],
) -> Result<Vec<Listed>, TreeFault>
    requires some { 1 ≤ length root.now }
    requires root { HasRoot root.now (F.history files.old) }

    ensures listed { IfOk result (λ names. ListsBy (formats_of S.forms chosen) root.now (λ tree. listed tree reference.now pattern.now) names.items (F.history files.old)) }
    ensures given { IfErr result (λ fault. IsTrue (breaks_tree fault)) }
    ensures history { F.history files.new ≡ F.history files.old }
    ensures cause { TreeCause (F.faults files.old) (F.faults files.new) result }
{
    let mut found = BTreeMap::new(alloc);
    if pattern.is_empty() {
        return Ok(as_list(alloc, found)?);
    }
    let whole = Pattern::of(alloc, reference, pattern)?;
    walk_all::<F, S>(alloc, files, root, &whole, &mut found)?;
    Ok(as_list(alloc, found)?)
}
