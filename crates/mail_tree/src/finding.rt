// The names that LSUB gives.
ghost use Rattle.std.specs.Prelude.{◌≡◌, ◌≤◌, Bool, [], ◌∷◌, true, false, length, map, IfOk, IfErr, OnOk, IsTrue};
ghost use Rattle.std.specs.FinMap.{FinMap, entries, insert, empty};
ghost use Rattle.file_model.specs.Images.{path_cmp};
ghost use Rattle.any_store.specs.Choice.{formats_of, chosen};
ghost use Rattle.mail_tree.specs.declared.finding.Listed.{Listed as ListedEntry};
ghost use Rattle.mail_tree.specs.Changes.{breaks_tree};
ghost use Rattle.mail_tree.specs.Listing.{put_all, put_fitting, as_listed, names_above, listed_subscribed};
ghost use Rattle.mail_tree.specs.Names.{IsName, prefixes};
ghost use Rattle.mail_tree.specs.Promises.{TreeCause, HasRoot, ListsBy};
ghost use Rattle.std.specs.List.{flat_map};

use crate::matching::Pattern;
use crate::subscriptions::subscribed;
use crate::{Name, TreeFault};
use any_store::AnyMailbox;
use file_model::Files;
use std::alloc::{AllocError, Global};
use std::collections::BTreeMap;

/// A name that LIST or LSUB gives. Of LSUB `directory` says that it is above a subscribed name, and none itself.
#[derive(Debug, Drop)]
pub struct Listed {
    pub name: Name,
    pub directory: bool,
}

/// One more name.
pub fn put_name(
    found: &mut BTreeMap<Name, bool>,
    name: Name,
    directory: bool,
) -> Result<(), AllocError>
    ensures { (m : FinMap path_cmp Bool) → entries m ≡ found.old.entries → OnOk result (found.new.entries ≡ entries (insert m name directory)) }
{
    found.insert(name, directory)?;
    Ok(())
}

// A name that stands in a text, if it matches.
fn put_if_fits(
    alloc: Global,
    found: &mut BTreeMap<Name, bool>,
    pattern: &Pattern,
    text: &[u8],
    directory: bool,
) -> Result<(), AllocError>
    requires { IsName text.now }
    ensures { (m : FinMap path_cmp Bool) → entries m ≡ found.old.entries → OnOk result (found.new.entries ≡ entries (put_fitting directory pattern.now (text.now ∷ []) m)) }
{
    if !pattern.fits(text) {
        return Ok(());
    }
    match Name::read(alloc, text)? {
        Some(name) => put_name(found, name, directory),
        None => Ok(()),
    }
}

// The directories above a name that match.
fn put_above(
    alloc: Global,
    found: &mut BTreeMap<Name, bool>,
    pattern: &Pattern,
    name: &Name,
) -> Result<(), AllocError>
    ensures { (m : FinMap path_cmp Bool) → entries m ≡ found.old.entries → OnOk result (found.new.entries ≡ entries (put_fitting true pattern.now (prefixes name.now) m)) }
{
    let text = name.as_slice();
    for place in 0..text.len() {
        if text[place] == b'/' {
            put_if_fits(alloc, found, pattern, &text[..place], true)?;
        }
    }
    Ok(())
}

// The directories above all names that match.
fn put_all_above(
    alloc: Global,
    found: &mut BTreeMap<Name, bool>,
    pattern: &Pattern,
    names: &[Name],
) -> Result<(), AllocError>
    ensures { (m : FinMap path_cmp Bool) → entries m ≡ found.old.entries → OnOk result (found.new.entries ≡ entries (put_fitting true pattern.now (flat_map prefixes names.now) m)) }
{
    for name in names {
        put_above(alloc, found, pattern, name)?;
    }
    Ok(())
}

// What is found of the directories above names: none, unless the pattern asks for them.
fn found_above(
    alloc: Global,
    pattern: &Pattern,
    names: &[Name],
) -> Result<BTreeMap<Name, bool>, AllocError>
    ensures { IfOk result (λ found. found.entries ≡ entries (put_all true (names_above pattern.now names.now) empty)) }
{
    let mut found = BTreeMap::new(alloc);
    if !pattern.ends_in_percent() {
        return Ok(found);
    }
    put_all_above(alloc, &mut found, pattern, names)?;
    Ok(found)
}

// The names themselves that match.
fn put_names(
    alloc: Global,
    found: &mut BTreeMap<Name, bool>,
    pattern: &Pattern,
    names: &[Name],
) -> Result<(), AllocError>
    ensures { (m : FinMap path_cmp Bool) → entries m ≡ found.old.entries → OnOk result (found.new.entries ≡ entries (put_fitting false pattern.now names.now m)) }
{
    for name in names {
        put_if_fits(alloc, found, pattern, name.as_slice(), false)?;
    }
    Ok(())
}

/// By rising bytes.
pub fn as_list(alloc: Global, found: BTreeMap<Name, bool>) -> Result<Vec<Listed>, AllocError>
    ensures { IfOk result (λ list. map (λ (entry : ListedEntry). record { name = entry.name; directory = entry.directory }) list.items ≡ as_listed found.entries) }
{
    let mut list = Vec::new(alloc);
    for (name, directory) in found {
        list.push(Listed { name, directory })?;
    }
    Ok(list)
}

/// The names that LSUB gives: those subscribed that match the reference and then the pattern, and where these end in `%` the directories above subscribed names.
pub fn lsub<F: Files, S: AnyMailbox<F>>(
    alloc: Global,
    files: &mut F,
    root: &str,
    reference: &[u8],
    pattern: &[u8],
) -> Result<Vec<Listed>, TreeFault>
    requires some { 1 ≤ length root.now }
    requires root { HasRoot root.now (F.history files.old) }

    ensures listed { IfOk result (λ names. ListsBy (formats_of S.forms chosen) root.now (λ tree. listed_subscribed tree reference.now pattern.now) names.items (F.history files.old)) }
    ensures given { IfErr result (λ fault. IsTrue (breaks_tree fault)) }
    ensures history { F.history files.new ≡ F.history files.old }
    ensures cause { TreeCause (F.faults files.old) (F.faults files.new) result }
{
    let names = subscribed(alloc, files, root)?;
    let whole = Pattern::of(alloc, reference, pattern)?;
    let mut found = found_above(alloc, &whole, names.as_slice())?;
    put_names(alloc, &mut found, &whole, names.as_slice())?;
    let list = as_list(alloc, found)?;
    Ok(list)
}
