// The names that reads see, and the contents that they lead to.
ghost use Rattle.std.specs.Prelude.{◌≡◌, ◌++◌, ◌∷◌, [], List, ℕ, length, map, string_bytes, IsSome, IfOk, OnOk, OnErr, Some, None, option_map};
ghost use Rattle.std.specs.Borrow.{Bor};
ghost use Rattle.std.specs.Str.{bytes_eq};
ghost use Rattle.std.specs.List.{cons_option, filter};
ghost use Rattle.std.specs.FinMap.{entries, retain_keys};
ghost use Rattle.std.specs.Map.{update};
ghost use Rattle.std.specs.BTreeMap.{get_by_text};
ghost use Rattle.file_model.specs.Paths.{is_at_or_inside};
ghost use Rattle.file_model.specs.Disk.{Disk, seen, seen_names, moved_path, moved_directory, done, after, rename};
ghost use Rattle.file_model.specs.Images.{Image, Names, node_at, bytes_at, name_within, names_in};
ghost use Rattle.file_model.specs.Kinds.{kind_of};
ghost use Rattle.mem_host.specs.Mirrored.{Mirrors, IsStored, Shows, shown, place_entry, stays};

use file_model::{Kind, split};
use std::alloc::{AllocError, Global};
use std::collections::BTreeMap;

/// What a name leads to: a file by its number, or a directory.
#[derive(Clone, Copy)]
pub(crate) enum Place {
    File(usize),
    Dir,
}

pub(crate) fn put_name(
    alloc: Global,
    names: &mut BTreeMap<String, Place>,
    path: &str,
    place: Place,
) -> Result<(), AllocError>
    ensures ok { OnOk result ((q : List ℕ) → get_by_text names.new q ≡ update bytes_eq (get_by_text names.old) path.now (Some place) q) }
    ensures err { OnErr result ((q : List ℕ) → get_by_text names.new q ≡ get_by_text names.old q) }
{
    let key = String::from_str(alloc, path)?;
    names.insert(key, place)?;
    Ok(())
}

pub(crate) fn take_name(names: &mut BTreeMap<String, Place>, path: &str)
    ensures left { (q : List ℕ) → get_by_text names.new q ≡ update bytes_eq (get_by_text names.old) path.now None q }
{
    names.remove(path);
}

/// Moves a file over a file or nothing, or a directory with all that is in it. Where that fails all stays as it was.
pub(crate) fn rename_in(
    alloc: Global,
    names: &mut BTreeMap<String, Place>,
    from: &str,
    to: &str,
) -> Result<(), AllocError>
    requires { IsSome (get_by_text names.old from.now) }
    ensures ok { OnOk result ((disk : Disk) → Shows names.old (seen_names disk) → Shows names.new (seen_names (after (rename from.now to.now) disk))) }
    ensures err { OnErr result ((q : List ℕ) → get_by_text names.new q ≡ get_by_text names.old q) }
{
    match names.get(from).copied() {
        Some(Place::File(id)) => move_name(alloc, names, from, to, id),
        Some(Place::Dir) => {
            let moved = moved_names(alloc, names, from, to)?;
            *names = moved;
            Ok(())
        }
        None => unreachable!(),
    }
}

/// Moves the name of a file.
pub(crate) fn move_name(
    alloc: Global,
    names: &mut BTreeMap<String, Place>,
    from: &str,
    to: &str,
    id: usize,
) -> Result<(), AllocError>
    ensures ok { OnOk result ((q : List ℕ) → get_by_text names.new q ≡ update bytes_eq (update bytes_eq (get_by_text names.old) from.now None) to.now (Some (Place.File id)) q) }
    ensures err { OnErr result ((q : List ℕ) → get_by_text names.new q ≡ get_by_text names.old q) }
{
    put_name(alloc, names, to, Place::File(id))?;
    if from != to {
        take_name(names, from);
    }
    Ok(())
}

/// Puts a file of a new number. Where that fails all stays as it was.
pub(crate) fn put_content(
    alloc: Global,
    names: &mut BTreeMap<String, Place>,
    contents: &mut Vec<Vec<u8>>,
    path: &str,
    bytes: Vec<u8>,
) -> Result<(), AllocError>
    ensures name { OnOk result ((q : List ℕ) → get_by_text names.new q ≡ update bytes_eq (get_by_text names.old) path.now (Some (Place.File (length contents.old.items))) q) }
    ensures content { OnOk result (contents.new.items ≡ contents.old.items ++ bytes ∷ []) }
    ensures names { OnErr result ((q : List ℕ) → get_by_text names.new q ≡ get_by_text names.old q) }
    ensures contents { OnErr result (contents.new.items ≡ contents.old.items) }
{
    contents.reserve(1)?;
    put_name(alloc, names, path, Place::File(contents.len()))?;
    contents.push(bytes)?;
    Ok(())
}

pub(crate) fn kind_at(names: &BTreeMap<String, Place>, contents: &[Vec<u8>], path: &str) -> Kind
    requires { IsStored path.now names.now contents.now }
    ensures { (disk : Disk) → Mirrors names.now contents.now disk → result ≡ kind_of (node_at (seen disk) path.now) }
{
    match names.get(path) {
        None => Kind::Nothing,
        Some(Place::Dir) => Kind::Dir,
        Some(Place::File(id)) => Kind::File(contents[*id].len() as u64),
    }
}

pub(crate) fn content_at<'a>(
    names: &BTreeMap<String, Place>,
    contents: &'a [Vec<u8>],
    path: &str,
) -> Option<&'a [u8]>
    requires { IsStored path.now names.now contents.now }
    ensures { (disk : Disk) → Mirrors names.now contents.now disk → option_map (λ (b : Bor (List ℕ)). b.now) result ≡ bytes_at (seen disk) path.now }
{
    match names.get(path) {
        Some(Place::File(id)) => Some(contents[*id].as_slice()),
        _ => None,
    }
}

/// The names in a directory, by rising bytes.
pub(crate) fn names_in(
    alloc: Global,
    names: &BTreeMap<String, Place>,
    dir: &str,
) -> Result<Vec<String>, AllocError>
    ensures { IfOk result (λ found. (image : Image) → Shows names.now image.names → map string_bytes found.items ≡ names_in image dir.now) }
{
    let mut found = Vec::new(alloc);
    for (path, _) in names.iter() {
        push_name(alloc, dir, path, &mut found)?;
    }
    Ok(found)
}

// Takes the name of a path in a directory, if it has one there.
fn push_name(
    alloc: Global,
    dir: &str,
    path: &str,
    found: &mut Vec<String>,
) -> Result<(), AllocError>
    ensures { OnOk result (map string_bytes found.new.items ≡ map string_bytes found.old.items ++ cons_option (name_within dir.now path.now) []) }
{
    if let Some(name) = name_within(dir, path) {
        found.push(String::from_str(alloc, name)?)?;
    }
    Ok(())
}

// The name by which a path stands in a directory itself.
fn name_within<'a>(dir: &str, path: &'a str) -> Option<&'a str>
    ensures { option_map (λ (b : Bor (List ℕ)). b.now) result ≡ name_within dir.now path.now }
{
    match split(path) {
        Some((parent, name)) if parent == dir => Some(name),
        _ => None,
    }
}

/// The names after a directory was moved with all that is in it.
pub(crate) fn moved_names(
    alloc: Global,
    names: &BTreeMap<String, Place>,
    from: &str,
    to: &str,
) -> Result<BTreeMap<String, Place>, AllocError>
    ensures { IfOk result (λ moved. (old : Names) → Shows names.now old → Shows moved (done (moved_directory from.now to.now) old)) }
{
    let mut left = names_beside(alloc, names, to)?;
    let mut moved = BTreeMap::new(alloc);
    while let Some((path, place)) = left.pop() {
        moved.insert(moved_path(alloc, from, to, path)?, place)?;
    }
    Ok(moved)
}

// The names but for a directory's and those in it.
fn names_beside(
    alloc: Global,
    names: &BTreeMap<String, Place>,
    dir: &str,
) -> Result<Vec<(String, Place)>, AllocError>
    ensures { IfOk result (λ left. (all : Names) → Shows names.now all → shown left.items ≡ entries (retain_keys all (stays dir.now))) }
{
    let mut left = Vec::new(alloc);
    for (path, place) in names.iter() {
        push_beside(alloc, dir, path, *place, &mut left)?;
    }
    Ok(left)
}

// Takes a name but for a directory's and those in it.
fn push_beside(
    alloc: Global,
    dir: &str,
    path: &str,
    place: Place,
    left: &mut Vec<(String, Place)>,
) -> Result<(), AllocError>
    ensures { OnOk result (shown left.new.items ≡ shown left.old.items ++ filter (λ e. stays dir.now e.0) ((path.now, place_entry place) ∷ [])) }
{
    if !is_at_or_inside(dir, path) {
        left.push((String::from_str(alloc, path)?, place))?;
    }
    Ok(())
}

fn is_at_or_inside(dir: &str, path: &str) -> bool
    ensures { result ≡ is_at_or_inside dir.now path.now }
{
    match path.as_bytes().strip_prefix(dir.as_bytes()) {
        Some(rest) => rest.is_empty() || rest[0] == b'/',
        None => false,
    }
}

fn moved_path(alloc: Global, from: &str, to: &str, path: String) -> Result<String, AllocError>
    ensures { IfOk result (λ moved. string_bytes moved ≡ moved_path from.now to.now (string_bytes path)) }
{
    if !is_at_or_inside(from, path.as_str()) {
        return Ok(path);
    }
    let mut moved = String::from_str(alloc, to)?;
    moved.push_str(&path[from.len()..])?;
    Ok(moved)
}
