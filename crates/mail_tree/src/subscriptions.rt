// The subscribed names, as their file has them.
ghost use Rattle.std.specs.Prelude.{◌≡◌, ◌<◌, IfOk, OnOk, IsErr, string_bytes};
ghost use Rattle.file_model.specs.Disk.{seen};
ghost use Rattle.file_model.specs.Histories.{Now};
ghost use Rattle.file_model.specs.Images.{text_at, file};
ghost use Rattle.mail_tree.specs.Names.{read_name};
ghost use Rattle.mail_tree.specs.Promises.{BreaksTree, TreeCause};
ghost use Rattle.mail_tree.specs.Subscriptions.{subscribed_in, with_found, subscription_text};
ghost use Rattle.mail_tree.specs.Trees.{list_of, HasText};

use crate::{Name, TreeFault};
use file_model::{Files, Kind};
use indexmap::IndexSet;
use memchr::memchr;
use std::alloc::{AllocError, Global};

/// The path of the file.
pub fn list_path(alloc: Global, root: &str) -> Result<String, AllocError>
    ensures { IfOk result (λ path. string_bytes path ≡ list_of root.now) }
{
    let mut path = String::from_str(alloc, root)?;
    path.push_str("/.mailboxlist")?;
    Ok(path)
}

// One more line.
fn put_line(alloc: Global, names: &mut IndexSet<Name>, line: &[u8]) -> Result<(), AllocError>
    ensures { OnOk result (names.new.keys ≡ with_found (read_name line.now) names.old.keys) }
{
    match Name::read(alloc, line)? {
        Some(name) => match names.insert(name) {
            Ok(_) => Ok(()),
            Err(_) => Err(AllocError),
        },
        None => Ok(()),
    }
}

// The names in a text.
fn names_in(alloc: Global, text: &[u8]) -> Result<IndexSet<Name>, AllocError>
    ensures { IfOk result (λ names. names.keys ≡ subscribed_in text.now) }
{
    let mut names = IndexSet::new(alloc);
    let mut rest = text;
    while let Some(at) = memchr(b'\n', rest) {
        put_line(alloc, &mut names, &rest[..at])?;
        rest = &rest[at + 1..];
    }
    Ok(names)
}

// The whole text of a file of so many bytes.
fn read_whole<F: Files>(
    alloc: Global,
    files: &mut F,
    path: &str,
    size: u64,
) -> Result<Vec<u8>, TreeFault>
    requires text { Now (F.history files.old) (λ w. HasText path.now size (seen w.disk)) }

    ensures value { IfOk result (λ text. Now (F.history files.old) (λ w. text.items ≡ text_at (seen w.disk) path.now)) }
    ensures answer { IsErr result → BreaksTree result }
    ensures history { F.history files.new ≡ F.history files.old }
    ensures cause { TreeCause (F.faults files.old) (F.faults files.new) result }
{
    let mut text = Vec::new(alloc);
    text.resize(size as usize, 0)?;
    let count = files.read_at(path, 0, &mut text)?;
    text.truncate(count);
    Ok(text)
}

// The text of what stands at a path, where no file is one without bytes.
fn text_of<F: Files>(alloc: Global, files: &mut F, path: &str) -> Result<Vec<u8>, TreeFault>
    ensures value { IfOk result (λ text. Now (F.history files.old) (λ w. text.items ≡ text_at (seen w.disk) path.now)) }
    ensures answer { IsErr result → BreaksTree result }
    ensures history { F.history files.new ≡ F.history files.old }
    ensures cause { TreeCause (F.faults files.old) (F.faults files.new) result }
{
    match files.stat(path)? {
        Kind::File(size) => read_whole(alloc, files, path, size),
        Kind::Dir => Ok(Vec::new(alloc)),
        Kind::Nothing => Ok(Vec::new(alloc)),
    }
}

/// The subscribed names, in the order of subscribing.
pub fn subscribed<F: Files>(
    alloc: Global,
    files: &mut F,
    root: &str,
) -> Result<IndexSet<Name>, TreeFault>
    ensures value { IfOk result (λ names. Now (F.history files.old) (λ w. names.keys ≡ subscribed_in (text_at (seen w.disk) (list_of root.now)))) }
    ensures answer { IsErr result → BreaksTree result }
    ensures history { F.history files.new ≡ F.history files.old }
    ensures cause { TreeCause (F.faults files.old) (F.faults files.new) result }
{
    let path = list_path(alloc, root)?;
    let text = text_of(alloc, files, path.as_str())?;
    let names = names_in(alloc, text.as_slice())?;
    Ok(names)
}

/// The text of the file with these names.
pub fn list_text(alloc: Global, names: &[Name]) -> Result<Vec<u8>, AllocError>
    ensures { IfOk result (λ text. text.items ≡ subscription_text names.now) }
{
    let mut text = Vec::new(alloc);
    for name in names {
        text.extend_from_slice(name.as_slice())?;
        text.push(b'\n')?;
    }
    Ok(text)
}
