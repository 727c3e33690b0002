// Disks, as cells of a table have them.
use bare_host::BareHost;
use std::alloc::{AllocError, Global};
use std::test::Fail;

/// The root of the tree.
pub(crate) const ROOT: &str = "/m";

/// The text of a cell.
pub(crate) fn text(cell: &[u8]) -> Result<&str, Fail> {
    match str::from_utf8(cell) {
        Ok(text) => Ok(text),
        Err(_) => Err(Fail::new("a cell that is no text")),
    }
}

/// What stands before the first `|` of a cell, and what behind it.
pub(crate) fn cut(cell: &str) -> (&str, &str) {
    cell.split_once('|').unwrap_or((cell, ""))
}

fn path_of(alloc: Global, name: &str) -> Result<String, AllocError> {
    let mut path = String::from_str(alloc, "/m/")?;
    path.push_str(name)?;
    Ok(path)
}

// `NAME=TEXT` is a file, `NAME/` a directory, and `NAME` an empty file.
fn put_entry(alloc: Global, host: &mut BareHost, entry: &str) -> Result<(), AllocError> {
    if let Some((name, text)) = entry.split_once('=') {
        return host.put_file(path_of(alloc, name)?.as_str(), text.as_bytes());
    }
    if let Some(name) = entry.strip_suffix('/') {
        return host.put_dir(path_of(alloc, name)?.as_str());
    }
    host.put_file(path_of(alloc, entry)?.as_str(), &[])
}

/// A host with a root in which these entries stand, with `&` between them.
pub(crate) fn host_of(alloc: Global, disk: &str) -> Result<BareHost, AllocError> {
    let mut host = BareHost::new(alloc);
    host.put_dir(ROOT)?;
    for entry in disk.split('&') {
        if !entry.is_empty() {
            put_entry(alloc, &mut host, entry)?;
        }
    }
    Ok(host)
}

// Whether a path is shown: it is below the root, and no file of a change that broke off.
fn is_shown(name: &str) -> bool {
    !name.is_empty() && !name.contains(".new")
}

/// The paths that stand below the root, by rising bytes, with a space between them.
pub(crate) fn shown_paths(alloc: Global, host: &BareHost) -> Result<String, AllocError> {
    let mut shown = String::new(alloc);
    for line in host.paths()?.as_str().split('\n') {
        let name = line.strip_prefix("/m/").unwrap_or("");
        if is_shown(name) {
            if !shown.is_empty() {
                shown.push(' ')?;
            }
            shown.push_str(name)?;
        }
    }
    Ok(shown)
}
