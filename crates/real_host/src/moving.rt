// A move: whose a replaced file stays, and what becomes of links.
use crate::directory::{is_nothing, sync_directory};
use std::fs::{self, Metadata, Permissions};
use std::io::{self, ErrorKind};
use std::os::unix::fs::{MetadataExt, PermissionsExt, chown};
use std::path::Path;
use std::rt::Runtime;

/// The bits of a mode that say who may read, write and run a file, and those of its owner alone.
const RIGHTS: u32 = 0o777;

const RIGHTS_OF_OWNER: u32 = 0o700;

/// Moves what stands at a path. A link that is moved stays a link; where a link leads to a file, that file is replaced.
pub(crate) fn move_path<R: Runtime>(rt: &R, from: &str, to: &str) -> io::Result<()> {
    let moved = fs::symlink_metadata(rt, from)?;
    if moved.is_symlink() {
        check_link(rt, from, to)?;
    }
    match fs::symlink_metadata(rt, to) {
        Ok(old) if old.is_symlink() => replace_behind_link(rt, from, &moved, to),
        Ok(old) => replace(rt, from, &moved, to, &old),
        Err(error) if is_nothing(error.kind()) => fs::rename(rt, from, to),
        Err(error) => Err(error),
    }
}

// A link whose text begins at its own directory would lead elsewhere from another one.
fn check_link<R: Runtime>(rt: &R, from: &str, to: &str) -> io::Result<()> {
    let stays = Path::new(from).parent() == Path::new(to).parent();
    if stays || fs::read_link(rt, from)?.as_path().is_absolute() {
        return Ok(());
    }
    Err(io::Error::new(
        ErrorKind::Unsupported,
        "a relative link would lead elsewhere",
    ))
}

// Replaces the file that a link leads to, and settles its name: a sync of the link's directory doesn't reach it.
fn replace_behind_link<R: Runtime>(
    rt: &R,
    from: &str,
    moved: &Metadata,
    link: &str,
) -> io::Result<()> {
    let path = fs::canonicalize(rt, link)?;
    let path = path.as_path();
    let old = fs::symlink_metadata(rt, path)?;
    replace(rt, from, moved, path.as_str(), &old)?;
    match path.parent() {
        Some(directory) => sync_directory(rt, directory.as_str()),
        None => Ok(()),
    }
}

// Only a file is replaced.
fn replace<R: Runtime>(
    rt: &R,
    from: &str,
    moved: &Metadata,
    to: &str,
    old: &Metadata,
) -> io::Result<()> {
    if !old.is_file() {
        return Err(io::Error::from(ErrorKind::AlreadyExists));
    }
    if moved.is_file() {
        take_over(rt, from, moved, old);
    }
    fs::rename(rt, from, to)
}

// Gives a file the owner, the group and the rights of the one that it replaces. Where it can't have that owner and group, it
// takes the owner's rights alone, so that nobody reads it who could not. None of this is a fault.
fn take_over<R: Runtime>(rt: &R, path: &str, moved: &Metadata, old: &Metadata) {
    let is_same = moved.uid() == old.uid() && moved.gid() == old.gid();
    let is_taken = is_same || chown(rt, path, Some(old.uid()), Some(old.gid())).is_ok();
    let rights = old.mode() & if is_taken { RIGHTS } else { RIGHTS_OF_OWNER };
    if moved.mode() & RIGHTS != rights {
        let _rights = fs::set_permissions(rt, path, Permissions::from_mode(rights));
    }
}
