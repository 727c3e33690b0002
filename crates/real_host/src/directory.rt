// Directories, and the names in them.
use file_model::Kind;
use std::alloc::Global;
use std::fs::{self, DirBuilder, OpenFile};
use std::io::{self, ErrorKind};
use std::os::unix::fs::DirBuilderExt;
use std::path::AsPath;
use std::rt::Runtime;

/// What stands at a path, or where a link there leads. Nothing stands below a file, under a name that the system can't have,
/// and at a link that leads nowhere or round in a circle; and what is neither a file nor a directory is nothing too.
pub(crate) fn what_stands<R: Runtime, P: AsPath>(rt: &R, path: P) -> io::Result<Kind> {
    let metadata = match fs::metadata(rt, path) {
        Ok(metadata) => metadata,
        Err(error) if is_nothing(error.kind()) => return Ok(Kind::Nothing),
        Err(error) => return Err(error),
    };
    if metadata.is_dir() {
        return Ok(Kind::Dir);
    }
    if metadata.is_file() {
        return Ok(Kind::File(metadata.len()));
    }
    Ok(Kind::Nothing)
}

/// Whether the system answers so where nothing stands.
pub(crate) fn is_nothing(kind: ErrorKind) -> bool {
    matches!(
        kind,
        ErrorKind::NotFound
            | ErrorKind::NotADirectory
            | ErrorKind::InvalidFilename
            | ErrorKind::FilesystemLoop
    )
}

/// The names in a directory at which something stands. One that isn't UTF-8 is an error.
pub(crate) fn list_names<R: Runtime>(rt: &R, alloc: Global, dir: &str) -> io::Result<Vec<String>> {
    let mut names = Vec::new(alloc);
    for entry in fs::read_dir(rt, dir)? {
        let entry = entry?;
        if what_stands(rt, entry.path())? != Kind::Nothing {
            names.push(String::from_str(alloc, entry.file_name())?)?;
        }
    }
    Ok(names)
}

/// Makes a directory for its owner alone.
pub(crate) fn make_directory<R: Runtime>(rt: &R, path: &str) -> io::Result<()> {
    DirBuilder::new().mode(0o700).create(rt, path)
}

pub(crate) fn remove_directory<R: Runtime>(rt: &R, path: &str) -> io::Result<()> {
    fs::remove_dir(rt, path)
}

/// A directory is synced as a file is.
pub(crate) fn sync_directory<R: Runtime>(rt: &R, path: &str) -> io::Result<()> {
    fs::open(rt, path)?.sync_all()
}
