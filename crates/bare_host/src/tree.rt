// The files and directories of a disk, by their paths.
ghost use Rattle.std.specs.Prelude.{◌≤◌, ◌<◌, length, IfSome};

use file_model::{Kind, split};
use std::alloc::{AllocError, Global};

/// What stands at a path.
#[derive(Drop)]
pub(crate) enum Node {
    Dir,
    File(Vec<u8>),
}

#[derive(Drop)]
struct Entry {
    path: String,
    node: Node,
}

/// Each path stands once, in no order.
#[derive(Drop)]
pub(crate) struct Tree {
    alloc: Global,
    entries: Vec<Entry>,
}

// A path at a directory or in it.
fn is_at_or_in(dir: &str, path: &str) -> bool {
    match path.as_bytes().strip_prefix(dir.as_bytes()) {
        Some(rest) => rest.is_empty() || rest[0] == b'/',
        None => false,
    }
}

// The path after what stands at `from` was moved.
fn moved_path(alloc: Global, from: &str, to: &str, path: &str) -> Result<String, AllocError> {
    if !is_at_or_in(from, path) {
        return String::from_str(alloc, path);
    }
    let mut moved = String::from_str(alloc, to)?;
    moved.push_str(path.get(from.len()..).unwrap_or(""))?;
    Ok(moved)
}

fn write_bytes(content: &mut Vec<u8>, place: usize, bytes: &[u8]) -> Result<(), AllocError>
    requires { place ≤ length content.old.items }
{
    let end = place + bytes.len();
    if end > content.len() {
        content.resize(end, 0)?;
    }
    content[place..end].copy_from_slice(bytes);
    Ok(())
}

impl Tree {
    pub(crate) fn new(alloc: Global) -> Tree {
        Tree {
            alloc,
            entries: Vec::new(alloc),
        }
    }

    pub(crate) fn alloc(&self) -> Global {
        self.alloc
    }

    fn place(&self, path: &str) -> Option<usize>
        ensures { IfSome result (λ at. at < length self.now.entries.items) }
    {
        for (at, entry) in self.entries.iter().enumerate() {
            if entry.path.as_str() == path {
                return Some(at);
            }
        }
        None
    }

    pub(crate) fn kind(&self, path: &str) -> Kind {
        let Some(at) = self.place(path) else {
            return Kind::Nothing;
        };
        match &self.entries[at].node {
            Node::Dir => Kind::Dir,
            Node::File(bytes) => Kind::File(bytes.len() as u64),
        }
    }

    pub(crate) fn bytes(&self, path: &str) -> Option<&[u8]> {
        let at = self.place(path)?;
        match &self.entries[at].node {
            Node::Dir => None,
            Node::File(bytes) => Some(bytes.as_slice()),
        }
    }

    fn bytes_mut(&mut self, path: &str) -> Option<&mut Vec<u8>> {
        let at = self.place(path)?;
        match &mut self.entries[at].node {
            Node::Dir => None,
            Node::File(bytes) => Some(bytes),
        }
    }

    /// Puts this at a path, in the place of what stands there.
    fn set(&mut self, path: &str, node: Node) -> Result<(), AllocError> {
        match self.place(path) {
            Some(at) => self.entries[at].node = node,
            None => {
                let path = String::from_str(self.alloc, path)?;
                self.entries.push(Entry { path, node })?;
            }
        }
        Ok(())
    }

    /// Puts this at a path, and directories above it where nothing stands.
    pub(crate) fn put(&mut self, path: &str, node: Node) -> Result<(), AllocError> {
        for (at, byte) in path.as_bytes().iter().enumerate() {
            if *byte == b'/' && at > 0 {
                self.put_parent(path.get(..at).unwrap_or(""))?;
            }
        }
        self.set(path, node)
    }

    fn put_parent(&mut self, dir: &str) -> Result<(), AllocError> {
        if self.kind(dir) != Kind::Nothing {
            return Ok(());
        }
        self.set(dir, Node::Dir)
    }

    // Whether a directory stands above a path.
    fn has_room(&self, path: &str) -> bool {
        match split(path) {
            Some((dir, _)) => self.kind(dir) == Kind::Dir,
            None => false,
        }
    }

    pub(crate) fn make(&mut self, path: &str, node: Node) -> bool {
        self.kind(path) == Kind::Nothing && self.has_room(path) && self.set(path, node).is_ok()
    }

    /// Fills the buffer with what stands in a file from a place on, and gives the count.
    pub(crate) fn read(&self, path: &str, from: u64, buf: &mut [u8]) -> Option<usize>
        ensures { IfSome result (λ count. count ≤ length buf.new) }
    {
        let bytes = self.bytes(path)?;
        let left = bytes.get(usize::try_from(from).ok()?..)?;
        let count = left.len().min(buf.len());
        buf[..count].copy_from_slice(&left[..count]);
        Some(count)
    }

    pub(crate) fn write(&mut self, path: &str, from: u64, bytes: &[u8]) -> bool {
        match self.bytes_mut(path) {
            Some(content) if from <= content.len() as u64 => {
                write_bytes(content, from as usize, bytes).is_ok()
            }
            _ => false,
        }
    }

    pub(crate) fn cut(&mut self, path: &str, length: u64) -> bool {
        match self.bytes_mut(path) {
            Some(content) if length <= content.len() as u64 => {
                content.truncate(length as usize);
                true
            }
            _ => false,
        }
    }

    /// The names in a directory.
    pub(crate) fn names(&self, alloc: Global, dir: &str) -> Result<Vec<String>, AllocError> {
        let mut names = Vec::new(alloc);
        for entry in self.entries.iter() {
            match split(entry.path.as_str()) {
                Some((parent, name)) if parent == dir => {
                    names.push(String::from_str(alloc, name)?)?;
                }
                _ => {}
            }
        }
        Ok(names)
    }

    fn is_empty(&self, dir: &str) -> bool {
        for entry in self.entries.iter() {
            match split(entry.path.as_str()) {
                Some((parent, _)) if parent == dir => return false,
                _ => {}
            }
        }
        true
    }

    fn take(&mut self, path: &str) -> bool {
        match self.place(path) {
            Some(at) => {
                self.entries.remove(at);
                true
            }
            None => false,
        }
    }

    pub(crate) fn remove(&mut self, path: &str) -> bool {
        self.bytes(path).is_some() && self.take(path)
    }

    pub(crate) fn remove_dir(&mut self, path: &str) -> bool {
        self.kind(path) == Kind::Dir && self.is_empty(path) && self.take(path)
    }

    pub(crate) fn rename(&mut self, from: &str, to: &str) -> bool {
        if !self.has_room(to) {
            return false;
        }
        match (self.kind(from), self.kind(to)) {
            (Kind::File(_), Kind::File(_)) => {
                from == to || (self.take(to) && self.move_all(from, to).is_ok())
            }
            (Kind::File(_), Kind::Nothing) => self.move_all(from, to).is_ok(),
            (Kind::Dir, Kind::Nothing) => {
                !is_at_or_in(from, to) && self.move_all(from, to).is_ok()
            }
            _ => false,
        }
    }

    // Moves what stands at a path, and all in it.
    fn move_all(&mut self, from: &str, to: &str) -> Result<(), AllocError> {
        for (at, path) in self.moved_paths(from, to)?.into_iter().enumerate() {
            if let Some(entry) = self.entries.get_mut(at) {
                entry.path = path;
            }
        }
        Ok(())
    }

    // The path of each entry after such a move.
    fn moved_paths(&self, from: &str, to: &str) -> Result<Vec<String>, AllocError> {
        let mut paths = Vec::new(self.alloc);
        for entry in self.entries.iter() {
            paths.push(moved_path(self.alloc, from, to, entry.path.as_str())?)?;
        }
        Ok(paths)
    }

    /// Each path as a line, by rising bytes. A directory's ends with a slash.
    pub(crate) fn shown(&self) -> Result<String, AllocError> {
        let mut paths = Vec::new(self.alloc);
        for entry in self.entries.iter() {
            let mut path = String::from_str(self.alloc, entry.path.as_str())?;
            path.push_str(match &entry.node {
                Node::Dir => "/\n",
                Node::File(_) => "\n",
            })?;
            paths.push(path)?;
        }
        paths.sort()?;
        joined(self.alloc, paths.as_slice())
    }
}

fn joined(alloc: Global, lines: &[String]) -> Result<String, AllocError> {
    let mut text = String::new(alloc);
    for line in lines {
        text.push_str(line.as_str())?;
    }
    Ok(text)
}
