// The host.
ghost use Rattle.std.specs.Prelude.{[]};

use crate::counts::{Calls, Counts};
use crate::input::Input;
use crate::tree::{Node, Tree};
use file_model::{Failed, Fault, Files, Host, Kind};
use std::alloc::{AllocError, Global};

/// A disk, an input and an output in memory, each of whose calls can be made to fail.
#[derive(Drop)]
pub struct BareHost {
    tree: Tree,
    input: Input,
    said: Vec<u8>,
    calls: Calls,
    counts: Counts,
}

impl BareHost {
    /// A host with nothing on its disk and no input, none of whose calls fails.
    pub fn new(alloc: Global) -> BareHost {
        BareHost {
            tree: Tree::new(alloc),
            input: Input::new(alloc),
            said: Vec::new(alloc),
            calls: Calls {
                made: 0,
                fails: Vec::new(alloc),
            },
            counts: Counts::new(),
        }
    }

    // ---- What a test begins with

    /// Puts a file on the disk, in the directories of its path, which are put too where nothing stands.
    pub fn put_file(&mut self, path: &str, bytes: &[u8]) -> Result<(), AllocError> {
        let bytes = Vec::from_slice(self.tree.alloc(), bytes)?;
        self.tree.put(path, Node::File(bytes))
    }

    /// Puts a directory there in the same way.
    pub fn put_dir(&mut self, path: &str) -> Result<(), AllocError> {
        self.tree.put(path, Node::Dir)
    }

    /// Adds a piece to the input: a call of `hear` gives bytes of one piece.
    pub fn add_input(&mut self, piece: &[u8]) -> Result<(), AllocError> {
        self.input.add(piece)
    }

    /// Adds a piece for each byte.
    pub fn add_single_bytes(&mut self, input: &[u8]) -> Result<(), AllocError> {
        for byte in input {
            self.input.add(&[*byte])?;
        }
        Ok(())
    }

    /// Lets the call of this number fail, counted from 0.
    pub fn fail_call(&mut self, number: u64) -> Result<(), AllocError> {
        self.calls.fails.push(number)?;
        Ok(())
    }

    /// The disk stays, and all else is as on a new host.
    pub fn restart(&mut self) {
        let alloc = self.tree.alloc();
        self.input = Input::new(alloc);
        self.said.clear();
        self.calls = Calls {
            made: 0,
            fails: Vec::new(alloc),
        };
        self.counts = Counts::new();
    }

    // ---- What it ends with

    /// What stands at a path.
    pub fn kind(&self, path: &str) -> Kind {
        self.tree.kind(path)
    }

    /// The bytes of the file at a path.
    pub fn file(&self, path: &str) -> Option<&[u8]> {
        self.tree.bytes(path)
    }

    /// All paths, by rising bytes, each with a line feed. A directory's has a slash at its end.
    pub fn paths(&self) -> Result<String, AllocError> {
        self.tree.shown()
    }

    /// The bytes that were said.
    pub fn said(&self) -> &[u8] {
        self.said.as_slice()
    }

    /// How many calls were made.
    pub fn calls(&self) -> u64 {
        self.calls.made
    }

    pub fn bytes_read(&self) -> u64 {
        self.counts.read
    }

    pub fn file_faults(&self) -> u64 {
        self.counts.file
    }

    pub fn hear_faults(&self) -> u64 {
        self.counts.hear
    }

    pub fn say_faults(&self) -> u64 {
        self.counts.say
    }
}

impl Files for BareHost {
    ghost use Rattle.bare_host.specs.Counts.{faults_of};

    ghost history = { λ host. [] };

    ghost faults = { λ host. faults_of host.counts };

    ghost sound = { λ host. tt };

    fn stat(&mut self, path: &str) -> Result<Kind, Failed> {
        if self.calls.begin() {
            return Ok(self.tree.kind(path));
        }
        self.counts.file = self.counts.file.saturating_add(1);
        Err(Failed)
    }

    fn read_at(&mut self, path: &str, from: u64, buf: &mut [u8]) -> Result<usize, Failed> {
        if self.calls.begin() {
            if let Some(count) = self.tree.read(path, from, buf) {
                self.counts.read = self.counts.read.saturating_add(count as u64);
                return Ok(count);
            }
        }
        self.counts.file = self.counts.file.saturating_add(1);
        Err(Failed)
    }

    fn names(&mut self, alloc: Global, dir: &str) -> Result<Vec<String>, Fault> {
        if !self.calls.begin() || self.tree.kind(dir) != Kind::Dir {
            self.counts.file = self.counts.file.saturating_add(1);
            return Err(Fault::Failed);
        }
        match self.tree.names(alloc, dir) {
            Ok(names) => Ok(names),
            Err(_) => Err(Fault::Memory),
        }
    }

    fn make(&mut self, path: &str) -> Result<(), Failed> {
        let file = Node::File(Vec::new(self.tree.alloc()));
        let done = self.calls.begin() && self.tree.make(path, file);
        self.counts.end_change(done)
    }

    fn make_dir(&mut self, path: &str) -> Result<(), Failed> {
        let done = self.calls.begin() && self.tree.make(path, Node::Dir);
        self.counts.end_change(done)
    }

    fn write_at(&mut self, path: &str, from: u64, bytes: &[u8]) -> Result<(), Failed> {
        let done = self.calls.begin() && self.tree.write(path, from, bytes);
        self.counts.end_change(done)
    }

    fn cut(&mut self, path: &str, length: u64) -> Result<(), Failed> {
        let done = self.calls.begin() && self.tree.cut(path, length);
        self.counts.end_change(done)
    }

    fn sync(&mut self, path: &str) -> Result<(), Failed> {
        let done = self.calls.begin() && self.tree.bytes(path).is_some();
        self.counts.end_change(done)
    }

    fn sync_dir(&mut self, path: &str) -> Result<(), Failed> {
        let done = self.calls.begin() && self.tree.kind(path) == Kind::Dir;
        self.counts.end_change(done)
    }

    fn rename(&mut self, from: &str, to: &str) -> Result<(), Failed> {
        let done = self.calls.begin() && self.tree.rename(from, to);
        self.counts.end_change(done)
    }

    fn remove(&mut self, path: &str) -> Result<(), Failed> {
        let done = self.calls.begin() && self.tree.remove(path);
        self.counts.end_change(done)
    }

    fn remove_dir(&mut self, path: &str) -> Result<(), Failed> {
        let done = self.calls.begin() && self.tree.remove_dir(path);
        self.counts.end_change(done)
    }
}

impl Host for BareHost {
    fn hear(&mut self, buf: &mut [u8]) -> Result<usize, Failed> {
        if self.calls.begin() {
            return Ok(self.input.give(buf));
        }
        self.counts.hear = self.counts.hear.saturating_add(1);
        Err(Failed)
    }

    /// One that is to fail says the first half of the bytes.
    fn say(&mut self, bytes: &[u8]) -> Result<(), Failed> {
        let runs = self.calls.begin();
        let part = if runs { bytes.len() } else { bytes.len() / 2 };
        let done = self.said.extend_from_slice(&bytes[..part]).is_ok();
        self.counts.end_say(done && runs)
    }
}
