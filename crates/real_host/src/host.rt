// The host: each call is passed on to the standard library.
ghost use Rattle.std.specs.Prelude.{◌≡◌, ◌≤◌, ◌+◌, ◌-◌, ◌^◌, [], min, length, IfOk};
ghost use Rattle.file_model.specs.Causes.{FileCause};

use crate::directory::{list_names, make_directory, remove_directory, sync_directory, what_stands};
use crate::file::{cut_file, make_file, read_file, remove_file, sync_file, write_file};
use crate::moving::move_path;
use crate::noted::{Call, NotedFault};
use crate::opened::Opened;
use crate::streams::{read_input, write_output};
use file_model::{Failed, Fault, Files, Host, Kind};
use std::alloc::Global;
use std::io::{self, ErrorKind};
use std::rt::Runtime;

/// The host of a process. Its counts begin at 0, and one at its last value stays there.
#[derive(Drop)]
pub struct RealHost<R: Runtime> {
    rt: R,
    // The file that was read last, so that many reads of one file open it once.
    opened: Option<Opened<R::File, R::A>>,
    last_fault: Option<NotedFault<R::A>>,
    file_faults: u64,
    hear_faults: u64,
    say_faults: u64,
    bytes_read: u64,
}

impl<R: Runtime> RealHost<R> {
    pub fn new(rt: R) -> RealHost<R> {
        RealHost {
            rt,
            opened: None,
            last_fault: None,
            file_faults: 0,
            hear_faults: 0,
            say_faults: 0,
            bytes_read: 0,
        }
    }

    /// The call that failed last. None where none failed, or where no memory was left to keep it.
    pub fn last_fault(&self) -> Option<&NotedFault<R::A>> {
        self.last_fault.as_ref()
    }

    fn fail(&mut self, call: Call, path: &str, error: io::Error) -> Failed
        ensures hear { self.new.hear_faults ≡ self.old.hear_faults }
        ensures say { self.new.say_faults ≡ self.old.say_faults }
        ensures read { self.new.bytes_read ≡ self.old.bytes_read }
        ensures later { self.old.file_faults ≤ self.new.file_faults }
        ensures rose { min (self.old.file_faults + 1) (2 ^ 64 - 1) ≤ self.new.file_faults }
    {
        self.last_fault = NotedFault::note(self.rt.alloc(), call, path, error);
        self.file_faults = self.file_faults.saturating_add(1);
        Failed
    }

    // What came of a change of the files. The file that was read last may be another one now.
    fn after_change(&mut self, call: Call, path: &str, done: io::Result<()>) -> Result<(), Failed>
        ensures cause { FileCause
            (record { file = self.old.file_faults; hear = self.old.hear_faults; say = self.old.say_faults; read = self.old.bytes_read })
            (record { file = self.new.file_faults; hear = self.new.hear_faults; say = self.new.say_faults; read = self.new.bytes_read }) result }
    {
        self.opened = None;
        match done {
            Ok(()) => Ok(()),
            Err(error) => Err(self.fail(call, path, error)),
        }
    }

    // Whether the file that was read last is the one at this path, as far as is known.
    fn has_open(&self, path: &str) -> bool {
        match &self.opened {
            Some(opened) => opened.is_at(path),
            None => false,
        }
    }

    fn read(&mut self, path: &str, from: u64, buf: &mut [u8]) -> io::Result<usize>
        ensures within { IfOk result (λ n. n ≤ length buf.new) }
        ensures file { self.new.file_faults ≡ self.old.file_faults }
        ensures hear { self.new.hear_faults ≡ self.old.hear_faults }
        ensures say { self.new.say_faults ≡ self.old.say_faults }
        ensures read { self.new.bytes_read ≡ self.old.bytes_read }
    {
        let mut opened = match self.opened.take() {
            Some(opened) if opened.is_at(path) => opened,
            _ => Opened::open(&self.rt, path)?,
        };
        let count = read_file(opened.file(), from, buf)?;
        self.opened = Some(opened);
        Ok(count)
    }
}

impl<R: Runtime> Files for RealHost<R> {
    ghost history = { λ host. [] };

    ghost faults = { λ host. record { file = host.file_faults; hear = host.hear_faults; say = host.say_faults; read = host.bytes_read } };

    ghost sound = { λ host. tt };

    // The file that was read last may have been replaced by another program, and is opened again behind this call.
    fn stat(&mut self, path: &str) -> Result<Kind, Failed> {
        if self.has_open(path) {
            self.opened = None;
        }
        match what_stands(&self.rt, path) {
            Ok(kind) => Ok(kind),
            Err(error) => Err(self.fail(Call::Stat, path, error)),
        }
    }

    fn read_at(&mut self, path: &str, from: u64, buf: &mut [u8]) -> Result<usize, Failed> {
        match self.read(path, from, buf) {
            Ok(count) => {
                self.bytes_read = self.bytes_read.saturating_add(count as u64);
                Ok(count)
            }
            Err(error) => Err(self.fail(Call::Read, path, error)),
        }
    }

    fn names(&mut self, alloc: Global, dir: &str) -> Result<Vec<String>, Fault> {
        match list_names(&self.rt, alloc, dir) {
            Ok(names) => Ok(names),
            Err(error) if error.kind() == ErrorKind::OutOfMemory => Err(Fault::Memory),
            Err(error) => {
                let _failed = self.fail(Call::Names, dir, error);
                Err(Fault::Failed)
            }
        }
    }

    fn make(&mut self, path: &str) -> Result<(), Failed> {
        let done = make_file(&self.rt, path);
        self.after_change(Call::Make, path, done)
    }

    fn make_dir(&mut self, path: &str) -> Result<(), Failed> {
        let done = make_directory(&self.rt, path);
        self.after_change(Call::MakeDir, path, done)
    }

    fn write_at(&mut self, path: &str, from: u64, bytes: &[u8]) -> Result<(), Failed> {
        let done = write_file(&self.rt, path, from, bytes);
        self.after_change(Call::Write, path, done)
    }

    fn cut(&mut self, path: &str, length: u64) -> Result<(), Failed> {
        let done = cut_file(&self.rt, path, length);
        self.after_change(Call::Cut, path, done)
    }

    fn sync(&mut self, path: &str) -> Result<(), Failed> {
        match sync_file(&self.rt, path) {
            Ok(()) => Ok(()),
            Err(error) => Err(self.fail(Call::Sync, path, error)),
        }
    }

    fn sync_dir(&mut self, path: &str) -> Result<(), Failed> {
        match sync_directory(&self.rt, path) {
            Ok(()) => Ok(()),
            Err(error) => Err(self.fail(Call::SyncDir, path, error)),
        }
    }

    fn rename(&mut self, from: &str, to: &str) -> Result<(), Failed> {
        let done = move_path(&self.rt, from, to);
        self.after_change(Call::Rename, to, done)
    }

    fn remove(&mut self, path: &str) -> Result<(), Failed> {
        let done = remove_file(&self.rt, path);
        self.after_change(Call::Remove, path, done)
    }

    fn remove_dir(&mut self, path: &str) -> Result<(), Failed> {
        let done = remove_directory(&self.rt, path);
        self.after_change(Call::RemoveDir, path, done)
    }
}

impl<R: Runtime> Host for RealHost<R> {
    fn hear(&mut self, buf: &mut [u8]) -> Result<usize, Failed> {
        match read_input(&self.rt, buf) {
            Ok(count) => Ok(count),
            Err(error) => {
                self.last_fault = NotedFault::note(self.rt.alloc(), Call::Hear, "", error);
                self.hear_faults = self.hear_faults.saturating_add(1);
                Err(Failed)
            }
        }
    }

    fn say(&mut self, bytes: &[u8]) -> Result<(), Failed> {
        match write_output(&self.rt, bytes) {
            Ok(()) => Ok(()),
            Err(error) => {
                self.last_fault = NotedFault::note(self.rt.alloc(), Call::Say, "", error);
                self.say_faults = self.say_faults.saturating_add(1);
                Err(Failed)
            }
        }
    }
}
