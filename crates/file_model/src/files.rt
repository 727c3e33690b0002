// Files: what reads see, and what a crash may leave.
ghost use Rattle.std.specs.Prelude.{◌≡◌, ◌≤◌, length, drop, map, string_bytes, IsPermutation, IfOk, IsErr, true};
ghost use Rattle.file_model.specs.Images.{node_at, names_in, is_directory};
ghost use Rattle.file_model.specs.Disk.{seen, make, make_dir, write_at, cut, sync, rename, remove_at, sync_dir};
ghost use Rattle.file_model.specs.Histories.{History, Now, GoesOn};
ghost use Rattle.file_model.specs.Causes.{Faults, FileCause, FaultCause, ReadCause, Counts};
ghost use Rattle.file_model.specs.Kinds.{kind_of, IsFile, CanMake, CanMakeDirectory, CanMove, IsEmptyDirectory, Gives};
ghost use Rattle.file_model.specs.Kept.{IsSound};

use std::alloc::Global;

/// What stands at a path.
#[derive(Clone, Copy, Debug, PartialEq, Eq)]
pub enum Kind {
    Nothing,
    File(u64),
    Dir,
}

/// A call on the host failed.
#[derive(Clone, Copy, Debug, PartialEq, Eq)]
pub struct Failed;

#[derive(Clone, Copy, Debug, PartialEq, Eq)]
pub enum Fault {
    Failed,
    Memory,
}

pub trait Files {
    /// The worlds since the session's start, the newest first. A host that is not modelled has none.
    ghost history: { Self → History };

    /// How often calls have failed, and how many bytes were read.
    ghost faults: { Self → Faults };

    /// What stands at the path.
    fn stat(&mut self, path: &str) -> Result<Kind, Failed>
        ensures kind { IfOk result (λ kind. Now (history self.old) (λ w. kind ≡ kind_of (node_at (seen w.disk) path.now))) }
        ensures same { history self.new ≡ history self.old }
        ensures cause { FileCause (faults self.old) (faults self.new) result };

    /// Fills the buffer from a place that isn't past the end, and gives the count, which is smaller only at the end of the file.
    fn read_at(&mut self, path: &str, from: u64, buf: &mut [u8]) -> Result<usize, Failed>
        requires { Now (history self.old) (λ w. IsFile (seen w.disk) path.now from) }
        ensures within { IfOk result (λ n. n ≤ length buf.new) }
        ensures gives { IfOk result (λ n. Now (history self.old) (λ w. Gives (seen w.disk) path.now from n buf.new)) }
        ensures rest { IfOk result (λ n. Now (history self.old) (λ w. drop n buf.new ≡ drop n buf.old)) }
        ensures same { history self.new ≡ history self.old }
        ensures cause { ReadCause (faults self.old) (faults self.new) result }
        ensures counts { Now (history self.old) (λ w. Counts (faults self.old).read result (faults self.new).read) };

    /// The names in a directory, each once, in no order.
    fn names(&mut self, alloc: Global, dir: &str) -> Result<Vec<String>, Fault>
        requires { Now (history self.old) (λ w. is_directory (seen w.disk) dir.now ≡ true) }
        ensures names { IfOk result (λ names. Now (history self.old) (λ w. IsPermutation (map string_bytes names.items) (names_in (seen w.disk) dir.now))) }
        ensures same { history self.new ≡ history self.old }
        ensures cause { FaultCause (faults self.old) (faults self.new) result };

    /// Makes an empty file. Fails where an obstructing directory stands.
    fn make(&mut self, path: &str) -> Result<(), Failed>
        requires { Now (history self.old) (λ w. CanMake (seen w.disk) path.now) }
        ensures goes_on { GoesOn (make path.now) result (history self.old) (history self.new) }
        ensures obstructed { Now (history self.old) (λ w. is_directory (seen w.disk) path.now ≡ true → IsErr result × (history self.new ≡ history self.old)) }
        ensures cause { FileCause (faults self.old) (faults self.new) result };

    /// Makes an empty directory.
    fn make_dir(&mut self, path: &str) -> Result<(), Failed>
        requires { Now (history self.old) (λ w. CanMakeDirectory (seen w.disk) path.now) }
        ensures goes_on { GoesOn (make_dir path.now) result (history self.old) (history self.new) }
        ensures cause { FileCause (faults self.old) (faults self.new) result };

    /// Writes at a place that isn't past the end of a file.
    fn write_at(&mut self, path: &str, from: u64, bytes: &[u8]) -> Result<(), Failed>
        requires { Now (history self.old) (λ w. IsFile (seen w.disk) path.now from) }
        ensures goes_on { GoesOn (write_at path.now from bytes.now) result (history self.old) (history self.new) }
        ensures cause { FileCause (faults self.old) (faults self.new) result };

    /// Shortens a file to a length that isn't past its end.
    fn cut(&mut self, path: &str, length: u64) -> Result<(), Failed>
        requires { Now (history self.old) (λ w. IsFile (seen w.disk) path.now length) }
        ensures goes_on { GoesOn (cut path.now length) result (history self.old) (history self.new) }
        ensures cause { FileCause (faults self.old) (faults self.new) result };

    /// Makes a file's bytes and its length durable.
    fn sync(&mut self, path: &str) -> Result<(), Failed>
        requires { Now (history self.old) (λ w. IsFile (seen w.disk) path.now 0) }
        ensures goes_on { GoesOn (sync path.now) result (history self.old) (history self.new) }
        ensures cause { FileCause (faults self.old) (faults self.new) result };

    /// Makes the names in a directory durable.
    fn sync_dir(&mut self, path: &str) -> Result<(), Failed>
        requires { Now (history self.old) (λ w. is_directory (seen w.disk) path.now ≡ true) }
        ensures goes_on { GoesOn (sync_dir path.now) result (history self.old) (history self.new) }
        ensures cause { FileCause (faults self.old) (faults self.new) result };

    /// Moves a file over a file or nothing, or a directory with all that is in it to where nothing stands. Fails where an obstructing directory stands.
    fn rename(&mut self, from: &str, to: &str) -> Result<(), Failed>
        requires { Now (history self.old) (λ w. CanMove (seen w.disk) from.now to.now) }
        ensures goes_on { GoesOn (rename from.now to.now) result (history self.old) (history self.new) }
        ensures obstructed { Now (history self.old) (λ w. is_directory (seen w.disk) to.now ≡ true → IsErr result × (history self.new ≡ history self.old)) }
        ensures cause { FileCause (faults self.old) (faults self.new) result };

    /// Removes a file.
    fn remove(&mut self, path: &str) -> Result<(), Failed>
        requires { Now (history self.old) (λ w. IsFile (seen w.disk) path.now 0) }
        ensures goes_on { GoesOn (remove_at path.now) result (history self.old) (history self.new) }
        ensures cause { FileCause (faults self.old) (faults self.new) result };

    /// Removes a directory without names.
    fn remove_dir(&mut self, path: &str) -> Result<(), Failed>
        requires { Now (history self.old) (λ w. IsEmptyDirectory (seen w.disk) path.now) }
        ensures goes_on { GoesOn (remove_at path.now) result (history self.old) (history self.new) }
        ensures cause { FileCause (faults self.old) (faults self.new) result };

    /// What reads see is one of the images. Each file has a number of its own and stands at one path, in a directory.
    ghost sound: { (host : Self) → Now (history host) (λ w. IsSound w.disk) };
}
