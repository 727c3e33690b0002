// The calls on the files.
ghost use Rattle.std.specs.Prelude.{◌≡◌, ◌≤◌, ◌∷◌, ◌↔◌, ◌⊎◌, IsTrue, IsErr, IsErrOf, IfOk, OnOk, IsPermutation, true, length, drop, map, string_bytes};
ghost use Rattle.file_model.specs.Images.{node_at, is_directory, names_in};
ghost use Rattle.file_model.specs.Disk.{make, make_dir, write_at, cut, sync, sync_dir, rename, remove_at, seen};
ghost use Rattle.file_model.specs.Kinds.{kind_of, IsFile, CanMake, CanMakeDirectory, CanMove, IsEmptyDirectory, Gives};
ghost use Rattle.file_model.specs.Histories.{Now, GoesOn};
ghost use Rattle.file_model.specs.Causes.{FileCause, FaultCause, ReadCause, Counts, Rose};
ghost use Rattle.mem_host.specs.Events.{did};
ghost use Rattle.mem_host.specs.State.{history_of, is_failing, IsQuietCall, IsReading};

use crate::host::{MemHost, begin_call, fail};
use crate::record::Request;
use file_model::{Failed, Fault, Files, Kind};
use std::alloc::Global;

impl Files for MemHost {
    ghost use Rattle.mem_host.specs.State.{history_of};
    ghost use Rattle.mem_host.specs.Soundness.{sound_state};

    ghost history = { history_of };

    ghost faults = { λ state. state.faults };

    ghost sound = { sound_state };

    fn stat(&mut self, path: &str) -> Result<Kind, Failed>
        ensures kind { IfOk result (λ kind. Now (history_of self.old) (λ w. kind ≡ kind_of (node_at (seen w.disk) path.now))) }
        ensures same { history_of self.new ≡ history_of self.old }
        ensures cause { FileCause self.old.faults self.new.faults result }
        ensures fails { IsErr result ↔ IsTrue (is_failing self.old) }
        ensures next { IsReading self.old self.new }
    {
        self.mirror.look();
        if !begin_call(&mut self.calls, self.fails.as_slice()) {
            return Err(fail(&mut self.counts.file));
        }
        Ok(self.mirror.kind_at(path))
    }

    fn read_at(&mut self, path: &str, from: u64, buf: &mut [u8]) -> Result<usize, Failed>
        requires { Now (history_of self.old) (λ w. IsFile (seen w.disk) path.now from) }
        ensures within { IfOk result (λ n. n ≤ length buf.new) }
        ensures gives { IfOk result (λ n. Now (history_of self.old) (λ w. Gives (seen w.disk) path.now from n buf.new)) }
        ensures rest { IfOk result (λ n. drop n buf.new ≡ drop n buf.old) }
        ensures same { history_of self.new ≡ history_of self.old }
        ensures cause { ReadCause self.old.faults self.new.faults result }
        ensures counts { Now (history_of self.old) (λ w. Counts self.old.faults.read result self.new.faults.read) }
        ensures fails { IsErr result ↔ IsTrue (is_failing self.old) }
        ensures next { IsReading self.old self.new }
    {
        self.mirror.look();
        if !begin_call(&mut self.calls, self.fails.as_slice()) {
            return Err(fail(&mut self.counts.file));
        }
        let count = self.mirror.read_at(path, from, buf);
        self.counts.read = self.counts.read.saturating_add(count as u64);
        Ok(count)
    }

    fn names(&mut self, alloc: Global, dir: &str) -> Result<Vec<String>, Fault>
        requires { Now (history_of self.old) (λ w. is_directory (seen w.disk) dir.now ≡ true) }
        ensures names { IfOk result (λ names. Now (history_of self.old) (λ w. IsPermutation (map string_bytes names.items) (names_in (seen w.disk) dir.now))) }
        ensures same { history_of self.new ≡ history_of self.old }
        ensures cause { FaultCause self.old.faults self.new.faults result }
        ensures fails { IsErrOf result Fault.Failed ↔ IsTrue (is_failing self.old) }
        ensures next { IsReading self.old self.new }
    {
        self.mirror.look();
        if !begin_call(&mut self.calls, self.fails.as_slice()) {
            fail(&mut self.counts.file);
            return Err(Fault::Failed);
        }
        match self.mirror.names_in(alloc, dir) {
            Ok(names) => Ok(names),
            Err(_) => Err(Fault::Memory),
        }
    }

    fn make(&mut self, path: &str) -> Result<(), Failed>
        requires { Now (history_of self.old) (λ w. CanMake (seen w.disk) path.now) }
        ensures goes_on { GoesOn (make path.now) result (history_of self.old) (history_of self.new) }
        ensures obstructed { Now (history_of self.old) (λ w. is_directory (seen w.disk) path.now ≡ true → IsErr result × (history_of self.new ≡ history_of self.old)) }
        ensures cause { FileCause self.old.faults self.new.faults result }
        ensures fails { IsTrue (is_failing self.old) → IsErr result }
        ensures done { OnOk result (self.new.events ≡ did (make path.now) ∷ self.old.events) }
        ensures next { IsQuietCall self.old self.new }
    {
        if self.mirror.is_directory(path) {
            return Err(self.obstructed());
        }
        self.run(Request::Make(path))
    }

    fn make_dir(&mut self, path: &str) -> Result<(), Failed>
        requires { Now (history_of self.old) (λ w. CanMakeDirectory (seen w.disk) path.now) }
        ensures goes_on { GoesOn (make_dir path.now) result (history_of self.old) (history_of self.new) }
        ensures cause { FileCause self.old.faults self.new.faults result }
        ensures fails { IsTrue (is_failing self.old) → IsErr result }
        ensures done { OnOk result (self.new.events ≡ did (make_dir path.now) ∷ self.old.events) }
        ensures next { IsQuietCall self.old self.new }
    {
        self.run(Request::MakeDir(path))
    }

    fn write_at(&mut self, path: &str, from: u64, bytes: &[u8]) -> Result<(), Failed>
        requires { Now (history_of self.old) (λ w. IsFile (seen w.disk) path.now from) }
        ensures goes_on { GoesOn (write_at path.now from bytes.now) result (history_of self.old) (history_of self.new) }
        ensures cause { FileCause self.old.faults self.new.faults result }
        ensures fails { IsTrue (is_failing self.old) → IsErr result }
        ensures done { OnOk result (self.new.events ≡ did (write_at path.now from bytes.now) ∷ self.old.events) }
        ensures next { IsQuietCall self.old self.new }
    {
        self.run(Request::WriteAt(path, from, bytes))
    }

    fn cut(&mut self, path: &str, length: u64) -> Result<(), Failed>
        requires { Now (history_of self.old) (λ w. IsFile (seen w.disk) path.now length) }
        ensures goes_on { GoesOn (cut path.now length) result (history_of self.old) (history_of self.new) }
        ensures cause { FileCause self.old.faults self.new.faults result }
        ensures fails { IsErr result ↔ IsTrue (is_failing self.old) }
        ensures done { OnOk result (self.new.events ≡ did (cut path.now length) ∷ self.old.events) }
        ensures next { IsQuietCall self.old self.new }
    {
        self.run(Request::Cut(path, length))
    }

    fn sync(&mut self, path: &str) -> Result<(), Failed>
        requires { Now (history_of self.old) (λ w. IsFile (seen w.disk) path.now 0) }
        ensures goes_on { GoesOn (sync path.now) result (history_of self.old) (history_of self.new) }
        ensures cause { FileCause self.old.faults self.new.faults result }
        ensures fails { IsErr result ↔ IsTrue (is_failing self.old) }
        ensures done { OnOk result (self.new.events ≡ did (sync path.now) ∷ self.old.events) }
        ensures next { IsQuietCall self.old self.new }
    {
        self.run(Request::Sync(path))
    }

    fn sync_dir(&mut self, path: &str) -> Result<(), Failed>
        requires { Now (history_of self.old) (λ w. is_directory (seen w.disk) path.now ≡ true) }
        ensures goes_on { GoesOn (sync_dir path.now) result (history_of self.old) (history_of self.new) }
        ensures cause { FileCause self.old.faults self.new.faults result }
        ensures fails { IsErr result ↔ IsTrue (is_failing self.old) }
        ensures done { OnOk result (self.new.events ≡ did (sync_dir path.now) ∷ self.old.events) }
        ensures next { IsQuietCall self.old self.new }
    {
        self.run(Request::SyncDir(path))
    }

    fn rename(&mut self, from: &str, to: &str) -> Result<(), Failed>
        requires { Now (history_of self.old) (λ w. CanMove (seen w.disk) from.now to.now) }
        ensures goes_on { GoesOn (rename from.now to.now) result (history_of self.old) (history_of self.new) }
        ensures obstructed { Now (history_of self.old) (λ w. is_directory (seen w.disk) to.now ≡ true → IsErr result × (history_of self.new ≡ history_of self.old)) }
        ensures cause { FileCause self.old.faults self.new.faults result }
        ensures fails { IsTrue (is_failing self.old) → IsErr result }
        ensures done { OnOk result (self.new.events ≡ did (rename from.now to.now) ∷ self.old.events) }
        ensures next { IsQuietCall self.old self.new }
    {
        if self.mirror.is_directory(to) {
            return Err(self.obstructed());
        }
        self.run(Request::Rename(from, to))
    }

    fn remove(&mut self, path: &str) -> Result<(), Failed>
        requires { Now (history_of self.old) (λ w. IsFile (seen w.disk) path.now 0) }
        ensures goes_on { GoesOn (remove_at path.now) result (history_of self.old) (history_of self.new) }
        ensures cause { FileCause self.old.faults self.new.faults result }
        ensures fails { IsErr result ↔ IsTrue (is_failing self.old) }
        ensures done { OnOk result (self.new.events ≡ did (remove_at path.now) ∷ self.old.events) }
        ensures next { IsQuietCall self.old self.new }
    {
        self.run(Request::Remove(path))
    }

    fn remove_dir(&mut self, path: &str) -> Result<(), Failed>
        requires { Now (history_of self.old) (λ w. IsEmptyDirectory (seen w.disk) path.now) }
        ensures goes_on { GoesOn (remove_at path.now) result (history_of self.old) (history_of self.new) }
        ensures cause { FileCause self.old.faults self.new.faults result }
        ensures fails { IsErr result ↔ IsTrue (is_failing self.old) }
        ensures done { OnOk result (self.new.events ≡ did (remove_at path.now) ∷ self.old.events) }
        ensures next { IsQuietCall self.old self.new }
    {
        self.run(Request::Remove(path))
    }
}

impl MemHost {
    ghost use Rattle.mem_host.specs.Notes.{call_of};
    ghost use Rattle.mem_host.specs.Applied.{TakesMemory};
    ghost use Rattle.file_model.specs.Kinds.{Fits};

    // Does a call on the files, or refuses it.
    fn run(&mut self, request: Request<'_>) -> Result<(), Failed>
        requires { Now (history_of self.old) (λ w. Fits (call_of request) (seen w.disk)) }
        ensures goes_on { GoesOn (call_of request.entry) result (history_of self.old) (history_of self.new) }
        ensures cause { FileCause self.old.faults self.new.faults result }
        ensures fails { IsTrue (is_failing self.old) → IsErr result }
        ensures memory { IsErr result → IsTrue (is_failing self.old) ⊎ TakesMemory (call_of request.entry) }
        ensures done { OnOk result (self.new.events ≡ did (call_of request.entry) ∷ self.old.events) }
        ensures next { IsQuietCall self.old self.new }
    {
        if begin_call(&mut self.calls, self.fails.as_slice())
            && self.mirror.perform(request).is_ok()
        {
            return Ok(());
        }
        self.mirror.refuse(request);
        Err(fail(&mut self.counts.file))
    }

    // Refuses a call where an obstructing directory stands.
    fn obstructed(&mut self) -> Failed
        ensures same { history_of self.new ≡ history_of self.old }
        ensures hear { self.new.faults.hear ≡ self.old.faults.hear }
        ensures say { self.new.faults.say ≡ self.old.faults.say }
        ensures read { self.new.faults.read ≡ self.old.faults.read }
        ensures later { self.old.faults.file ≤ self.new.faults.file }
        ensures rose { Rose self.old.faults.file self.new.faults.file }
        ensures next { IsReading self.old self.new }
    {
        let _ = begin_call(&mut self.calls, self.fails.as_slice());
        self.mirror.look();
        fail(&mut self.counts.file)
    }
}
