// A disk with all that a crash may leave of it.
ghost use Rattle.std.specs.Prelude.{◌≡◌, ◌∷◌, ◌++◌, ◌≤◌, ◌+◌, [], List, ℕ, true, IsSome, length, IfOk, OnOk};
ghost use Rattle.file_model.specs.Disk.{Disk, after, seen, DirectoryOperation, renamed, done, all_done, names_something_in, durable_by, make, make_dir, remove_at, rename, sync_dir};
ghost use Rattle.file_model.specs.Images.{Names};
ghost use Rattle.file_model.specs.Kinds.{Fits};
ghost use Rattle.file_model.specs.Paths.{parent};
ghost use Rattle.std.specs.BTreeMap.{get_by_text};
ghost use Rattle.std.specs.Str.{bytes_eq};
ghost use Rattle.mem_host.specs.Notes.{call_of};
ghost use Rattle.mem_host.specs.Mirrored.{Shows, entry_of};
ghost use Rattle.mem_host.specs.Crashes.{edited, names_left};
ghost use Rattle.mem_host.specs.Replay.{empty_disk, with_directory, with_resting_file};
ghost use Rattle.mem_host.specs.Drafts.{edit_of, IsRedrafted, LeadsToDraft, add_edit, settle_edits};
ghost use Rattle.mem_host.specs.Remains.{operation_of, operations_of, IsRemains, IsTidy, CanStep};

use crate::draft::{Draft, Edit, settle_draft};
use crate::names::{Place, move_name, moved_names, put_name, rename_in, take_name};
use crate::record::Request;
use file_model::split;
use std::alloc::{AllocError, Global};
use std::collections::BTreeMap;

/// A directory operation that no sync made durable.
#[derive(Clone, Copy, Drop)]
pub(crate) enum Operation<'a> {
    Made(&'a str, usize),
    MadeDirectory(&'a str),
    MovedFile(&'a str, &'a str, usize),
    MovedDirectory(&'a str, &'a str),
    Removed(&'a str),
}

/// The names that reads see, those that are durable and the operations since, the oldest first; and the files by their numbers.
#[derive(Drop)]
pub(crate) struct Remains<'a> {
    pub(crate) names: BTreeMap<String, Place>,
    pub(crate) durable: BTreeMap<String, Place>,
    pub(crate) pending: Vec<Operation<'a>>,
    pub(crate) files: Vec<Draft<'a>>,
}

fn is_parent(dir: &str, path: &str) -> bool
    ensures { result ≡ bytes_eq dir.now (parent path.now) }
{
    match split(path) {
        Some((parent, _)) => dir == parent,
        None => dir.is_empty(),
    }
}

fn names_something_in(dir: &str, operation: Operation<'_>) -> bool
    ensures { result ≡ names_something_in dir.now (operation_of operation.entry) }
{
    match operation {
        Operation::Made(path, _) => is_parent(dir, path),
        Operation::MadeDirectory(path) => is_parent(dir, path),
        Operation::MovedFile(from, to, _) => is_parent(dir, from) || is_parent(dir, to),
        Operation::MovedDirectory(from, to) => is_parent(dir, from) || is_parent(dir, to),
        Operation::Removed(path) => is_parent(dir, path),
    }
}

// How many operations a sync of a directory makes durable.
fn durable_count(dir: &str, pending: &[Operation<'_>]) -> usize
    ensures count { result ≡ length (durable_by dir.now (operations_of pending.now)) }
    ensures within { result ≤ length pending.now }
{
    let mut count = 0;
    for (at, operation) in pending.iter().enumerate() {
        if names_something_in(dir, *operation) {
            count = at + 1;
        }
    }
    count
}

// Does an operation to names.
fn operate(
    alloc: Global,
    names: &mut BTreeMap<String, Place>,
    operation: Operation<'_>,
) -> Result<(), AllocError>
    ensures { OnOk result ((old : Names) → Shows names.old old → Shows names.new (done (operation_of operation.entry) old)) }
{
    match operation {
        Operation::Made(path, id) => put_name(alloc, names, path, Place::File(id)),
        Operation::MadeDirectory(path) => put_name(alloc, names, path, Place::Dir),
        Operation::MovedFile(from, to, id) => move_name(alloc, names, from, to, id),
        Operation::MovedDirectory(from, to) => {
            let moved = moved_names(alloc, names, from, to)?;
            *names = moved;
            Ok(())
        }
        Operation::Removed(path) => {
            take_name(names, path);
            Ok(())
        }
    }
}

// Does operations to names, the oldest first.
fn operate_all(
    alloc: Global,
    names: &mut BTreeMap<String, Place>,
    operations: &[Operation<'_>],
) -> Result<(), AllocError>
    ensures { OnOk result ((old : Names) → Shows names.old old → Shows names.new (all_done (operations_of operations.now) old)) }
{
    for operation in operations.iter() {
        operate(alloc, names, *operation)?;
    }
    Ok(())
}

// The operation that moves what stands at a name.
fn moved<'a>(names: &BTreeMap<String, Place>, from: &'a str, to: &'a str) -> Operation<'a>
    requires { IsSome (get_by_text names.now from.now) }
    ensures { operation_of result ≡ renamed from.now to.now (entry_of (get_by_text names.now from.now)) }
{
    match names.get(from).copied() {
        Some(Place::File(id)) => Operation::MovedFile(from, to, id),
        Some(Place::Dir) => Operation::MovedDirectory(from, to),
        None => unreachable!(),
    }
}

// Adds an edit to the draft of the file at a path.
fn edit_file<'a>(
    names: &BTreeMap<String, Place>,
    files: &mut Vec<Draft<'a>>,
    path: &str,
    edit: Edit<'a>,
) -> Result<(), AllocError>
    requires { LeadsToDraft path.now names.now files.old.items }
    ensures { OnOk result (IsRedrafted path.now (add_edit (edit_of edit.entry)) names.now files.old.items files.new.items) }
{
    match names.get(path) {
        Some(Place::File(id)) => {
            files[*id].edits.push(edit)?;
            Ok(())
        }
        _ => unreachable!(),
    }
}

// Makes the draft of the file at a path durable.
fn sync_file(
    alloc: Global,
    names: &BTreeMap<String, Place>,
    files: &mut Vec<Draft<'_>>,
    path: &str,
) -> Result<(), AllocError>
    requires { LeadsToDraft path.now names.now files.old.items }
    ensures { OnOk result (IsRedrafted path.now settle_edits names.now files.old.items files.new.items) }
{
    match names.get(path) {
        Some(Place::File(id)) => settle_draft(alloc, &mut files[*id]),
        _ => unreachable!(),
    }
}

impl<'a> Remains<'a> {
    pub(crate) fn new(alloc: Global) -> Remains<'a>
        ensures { IsRemains result empty_disk }
    {
        Remains {
            names: BTreeMap::new(alloc),
            durable: BTreeMap::new(alloc),
            pending: Vec::new(alloc),
            files: Vec::new(alloc),
        }
    }

    /// Puts a directory while no operation is pending.
    pub(crate) fn put_directory(&mut self, alloc: Global, path: &str) -> Result<(), AllocError>
        ensures { OnOk result ((disk : Disk) → disk.pending ≡ [] → IsRemains self.old disk → IsRemains self.new (with_directory path.now disk)) }
    {
        put_name(alloc, &mut self.names, path, Place::Dir)?;
        put_name(alloc, &mut self.durable, path, Place::Dir)
    }

    /// Puts a file while no operation is pending.
    pub(crate) fn put_file(
        &mut self,
        alloc: Global,
        path: &str,
        bytes: &[u8],
    ) -> Result<(), AllocError>
        ensures { OnOk result ((disk : Disk) → disk.pending ≡ [] → IsRemains self.old disk → IsRemains self.new (with_resting_file path.now bytes.now disk)) }
    {
        let place = Place::File(self.files.len());
        put_name(alloc, &mut self.names, path, place)?;
        put_name(alloc, &mut self.durable, path, place)?;
        let durable = Vec::from_slice(alloc, bytes)?;
        self.files.push(Draft {
            durable,
            edits: Vec::new(alloc),
        })?;
        Ok(())
    }

    fn make(&mut self, alloc: Global, path: &'a str) -> Result<(), AllocError>
        ensures { OnOk result ((disk : Disk) → IsRemains self.old disk → IsRemains self.new (after (make path.now) disk)) }
    {
        let id = self.files.len();
        put_name(alloc, &mut self.names, path, Place::File(id))?;
        self.files.push(Draft {
            durable: Vec::new(alloc),
            edits: Vec::new(alloc),
        })?;
        self.pending.push(Operation::Made(path, id))?;
        Ok(())
    }

    fn make_dir(&mut self, alloc: Global, path: &'a str) -> Result<(), AllocError>
        ensures { OnOk result ((disk : Disk) → IsRemains self.old disk → IsRemains self.new (after (make_dir path.now) disk)) }
    {
        put_name(alloc, &mut self.names, path, Place::Dir)?;
        self.pending.push(Operation::MadeDirectory(path))?;
        Ok(())
    }

    fn remove(&mut self, path: &'a str) -> Result<(), AllocError>
        ensures { OnOk result ((disk : Disk) → IsRemains self.old disk → IsRemains self.new (after (remove_at path.now) disk)) }
    {
        take_name(&mut self.names, path);
        self.pending.push(Operation::Removed(path))?;
        Ok(())
    }

    fn rename(&mut self, alloc: Global, from: &'a str, to: &'a str) -> Result<(), AllocError>
        requires { IsSome (get_by_text self.old.names from.now) }
        ensures { OnOk result ((disk : Disk) → IsRemains self.old disk → IsRemains self.new (after (rename from.now to.now) disk)) }
    {
        let operation = moved(&self.names, from, to);
        rename_in(alloc, &mut self.names, from, to)?;
        self.pending.push(operation)?;
        Ok(())
    }

    fn sync_dir(&mut self, alloc: Global, dir: &str) -> Result<(), AllocError>
        ensures { OnOk result ((disk : Disk) → IsRemains self.old disk → IsRemains self.new (after (sync_dir dir.now) disk)) }
    {
        let count = durable_count(dir, self.pending.as_slice());
        operate_all(alloc, &mut self.durable, &self.pending[..count])?;
        let left = Vec::from_slice(alloc, &self.pending[count..])?;
        self.pending = left;
        Ok(())
    }

    /// Does a call.
    pub(crate) fn step(&mut self, alloc: Global, request: Request<'a>) -> Result<(), AllocError>
        requires { CanStep (call_of request) self.old }
        ensures { OnOk result ((disk : Disk) → IsRemains self.old disk → IsTidy disk → IsRemains self.new (after (call_of request.entry) disk)) }
    {
        match request {
            Request::Make(path) => self.make(alloc, path),
            Request::MakeDir(path) => self.make_dir(alloc, path),
            Request::WriteAt(path, from, bytes) => {
                edit_file(&self.names, &mut self.files, path, Edit::Wrote(from, bytes))
            }
            Request::Cut(path, length) => {
                edit_file(&self.names, &mut self.files, path, Edit::Shortened(length))
            }
            Request::Sync(path) => sync_file(alloc, &self.names, &mut self.files, path),
            Request::SyncDir(dir) => self.sync_dir(alloc, dir),
            Request::Rename(from, to) => self.rename(alloc, from, to),
            Request::Remove(path) => self.remove(path),
        }
    }

    /// Does so many of the pending operations to the durable names.
    pub(crate) fn leave_names(&mut self, alloc: Global, count: usize) -> Result<(), AllocError>
        requires { count ≤ length self.old.pending.items }
        ensures names { OnOk result ((disk : Disk) → IsRemains self.old disk → Shows self.new.durable (names_left disk count)) }
        ensures rest { self.new ≡ record self.old { durable = self.new.durable } }
    {
        operate_all(alloc, &mut self.durable, &self.pending[..count])
    }
}
