// What a call does to the names and the contents that reads see.
ghost use Rattle.std.specs.Prelude.{◌≡◌, List, ℕ, OnOk, OnErr, IsErr};
ghost use Rattle.std.specs.BTreeMap.{get_by_text};
ghost use Rattle.file_model.specs.Disk.{Disk, after, seen};
ghost use Rattle.file_model.specs.Kinds.{Fits};
ghost use Rattle.mem_host.specs.Mirrored.{Mirrors, IsSame};
ghost use Rattle.mem_host.specs.Notes.{call_of};
ghost use Rattle.mem_host.specs.Applied.{CanApply, TakesMemory};

use crate::contents::{cut_content, write_content};
use crate::names::{Place, put_content, put_name, rename_in, take_name};
use crate::record::Request;
use std::alloc::{AllocError, Global};
use std::collections::BTreeMap;

/// Where it finds no memory all stays as it was.
pub(crate) fn apply(
    alloc: Global,
    names: &mut BTreeMap<String, Place>,
    contents: &mut Vec<Vec<u8>>,
    request: Request<'_>,
) -> Result<(), AllocError>
    requires { CanApply (call_of request) names.old contents.old.items }
    ensures ok { OnOk result ((disk : Disk) → Mirrors names.old contents.old.items disk → Fits (call_of request.entry) (seen disk) → Mirrors names.new contents.new.items (after (call_of request.entry) disk)) }
    ensures names { OnErr result ((q : List ℕ) → get_by_text names.new q ≡ get_by_text names.old q) }
    ensures contents { OnErr result (IsSame contents.old.items contents.new.items) }
    ensures memory { IsErr result → TakesMemory (call_of request.entry) }
{
    match request {
        Request::Make(path) => put_content(alloc, names, contents, path, Vec::new(alloc)),
        Request::MakeDir(path) => put_name(alloc, names, path, Place::Dir),
        Request::WriteAt(path, from, bytes) => write_content(names, contents, path, from, bytes),
        Request::Cut(path, length) => {
            cut_content(names, contents, path, length);
            Ok(())
        }
        Request::Sync(_) => Ok(()),
        Request::SyncDir(_) => Ok(()),
        Request::Rename(from, to) => rename_in(alloc, names, from, to),
        Request::Remove(path) => {
            take_name(names, path);
            Ok(())
        }
    }
}
