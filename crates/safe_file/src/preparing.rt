// A new content is written.
ghost use Rattle.std.specs.Prelude.{◌≡◌, ◌≢◌, [], IfOk, OnOk, IsErr, IsErrOf, string_bytes, true, false};
ghost use Rattle.file_model.specs.Paths.{parent, last_part, temporary_of, is_top};
ghost use Rattle.file_model.specs.Reserved.{is_reserved_name};
ghost use Rattle.file_model.specs.Images.{is_directory, node_at, file};
ghost use Rattle.file_model.specs.Disk.{seen};
ghost use Rattle.file_model.specs.Kept.{KeepsDirectories, Keeps, IsHome, IsWritten, Sees};
ghost use Rattle.file_model.specs.Histories.{Now, Ran, Ended};
ghost use Rattle.file_model.specs.Causes.{FileCause, FaultCause};

use crate::Pending;
use crate::pending::places;
use file_model::{Failed, Fault, Files, Kind};
use std::alloc::Global;

/// Writes and syncs the temporary file. A temporary file that a crash left is first cut to no bytes.
/// Failed also where an obstructing directory stands at its path.
pub fn prepare<F: Files>(
    alloc: Global,
    files: &mut F,
    path: &str,
    bytes: &[u8],
) -> Result<Pending, Fault>
    requires inside { is_top path.now ≡ false }
    requires room { Now (F.history files.old) (λ w. is_directory (seen w.disk) (parent path.now) ≡ true) }
    ensures path { IfOk result (λ pending. string_bytes pending.path ≡ path.now) }
    ensures written { OnOk result (Now (F.history files.new) (λ w. IsWritten (temporary_of path.now) bytes.now w.disk)) }

    // At each instant a crash leaves all else as it was, where no other name may lead to the old temporary file.
    ensures instants { Now (F.history files.old) (λ w. IsHome (temporary_of path.now) w.disk) → Ran (Keeps (λ q. q ≢ temporary_of path.now)) (F.history files.old) (F.history files.new) }
    ensures sees { OnOk result (Ended (Sees (λ q. q ≢ temporary_of path.now)) (F.history files.old) (F.history files.new)) }
    ensures memory { IsErrOf result Fault.Memory → F.history files.new ≡ F.history files.old }
    ensures obstructed { Now (F.history files.old) (λ w. is_directory (seen w.disk) (temporary_of path.now) ≡ true → IsErr result × (F.history files.new ≡ F.history files.old)) }
    // Nothing is heard or said.
    ensures files { Ran (λ start instant. Unit {0}) (F.history files.old) (F.history files.new) }
    ensures directories { Ran KeepsDirectories (F.history files.old) (F.history files.new) }
    ensures cause { FaultCause (F.faults files.old) (F.faults files.new) result }
{
    let pending = match places(alloc, path) {
        Ok(pending) => pending,
        Err(_) => return Err(Fault::Memory),
    };
    if clear(files, pending.temporary.as_str()).is_err() {
        return Err(Fault::Failed);
    }
    if fill(files, pending.temporary.as_str(), bytes).is_err() {
        return Err(Fault::Failed);
    }
    Ok(pending)
}

// Leaves an empty temporary file.
fn clear<F: Files>(files: &mut F, temporary: &str) -> Result<(), Failed>
    requires room { Now (F.history files.old) (λ w. is_directory (seen w.disk) (parent temporary.now) ≡ true) }
    requires reserved { is_reserved_name (last_part temporary.now) ≡ true }
    requires below { is_top temporary.now ≡ false }
    ensures empty { OnOk result (Now (F.history files.new) (λ w. node_at (seen w.disk) temporary.now ≡ file [])) }
    ensures home { Now (F.history files.old) (λ w. IsHome temporary.now w.disk) → OnOk result (Now (F.history files.new) (λ w. IsHome temporary.now w.disk)) }
    ensures instants { Now (F.history files.old) (λ w. IsHome temporary.now w.disk) → Ran (Keeps (λ q. q ≢ temporary.now)) (F.history files.old) (F.history files.new) }
    ensures sees { OnOk result (Ended (Sees (λ q. q ≢ temporary.now)) (F.history files.old) (F.history files.new)) }
    ensures obstructed { Now (F.history files.old) (λ w. is_directory (seen w.disk) temporary.now ≡ true → IsErr result × (F.history files.new ≡ F.history files.old)) }
    ensures files { Ran (λ start instant. Unit {0}) (F.history files.old) (F.history files.new) }
    ensures directories { Ran KeepsDirectories (F.history files.old) (F.history files.new) }
    ensures cause { FileCause (F.faults files.old) (F.faults files.new) result }
{
    match files.stat(temporary)? {
        Kind::File(_) => files.cut(temporary, 0),
        _ => files.make(temporary),
    }
}

// Writes and syncs the temporary file.
fn fill<F: Files>(files: &mut F, temporary: &str, bytes: &[u8]) -> Result<(), Failed>
    requires empty { Now (F.history files.old) (λ w. node_at (seen w.disk) temporary.now ≡ file []) }
    ensures written { OnOk result (Now (F.history files.new) (λ w. IsWritten temporary.now bytes.now w.disk)) }
    ensures instants { Now (F.history files.old) (λ w. IsHome temporary.now w.disk) → Ran (Keeps (λ q. q ≢ temporary.now)) (F.history files.old) (F.history files.new) }
    ensures sees { OnOk result (Ended (Sees (λ q. q ≢ temporary.now)) (F.history files.old) (F.history files.new)) }
    ensures files { Ran (λ start instant. Unit {0}) (F.history files.old) (F.history files.new) }
    ensures directories { Ran KeepsDirectories (F.history files.old) (F.history files.new) }
    ensures cause { FileCause (F.faults files.old) (F.faults files.new) result }
{
    files.write_at(temporary, 0, bytes)?;
    files.sync(temporary)
}
