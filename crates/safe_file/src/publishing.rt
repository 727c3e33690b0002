// A prepared content is put in the place of the old.
ghost use Rattle.std.specs.Prelude.{◌≡◌, ◌≢◌, List, ℕ, OnOk, IsErr, string_bytes, true};
ghost use Rattle.file_model.specs.Paths.{parent, temporary_of};
ghost use Rattle.file_model.specs.Images.{is_directory};
ghost use Rattle.file_model.specs.Kinds.{IsTarget};
ghost use Rattle.file_model.specs.Disk.{seen};
ghost use Rattle.file_model.specs.Kept.{KeepsDirectories, Replaces, HasOnly, IsGone, NonePending, IsWritten, Sees};
ghost use Rattle.file_model.specs.Histories.{Now, Ran, Ended};
ghost use Rattle.file_model.specs.Causes.{FileCause};

use crate::Pending;
use file_model::{Failed, Files};

/// Puts the new content in the place of the old. Fails where an obstructing directory stands there.
pub fn publish<F: Files>(files: &mut F, pending: &Pending) -> Result<(), Failed>
    requires written { Now (F.history files.old) (λ w. (bytes : List ℕ) × IsWritten (temporary_of (string_bytes pending.now.path)) bytes w.disk) }
    requires room { Now (F.history files.old) (λ w. is_directory (seen w.disk) (parent (string_bytes pending.now.path)) ≡ true) }
    requires target { Now (F.history files.old) (λ w. IsTarget (seen w.disk) (string_bytes pending.now.path)) }

    // At each instant a crash leaves the old content or the new, and all else as it was.
    ensures instants { (bytes : List ℕ) → Now (F.history files.old) (λ w. IsWritten (temporary_of (string_bytes pending.now.path)) bytes w.disk)
        → Ran (Replaces (string_bytes pending.now.path) bytes (λ q. (q ≢ temporary_of (string_bytes pending.now.path)) × (q ≢ string_bytes pending.now.path))) (F.history files.old) (F.history files.new) }
    ensures published { (bytes : List ℕ) → Now (F.history files.old) (λ w. IsWritten (temporary_of (string_bytes pending.now.path)) bytes w.disk)
        → OnOk result (Now (F.history files.new) (λ w. HasOnly (string_bytes pending.now.path) bytes w.disk)) }
    ensures obstructed { Now (F.history files.old) (λ w. is_directory (seen w.disk) (string_bytes pending.now.path) ≡ true → IsErr result × (F.history files.new ≡ F.history files.old)) }
    ensures gone { OnOk result (Now (F.history files.new) (λ w. IsGone (temporary_of (string_bytes pending.now.path)) w.disk)) }
    ensures durable { OnOk result (Now (F.history files.new) (λ w. NonePending w.disk)) }
    ensures sees { OnOk result (Ended (Sees (λ q. (q ≢ temporary_of (string_bytes pending.now.path)) × (q ≢ string_bytes pending.now.path))) (F.history files.old) (F.history files.new)) }
    // Nothing is heard or said.
    ensures files { Ran (λ start instant. Unit {0}) (F.history files.old) (F.history files.new) }
    ensures directories { Ran KeepsDirectories (F.history files.old) (F.history files.new) }
    ensures cause { FileCause (F.faults files.old) (F.faults files.new) result }
{
    files.rename(pending.temporary.as_str(), pending.path.as_str())?;
    files.sync_dir(pending.directory.as_str())
}
