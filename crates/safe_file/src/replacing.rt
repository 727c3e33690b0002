// A whole content is replaced. What a crash leaves is known where no directory operation was pending, and none is at the end.
ghost use Rattle.std.specs.Prelude.{◌≡◌, OnOk, IsErr, IsErrOf, true, false};
ghost use Rattle.file_model.specs.Paths.{parent, temporary_of, is_top};
ghost use Rattle.file_model.specs.Images.{is_directory};
ghost use Rattle.file_model.specs.Kinds.{IsTarget};
ghost use Rattle.file_model.specs.Disk.{seen};
ghost use Rattle.file_model.specs.Kept.{KeepsDirectories, Replaces, Replaced, NonePending, IsBeside, IsGone, Sees, HasOnly};
ghost use Rattle.file_model.specs.Histories.{Now, Ran, Ended};
ghost use Rattle.file_model.specs.Causes.{FaultCause};

use crate::{prepare, publish};
use file_model::{Fault, Files};
use std::alloc::Global;

/// Writes the temporary file and puts it in the place of the old content. Fails where an obstructing directory stands there.
pub fn replace<F: Files>(
    alloc: Global,
    files: &mut F,
    path: &str,
    bytes: &[u8],
) -> Result<(), Fault>
    requires inside { is_top path.now ≡ false }
    requires room { Now (F.history files.old) (λ w. is_directory (seen w.disk) (parent path.now) ≡ true) }
    requires target { Now (F.history files.old) (λ w. IsTarget (seen w.disk) path.now) }

    // At each instant a crash leaves the old content or the new, and all else as it was.
    ensures instants { Now (F.history files.old) (λ w. NonePending w.disk) → Ran (Replaces path.now bytes.now (IsBeside path.now)) (F.history files.old) (F.history files.new) }
    ensures done { Now (F.history files.old) (λ w. NonePending w.disk) → OnOk result (Ended (Replaced path.now bytes.now) (F.history files.old) (F.history files.new)) }
    ensures sees { OnOk result (Ended (Sees (IsBeside path.now)) (F.history files.old) (F.history files.new)) }
    ensures published { OnOk result (Now (F.history files.new) (λ w. HasOnly path.now bytes.now w.disk)) }
    ensures obstructed { Now (F.history files.old) (λ w. is_directory (seen w.disk) path.now ≡ true → IsErr result) }
    ensures beside { Now (F.history files.old) (λ w. is_directory (seen w.disk) (temporary_of path.now) ≡ true → IsErr result) }
    ensures gone { OnOk result (Now (F.history files.new) (λ w. IsGone (temporary_of path.now) w.disk)) }
    ensures memory { IsErrOf result Fault.Memory → F.history files.new ≡ F.history files.old }
    // Nothing is heard or said.
    ensures files { Ran (λ start instant. Unit {0}) (F.history files.old) (F.history files.new) }
    ensures directories { Ran KeepsDirectories (F.history files.old) (F.history files.new) }
    ensures cause { FaultCause (F.faults files.old) (F.faults files.new) result }
{
    let pending = prepare(alloc, files, path, bytes)?;
    match publish(files, &pending) {
        Ok(()) => Ok(()),
        Err(_) => Err(Fault::Failed),
    }
}
