// A unix file, read from the files of a host.
ghost use Rattle.std.specs.Prelude.{◌≡◌, ◌≤◌, ◌<◌, ℕ, true, false, None, length, IfOk, IfErr};
ghost use Rattle.file_model.specs.Disk.{seen};
ghost use Rattle.file_model.specs.Histories.{Now};
ghost use Rattle.file_model.specs.Kinds.{IsFile};
ghost use Rattle.mail_types.specs.declared.driver.Driver.TheVariants.{Unix};
ghost use Rattle.mail_types.specs.Limits.{file_limit};
ghost use Rattle.store_trait.specs.Answers.{OpenCause};
ghost use Rattle.file_store.specs.Scans.{OfFile, RefusesScan};
ghost use Rattle.unix_layout.specs.Files.{IsFoundIn};
ghost use Rattle.unix_layout.specs.Forms.{unix_read};

use crate::file::{FileFound, read_clean};
use crate::front::front_messages;
use file_model::{Files, Kind};
use mail_types::Driver;
use std::alloc::Global;
use store_trait::OpenFault;
use text_forms::clean_nul;

// Whether a file stands at a path.
fn stands<F: Files>(files: &mut F, path: &str) -> Result<bool, OpenFault>
    ensures yes { IfOk result (λ b. b ≡ true → Now (F.history files.old) (λ w. IsFile (seen w.disk) path.now 0)) }
    ensures no { IfOk result (λ b. b ≡ false → OfFile (F.history files.old) path.now (λ bytes. ⊥)) }
    ensures refused { IfErr result (λ fault. RefusesScan Unix unix_read fault (F.history files.old) path.now) }
    ensures history { F.history files.new ≡ F.history files.old }
    ensures cause { OpenCause (F.faults files.old) (F.faults files.new) result }
{
    match files.stat(path) {
        Ok(Kind::File(_)) => Ok(true),
        Ok(_) => Ok(false),
        Err(_) => Err(OpenFault::Failed),
    }
}

// All bytes of a file that is so long.
fn read_all<F: Files>(files: &mut F, path: &str, buffer: Vec<u8>) -> Result<Vec<u8>, OpenFault>
    requires stands { Now (F.history files.old) (λ w. IsFile (seen w.disk) path.now 0) }
    requires long { OfFile (F.history files.old) path.now (λ bytes. length bytes ≡ length buffer.items) }
    ensures bytes { IfOk result (λ v. OfFile (F.history files.old) path.now (λ bytes. v.items ≡ bytes)) }
    ensures refused { IfErr result (λ fault. RefusesScan Unix unix_read fault (F.history files.old) path.now) }
    ensures history { F.history files.new ≡ F.history files.old }
    ensures cause { OpenCause (F.faults files.old) (F.faults files.new) result }
{
    let mut text = buffer;
    match files.read_at(path, 0, text.as_mut_slice()) {
        Ok(got) => {
            text.truncate(got);
            Ok(text)
        }
        Err(_) => Err(OpenFault::Failed),
    }
}

// The bytes of the file at a path.
fn read_whole<F: Files>(
    alloc: Global,
    files: &mut F,
    path: &str,
    long: u64,
) -> Result<Vec<u8>, OpenFault>
    requires short { long ≤ file_limit }
    requires long { OfFile (F.history files.old) path.now (λ bytes. length bytes ≡ long) }
    ensures bytes { IfOk result (λ v. OfFile (F.history files.old) path.now (λ bytes. v.items ≡ bytes)) }
    ensures refused { IfErr result (λ fault. RefusesScan Unix unix_read fault (F.history files.old) path.now) }
    ensures history { F.history files.new ≡ F.history files.old }
    ensures cause { OpenCause (F.faults files.old) (F.faults files.new) result }
{
    if !stands(files, path)? {
        return Ok(Vec::new(alloc));
    }
    match Vec::from_elem(alloc, 0, long as usize) {
        Ok(buffer) => read_all(files, path, buffer),
        Err(_) => Err(OpenFault::Memory),
    }
}

/// What the file at a path says, with the texts of its messages.
pub fn scan_file<F: Files>(
    alloc: Global,
    files: &mut F,
    path: &str,
    long: u64,
) -> Result<FileFound, OpenFault>
    requires short { long ≤ file_limit }
    requires long { OfFile (F.history files.old) path.now (λ bytes. length bytes ≡ long) }
    ensures scanned { IfOk result (λ f. OfFile (F.history files.old) path.now (λ bytes. IsFoundIn bytes f.found f.texts.items)) }
    ensures few { IfOk result (λ f. length f.found.words ≤ 30) }
    ensures refused { IfErr result (λ fault. RefusesScan Unix unix_read fault (F.history files.old) path.now) }
    ensures history { F.history files.new ≡ F.history files.old }
    ensures cause { OpenCause (F.faults files.old) (F.faults files.new) result }
{
    let mut text = read_whole(alloc, files, path, long)?;
    clean_nul(text.as_mut_slice());
    match read_clean(alloc, text.as_slice()) {
        Ok(Some(found)) => Ok(found),
        Ok(None) => Err(OpenFault::IllFormed(Driver::Unix, front_messages(text.as_slice()))),
        Err(_) => Err(OpenFault::Memory),
    }
}
