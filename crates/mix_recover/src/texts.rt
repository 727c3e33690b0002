// A whole text is read.
ghost use Rattle.std.specs.Prelude.{◌≡◌, ◌≤◌, ◌+◌, List, ℕ, Some, None, IfOk, MatchOption, IfErr, ◌⊎◌, length};
ghost use Rattle.file_model.specs.Disk.{seen};
ghost use Rattle.file_model.specs.Histories.{Now};
ghost use Rattle.file_model.specs.Images.{bytes_at, text_at, node_at, file};
ghost use Rattle.mix_recover.specs.Reads.{MeansCause, RefusesLong};

use crate::faults::MeansFault;
use file_model::{Files, Kind};
use mail_types::Limit;
use mix_data::FILE_LIMIT;
use std::alloc::Global;

/// The bytes of a file, or none where no file stands.
pub fn read_text<F: Files>(
    alloc: Global,
    files: &mut F,
    path: &str,
) -> Result<Option<Vec<u8>>, MeansFault>
    ensures text { IfOk result (λ found. Now (F.history files.old) (λ w. MatchOption found (bytes_at (seen w.disk) path.now ≡ None) (λ v. bytes_at (seen w.disk) path.now ≡ Some v.items))) }
    ensures short { IfOk result (λ found. MatchOption found (Unit {0}) (λ v. length v.items ≤ 536870912)) }
    ensures refused { IfErr result (λ fault. RefusesLong path.now fault (F.history files.old)) }
    ensures history { F.history files.new ≡ F.history files.old }
    ensures cause { MeansCause (F.faults files.old) (F.faults files.new) result }
    ensures reads { Now (F.history files.old) (λ w. (F.faults files.new).read ≤ (F.faults files.old).read + length (text_at (seen w.disk) path.now)) }
{
    let Ok(kind) = files.stat(path) else {
        return Err(MeansFault::Failed);
    };
    match kind {
        Kind::File(long) if long > FILE_LIMIT => Err(MeansFault::TooLarge(Limit::File)),
        Kind::File(long) => read_whole(alloc, files, path, long as usize),
        _ => Ok(None),
    }
}

// The bytes of a file of this length.
fn read_whole<F: Files>(
    alloc: Global,
    files: &mut F,
    path: &str,
    long: usize,
) -> Result<Option<Vec<u8>>, MeansFault>
    requires short { long ≤ 536870912 }
    requires stands { Now (F.history files.old) (λ w. (bytes : List ℕ) × (node_at (seen w.disk) path.now ≡ file bytes) × (length bytes ≡ long)) }
    ensures text { IfOk result (λ found. Now (F.history files.old) (λ w. MatchOption found (bytes_at (seen w.disk) path.now ≡ None) (λ v. bytes_at (seen w.disk) path.now ≡ Some v.items))) }
    ensures short { IfOk result (λ found. MatchOption found (Unit {0}) (λ v. length v.items ≤ 536870912)) }
    ensures refused { IfErr result (λ fault. (fault ≡ MeansFault.Failed) ⊎ (fault ≡ MeansFault.Memory)) }
    ensures history { F.history files.new ≡ F.history files.old }
    ensures cause { MeansCause (F.faults files.old) (F.faults files.new) result }
    ensures reads { Now (F.history files.old) (λ w. (F.faults files.new).read ≤ (F.faults files.old).read + length (text_at (seen w.disk) path.now)) }
{
    let mut bytes = Vec::new(alloc);
    if bytes.resize(long, 0).is_err() {
        return Err(MeansFault::Memory);
    }
    match files.read_at(path, 0, &mut bytes) {
        Ok(count) => {
            bytes.truncate(count);
            Ok(Some(bytes))
        }
        Err(_) => Err(MeansFault::Failed),
    }
}
