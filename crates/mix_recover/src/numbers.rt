// The numbers of the data files of a directory.
ghost use Rattle.std.specs.Prelude.{◌≡◌, ◌++◌, ◌↔◌, [], ◌∷◌, List, ℕ, Bool, Some, None, true, false, is_some, string_bytes, OnOk, IfOk, IfErr, map};
ghost use Rattle.std.specs.List.{list_any, filter_map, cons_option};
ghost use Rattle.std.specs.List.Sorted.{IsStrictlyIncreasing};
ghost use Rattle.file_model.specs.Disk.{seen};
ghost use Rattle.file_model.specs.Histories.{Now};
ghost use Rattle.file_model.specs.Images.{is_directory, bytes_at};
ghost use Rattle.mix_data.specs.DataFiles.{data_files_at, data_path, number_at};
ghost use Rattle.mix_recover.specs.Meanings.{is_long};
ghost use Rattle.mix_recover.specs.Reads.{MeansCause, RefusesLong, RefusesData, RefusesNamed, AreShort, is_long_at};

use crate::faults::MeansFault;
use file_model::{Fault, Files, Kind};
use mail_types::Limit;
use mix_data::{FILE_LIMIT, data_path, number_of_name};
use std::alloc::{AllocError, Global};

/// The numbers of the data files of a directory, by rising number. None of these is too long.
pub fn data_numbers<F: Files>(
    alloc: Global,
    files: &mut F,
    dir: &str,
) -> Result<Vec<u32>, MeansFault>
    requires directory { Now (F.history files.old) (λ w. is_directory (seen w.disk) dir.now ≡ true) }
    ensures numbers { IfOk result (λ v. Now (F.history files.old) (λ w. v.items ≡ map (λ d. d.number) (data_files_at (seen w.disk) dir.now))) }
    ensures short { IfOk result (λ v. Now (F.history files.old) (λ w. AreShort (data_files_at (seen w.disk) dir.now))) }
    // also on a host that isn't modelled
    ensures rise { IfOk result (λ v. IsStrictlyIncreasing v.items) }
    ensures refused { IfErr result (λ fault. RefusesData dir.now fault (F.history files.old)) }
    ensures history { F.history files.new ≡ F.history files.old }
    ensures cause { MeansCause (F.faults files.old) (F.faults files.new) result }
    ensures read { (F.faults files.new).read ≡ (F.faults files.old).read }
{
    let names = match files.names(alloc, dir) {
        Ok(names) => names,
        Err(Fault::Failed) => return Err(MeansFault::Failed),
        Err(Fault::Memory) => return Err(MeansFault::Memory),
    };
    let numbers = numbers_of(alloc, files, dir, names.as_slice())?;
    Ok(sorted(numbers))
}

// The numbers of the data files among some names, in the order of these.
fn numbers_of<F: Files>(
    alloc: Global,
    files: &mut F,
    dir: &str,
    names: &[String],
) -> Result<Vec<u32>, MeansFault>
    ensures numbers { IfOk result (λ v. Now (F.history files.old) (λ w. v.items ≡ filter_map (number_at (seen w.disk) dir.now) (map string_bytes names.now))) }
    ensures short { IfOk result (λ v. Now (F.history files.old) (λ w. list_any (is_long_at (seen w.disk) dir.now) (map string_bytes names.now) ≡ false)) }
    ensures refused { IfErr result (λ fault. RefusesNamed dir.now (map string_bytes names.now) fault (F.history files.old)) }
    ensures history { F.history files.new ≡ F.history files.old }
    ensures cause { MeansCause (F.faults files.old) (F.faults files.new) result }
    ensures read { (F.faults files.new).read ≡ (F.faults files.old).read }
{
    let mut numbers = Vec::new(alloc);
    for name in names {
        let found = data_number(alloc, files, dir, name.as_str())?;
        if push_found(&mut numbers, found).is_err() {
            return Err(MeansFault::Memory);
        }
    }
    Ok(numbers)
}

// One number more, if there is one.
fn push_found(numbers: &mut Vec<u32>, found: Option<u32>) -> Result<(), AllocError>
    ensures { OnOk result (numbers.new.items ≡ numbers.old.items ++ cons_option found []) }
{
    match found {
        Some(number) => match numbers.push(number) {
            Ok(()) => Ok(()),
            Err(_) => Err(AllocError),
        },
        None => Ok(()),
    }
}

// The number of the data file of a name, where a file stands there. It is not too long.
fn data_number<F: Files>(
    alloc: Global,
    files: &mut F,
    dir: &str,
    name: &str,
) -> Result<Option<u32>, MeansFault>
    ensures number { IfOk result (λ found. Now (F.history files.old) (λ w. found ≡ number_at (seen w.disk) dir.now name.now)) }
    ensures short { IfOk result (λ found. Now (F.history files.old) (λ w. is_long_at (seen w.disk) dir.now name.now ≡ false)) }
    ensures refused { IfErr result (λ fault. RefusesNamed dir.now (name.now ∷ []) fault (F.history files.old)) }
    ensures history { F.history files.new ≡ F.history files.old }
    ensures cause { MeansCause (F.faults files.old) (F.faults files.new) result }
    ensures read { (F.faults files.new).read ≡ (F.faults files.old).read }
{
    let Some(number) = number_of_name(name) else {
        return Ok(None);
    };
    if is_data_file(alloc, files, dir, number)? {
        Ok(Some(number))
    } else {
        Ok(None)
    }
}

// Whether a file stands at the path of a data file. It is not too long.
fn is_data_file<F: Files>(
    alloc: Global,
    files: &mut F,
    dir: &str,
    number: u32,
) -> Result<bool, MeansFault>
    ensures stands { IfOk result (λ stands. Now (F.history files.old) (λ w. stands ≡ is_some (bytes_at (seen w.disk) (data_path dir.now number)))) }
    ensures short { IfOk result (λ stands. Now (F.history files.old) (λ w. is_long (bytes_at (seen w.disk) (data_path dir.now number)) ≡ false)) }
    ensures refused { IfErr result (λ fault. RefusesLong (data_path dir.now number) fault (F.history files.old)) }
    ensures history { F.history files.new ≡ F.history files.old }
    ensures cause { MeansCause (F.faults files.old) (F.faults files.new) result }
    ensures read { (F.faults files.new).read ≡ (F.faults files.old).read }
{
    let Ok(path) = data_path(alloc, dir, number) else {
        return Err(MeansFault::Memory);
    };
    let Ok(kind) = files.stat(path.as_str()) else {
        return Err(MeansFault::Failed);
    };
    match kind {
        Kind::File(long) if long > FILE_LIMIT => Err(MeansFault::TooLarge(Limit::File)),
        Kind::File(_) => Ok(true),
        _ => Ok(false),
    }
}

// The same numbers by rising number, each once.
fn sorted(numbers: Vec<u32>) -> Vec<u32>
    ensures rise { IsStrictlyIncreasing result.items }
    ensures same { (test : ℕ → Bool) → list_any test result.items ≡ list_any test numbers.items }
{
    let mut sorted = numbers;
    sorted.sort_unstable();
    sorted.dedup();
    sorted
}
