// The files of a mix directory are read: its three texts whole, and the heads of all records.
ghost use Rattle.std.specs.Prelude.{◌≡◌, ◌≢◌, ◌≤◌, ◌⊎◌, ◌+◌, ◌++◌, ◌∷◌, [], OnOk, List, ℕ, All, Some, None, Ok, Err, true, is_some, string_bytes, IfOk, IfErr, MatchOption, IsErrOf, length, map};
ghost use Rattle.std.specs.List.Sorted.{IsStrictlyIncreasing};
ghost use Rattle.mix_index.specs.Entries.{entry_parts, entry_form};
ghost use Rattle.mix_records.specs.Records.{rise_from};
ghost use Rattle.file_model.specs.Disk.{seen};
ghost use Rattle.file_model.specs.Histories.{Now};
ghost use Rattle.file_model.specs.Images.{is_directory, bytes_at, text_at};
ghost use Rattle.mix_data.specs.DataFiles.{data_files_at, data_path};
ghost use Rattle.mix_recover.specs.Directories.{mix_files_at, mix_texts_at};
ghost use Rattle.mix_recover.specs.Listings.{file_scan_parts, scans_of};
ghost use Rattle.mix_recover.specs.Meanings.{found_in};
ghost use Rattle.mix_data.specs.Scans.{PlacesRise};
ghost use Rattle.mix_recover.specs.Orders.{NumbersRise};
ghost use Rattle.mix_recover.specs.Readings.{texts_of, reading_parts, IsShort};
ghost use Rattle.mix_recover.specs.Reads.{MeansCause, scan_reads, text_reads, reads_of, RefusesMeaning, RefusesTexts, RefusesLong, RefusesData, AreShort};

use crate::faults::MeansFault;
use crate::meaning::{Meaning, Texts, read_together};
use crate::numbers::data_numbers;
use crate::scans::FileScan;
use crate::texts::read_text;
use file_model::{Fault, Files};
use mix_data::{data_path, scan_file};
use std::alloc::{AllocError, Global};

/// What the files of a mix directory mean. Of the messages their heads are read, and no text.
pub fn means<F: Files>(alloc: Global, files: &mut F, dir: &str) -> Result<Meaning, MeansFault>
    requires directory { Now (F.history files.old) (λ w. is_directory (seen w.disk) dir.now ≡ true) }
    ensures found { IfOk result (λ m. Now (F.history files.old) (λ w. found_in (mix_files_at (seen w.disk) dir.now) ≡ Ok (reading_parts m))) }
    // so that the listing can be written
    ensures rising { IfOk result (λ m. rise_from entry_form 0 (map entry_parts m.entries.items) ≡ true) }
    ensures heads { IfOk result (λ m. All (λ entry. entry.head ≡ 45) m.entries.items) }
    ensures refused { IfErr result (λ fault. RefusesMeaning dir.now fault (F.history files.old)) }
    ensures history { F.history files.new ≡ F.history files.old }
    ensures cause { MeansCause (F.faults files.old) (F.faults files.new) result }
    // whatever it answers
    ensures reads { Now (F.history files.old) (λ w. (F.faults files.new).read ≤ (F.faults files.old).read + reads_of (mix_files_at (seen w.disk) dir.now)) }
{
    let numbers = data_numbers(alloc, files, dir)?;
    means_with(alloc, files, dir, numbers.as_slice())
}

// The same where the numbers of the data files are known, and none of these is too long.
fn means_with<F: Files>(
    alloc: Global,
    files: &mut F,
    dir: &str,
    numbers: &[u32],
) -> Result<Meaning, MeansFault>
    requires numbers { Now (F.history files.old) (λ w. numbers.now ≡ map (λ d. d.number) (data_files_at (seen w.disk) dir.now)) }
    requires short { Now (F.history files.old) (λ w. AreShort (data_files_at (seen w.disk) dir.now)) }
    requires rise { IsStrictlyIncreasing numbers.now }
    ensures found { IfOk result (λ m. Now (F.history files.old) (λ w. found_in (mix_files_at (seen w.disk) dir.now) ≡ Ok (reading_parts m))) }
    // so that the listing can be written
    ensures rising { IfOk result (λ m. rise_from entry_form 0 (map entry_parts m.entries.items) ≡ true) }
    ensures heads { IfOk result (λ m. All (λ entry. entry.head ≡ 45) m.entries.items) }
    ensures refused { IfErr result (λ fault. RefusesMeaning dir.now fault (F.history files.old)) }
    ensures history { F.history files.new ≡ F.history files.old }
    ensures cause { MeansCause (F.faults files.old) (F.faults files.new) result }
    // whatever it answers
    ensures reads { Now (F.history files.old) (λ w. (F.faults files.new).read ≤ (F.faults files.old).read + reads_of (mix_files_at (seen w.disk) dir.now)) }
{
    let texts = read_texts(alloc, files, dir)?;
    let scans = scan_files(alloc, files, dir, numbers)?;
    read_together(alloc, &texts, scans.as_slice())
}

// The three texts.
fn read_texts<F: Files>(alloc: Global, files: &mut F, dir: &str) -> Result<Texts, MeansFault>
    ensures texts { IfOk result (λ texts. Now (F.history files.old) (λ w. texts_of texts ≡ mix_texts_at (seen w.disk) dir.now)) }
    ensures metadata { IfOk result (λ texts. IsShort texts.metadata) }
    ensures index { IfOk result (λ texts. IsShort texts.index) }
    ensures statuses { IfOk result (λ texts. IsShort texts.statuses) }
    ensures refused { IfErr result (λ fault. RefusesTexts dir.now fault (F.history files.old)) }
    ensures history { F.history files.new ≡ F.history files.old }
    ensures cause { MeansCause (F.faults files.old) (F.faults files.new) result }
    ensures reads { Now (F.history files.old) (λ w. (F.faults files.new).read ≤ (F.faults files.old).read + text_reads (mix_texts_at (seen w.disk) dir.now)) }
{
    let metadata = read_named(alloc, files, dir, "/.mixmeta")?;
    let index = read_named(alloc, files, dir, "/.mixindex")?;
    let statuses = read_named(alloc, files, dir, "/.mixstatus")?;
    Ok(Texts {
        metadata,
        index,
        statuses,
    })
}

// The text of a name behind the directory's path.
fn read_named<F: Files>(
    alloc: Global,
    files: &mut F,
    dir: &str,
    name: &str,
) -> Result<Option<Vec<u8>>, MeansFault>
    ensures text { IfOk result (λ found. Now (F.history files.old) (λ w. MatchOption found (bytes_at (seen w.disk) (dir.now ++ name.now) ≡ None) (λ v. bytes_at (seen w.disk) (dir.now ++ name.now) ≡ Some v.items))) }
    ensures short { IfOk result (λ found. IsShort found) }
    ensures refused { IfErr result (λ fault. RefusesLong (dir.now ++ name.now) fault (F.history files.old)) }
    ensures history { F.history files.new ≡ F.history files.old }
    ensures cause { MeansCause (F.faults files.old) (F.faults files.new) result }
    ensures reads { Now (F.history files.old) (λ w. (F.faults files.new).read ≤ (F.faults files.old).read + length (text_at (seen w.disk) (dir.now ++ name.now))) }
{
    let Ok(path) = joined(alloc, dir, name) else {
        return Err(MeansFault::Memory);
    };
    read_text(alloc, files, path.as_str())
}

// Two texts as one.
fn joined(alloc: Global, front: &str, back: &str) -> Result<String, AllocError>
    ensures { IfOk result (λ s. string_bytes s ≡ front.now ++ back.now) }
{
    let mut path = String::from_str(alloc, front)?;
    path.push_str(back)?;
    Ok(path)
}

// The scans of the data files of these numbers.
fn scan_files<F: Files>(
    alloc: Global,
    files: &mut F,
    dir: &str,
    numbers: &[u32],
) -> Result<Vec<FileScan>, MeansFault>
    requires numbers { Now (F.history files.old) (λ w. numbers.now ≡ map (λ d. d.number) (data_files_at (seen w.disk) dir.now)) }
    requires short { Now (F.history files.old) (λ w. AreShort (data_files_at (seen w.disk) dir.now)) }
    requires rise { IsStrictlyIncreasing numbers.now }
    ensures scans { IfOk result (λ v. Now (F.history files.old) (λ w. map file_scan_parts v.items ≡ scans_of (data_files_at (seen w.disk) dir.now))) }
    ensures files { IfOk result (λ v. NumbersRise v.items) }
    ensures places { IfOk result (λ v. All (λ each. PlacesRise each.scan.records.items) v.items) }
    ensures uids { IfOk result (λ v. All (λ each. All (λ p. p.head.uid ≢ 0) each.scan.records.items) v.items) }
    ensures refused { IfErr result (λ fault. (fault ≡ MeansFault.Failed) ⊎ (fault ≡ MeansFault.Memory)) }
    ensures history { F.history files.new ≡ F.history files.old }
    ensures cause { MeansCause (F.faults files.old) (F.faults files.new) result }
    ensures reads { Now (F.history files.old) (λ w. (F.faults files.new).read ≤ (F.faults files.old).read + scan_reads (scans_of (data_files_at (seen w.disk) dir.now))) }
{
    let mut scans = Vec::new(alloc);
    for number in numbers {
        let Ok(path) = data_path(alloc, dir, *number) else {
            return Err(MeansFault::Memory);
        };
        let scan = match scan_file(alloc, files, path.as_str()) {
            Ok(scan) => scan,
            Err(Fault::Failed) => return Err(MeansFault::Failed),
            Err(Fault::Memory) => return Err(MeansFault::Memory),
        };
        let each = FileScan {
            number: *number,
            scan,
        };
        if push(&mut scans, each).is_err() {
            return Err(MeansFault::Memory);
        }
    }
    Ok(scans)
}

// One scan more.
fn push(scans: &mut Vec<FileScan>, each: FileScan) -> Result<(), AllocError>
    ensures { OnOk result (scans.new.items ≡ scans.old.items ++ each ∷ []) }
{
    match scans.push(each) {
        Ok(()) => Ok(()),
        Err(_) => Err(AllocError),
    }
}
