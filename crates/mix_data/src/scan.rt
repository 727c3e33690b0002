// The whole records of a data file. Of each its head is read, and no text.
ghost use Rattle.std.specs.Prelude.{◌≡◌, ◌≢◌, All, ◌≤◌, ◌+◌, ◌*◌, List, ℕ, Some, None, IfOk, IfSome, MatchOption, length, drop};
ghost use Rattle.file_model.specs.Disk.{seen};
ghost use Rattle.file_model.specs.Histories.{Now};
ghost use Rattle.file_model.specs.Images.{text_at, node_at, file};
ghost use Rattle.mix_data.specs.Causes.{ReadFaultCause};
ghost use Rattle.mix_data.specs.Scans.{PlacesRise, record_at_front, scan_of, scan_parts, head_parts};

use crate::head::{Head, read_head};
use file_model::{Fault, Files, Kind};
use std::alloc::Global;

/// No data file is longer.
pub const FILE_LIMIT: u64 = 536_870_912;

/// A record, and the place of its first byte in its file.
#[derive(Clone, Copy, Debug, PartialEq, Eq)]
pub struct Placed {
    pub head: Head,
    pub place: u32,
}

/// The whole records of a file up to the first byte that begins none, which is at `end`.
#[derive(Debug, Drop)]
pub struct Scan {
    pub records: Vec<Placed>,
    pub end: u64,
}

/// The whole records of a data file; a file that isn't there has none.
pub fn scan_file<F: Files>(alloc: Global, files: &mut F, path: &str) -> Result<Scan, Fault>
    requires short { Now (F.history files.old) (λ w. length (text_at (seen w.disk) path.now) ≤ 536870912) }
    ensures scan { IfOk result (λ scan. Now (F.history files.old) (λ w. scan_parts scan ≡ scan_of (text_at (seen w.disk) path.now))) }
    // also on a host that isn't modelled
    ensures rise { IfOk result (λ scan. PlacesRise scan.records.items) }
    ensures uids { IfOk result (λ scan. All (λ p. p.head.uid ≢ 0) scan.records.items) }
    ensures history { F.history files.new ≡ F.history files.old }
    ensures cause { ReadFaultCause (F.faults files.old) (F.faults files.new) result }
    // whatever it answers
    ensures reads { Now (F.history files.old) (λ w. (F.faults files.new).read ≤ (F.faults files.old).read + 45 * (length (scan_of (text_at (seen w.disk) path.now)).records + 1)) }
{
    let Ok(kind) = files.stat(path) else {
        return Err(Fault::Failed);
    };
    match kind {
        Kind::File(long) => scan_long(alloc, files, path, long.min(FILE_LIMIT)),
        _ => Ok(Scan {
            records: Vec::new(alloc),
            end: 0,
        }),
    }
}

// The whole records of a file of this length.
fn scan_long<F: Files>(alloc: Global, files: &mut F, path: &str, long: u64) -> Result<Scan, Fault>
    requires short { long ≤ 536870912 }
    requires stands { Now (F.history files.old) (λ w. (bytes : List ℕ) × (node_at (seen w.disk) path.now ≡ file bytes) × (length bytes ≡ long)) }
    ensures scan { IfOk result (λ scan. Now (F.history files.old) (λ w. scan_parts scan ≡ scan_of (text_at (seen w.disk) path.now))) }
    // also on a host that isn't modelled
    ensures rise { IfOk result (λ scan. PlacesRise scan.records.items) }
    ensures uids { IfOk result (λ scan. All (λ p. p.head.uid ≢ 0) scan.records.items) }
    ensures history { F.history files.new ≡ F.history files.old }
    ensures cause { ReadFaultCause (F.faults files.old) (F.faults files.new) result }
    ensures reads { Now (F.history files.old) (λ w. (F.faults files.new).read ≤ (F.faults files.old).read + 45 * (length (scan_of (text_at (seen w.disk) path.now)).records + 1)) }
{
    let mut records = Vec::new(alloc);
    let mut place = 0;
    while let Some(head) = record_at(files, path, place, long)? {
        let placed = Placed {
            head,
            place: place as u32,
        };
        if records.push(placed).is_err() {
            return Err(Fault::Memory);
        }
        place += 45 + u64::from(head.size);
    }
    Ok(Scan {
        records,
        end: place,
    })
}

// The head of the whole record at a place of a file of this length.
fn record_at<F: Files>(
    files: &mut F,
    path: &str,
    place: u64,
    long: u64,
) -> Result<Option<Head>, Fault>
    requires within { place ≤ long }
    requires short { long ≤ 536870912 }
    requires stands { Now (F.history files.old) (λ w. (bytes : List ℕ) × (node_at (seen w.disk) path.now ≡ file bytes) × (length bytes ≡ long)) }
    ensures head { IfOk result (λ found. Now (F.history files.old) (λ w. MatchOption found (record_at_front (drop place (text_at (seen w.disk) path.now)) ≡ None)
        (λ head. record_at_front (drop place (text_at (seen w.disk) path.now)) ≡ Some (head_parts head)))) }
    ensures inside { IfOk result (λ found. IfSome found (λ head. place + 45 + head.size ≤ long)) }
    ensures some { IfOk result (λ found. IfSome found (λ head. head.uid ≢ 0)) }
    ensures history { F.history files.new ≡ F.history files.old }
    ensures cause { ReadFaultCause (F.faults files.old) (F.faults files.new) result }
    ensures reads { Now (F.history files.old) (λ w. (F.faults files.new).read ≤ (F.faults files.old).read + 45) }
{
    let mut buffer = [0; 45];
    let count = match files.read_at(path, place, &mut buffer) {
        Ok(count) => count,
        Err(_) => return Err(Fault::Failed),
    };
    match read_head(&buffer[..count]) {
        Some(head) if place + 45 + u64::from(head.size) <= long => Ok(Some(head)),
        _ => Ok(None),
    }
}
