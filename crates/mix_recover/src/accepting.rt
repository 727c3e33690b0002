// Whether an index is accepted.
ghost use Rattle.std.specs.Prelude.{◌≡◌, ◌==◌, ◌&&◌, All, map};
ghost use Rattle.std.specs.List.{list_all, list_any};
ghost use Rattle.mix_index.specs.Entries.{entry_parts};
ghost use Rattle.mix_data.specs.Scans.{placed_parts};
ghost use Rattle.mix_recover.specs.Listings.{file_scan_parts, is_scanned, is_record_of};
ghost use Rattle.mix_data.specs.Scans.{PlacesRise};
ghost use Rattle.mix_recover.specs.Orders.{NumbersRise};

use crate::scans::FileScan;
use mix_data::Placed;
use mix_index::Entry;

/// Whether each entry stands in the scan of its data file at its place, with the same UID, date and size.
pub fn is_accepted(scans: &[FileScan], entries: &[Entry]) -> bool
    requires files { NumbersRise scans.now }
    requires places { All (λ each. PlacesRise each.scan.records.items) scans.now }
    ensures { result ≡ list_all (is_scanned (map file_scan_parts scans.now)) (map entry_parts entries.now) }
{
    entries.iter().all(|entry| is_scanned(scans, entry))
}

// Whether an entry stands in the scan of its data file.
fn is_scanned(scans: &[FileScan], entry: &Entry) -> bool
    requires files { NumbersRise scans.now }
    requires places { All (λ each. PlacesRise each.scan.records.items) scans.now }
    ensures { result ≡ is_scanned (map file_scan_parts scans.now) (entry_parts entry.now) }
{
    match scans.binary_search_by_key(&entry.file, |each| each.number) {
        Ok(found) => has_record(scans[found].scan.records.as_slice(), entry),
        Err(_) => false,
    }
}

// Whether the record of an entry is among some of its file.
fn has_record(records: &[Placed], entry: &Entry) -> bool
    requires places { PlacesRise records.now }
    ensures { result ≡ list_any (is_record_of (entry_parts entry.now)) (map placed_parts records.now) }
{
    match records.binary_search_by_key(&entry.place, |placed| placed.place) {
        Ok(found) => is_record_of(records[found], entry),
        Err(_) => false,
    }
}

// Whether a record is that of an entry.
fn is_record_of(placed: Placed, entry: &Entry) -> bool
    ensures { result ≡ is_record_of (entry_parts entry.now) (placed_parts placed) }
{
    placed.place == entry.place
        && placed.head.uid == entry.uid
        && placed.head.stamp == entry.stamp
        && placed.head.size == entry.size
}
