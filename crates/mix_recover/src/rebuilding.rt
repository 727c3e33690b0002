// The listing without an index.
ghost use Rattle.std.specs.Prelude.{◌≡◌, ◌≢◌, IfOk, map, true, All};
ghost use Rattle.mix_index.specs.Entries.{entry_parts, entry_form};
ghost use Rattle.mix_records.specs.Records.{rise_from};
ghost use Rattle.std.specs.Prelude.{OnOk, fold};
ghost use Rattle.mix_data.specs.Scans.{placed_parts};
ghost use Rattle.mix_recover.specs.Listings.{file_scan_parts, rebuilt, rebuilt_entry, with_entry};
ghost use Rattle.mix_recover.specs.Rebuilding.{IsByUid, listed_in};

use crate::scans::FileScan;
use mix_data::Placed;
use mix_index::Entry;
use std::alloc::{AllocError, Global};
use std::collections::BTreeMap;

/// Each UID that stands in one of the scans once, by rising UID, with the last record that has it.
pub fn rebuild(alloc: Global, scans: &[FileScan]) -> Result<Vec<Entry>, AllocError>
    requires uids { All (λ each. All (λ p. p.head.uid ≢ 0) each.scan.records.items) scans.now }
    ensures listing { IfOk result (λ v. map entry_parts v.items ≡ rebuilt (map file_scan_parts scans.now)) }
    // so that the listing can be written
    ensures rising { IfOk result (λ v. rise_from entry_form 0 (map entry_parts v.items) ≡ true) }
    ensures heads { IfOk result (λ v. All (λ entry. entry.head ≡ 45) v.items) }
{
    let mut listing = BTreeMap::new(alloc);
    for each in scans {
        list(&mut listing, each.number, each.scan.records.as_slice())?;
    }
    listing.into_values().collect(alloc)
}

// Lists the records of one data file.
fn list(listing: &mut BTreeMap<u32, Entry>, file: u32, records: &[Placed]) -> Result<(), AllocError>
    requires keys { IsByUid listing.old }
    requires rising { rise_from entry_form 0 (listed_in listing.old) ≡ true }
    requires uids { All (λ p. p.head.uid ≢ 0) records.now }
    ensures keys { OnOk result (IsByUid listing.new) }
    ensures rising { OnOk result (rise_from entry_form 0 (listed_in listing.new) ≡ true) }
    ensures listed { OnOk result (listed_in listing.new ≡ fold with_entry (listed_in listing.old) (map (λ p. rebuilt_entry file (placed_parts p)) records.now)) }
{
    for placed in records {
        let entry = entry_of(file, *placed);
        if listing.insert(entry.uid, entry).is_err() {
            return Err(AllocError);
        }
    }
    Ok(())
}

// The entry of a record that is found in a data file.
fn entry_of(file: u32, placed: Placed) -> Entry
    ensures { entry_parts result ≡ rebuilt_entry file (placed_parts placed) }
{
    Entry {
        uid: placed.head.uid,
        stamp: placed.head.stamp,
        size: placed.head.size,
        file,
        place: placed.place,
        head: 45,
        field: 0,
    }
}
