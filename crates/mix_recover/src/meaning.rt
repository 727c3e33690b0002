// What the texts of a mix directory mean, with the scans of its data files.
ghost use Rattle.std.specs.Prelude.{◌≡◌, ◌≢◌, IfSome, ◌≤◌, ◌⊎◌, ℕ, [], true, false, nat_lt, is_none, unwrap_or, Some, None, All, Ok, Err, IfOk, IfErr, MatchOption, MatchResult, length, map};
ghost use Rattle.std.specs.List.{list_any};
ghost use Rattle.mail_types.specs.Limits.{record_limit, text_limit};
ghost use Rattle.mix_index.specs.Entries.{entry_parts, entry_form};
ghost use Rattle.mix_records.specs.Records.{rise_from};
ghost use Rattle.mix_files.specs.Statuses.{statuses_of};
ghost use Rattle.mix_recover.specs.Listings.{file_scan_parts, listing, indexed};
ghost use Rattle.mix_recover.specs.Meanings.{meta_in, reading_from, within_limits};
ghost use Rattle.mix_data.specs.Scans.{PlacesRise};
ghost use Rattle.mix_recover.specs.Orders.{NumbersRise};
ghost use Rattle.mix_recover.specs.Readings.{texts_of, reading_parts, IsShort, option_bytes};

use crate::accepting::is_accepted;
use crate::faults::MeansFault;
use crate::rebuilding::rebuild;
use crate::scans::FileScan;
use mail_types::Limit;
use mix_files::{Meta, Status, read_meta, read_status};
use mix_index::{Entry, read_index};
use std::alloc::{AllocError, Global};

/// The three texts of a mix directory, as far as they are there.
#[derive(Debug, Drop)]
pub struct Texts {
    pub metadata: Option<Vec<u8>>,
    pub index: Option<Vec<u8>>,
    pub statuses: Option<Vec<u8>>,
}

/// What is read of a mix directory: its metadata and status as they stand, the listing, the end of
/// the scan of each data file by rising number, and whether the listing was rebuilt.
#[derive(Debug, Drop)]
pub struct Meaning {
    pub meta: Meta,
    pub entries: Vec<Entry>,
    pub statuses: Vec<Status>,
    pub ends: Vec<(u32, u64)>,
    pub rebuilt: bool,
}

/// What the texts mean with the scans of all data files.
pub fn read_together(
    alloc: Global,
    texts: &Texts,
    scans: &[FileScan],
) -> Result<Meaning, MeansFault>
    requires short { IsShort texts.now.statuses }
    requires files { NumbersRise scans.now }
    requires places { All (λ each. PlacesRise each.scan.records.items) scans.now }
    requires uids { All (λ each. All (λ p. p.head.uid ≢ 0) each.scan.records.items) scans.now }
    ensures ok { IfOk result (λ m. within_limits (reading_from (texts_of texts.now) (map file_scan_parts scans.now)) ≡ Ok (reading_parts m)) }
    // so that the listing can be written
    ensures rising { IfOk result (λ m. rise_from entry_form 0 (map entry_parts m.entries.items) ≡ true) }
    ensures heads { IfOk result (λ m. All (λ entry. entry.head ≡ 45) m.entries.items) }
    ensures err { IfErr result (λ fault. (fault ≡ MeansFault.Memory) ⊎ (within_limits (reading_from (texts_of texts.now) (map file_scan_parts scans.now)) ≡ Err fault)) }
{
    let meta = metadata(alloc, &texts.metadata)?;
    let statuses = statuses(alloc, &texts.statuses)?;
    let (entries, rebuilt) = match entries(alloc, &texts.index, scans) {
        Ok(found) => found,
        Err(_) => return Err(MeansFault::Memory),
    };
    check_limits(entries.as_slice())?;
    match ends(alloc, scans) {
        Ok(ends) => Ok(Meaning {
            meta,
            entries,
            statuses,
            ends,
            rebuilt,
        }),
        Err(_) => Err(MeansFault::Memory),
    }
}

// The metadata, which has to stand there.
fn metadata(alloc: Global, text: &Option<Vec<u8>>) -> Result<Meta, MeansFault>
    ensures { MatchResult result (λ meta. meta_in (option_bytes text.now) ≡ Some meta)
        (λ fault. (fault ≡ MeansFault.Memory) ⊎ ((fault ≡ MeansFault.IllFormed 0) × (meta_in (option_bytes text.now) ≡ None))) }
{
    let Some(text) = text else {
        return Err(MeansFault::IllFormed(0));
    };
    match read_meta(alloc, text.as_slice()) {
        Ok(Some(meta)) => Ok(meta),
        Ok(None) => Err(MeansFault::IllFormed(0)),
        Err(_) => Err(MeansFault::Memory),
    }
}

// The status, which is one without records where it is missing.
fn statuses(alloc: Global, text: &Option<Vec<u8>>) -> Result<Vec<Status>, MeansFault>
    requires { IsShort text.now }
    ensures { MatchResult result (λ v. statuses_of (unwrap_or (option_bytes text.now) []) ≡ Ok v.items)
        (λ fault. (fault ≡ MeansFault.Memory) ⊎ ((count : ℕ) × (fault ≡ MeansFault.IllFormed count) × (statuses_of (unwrap_or (option_bytes text.now) []) ≡ Err count))) }
{
    let Some(text) = text else {
        return Ok(Vec::new(alloc));
    };
    match read_status(alloc, text.as_slice()) {
        Ok(Ok(records)) => Ok(records),
        Ok(Err(count)) => Err(MeansFault::IllFormed(count)),
        Err(_) => Err(MeansFault::Memory),
    }
}

// The listing, and whether it was rebuilt.
fn entries(
    alloc: Global,
    index: &Option<Vec<u8>>,
    scans: &[FileScan],
) -> Result<(Vec<Entry>, bool), AllocError>
    requires files { NumbersRise scans.now }
    requires places { All (λ each. PlacesRise each.scan.records.items) scans.now }
    requires uids { All (λ each. All (λ p. p.head.uid ≢ 0) each.scan.records.items) scans.now }
    ensures rising { IfOk result (λ found. rise_from entry_form 0 (map entry_parts found.0.items) ≡ true) }
    ensures heads { IfOk result (λ found. All (λ entry. entry.head ≡ 45) found.0.items) }
    ensures listing { IfOk result (λ found. map entry_parts found.0.items ≡ listing (option_bytes index.now) (map file_scan_parts scans.now)) }
    ensures rebuilt { IfOk result (λ found. found.1 ≡ is_none (indexed (option_bytes index.now) (map file_scan_parts scans.now))) }
{
    match accepted(alloc, index, scans)? {
        Some(entries) => Ok((entries, false)),
        None => {
            let entries = rebuild(alloc, scans)?;
            Ok((entries, true))
        }
    }
}

// The entries of the index, if it is there, in its grammar and accepted.
fn accepted(
    alloc: Global,
    index: &Option<Vec<u8>>,
    scans: &[FileScan],
) -> Result<Option<Vec<Entry>>, AllocError>
    requires files { NumbersRise scans.now }
    requires places { All (λ each. PlacesRise each.scan.records.items) scans.now }
    ensures rising { IfOk result (λ found. IfSome found (λ v. rise_from entry_form 0 (map entry_parts v.items) ≡ true)) }
    ensures heads { IfOk result (λ found. IfSome found (λ v. All (λ entry. entry.head ≡ 45) v.items)) }
    ensures value { IfOk result (λ found. MatchOption found (indexed (option_bytes index.now) (map file_scan_parts scans.now) ≡ None)
        (λ v. indexed (option_bytes index.now) (map file_scan_parts scans.now) ≡ Some (map entry_parts v.items))) }
{
    let Some(text) = index else {
        return Ok(None);
    };
    let Some(entries) = read_index(alloc, text.as_slice())? else {
        return Ok(None);
    };
    if is_accepted(scans, entries.as_slice()) {
        Ok(Some(entries))
    } else {
        Ok(None)
    }
}

// Refuses a listing past the limits.
fn check_limits(entries: &[Entry]) -> Result<(), MeansFault>
    ensures { MatchResult result
        (λ u. (nat_lt record_limit (length entries.now) ≡ false) × (list_any (λ e. nat_lt text_limit e.size) entries.now ≡ false))
        (λ fault. ((fault ≡ MeansFault.TooLarge Limit.Records) × (nat_lt record_limit (length entries.now) ≡ true))
        ⊎ ((fault ≡ MeansFault.TooLarge Limit.Text) × (nat_lt record_limit (length entries.now) ≡ false) × (list_any (λ e. nat_lt text_limit e.size) entries.now ≡ true))) }
{
    if entries.len() > 1_048_576 {
        return Err(MeansFault::TooLarge(Limit::Records));
    }
    if entries.iter().any(|entry| entry.size > 16_777_216) {
        return Err(MeansFault::TooLarge(Limit::Text));
    }
    Ok(())
}

// The end of the scan of each data file.
fn ends(alloc: Global, scans: &[FileScan]) -> Result<Vec<(u32, u64)>, AllocError>
    ensures { IfOk result (λ v. v.items ≡ map (λ each. (each.number, each.scan.end)) scans.now) }
{
    scans
        .iter()
        .map(|each| (each.number, each.scan.end))
        .collect(alloc)
}
