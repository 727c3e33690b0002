// The records of a file are found by their heads alone.
ghost use Rattle.std.specs.Prelude.{◌≡◌, ◌≤◌, ◌<◌, ◌+◌, ◌^◌, ◌++◌, [], ◌∷◌, take, drop, length, IfOk, IfErr, IfSome, OnOk};
ghost use Rattle.std.specs.List.{AllByRecursion};
ghost use Rattle.file_model.specs.Disk.{seen};
ghost use Rattle.file_model.specs.Histories.{Now};
ghost use Rattle.file_model.specs.Kinds.{IsFile};
ghost use Rattle.mail_types.specs.Limits.{file_limit};
ghost use Rattle.store_trait.specs.Answers.{OpenCause};
ghost use Rattle.file_store.specs.Scans.{OfFile, HasFile};
ghost use Rattle.mbx_form.specs.Header.{header_of};
ghost use Rattle.mbx_form.specs.Heads.{head_at};
ghost use Rattle.mbx_store.specs.Places.{IsNear};
ghost use Rattle.mbx_store.specs.Scans.{info_at, infos_at, place_of, with_place, IsPlaceOf, AreAll, FewRead, IsHostFault, RefusesRecords};

use crate::place::{MbxPlace, is_marked};
use file_model::Files;
use mail_types::{Driver, Flags};
use mbx_form::{MbxHead, MbxHeader, read_head, read_header};
use std::alloc::{AllocError, Global};
use store_trait::{Info, OpenFault};

/// The records that were found: where the next one begins, their places, and what is told of the messages among them.
#[derive(Debug, Drop)]
pub(crate) struct Scan {
    pub(crate) at: u64,
    pub(crate) places: Vec<MbxPlace>,
    pub(crate) infos: Vec<Info>,
}

/// The header of a file, if it has one.
pub(crate) fn read_front<F: Files>(
    alloc: Global,
    files: &mut F,
    path: &str,
) -> Result<Option<MbxHeader>, OpenFault>
    requires stands { Now (F.history files.old) (λ w. IsFile (seen w.disk) path.now 0) }
    ensures header { IfOk result (λ found. OfFile (F.history files.old) path.now (λ bytes. found ≡ header_of (take 2048 bytes))) }
    ensures few { IfOk result (λ found. IfSome found (λ h. length h.words ≤ 30)) }
    ensures refused { IfErr result (λ fault. IsHostFault fault) }
    ensures history { F.history files.new ≡ F.history files.old }
    ensures cause { OpenCause (F.faults files.old) (F.faults files.new) result }
    ensures reads { Now (F.history files.old) (λ w. (F.faults files.new).read ≤ (F.faults files.old).read + 2048) }
{
    let mut front = [0; 2048];
    let Ok(got) = files.read_at(path, 0, &mut front) else {
        return Err(OpenFault::Failed);
    };
    match read_header(alloc, &front[..got]) {
        Ok(found) => Ok(found),
        Err(_) => Err(OpenFault::Memory),
    }
}

// The head at a place of a file, and its length. It needs 61 bytes.
fn head_in<F: Files>(
    files: &mut F,
    path: &str,
    at: u64,
) -> Result<Option<(MbxHead, usize)>, OpenFault>
    requires stands { Now (F.history files.old) (λ w. IsFile (seen w.disk) path.now at) }
    ensures head { IfOk result (λ found. OfFile (F.history files.old) path.now (λ bytes. found ≡ head_at (drop at bytes))) }
    ensures wide { IfOk result (λ found. IfSome found (λ f. (51 ≤ f.1) × (f.1 ≤ 61))) }
    ensures refused { IfErr result (λ fault. RefusesRecords fault (F.history files.old) path.now) }
    ensures history { F.history files.new ≡ F.history files.old }
    ensures cause { OpenCause (F.faults files.old) (F.faults files.new) result }
    ensures reads { Now (F.history files.old) (λ w. (F.faults files.new).read ≤ (F.faults files.old).read + 61) }
{
    let mut front = [0; 61];
    match files.read_at(path, at, &mut front) {
        Ok(got) => Ok(read_head(&front[..got])),
        Err(_) => Err(OpenFault::Failed),
    }
}

// The place of the record of a head, if the file has its text.
fn place_of(at: u64, long: u64, head: &MbxHead, width: usize) -> Option<MbxPlace>
    ensures { result ≡ place_of at long head.now width }
{
    if u128::from(at) + width as u128 + u128::from(head.size) > u128::from(long) {
        return None;
    }
    Some(MbxPlace {
        at,
        head: width as u64,
        size: head.size,
        words: head.words,
        bits: head.bits,
    })
}

// The record at a place of a file, if one is there.
fn next_record<F: Files>(
    files: &mut F,
    path: &str,
    at: u64,
    long: u64,
) -> Result<Option<(MbxHead, MbxPlace)>, OpenFault>
    requires stands { Now (F.history files.old) (λ w. IsFile (seen w.disk) path.now at) }
    ensures record { IfOk result (λ found. OfFile (F.history files.old) path.now (λ bytes. found ≡ with_place at long (head_at (drop at bytes)))) }
    ensures place { IfOk result (λ found. IfSome found (λ f. IsPlaceOf at long f.0 f.1)) }
    ensures refused { IfErr result (λ fault. RefusesRecords fault (F.history files.old) path.now) }
    ensures history { F.history files.new ≡ F.history files.old }
    ensures cause { OpenCause (F.faults files.old) (F.faults files.new) result }
    ensures reads { Now (F.history files.old) (λ w. (F.faults files.new).read ≤ (F.faults files.old).read + 61) }
{
    let Some((head, width)) = head_in(files, path, at)? else {
        return Ok(None);
    };
    match place_of(at, long, &head, width) {
        Some(place) => Ok(Some((head, place))),
        None => Ok(None),
    }
}

// What is told of the message of a head, where so many keywords have names.
fn info_at(names: usize, head: &MbxHead) -> Info
    requires few { names ≤ 30 }
    requires short { head.now.size < 2 ^ 32 }
    ensures { result ≡ info_at names head.now }
{
    Info {
        uid: head.uid,
        stamp: head.stamp,
        flags: Flags::of_bits(head.bits),
        words: head.words % (1 << names),
        size: head.size as u32,
    }
}

impl Scan {
    fn new(alloc: Global) -> Scan
        ensures at { result.at ≡ 2048 }
        ensures places { result.places.items ≡ [] }
        ensures infos { result.infos.items ≡ [] }
    {
        Scan {
            at: 2048,
            places: Vec::new(alloc),
            infos: Vec::new(alloc),
        }
    }

    // One record more.
    fn add(&mut self, names: usize, head: &MbxHead, place: MbxPlace) -> Result<(), AllocError>
        requires few { names ≤ 30 }
        requires short { head.now.size < 2 ^ 32 }
        requires near { IsNear place }
        ensures at { OnOk result (self.new.at ≡ place.at + place.head + place.size) }
        ensures places { OnOk result (self.new.places.items ≡ self.old.places.items ++ place ∷ []) }
        ensures infos { OnOk result (self.new.infos.items ≡ self.old.infos.items ++ infos_at names head.now) }
    {
        self.places.push(place)?;
        if !is_marked(head.bits) {
            self.infos.push(info_at(names, head))?;
        }
        self.at = place.at + place.head + place.size;
        Ok(())
    }

    fn take(&mut self, names: usize, head: &MbxHead, place: MbxPlace) -> Result<(), OpenFault>
        requires few { names ≤ 30 }
        requires short { head.now.size < 2 ^ 32 }
        requires near { IsNear place }
        ensures at { OnOk result (self.new.at ≡ place.at + place.head + place.size) }
        ensures places { OnOk result (self.new.places.items ≡ self.old.places.items ++ place ∷ []) }
        ensures infos { OnOk result (self.new.infos.items ≡ self.old.infos.items ++ infos_at names head.now) }
        ensures memory { IfErr result (λ fault. fault ≡ OpenFault.Memory) }
    {
        match self.add(names, head, place) {
            Ok(()) => Ok(()),
            Err(_) => Err(OpenFault::Memory),
        }
    }
}

/// Finds the records behind the header of a file that is so long.
pub(crate) fn scan_records<F: Files>(
    alloc: Global,
    files: &mut F,
    path: &str,
    long: u64,
    names: usize,
) -> Result<Scan, OpenFault>
    requires few { names ≤ 30 }
    requires short { long ≤ file_limit }
    requires file { Now (F.history files.old) (λ w. HasFile path.now long (seen w.disk)) }
    ensures records { IfOk result (λ scan. OfFile (F.history files.old) path.now (λ bytes. AreAll names bytes scan.places.items scan.infos.items)) }
    ensures near { IfOk result (λ scan. AllByRecursion IsNear scan.places.items) }
    ensures refused { IfErr result (λ fault. RefusesRecords fault (F.history files.old) path.now) }
    ensures history { F.history files.new ≡ F.history files.old }
    ensures cause { OpenCause (F.faults files.old) (F.faults files.new) result }
    ensures reads { OfFile (F.history files.old) path.now (λ bytes. FewRead bytes (F.faults files.old).read (F.faults files.new).read) }
{
    let mut scan = Scan::new(alloc);
    while scan.at < long {
        let Some((head, place)) = next_record(files, path, scan.at, long)? else {
            return Err(OpenFault::IllFormed(Driver::Mbx, scan.places.len() as u32));
        };
        scan.take(names, &head, place)?;
    }
    Ok(scan)
}
