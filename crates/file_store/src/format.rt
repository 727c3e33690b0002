// The opening, the making and the removing of a store of one file.
ghost use Rattle.std.specs.Prelude.{◌≡◌, refl};
ghost use Rattle.file_store.specs.Scans.{NoneEnough};
ghost use Rattle.store_index.specs.States.{empty_told};

use crate::file::{remove_file, write_file};
use crate::{FileStore, Layout, OwnFront};
use file_model::{Files, Kind};
use mail_fields::Keywords;
use mail_types::{Driver, FILE_LIMIT, Keeps, Limit, RECORD_LIMIT};
use std::alloc::{AllocError, Global};
use store_index::{Found, Told, has_large, opened};
use store_trait::{Format, Info, OpenFault, StoreFault};

fn empty_told(alloc: Global, validity: u32) -> Told
    ensures { result ≡ empty_told validity }
{
    let infos: Vec<Info> = Vec::new(alloc);
    Told::of(validity, 0, Keywords::of(Vec::new(alloc)), infos)
}

impl<L: Layout> FileStore<L> {
    ghost use Rattle.std.specs.Prelude.{◌≡◌, ◌≤◌, ◌+◌, ◌⊎◌, ℕ, false, length, string_bytes, IfOk, IfErr};
    ghost use Rattle.std.specs.List.{list_any};
    ghost use Rattle.file_model.specs.Disk.{seen};
    ghost use Rattle.file_model.specs.Histories.{Now};
    ghost use Rattle.file_model.specs.Images.{node_at, nothing, is_directory};
    ghost use Rattle.file_model.specs.Paths.{is_top};
    ghost use Rattle.mail_types.specs.Drivers.{keeps_of};
    ghost use Rattle.mail_types.specs.Limits.{file_limit, record_limit, text_limit};
    ghost use Rattle.store_trait.specs.Answers.{OpenCause};
    ghost use Rattle.store_trait.specs.Promises.{IsEnough, RefusesOpen};
    ghost use Rattle.store_trait.specs.Views.{summary_of};
    ghost use Rattle.store_index.specs.Opened.{opened_summary};
    ghost use Rattle.store_trait.specs.Forms.{grammar_of};
    ghost use Rattle.file_store.specs.Forms.{forms_of};
    ghost use Rattle.file_store.specs.Scans.{HasFile, NoneEnough, IsWithin};

    // The length of the file, which is within its limit.
    fn length_of<F: Files>(files: &mut F, path: &str) -> Result<u64, OpenFault>
        requires kind { Now (F.history files.old) (λ w. (node_at (seen w.disk) path.now ≡ nothing) ⊎ (is_directory (seen w.disk) path.now ≡ false)) }
        ensures refused { IfErr result (λ fault. RefusesOpen (grammar_of (forms_of L.DRIVER L.form) L.DRIVER path.now) L.DRIVER path.now fault (F.history files.old)) }
        ensures file { IfOk result (λ long. Now (F.history files.old) (λ w. HasFile path.now long (seen w.disk))) }
        ensures short { IfOk result (λ long. long ≤ file_limit) }
        ensures history { F.history files.new ≡ F.history files.old }
        ensures cause { OpenCause (F.faults files.old) (F.faults files.new) result }
        ensures reads { (F.faults files.new).read ≡ (F.faults files.old).read }
    {
        match files.stat(path) {
            Ok(Kind::File(long)) if long > FILE_LIMIT => Err(OpenFault::TooLarge(Limit::File)),
            Ok(Kind::File(long)) => Ok(long),
            Ok(Kind::Nothing) => Err(OpenFault::Absent),
            Ok(Kind::Dir) => Err(OpenFault::IllFormed(L::DRIVER, 0)),
            Err(_) => Err(OpenFault::Failed),
        }
    }

    // What the file says, within the limits, and its places.
    fn load<F: Files>(alloc: Global, files: &mut F, path: &str) -> Result<(Found, L), OpenFault>
        requires kind { Now (F.history files.old) (λ w. (node_at (seen w.disk) path.now ≡ nothing) ⊎ (is_directory (seen w.disk) path.now ≡ false)) }
        ensures refused { IfErr result (λ fault. RefusesOpen (grammar_of (forms_of L.DRIVER L.form) L.DRIVER path.now) L.DRIVER path.now fault (F.history files.old)) }
        ensures found { IfOk result (λ p. Now (F.history files.old) (λ w. IsWithin L.form (L.holds p.1) p.0 path.now (seen w.disk))) }
        ensures few { IfOk result (λ p. length p.0.words ≤ (keeps_of L.DRIVER).words) }
        ensures many { IfOk result (λ p. length p.0.infos.items ≤ record_limit) }
        ensures history { F.history files.new ≡ F.history files.old }
        ensures cause { OpenCause (F.faults files.old) (F.faults files.new) result }
        ensures reads { (n : ℕ) → Now (F.history files.old) (λ w. IsEnough NoneEnough (grammar_of (forms_of L.DRIVER L.form) L.DRIVER path.now) L.DRIVER path.now (seen w.disk) n → (F.faults files.new).read ≤ (F.faults files.old).read + n) }
    {
        let long = FileStore::<L>::length_of(files, path)?;
        match L::scan(alloc, files, path, long) {
            Ok((found, layout)) => {
                if found.infos.len() > RECORD_LIMIT {
                    return Err(OpenFault::TooLarge(Limit::Records));
                }
                if has_large(found.infos.as_slice()) {
                    return Err(OpenFault::TooLarge(Limit::Text));
                }
                Ok((found, layout))
            }
            Err(fault) => Err(fault),
        }
    }
}

impl<F: Files, L: Layout> Format<F> for FileStore<L> {
    ghost DRIVER = { L.DRIVER };

    ghost KEEPS = { L.KEEPS };

    ghost enough = { NoneEnough };

    ghost keeps_is = { L.keeps_is };

    ghost knows_itself = { refl };

    ghost knows_only = { λ driver knows. knows };

    const DRIVER: Driver = L::DRIVER;

    const KEEPS: Keeps = L::KEEPS;

    fn open(
        alloc: Global,
        files: &mut F,
        path: &str,
        fresh: u32,
    ) -> Result<FileStore<L>, OpenFault> {
        let (found, layout) = FileStore::<L>::load(alloc, files, path)?;
        let Ok(own) = String::from_str(alloc, path) else {
            return Err(OpenFault::Memory);
        };
        match opened(alloc, found, fresh) {
            Ok(told) => Ok(FileStore {
                alloc,
                front: OwnFront::of(own, told),
                layout,
            }),
            Err(_) => Err(OpenFault::Memory),
        }
    }

    fn create(
        alloc: Global,
        files: &mut F,
        path: &str,
        fresh: u32,
    ) -> Result<FileStore<L>, StoreFault> {
        let Ok(own) = String::from_str(alloc, path) else {
            return Err(StoreFault::Memory);
        };
        let Ok((bytes, layout)) = L::blank(alloc, fresh) else {
            return Err(StoreFault::Memory);
        };
        match write_file(alloc, files, L::DRIVER, path, bytes.as_slice()) {
            Ok(()) => Ok(FileStore {
                alloc,
                front: OwnFront::of(own, empty_told(alloc, fresh)),
                layout,
            }),
            Err(fault) => Err(fault),
        }
    }

    fn remove(_alloc: Global, files: &mut F, path: &str) -> Result<(), StoreFault> {
        remove_file(files, L::DRIVER, path)
    }
}
