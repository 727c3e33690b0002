// The layout of unix files.
ghost use Rattle.std.specs.Prelude.{◌≡◌, ◌<◌, length, refl};
ghost use Rattle.mail_types.specs.declared.driver.Driver.TheVariants.{Unix};
ghost use Rattle.mail_types.specs.Drivers.{keeps_of};
ghost use Rattle.store_trait.specs.Views.{size_at};
ghost use Rattle.store_index.specs.States.{told_as};
ghost use Rattle.file_store.specs.Forms.{is_read_form};
ghost use Rattle.unix_form.specs.Form.{unix_file_form};
ghost use Rattle.unix_form.proofs.UnixForm.{unix_is_form};
ghost use Rattle.unix_layout.specs.Forms.{unix_read};

use crate::after::file_after;
use crate::blank::blank_file;
use crate::scan::scan_file;
use crate::text::copy_text;
use file_model::Files;
use file_store::Layout;
use mail_fields::Bytes;
use mail_types::{DateKeep, Driver, Flags, Keeps, TextKeep};
use std::alloc::{AllocError, Global};
use store_index::{Found, Step, Told};
use store_trait::{OpenFault, StoreFault};

/// The texts of the messages of an open unix file, as they are kept.
#[derive(Debug, Drop)]
pub struct UnixLayout {
    pub texts: Vec<Bytes>,
}

// The size of a message that is told of.
fn told_size(told: &Told, place: usize) -> usize
    requires { place < length told.now.infos }
    ensures { result ≡ size_at (told_as told.now) place }
{
    told.infos()[place].size as usize
}

impl Layout for UnixLayout {
    ghost DRIVER = { Unix };

    const DRIVER: Driver = Driver::Unix;

    ghost KEEPS = { keeps_of Unix };

    const KEEPS: Keeps = Keeps {
        uids: true,
        words: 30,
        flags: Flags {
            seen: true,
            answered: true,
            flagged: true,
            deleted: true,
            draft: true,
            old: true,
        },
        date: DateKeep::Second,
        text: TextKeep::Unix,
        numbers: false,
    };

    ghost form = { unix_read };

    ghost holds = { λ layout bytes. unix_read.texts bytes ≡ layout.texts.items };

    #[tactic(auto, using(crate::proofs::Scanning::scanned_now, crate::proofs::Scanning::reads_none))]
    fn scan<F: Files>(
        alloc: Global,
        files: &mut F,
        path: &str,
        long: u64,
    ) -> Result<(Found, Self), OpenFault> {
        let file = scan_file(alloc, files, path, long)?;
        Ok((file.found, UnixLayout { texts: file.texts }))
    }

    fn blank(alloc: Global, validity: u32) -> Result<(Vec<u8>, Self), AllocError> {
        let bytes = blank_file(alloc, validity)?;
        let texts = Vec::new(alloc);
        Ok((bytes, UnixLayout { texts }))
    }

    fn length_after(
        &self,
        alloc: Global,
        told: &Told,
        step: Step<'_>,
        next: &Told,
    ) -> Result<u64, AllocError> {
        let file = file_after(alloc, self.texts.as_slice(), told, step, next)?;
        Ok(file.bytes.len() as u64)
    }

    fn rewrite<F: Files>(
        &self,
        alloc: Global,
        _files: &mut F,
        _path: &str,
        told: &Told,
        step: Step<'_>,
        next: &Told,
    ) -> Result<(Vec<u8>, Self), StoreFault> {
        match file_after(alloc, self.texts.as_slice(), told, step, next) {
            Ok(file) => Ok((file.bytes, UnixLayout { texts: file.texts })),
            Err(_) => Err(StoreFault::Memory),
        }
    }

    fn text<F: Files>(
        &mut self,
        _files: &mut F,
        _path: &str,
        told: &Told,
        place: usize,
        from: usize,
        buf: &mut [u8],
    ) -> Result<usize, StoreFault> {
        let size = told_size(told, place);
        Ok(copy_text(self.texts.as_slice(), place, size, from, buf))
    }

    ghost is_form = { is_read_form Unix unix_file_form unix_is_form };

    ghost keeps_is = { refl };

    ghost of_file = { refl };
}
