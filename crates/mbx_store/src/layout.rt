// The layout of mbx files.
ghost use Rattle.std.specs.Prelude.{◌≡◌, ◌≤◌, ◌<◌, ◌+◌, ◌^◌, ◌++◌, ◌==◌, if◌then◌else◌, Some, None, length, refl, IfOk};
ghost use Rattle.std.specs.List.{AllByRecursion};
ghost use Rattle.mail_fields.specs.Keyword.{IsKeyword};
ghost use Rattle.mail_types.specs.declared.driver.Driver.TheVariants.{Mbx};
ghost use Rattle.mail_types.specs.Drivers.{keeps_of};
ghost use Rattle.mail_types.specs.Limits.{record_limit};
ghost use Rattle.store_trait.specs.Changes.{CanChange};
ghost use Rattle.store_trait.specs.Views.{size_at};
ghost use Rattle.store_index.specs.Steps.{change_of};
ghost use Rattle.store_index.specs.Told.{changed_summary};
ghost use Rattle.store_index.specs.States.{told_as};
ghost use Rattle.file_store.specs.Forms.{read_form, is_read_form};
ghost use Rattle.mbx_form.specs.Form.{mbx_form};
ghost use Rattle.mbx_form.proofs.MbxForm.{mbx_is_form};
ghost use Rattle.mbx_store.specs.Places.{HasPlaces, IsNear};
ghost use Rattle.mbx_store.specs.Plans.{head_width, infos_size, IsPlan, chosen_places, left_places, added_by};
ghost use Rattle.mbx_store.specs.Bytes.{SpanEndsBy, places_in};

use crate::MbxLayout;
use crate::plan::{Plan, added_by, head_width, plan_step};
use crate::scan::{Scan, read_front, scan_records};
use crate::writing::{places_of, write_plan};
use file_model::Files;
use file_store::{Layout, read_text};
use mail_fields::Keyword;
use mail_types::{DateKeep, Driver, Flags, Keeps, TextKeep};
use mbx_form::{MbxHeader, put_header};
use std::alloc::{AllocError, Global};
use store_index::{Found, Step, Told};
use store_trait::{Info, OpenFault, StoreFault};

const EVERY_FLAG: Flags = Flags {
    seen: true,
    answered: true,
    flagged: true,
    deleted: true,
    draft: true,
    old: true,
};

// What was found in a file.
fn found_in(alloc: Global, header: MbxHeader, scan: Scan) -> Result<(Found, MbxLayout), AllocError>
    requires { AllByRecursion IsNear scan.places.items }
    ensures validity { IfOk result (λ p. p.0.validity ≡ if header.validity == 0 then None else Some header.validity) }
    ensures last { IfOk result (λ p. p.0.last ≡ header.last) }
    ensures words { IfOk result (λ p. p.0.words ≡ header.words) }
    ensures infos { IfOk result (λ p. p.0.infos.items ≡ scan.infos.items) }
    ensures places { IfOk result (λ p. p.1 ≡ scan.places.items) }
{
    let layout = MbxLayout::of(alloc, scan.places)?;
    let found = Found {
        validity: if header.validity == 0 {
            None
        } else {
            Some(header.validity)
        },
        last: header.last,
        words: header.words,
        infos: scan.infos,
    };
    Ok((found, layout))
}

// The length of a message of a size, with its head.
fn message_length(size: u32) -> u64
    ensures is { result ≡ head_width size + size }
    ensures short { result < 2 ^ 32 + 91 }
{
    head_width(u64::from(size)) + u64::from(size)
}

// The length of a file of these messages.
fn written_length(infos: &[Info]) -> u64
    requires { length infos.now ≤ record_limit }
    ensures { result ≡ 2048 + infos_size infos.now }
{
    let mut long = 2048;
    for info in infos {
        long += message_length(info.size);
    }
    long
}

// Keywords tell that their names are such.
fn see_names(words: &[Keyword])
    ensures { AllByRecursion IsKeyword words.now }
{
    for word in words {
        let _name = word.as_slice();
    }
}

// The size of the text at a place.
fn size_at(told: &Told, place: usize) -> usize
    requires { place < length told.now.infos }
    ensures is { result ≡ size_at (told_as told.now) place }
    ensures short { result < 2 ^ 32 }
{
    told.infos()[place].size as usize
}

// At most 30 names.
fn first_names(words: &[Keyword]) -> &[Keyword]
    ensures few { length result.now ≤ 30 }
    ensures all { length words.now ≤ 30 → result.now ≡ words.now }
{
    &words[..words.len().min(30)]
}

// What a step makes of a file, and where its records stand then.
fn plan_and_places(
    alloc: Global,
    layout: &MbxLayout,
    step: Step<'_>,
    told: &Told,
    next: &Told,
    names: usize,
) -> Result<(Plan, MbxLayout), AllocError>
    requires few { names ≤ 30 }
    requires can { CanChange (keeps_of Mbx) told.now.words (length told.now.infos) (change_of step) }
    requires next { next.now ≡ changed_summary (keeps_of Mbx) told.now (change_of step) }
    ensures plan { IfOk result (λ p. IsPlan names (chosen_places names (change_of step.entry) (left_places (change_of step.entry) layout.now) next.now.infos) next.now.infos (added_by (change_of step.entry)) p.0) }
    ensures places { IfOk result (λ p. p.1 ≡ places_in p.0.left.items ++ places_in p.0.added.items) }
    ensures near { IfOk result (λ p. AllByRecursion (SpanEndsBy (2 ^ 63)) p.0.left.items) }
    ensures count { IfOk result (λ p. length p.0.added.items ≡ length (added_by (change_of step.entry))) }
{
    let plan = plan_step(alloc, layout.places(), step, names, told, next)?;
    let places = places_of(alloc, &plan)?;
    let layout = MbxLayout::of(alloc, places)?;
    Ok((plan, layout))
}

impl Layout for MbxLayout {
    ghost DRIVER = { Mbx };

    ghost KEEPS = { keeps_of Mbx };

    ghost form = { read_form Mbx mbx_form mbx_is_form };

    ghost is_form = { is_read_form Mbx mbx_form mbx_is_form };

    ghost holds = { λ places bytes. HasPlaces places bytes };

    ghost keeps_is = { refl };

    ghost of_file = { refl };

    const DRIVER: Driver = Driver::Mbx;

    const KEEPS: Keeps = Keeps {
        uids: true,
        words: 30,
        flags: EVERY_FLAG,
        date: DateKeep::Zone,
        text: TextKeep::Exact,
        numbers: false,
    };

    fn scan<F: Files>(
        alloc: Global,
        files: &mut F,
        path: &str,
        long: u64,
    ) -> Result<(Found, MbxLayout), OpenFault> {
        let header = match read_front(alloc, files, path) {
            Ok(Some(header)) => header,
            Ok(None) => return Err(OpenFault::IllFormed(Driver::Mbx, 0)),
            Err(fault) => return Err(fault),
        };
        let names = header.words.as_slice().len();
        let scan = match scan_records(alloc, files, path, long, names) {
            Ok(scan) => scan,
            Err(fault) => return Err(fault),
        };
        match found_in(alloc, header, scan) {
            Ok(found) => Ok(found),
            Err(_) => Err(OpenFault::Memory),
        }
    }

    fn blank(alloc: Global, validity: u32) -> Result<(Vec<u8>, MbxLayout), AllocError> {
        let bytes = put_header(alloc, validity, 0, &[])?;
        let layout = MbxLayout::of(alloc, Vec::new(alloc))?;
        Ok((bytes, layout))
    }

    fn length_after(
        &self,
        _alloc: Global,
        _told: &Told,
        _step: Step<'_>,
        next: &Told,
    ) -> Result<u64, AllocError> {
        see_names(next.words());
        Ok(written_length(next.infos()))
    }

    fn rewrite<F: Files>(
        &self,
        alloc: Global,
        files: &mut F,
        path: &str,
        told: &Told,
        step: Step<'_>,
        next: &Told,
    ) -> Result<(Vec<u8>, MbxLayout), StoreFault> {
        see_names(next.words());
        let words = first_names(next.words());
        let (plan, layout) = match plan_and_places(alloc, self, step, told, next, words.len()) {
            Ok(planned) => planned,
            Err(_) => return Err(StoreFault::Memory),
        };
        match write_plan(alloc, files, path, next, words, &plan, added_by(step)) {
            Ok(bytes) => Ok((bytes, layout)),
            Err(fault) => Err(fault),
        }
    }

    fn text<F: Files>(
        &mut self,
        files: &mut F,
        path: &str,
        told: &Told,
        place: usize,
        from: usize,
        buf: &mut [u8],
    ) -> Result<usize, StoreFault> {
        let start = self.start_at(place);
        let size = size_at(told, place);
        read_text(files, path, start, size, from, buf)
    }
}
