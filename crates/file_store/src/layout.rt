// What differs between the drivers of one file.
ghost use Rattle.std.specs.Prelude.{◌≡◌, ◌≤◌, ◌<◌, ◌+◌, ◌-◌, ℕ, List, true, false, None, length, min, take, drop, IfOk, IfErr, IsErr, IsErrOf, IsTrue, slice_get, string_bytes};
ghost use Rattle.std.specs.List.{AllByRecursion};
ghost use Rattle.file_model.specs.Causes.{Faults};
ghost use Rattle.file_model.specs.Disk.{seen};
ghost use Rattle.file_model.specs.Histories.{Now};
ghost use Rattle.file_model.specs.Images.{bytes_at};
ghost use Rattle.mail_types.specs.declared.driver.Driver.{Driver};
ghost use Rattle.mail_types.specs.declared.driver.Keeps.{Keeps as KeepsTable};
ghost use Rattle.mail_types.specs.Drivers.{keeps_of};
ghost use Rattle.mail_types.specs.Stored.{empty_mailbox};
ghost use Rattle.mail_types.specs.Limits.{file_limit, record_limit};
ghost use Rattle.mail_types.specs.Mailboxes.{has_no_nul};
ghost use Rattle.store_trait.specs.Answers.{Breaks, StoreCause, OpenCause};
ghost use Rattle.store_trait.specs.Changes.{CanChange};
ghost use Rattle.store_trait.specs.OwnPaths.{reads_in_place, is_directory_driver};
ghost use Rattle.store_trait.specs.Views.{size_at, text_at};
ghost use Rattle.store_index.specs.States.{told_as};
ghost use Rattle.store_index.specs.Steps.{change_of, told_due};
ghost use Rattle.store_index.specs.Told.{changed_summary};
ghost use Rattle.file_store.specs.Forms.{ReadForm, IsReadForm};
ghost use Rattle.file_store.specs.Standing.{IsTold, StandsOn, changed_length, mailbox_in};
ghost use Rattle.file_store.specs.Scans.{OfFile, HasFile, IsEnoughOf, IsScanned, RefusesScan, IsRewritten};

use file_model::Files;
use mail_types::{Driver, Keeps};
use std::alloc::{AllocError, Global};
use store_index::{Found, Step, Told};
use store_trait::{OpenFault, StoreFault};

/// The places of the messages in the file of an open store; and what differs between the drivers of one file.
pub trait Layout: Drop {
    ghost DRIVER: { Driver };

    const DRIVER: Driver;

    ghost KEEPS: { KeepsTable };

    const KEEPS: Keeps;

    /// How bytes are spelled as contents, how a file is written and rewritten, and which texts stand in it.
    ghost form: { ReadForm };

    /// These are the places of the messages of a file of these bytes.
    ghost holds: { Self → List ℕ → Type 0 };

    /// What the file at a path says, and its places. It is at most 512 MiB long.
    fn scan<F: Files>(
        alloc: Global,
        files: &mut F,
        path: &str,
        long: u64,
    ) -> Result<(Found, Self), OpenFault>
    where
        Self: Sized,
        requires short { long ≤ file_limit }
        requires file { Now (F.history files.old) (λ w. HasFile path.now long (seen w.disk)) }
        ensures scanned { IfOk result (λ p. OfFile (F.history files.old) path.now (λ bytes. IsScanned form (holds p.1) p.0 bytes)) }
        ensures few { IfOk result (λ p. length p.0.words ≤ (keeps_of DRIVER).words) }
        ensures refused { IfErr result (λ fault. RefusesScan DRIVER form fault (F.history files.old) path.now) }
        ensures history { F.history files.new ≡ F.history files.old }
        ensures cause { OpenCause (F.faults files.old) (F.faults files.new) result }
        ensures reads { (n : ℕ) → OfFile (F.history files.old) path.now (λ bytes. IsEnoughOf DRIVER form bytes n → (F.faults files.new).read ≤ (F.faults files.old).read + n) };

    /// The file of a new mailbox, and its places.
    fn blank(alloc: Global, validity: u32) -> Result<(Vec<u8>, Self), AllocError>
    where
        Self: Sized,
        requires { 1 ≤ validity }
        ensures is { IfOk result (λ p. p.0.items ≡ form.file.written (empty_mailbox DRIVER validity)) }
        ensures short { IfOk result (λ p. length p.0.items ≤ file_limit) }
        ensures places { IfOk result (λ p. holds p.1 p.0.items) };

    /// The length of the file that is written, from nothing, of the mailbox after a step.
    fn length_after(
        &self,
        alloc: Global,
        told: &Told,
        step: Step<'_>,
        next: &Told,
    ) -> Result<u64, AllocError>
        requires many { length next.now.infos ≤ record_limit }
        requires next { next.now ≡ changed_summary (keeps_of DRIVER) told.now (change_of step) }
        ensures { IfOk result (λ n. (bytes : List ℕ) → holds self.now bytes → IsTold DRIVER form told.now bytes → n ≡ changed_length DRIVER form told.now bytes (change_of step.entry)) };

    /// The file after a step, and its places.
    fn rewrite<F: Files>(
        &self,
        alloc: Global,
        files: &mut F,
        path: &str,
        told: &Told,
        step: Step<'_>,
        next: &Told,
    ) -> Result<(Vec<u8>, Self), StoreFault>
    where
        Self: Sized,
        requires stands { Now (F.history files.old) (λ w. StandsOn DRIVER form (holds self.now) path.now told.now (seen w.disk)) }
        requires many { length next.now.infos ≤ record_limit }
        requires can { CanChange (keeps_of DRIVER) told.now.words (length told.now.infos) (change_of step) }
        requires none { told_due (keeps_of DRIVER) told.now (change_of step) ≡ None }
        requires next { next.now ≡ changed_summary (keeps_of DRIVER) told.now (change_of step) }
        ensures rewritten { IfOk result (λ p. OfFile (F.history files.old) path.now (λ bytes. IsRewritten form told.now (change_of step.entry) bytes p.0.items (holds p.1))) }
        ensures history { F.history files.new ≡ F.history files.old }
        ensures answer { IsErr result → Breaks result }
        ensures cause { StoreCause (F.faults files.old) (F.faults files.new) result };

    /// Fills the buffer with the text at a place, of this size, from a place in it. It takes no memory. Where the host tells
    /// nothing and gives too few bytes, spaces stand for them.
    fn text<F: Files>(
        &mut self,
        files: &mut F,
        path: &str,
        told: &Told,
        place: usize,
        from: usize,
        buf: &mut [u8],
    ) -> Result<usize, StoreFault>
        requires place { place < length told.now.infos }
        requires from { from ≤ size_at (told_as told.now) place }
        requires stands { Now (F.history files.old) (λ w. StandsOn DRIVER form (holds self.old) path.now told.now (seen w.disk)) }
        ensures count { IfOk result (λ n. n ≡ min (length buf.new) (size_at (told_as told.now) place - from)) }
        ensures bytes { IfOk result (λ n. OfFile (F.history files.old) path.now (λ bytes. take n buf.new ≡ take n (drop from (text_at (mailbox_in form told.now bytes) place)))) }
        ensures clean { IfOk result (λ n. has_no_nul (take n buf.new) ≡ true) }
        ensures rest { IfOk result (λ n. drop n buf.new ≡ drop n buf.old) }
        ensures answer { IsErr result → IsErrOf result StoreFault.Failed }
        ensures holds { OfFile (F.history files.old) path.now (λ bytes. holds self.old bytes → holds self.new bytes) }
        ensures history { F.history files.new ≡ F.history files.old }
        ensures cause { StoreCause (F.faults files.old) (F.faults files.new) result }
        ensures reads { IsTrue (reads_in_place DRIVER) → Now (F.history files.old) (λ w. (F.faults files.new).read ≤ (F.faults files.old).read + min (length buf.new) (size_at (told_as told.now) place - from)) };

    /// Its form is lawful. `read_form` of a lawful form gives the texts, and `is_read_form` this law.
    ghost is_form: { IsReadForm DRIVER form };

    /// It declares what its row of the table does.
    ghost keeps_is: { KEEPS ≡ keeps_of DRIVER };

    /// A driver of one file.
    ghost of_file: { is_directory_driver DRIVER ≡ false };
}
