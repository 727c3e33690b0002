// The file after a step.
ghost use Rattle.std.specs.Prelude.{◌≡◌, List, ℕ, None, length, IfOk};
ghost use Rattle.mail_types.specs.declared.driver.Driver.TheVariants.{Unix};
ghost use Rattle.mail_types.specs.Drivers.{keeps_of};
ghost use Rattle.store_trait.specs.Changes.{CanChange};
ghost use Rattle.store_index.specs.Steps.{change_of, told_due};
ghost use Rattle.store_index.specs.Told.{changed_summary, changed_texts};
ghost use Rattle.file_store.specs.Standing.{IsTold, mailbox_in};
ghost use Rattle.unix_layout.specs.Forms.{unix_read};

use crate::texts::texts_after;
use crate::writing::put_file;
use mail_fields::Bytes;
use std::alloc::{AllocError, Global};
use store_index::{Step, Told};

/// A file after a step, and the texts of its messages.
#[derive(Debug, Drop)]
pub struct FileAfter {
    pub bytes: Vec<u8>,
    pub texts: Vec<Bytes>,
}

/// The file of a mailbox after a step, in whose file these texts stood.
pub fn file_after(
    alloc: Global,
    texts: &[Bytes],
    _told: &Told,
    step: Step<'_>,
    next: &Told,
) -> Result<FileAfter, AllocError>
    requires next { next.now ≡ changed_summary (keeps_of Unix) _told.now (change_of step) }
    ensures bytes { IfOk result (λ f. (bytes : List ℕ) → unix_read.texts bytes ≡ texts.now → IsTold Unix unix_read _told.now bytes
        → f.bytes.items ≡ unix_read.file.rewritten bytes (mailbox_in unix_read _told.now bytes) (change_of step.entry)) }
    ensures places { IfOk result (λ f. (bytes : List ℕ) → unix_read.texts bytes ≡ texts.now → IsTold Unix unix_read _told.now bytes
        → CanChange (keeps_of Unix) _told.now.words (length _told.now.infos) (change_of step.entry) → told_due (keeps_of Unix) _told.now (change_of step.entry) ≡ None
        → unix_read.texts f.bytes.items ≡ f.texts.items) }
{
    let after = texts_after(alloc, texts, step)?;
    let bytes = put_file(alloc, next, after.as_slice())?;
    Ok(FileAfter {
        bytes,
        texts: after,
    })
}
