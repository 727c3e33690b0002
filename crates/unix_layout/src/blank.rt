// The file of a new mailbox.
ghost use Rattle.std.specs.Prelude.{◌≡◌, ◌≤◌, [], length, IfOk};
ghost use Rattle.mail_types.specs.declared.driver.Driver.TheVariants.{Unix};
ghost use Rattle.mail_types.specs.Limits.{file_limit};
ghost use Rattle.mail_types.specs.Mailboxes.{greatest_number};
ghost use Rattle.mail_types.specs.Stored.{empty_mailbox};
ghost use Rattle.unix_layout.specs.Forms.{unix_read};

use crate::writing::put_file;
use mail_fields::Keywords;
use std::alloc::{AllocError, Global};
use store_index::Told;

fn blank_bytes(alloc: Global, validity: u32) -> Result<Vec<u8>, AllocError>
    ensures is { IfOk result (λ v. v.items ≡ unix_read.file.written (empty_mailbox Unix validity)) }
    ensures fits { IfOk result (λ _. validity ≤ greatest_number) }
{
    let told = Told::of(validity, 0, Keywords::of(Vec::new(alloc)), Vec::new(alloc));
    let bytes = put_file(alloc, &told, &[])?;
    Ok(bytes)
}

/// The file of a new mailbox. It has no message of the mailbox.
pub fn blank_file(alloc: Global, validity: u32) -> Result<Vec<u8>, AllocError>
    requires { 1 ≤ validity }
    ensures is { IfOk result (λ v. v.items ≡ unix_read.file.written (empty_mailbox Unix validity)) }
    ensures short { IfOk result (λ v. length v.items ≤ file_limit) }
    ensures places { IfOk result (λ v. unix_read.texts v.items ≡ []) }
{
    let bytes = blank_bytes(alloc, validity)?;
    Ok(bytes)
}
