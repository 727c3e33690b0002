// The mailbox that the contents of a store open as.
ghost use Rattle.std.specs.Prelude.{◌≡◌, ◌≢◌, ◌<◌, length, IfOk};
ghost use Rattle.mail_types.specs.Opening.{uids_of, with_uids, opened_mailbox, IsOpenable};
ghost use Rattle.mail_types.specs.Mailboxes.{IsMailbox};

use crate::{Mailbox, Record, Records, StoreContents, number_uids};
use std::alloc::{AllocError, Global};

fn uids_of(alloc: Global, records: &[Record]) -> Result<Vec<u32>, AllocError>
    ensures { IfOk result (λ v. v.items ≡ uids_of records.now) }
{
    let mut uids = Vec::new(alloc);
    for message in records {
        uids.push(message.uid)?;
    }
    Ok(uids)
}

// The messages get these UIDs.
fn give_uids(records: &mut [Record], uids: &[u32])
    requires { length uids.now ≡ length records.old }
    ensures { records.new ≡ with_uids uids.now records.old }
{
    for (place, message) in records.iter_mut().enumerate() {
        message.uid = uids[place];
    }
}

/// The mailbox that is opened from what the files of a store say.
///
/// `fresh` is its UIDVALIDITY where the UIDs don't last. They last in the files only once a change is written.
pub fn opened(alloc: Global, contents: StoreContents, fresh: u32) -> Result<Mailbox, AllocError>
    requires { length contents.records < 4294967296 }
    ensures value { IfOk result (λ m. m ≡ opened_mailbox contents fresh) }
    ensures mailbox { IsOpenable contents → fresh ≢ 0 → IfOk result (λ m. IsMailbox m) }
{
    let StoreContents {
        validity,
        number,
        last,
        words,
        records,
        placing: _,
    } = contents;
    let mut records = records.into_vec();
    let mut uids = uids_of(alloc, records.as_slice())?;
    let numbering = number_uids(validity, last, uids.as_mut_slice(), fresh);
    give_uids(records.as_mut_slice(), uids.as_slice());
    Ok(Mailbox {
        validity: numbering.validity,
        number,
        last: numbering.last,
        words,
        records: Records::of(records),
    })
}
