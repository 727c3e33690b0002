// The flags of messages, `:uid:keywords:flags:modseq:` CRLF for each.
ghost use Rattle.std.specs.Prelude.{◌≡◌, ◌<◌, ◌≤◌, ◌++◌, Some, None, Ok, Err, true, OnOk, IfOk, IfErr, IfSome, MatchOption, length};
ghost use Rattle.mix_records.specs.Records.{IsReadAgain, rise_from};
ghost use Rattle.mix_files.specs.Statuses.{status_at_front, status_form, status_text, statuses_of, statuses_text, status-nothing};
ghost use Rattle.mix_files.specs.declared.status.Status.{Status};

use mix_records::{
    Record, put_hex_field, put_record_end, put_records, read_hex_field, read_record_end,
    read_records,
};
use std::alloc::{AllocError, Global};

/// The flags of one message.
///
/// `words` are the bits of its keywords, `bits` those of its flags, `modseq` counts its changes.
#[derive(Clone, Copy, Debug, PartialEq, Eq)]
pub struct Status {
    pub uid: u32,
    pub words: u32,
    pub bits: u16,
    pub modseq: u32,
}

impl Record for Status {
    ghost Parts = { Status };

    ghost parts = { λ status. status };

    ghost form = { status_form };

    fn uid(&self) -> u32 {
        self.uid
    }

    fn read_front(text: &[u8]) -> Option<(Status, &[u8])> {
        read_front(text)
    }

    fn put(&self, out: &mut Vec<u8>) -> Result<(), AllocError> {
        put(out, *self)
    }

    ghost nothing = { status-nothing };
}

// The record at the front of a text, and the text behind it.
#[tactic(auto, unfolding(crate::specs::Statuses::status_at_front))]
fn read_front(text: &[u8]) -> Option<(Status, &[u8])>
    ensures value { MatchOption result (status_at_front text.now ≡ None)
        (λ found. status_at_front text.now ≡ Some (found.0, found.1.now)) }
    ensures shorter { IfSome result (λ found. length found.1.now < length text.now) }
{
    let (uid, text) = read_hex_field(text, 8)?;
    let (words, text) = read_hex_field(text, 8)?;
    let (bits, text) = read_hex_field(text, 4)?;
    let (modseq, text) = read_hex_field(text, 8)?;
    let behind = read_record_end(text)?;
    let bits = bits as u16;
    Some((
        Status {
            uid,
            words,
            bits,
            modseq,
        },
        behind,
    ))
}

// Appends the text of a record.
#[tactic(auto, unfolding(crate::specs::Statuses::status_text))]
fn put(out: &mut Vec<u8>, status: Status) -> Result<(), AllocError>
    ensures text { OnOk result (out.new.items ≡ out.old.items ++ status_text status) }
    ensures read { OnOk result (IsReadAgain status_form status) }
{
    put_hex_field(out, 8, status.uid)?;
    put_hex_field(out, 8, status.words)?;
    put_hex_field(out, 4, u32::from(status.bits))?;
    put_hex_field(out, 8, status.modseq)?;
    put_record_end(out)
}

/// The records that a status is, in one pass.
///
/// Where it isn't records of rising UIDs alone, the number says how many whole records stand
/// before the first that is none.
pub fn read_status(alloc: Global, bytes: &[u8]) -> Result<Result<Vec<Status>, u32>, AllocError>
    requires { length bytes.now ≤ 536870912 }
    ensures ok { IfOk result (λ found. IfOk found (λ v. statuses_of bytes.now ≡ Ok v.items)) }
    ensures err { IfOk result (λ found. IfErr found (λ count. statuses_of bytes.now ≡ Err count)) }
    // so that the records can be written again
    ensures rising { IfOk result (λ found. IfOk found (λ v. rise_from status_form 0 v.items ≡ true)) }
{
    match read_records(alloc, bytes)? {
        Ok(records) => Ok(Ok(records)),
        Err(count) => Ok(Err(count as u32)),
    }
}

/// The text of records, which is read again.
pub fn put_status(alloc: Global, records: &[Status]) -> Result<Vec<u8>, AllocError>
    requires { rise_from status_form 0 records.now ≡ true }
    ensures text { IfOk result (λ v. v.items ≡ statuses_text records.now) }
    ensures read { IfOk result (λ v. statuses_of v.items ≡ Ok records.now) }
{
    put_records(alloc, records)
}
