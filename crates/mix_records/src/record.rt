// Texts of records whose UIDs rise.
ghost use Rattle.std.specs.Prelude.{◌≡◌, ◌<◌, ◌≤◌, ◌++◌, [], All, Some, None, Ok, Err, true, map, OnOk, IfOk, IfErr, IfSome, MatchOption, length};
ghost use Rattle.mix_records.specs.Records.{RecordForm, IsReadAgain, next_record, records_of, rise_from, records_text};

use std::alloc::{AllocError, Global};

/// A kind of record, of which a text has one behind the other.
pub trait Record: Copy {
    ghost Parts: { Type 0 };

    ghost parts: { Self → Parts };

    ghost form: { RecordForm Parts };

    /// The UID of the record.
    fn uid(&self) -> u32
        ensures { result ≡ form.uid (parts self.now) };

    /// The record at the front of a text, and the text behind it.
    fn read_front(text: &[u8]) -> Option<(Self, &[u8])>
        ensures value { MatchOption result (form.front text.now ≡ None)
            (λ found. form.front text.now ≡ Some (parts found.0, found.1.now)) }
        ensures shorter { IfSome result (λ found. length found.1.now < length text.now) }
        ensures may_stand { IfSome result (λ found. form.may_stand (parts found.0) ≡ true) };

    /// Appends the text of the record, which is read again.
    fn put(&self, out: &mut Vec<u8>) -> Result<(), AllocError>
        requires { form.may_stand (parts self.now) ≡ true }
        ensures text { OnOk result (out.new.items ≡ out.old.items ++ form.text (parts self.now)) }
        ensures read { OnOk result (IsReadAgain form (parts self.now)) };

    // no record stands at the front of nothing
    ghost nothing: { form.front [] ≡ None };
}

/// The records that a text is, in one pass.
///
/// Where it isn't records of rising UIDs alone, the count says how many stand before the first
/// byte that begins none.
pub fn read_records<R: Record>(
    alloc: Global,
    bytes: &[u8],
) -> Result<Result<Vec<R>, usize>, AllocError>
    ensures ok { IfOk result (λ found. IfOk found (λ v. records_of R.form bytes.now ≡ Ok (map R.parts v.items))) }
    ensures err { IfOk result (λ found. IfErr found (λ count. records_of R.form bytes.now ≡ Err count)) }
    ensures few { IfOk result (λ found. IfErr found (λ count. count ≤ length bytes.now)) }
    // so that the records can be written again
    ensures rising { IfOk result (λ found. IfOk found (λ v. rise_from R.form 0 (map R.parts v.items) ≡ true)) }
    ensures may_stand { IfOk result (λ found. IfOk found (λ v. All (λ each. R.form.may_stand (R.parts each) ≡ true) v.items)) }
{
    let mut records = Vec::new(alloc);
    let mut last = 0;
    let mut rest = bytes;
    while let Some(found) = next_record::<R>(rest, last) {
        last = found.0.uid();
        records.push(found.0)?;
        rest = found.1;
    }
    if rest.is_empty() {
        Ok(Ok(records))
    } else {
        Ok(Err(records.len()))
    }
}

// The record at the front of a text, if its UID is above the last one.
fn next_record<R: Record>(text: &[u8], last: u32) -> Option<(R, &[u8])>
    ensures value { MatchOption result (next_record R.form last text.now ≡ None)
        (λ found. next_record R.form last text.now ≡ Some (R.parts found.0, found.1.now)) }
    ensures shorter { IfSome result (λ found. length found.1.now < length text.now) }
    ensures may_stand { IfSome result (λ found. R.form.may_stand (R.parts found.0) ≡ true) }
{
    let (record, behind) = R::read_front(text)?;
    if record.uid() > last {
        Some((record, behind))
    } else {
        None
    }
}

/// The text of records, which is read again.
pub fn put_records<R: Record>(alloc: Global, records: &[R]) -> Result<Vec<u8>, AllocError>
    requires rising { rise_from R.form 0 (map R.parts records.now) ≡ true }
    requires may_stand { All (λ each. R.form.may_stand (R.parts each) ≡ true) records.now }
    ensures text { IfOk result (λ v. v.items ≡ records_text R.form (map R.parts records.now)) }
    ensures read { IfOk result (λ v. records_of R.form v.items ≡ Ok (map R.parts records.now)) }
{
    let mut text = Vec::new(alloc);
    for record in records {
        record.put(&mut text)?;
    }
    Ok(text)
}
