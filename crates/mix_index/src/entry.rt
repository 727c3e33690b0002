// Where a message stands, `:uid:date:size:file:place:headsize:fieldsize:` CRLF for each.
ghost use Rattle.std.specs.Prelude.{◌≡◌, ◌<◌, ◌++◌, ◌==◌, All, Some, None, true, map, OnOk, IfOk, IfSome, IfNone, MatchOption, length};
ghost use Rattle.mix_records.specs.Records.{IsReadAgain, rise_from};
ghost use Rattle.mix_index.specs.Entries.{EntryParts, entry_parts, entry_at_front, entry_form, entry_text, entries_of, entries_text, place_at_front, entry-nothing};

use mail_fields::Stamp;
use mix_records::{
    Record, put_date_field, put_hex_field, put_record_end, put_records, read_date_field,
    read_hex_field, read_record_end, read_records,
};
use std::alloc::{AllocError, Global};

/// Where one message stands, and what its data file says of it.
///
/// `file` is the number of the data file, `place` the offset of its record there, `head` the
/// length of that record's head, and `field` the length of the message's header.
#[derive(Clone, Copy, Debug, PartialEq, Eq)]
pub struct Entry {
    pub uid: u32,
    pub stamp: Stamp,
    pub size: u32,
    pub file: u32,
    pub place: u32,
    pub head: u32,
    pub field: u32,
}

impl Record for Entry {
    ghost Parts = { EntryParts };

    ghost parts = { entry_parts };

    ghost form = { entry_form };

    fn uid(&self) -> u32 {
        self.uid
    }

    fn read_front(text: &[u8]) -> Option<(Entry, &[u8])> {
        read_front(text)
    }

    fn put(&self, out: &mut Vec<u8>) -> Result<(), AllocError> {
        put(out, *self)
    }

    ghost nothing = { entry-nothing };
}

// The entry at the front of a text, and the text behind it.
#[tactic(auto, unfolding(crate::specs::Entries::entry_at_front))]
fn read_front(text: &[u8]) -> Option<(Entry, &[u8])>
    ensures value { MatchOption result (entry_at_front text.now ≡ None)
        (λ found. entry_at_front text.now ≡ Some (entry_parts found.0, found.1.now)) }
    ensures shorter { IfSome result (λ found. length found.1.now < length text.now) }
    ensures head { IfSome result (λ found. (found.0.head == 45) ≡ true) }
{
    let (uid, text) = read_hex_field(text, 8)?;
    let (stamp, text) = read_date_field(text)?;
    let (size, text) = read_hex_field(text, 8)?;
    let (file, place, field, behind) = read_place(text)?;
    Some((
        Entry {
            uid,
            stamp,
            size,
            file,
            place,
            head: 45,
            field,
        },
        behind,
    ))
}

// The number of a data file, the offset there and the length of the header; the text behind the entry.
#[tactic(auto, unfolding(crate::specs::Entries::place_at_front))]
fn read_place(text: &[u8]) -> Option<(u32, u32, u32, &[u8])>
    ensures value { MatchOption result (place_at_front text.now ≡ None)
        (λ found. place_at_front text.now ≡ Some (found.0, found.1, found.2, found.3.now)) }
    ensures shorter { IfSome result (λ found. length found.3.now < length text.now) }
{
    let (file, text) = read_hex_field(text, 8)?;
    let (place, text) = read_hex_field(text, 8)?;
    let (head, text) = read_hex_field(text, 8)?;
    let (field, text) = read_hex_field(text, 8)?;
    let behind = read_record_end(text)?;
    if head != 45 {
        return None;
    }
    Some((file, place, field, behind))
}

// Appends the text of an entry.
#[tactic(auto, unfolding(crate::specs::Entries::entry_text))]
fn put(out: &mut Vec<u8>, entry: Entry) -> Result<(), AllocError>
    requires { (entry.head == 45) ≡ true }
    ensures text { OnOk result (out.new.items ≡ out.old.items ++ entry_text (entry_parts entry)) }
    ensures read { OnOk result (IsReadAgain entry_form (entry_parts entry)) }
{
    put_hex_field(out, 8, entry.uid)?;
    put_date_field(out, entry.stamp)?;
    put_hex_field(out, 8, entry.size)?;
    put_hex_field(out, 8, entry.file)?;
    put_hex_field(out, 8, entry.place)?;
    put_hex_field(out, 8, entry.head)?;
    put_hex_field(out, 8, entry.field)?;
    put_record_end(out)
}

/// The entries that an index is, in one pass; none where it isn't entries of rising UIDs alone.
pub fn read_index(alloc: Global, bytes: &[u8]) -> Result<Option<Vec<Entry>>, AllocError>
    ensures some { IfOk result (λ found. IfSome found (λ v. entries_of bytes.now ≡ Some (map entry_parts v.items))) }
    ensures none { IfOk result (λ found. IfNone found (entries_of bytes.now ≡ None)) }
    // so that the entries can be written again
    ensures rising { IfOk result (λ found. IfSome found (λ v. rise_from entry_form 0 (map entry_parts v.items) ≡ true)) }
    ensures heads { IfOk result (λ found. IfSome found (λ v. All (λ entry. entry.head ≡ 45) v.items)) }
{
    match read_records(alloc, bytes)? {
        Ok(entries) => Ok(Some(entries)),
        Err(_) => Ok(None),
    }
}

/// The text of entries, which is read again.
pub fn put_index(alloc: Global, entries: &[Entry]) -> Result<Vec<u8>, AllocError>
    requires rising { rise_from entry_form 0 (map entry_parts entries.now) ≡ true }
    requires heads { All (λ entry. entry.head ≡ 45) entries.now }
    ensures text { IfOk result (λ v. v.items ≡ entries_text (map entry_parts entries.now)) }
    ensures read { IfOk result (λ v. entries_of v.items ≡ Some (map entry_parts entries.now)) }
{
    put_records(alloc, entries)
}
