// What search keys ask of a message's text.
ghost use Rattle.std.specs.Prelude.{◌≡◌, All, IfOk, length, map};
ghost use Rattle.std.specs.List.{list_any};
ghost use Rattle.head_fields.specs.Fields.{reading_in, StandsWithin};
ghost use Rattle.text_search.specs.Needles.{is_inside};
ghost use Rattle.search_eval.specs.Keys.{field_has, header_has, body_has, sent_day};
ghost use Rattle.search_eval.specs.Texts.{AreFieldsOf};

use head_fields::{Field, Fields, body_start, fields, unfold};
use mail_fields::read_field_date;
use mime_parts::field_text;
use std::alloc::{AllocError, Global};
use std::marker::Model;
use text_search::contains;

/// A text whose header is read into fields once, where a key first asks of it.
#[derive(Drop)]
pub(crate) struct MessageText<'a> {
    bytes: &'a [u8],
    fields: Option<Fields>,
}

impl<'a> Model for MessageText<'a> {
    ghost use Rattle.std.specs.Prelude.{ℕ, List, IfSome};
    ghost use Rattle.search_eval.specs.Texts.{AreFieldsOf};

    ghost Value = { List ℕ };

    ghost view = { λ t. t.bytes.now };

    ghost invariant = { λ t. IfSome t.fields (AreFieldsOf t.bytes.now) };
}

impl<'a> MessageText<'a> {
    pub(crate) fn of(bytes: &'a [u8]) -> MessageText<'a>
        ensures { result ≡ bytes.now }
    {
        MessageText {
            bytes,
            fields: None,
        }
    }

    /// Whether a field of the header has the name, in any letter case, and the string in its unfolded value.
    pub(crate) fn header_has(
        &mut self,
        alloc: Global,
        name: &[u8],
        string: &[u8],
    ) -> Result<bool, AllocError>
        ensures same { self.new ≡ self.old }
        ensures value { IfOk result (λ has. has ≡ header_has name.now string.now self.old) }
    {
        let fields = self.take_fields(alloc)?;
        let has = some_field_has(alloc, self.bytes, fields.as_slice(), name, string)?;
        self.fields = Some(fields);
        Ok(has)
    }

    /// The day of the first Date field, where it is a date.
    pub(crate) fn sent_day(&mut self, alloc: Global) -> Result<Option<i32>, AllocError>
        ensures same { self.new ≡ self.old }
        ensures value { IfOk result (λ day. day ≡ sent_day self.old) }
    {
        let fields = self.take_fields(alloc)?;
        let date = field_text(alloc, self.bytes, fields.as_slice(), b"Date")?;
        self.fields = Some(fields);
        match date {
            Some(date) => Ok(read_field_date(date.as_slice())),
            None => Ok(None),
        }
    }

    /// Whether the string stands behind the header.
    pub(crate) fn body_has(&self, alloc: Global, string: &[u8]) -> Result<bool, AllocError>
        ensures { IfOk result (λ has. has ≡ body_has string.now self.now) }
    {
        contains(alloc, &self.bytes[body_start(self.bytes)..], string)
    }

    /// Whether the string stands anywhere.
    pub(crate) fn has(&self, alloc: Global, string: &[u8]) -> Result<bool, AllocError>
        ensures { IfOk result (λ has. has ≡ is_inside string.now self.now) }
    {
        contains(alloc, self.bytes, string)
    }

    // The fields, which are read where there are none yet.
    fn take_fields(&mut self, alloc: Global) -> Result<Fields, AllocError>
        ensures same { self.new ≡ self.old }
        ensures fields { IfOk result (AreFieldsOf self.old) }
    {
        match self.fields.take() {
            Some(fields) => Ok(fields),
            None => Ok(Fields::of(fields(alloc, self.bytes)?)),
        }
    }
}

// Whether one of some fields of a text has the name and the string.
fn some_field_has(
    alloc: Global,
    text: &[u8],
    fields: &[Field],
    name: &[u8],
    string: &[u8],
) -> Result<bool, AllocError>
    requires { All (StandsWithin (length text.now)) fields.now }
    ensures { IfOk result (λ has. has ≡ list_any (field_has name.now string.now) (map (reading_in text.now) fields.now)) }
{
    for field in fields {
        if field_has(alloc, text, field, name, string)? {
            return Ok(true);
        }
    }
    Ok(false)
}

fn field_has(
    alloc: Global,
    text: &[u8],
    field: &Field,
    name: &[u8],
    string: &[u8],
) -> Result<bool, AllocError>
    requires { StandsWithin (length text.now) field.now }
    ensures { IfOk result (λ has. has ≡ field_has name.now string.now (reading_in text.now field.now)) }
{
    if !text[field.name.from..field.name.to].eq_ignore_ascii_case(name) {
        return Ok(false);
    }
    let value = unfold(alloc, &text[field.value.from..field.value.to])?;
    contains(alloc, value.as_slice(), string)
}
