// What a header says of the envelope (RFC 3501, section 7.4.2).
ghost use Rattle.std.specs.Prelude.{◌≡◌, length, map, All, IfOk};
ghost use Rattle.text_lines.specs.Lines.{header_of};
ghost use Rattle.head_fields.specs.Fields.{reading_in, readings_of, StandsWithin};
ghost use Rattle.mime_parts.specs.Contents.{text_of};
ghost use Rattle.structure_text.specs.Envelopes.{HasAddresses, HasEnvelope};

use addr_list::{Address, addresses};
use head_fields::{Field, fields};
use mail_fields::Bytes;
use mime_parts::field_text;
use std::alloc::{AllocError, Global};
use std::marker::Model;

/// The addresses of a field; none where it is absent or outside the grammar.
#[derive(Drop)]
pub(crate) struct AddressList {
    items: Vec<Address>,
}

impl Model for AddressList {
    ghost use Rattle.std.specs.Prelude.{List};
    ghost use Rattle.addr_list.specs.declared.address.Address.{Address};

    ghost Value = { List Address };

    ghost view = { λ a. a.items.items };
}

impl AddressList {
    pub(crate) fn as_slice(&self) -> &[Address]
        ensures { result.now ≡ self.now }
    {
        self.items.as_slice()
    }
}

/// What an envelope says.
#[derive(Drop)]
pub(crate) struct Envelope {
    pub(crate) date: Option<Bytes>,
    pub(crate) subject: Option<Bytes>,
    pub(crate) from: AddressList,
    pub(crate) sender: AddressList,
    pub(crate) reply_to: AddressList,
    pub(crate) to: AddressList,
    pub(crate) cc: AddressList,
    pub(crate) bcc: AddressList,
    pub(crate) in_reply_to: Option<Bytes>,
    pub(crate) message_id: Option<Bytes>,
}

// The addresses of the first field of a name.
fn field_addresses(
    alloc: Global,
    text: &[u8],
    fields: &[Field],
    name: &[u8],
) -> Result<AddressList, AllocError>
    requires { All (StandsWithin (length text.now)) fields.now }
    ensures { IfOk result (λ found. HasAddresses (text_of name.now (map (reading_in text.now) fields.now)) found) }
{
    let Some(body) = field_text(alloc, text, fields, name)? else {
        return Ok(AddressList {
            items: Vec::new(alloc),
        });
    };
    match addresses(alloc, body.as_slice())? {
        Some(items) => Ok(AddressList { items }),
        None => Ok(AddressList {
            items: Vec::new(alloc),
        }),
    }
}

/// The envelope that a header has.
pub(crate) fn read_envelope(alloc: Global, header: &[u8]) -> Result<Envelope, AllocError>
    ensures { IfOk result (λ e. HasEnvelope (readings_of (header_of header.now)) e) }
{
    let found = fields(alloc, header)?;
    let fields = found.as_slice();
    Ok(Envelope {
        date: field_text(alloc, header, fields, b"Date")?,
        subject: field_text(alloc, header, fields, b"Subject")?,
        from: field_addresses(alloc, header, fields, b"From")?,
        sender: field_addresses(alloc, header, fields, b"Sender")?,
        reply_to: field_addresses(alloc, header, fields, b"Reply-To")?,
        to: field_addresses(alloc, header, fields, b"To")?,
        cc: field_addresses(alloc, header, fields, b"Cc")?,
        bcc: field_addresses(alloc, header, fields, b"Bcc")?,
        in_reply_to: field_text(alloc, header, fields, b"In-Reply-To")?,
        message_id: field_text(alloc, header, fields, b"Message-ID")?,
    })
}
