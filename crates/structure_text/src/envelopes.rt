// The envelope of a message (RFC 3501, section 7.4.2).
ghost use Rattle.std.specs.Prelude.{◌≡◌, ◌++◌, ◌∷◌, slice_range, IfOk, OnOk};
ghost use Rattle.structure_text.specs.Strings.{nstring_text, after_spaces};
ghost use Rattle.structure_text.specs.Appending.{Appends};
ghost use Rattle.structure_text.specs.Envelopes.{addresses_text, or_from, senders, receivers, identifiers, envelope_text, IsEnvelope, IsOnlyEnvelope};

use crate::address::put_addresses;
use crate::header::{Envelope, read_envelope};
use crate::span::slice_of;
use crate::string::{put_next_nstring, put_nstring};
use addr_list::Address;
use head_fields::Span;
use std::alloc::{AllocError, Global};

// The addresses of a field, or those of From where it has none.
fn or_from<'a>(from: &'a [Address], own: &'a [Address]) -> &'a [Address]
    ensures { result.now ≡ or_from from.now own.now }
{
    if own.is_empty() { from } else { own }
}

fn put_next_addresses(out: &mut Vec<u8>, addresses: &[Address]) -> Result<(), AllocError>
    ensures { OnOk result (out.new.items ≡ out.old.items ++ 32 ∷ addresses_text addresses.now) }
{
    out.push(b' ')?;
    put_addresses(out, addresses)
}

// Appends From, Sender and Reply-To, each behind a space.
fn put_senders(out: &mut Vec<u8>, envelope: &Envelope) -> Result<(), AllocError>
    ensures { OnOk result (out.new.items ≡ out.old.items ++ after_spaces (senders envelope.now)) }
{
    let from = envelope.from.as_slice();
    put_next_addresses(out, from)?;
    put_next_addresses(out, or_from(from, envelope.sender.as_slice()))?;
    put_next_addresses(out, or_from(from, envelope.reply_to.as_slice()))
}

// Appends To, Cc and Bcc, each behind a space.
fn put_receivers(out: &mut Vec<u8>, envelope: &Envelope) -> Result<(), AllocError>
    ensures { OnOk result (out.new.items ≡ out.old.items ++ after_spaces (receivers envelope.now)) }
{
    put_next_addresses(out, envelope.to.as_slice())?;
    put_next_addresses(out, envelope.cc.as_slice())?;
    put_next_addresses(out, envelope.bcc.as_slice())
}

// Appends In-Reply-To and Message-ID, each behind a space.
fn put_identifiers(out: &mut Vec<u8>, envelope: &Envelope) -> Result<(), AllocError>
    ensures { OnOk result (out.new.items ≡ out.old.items ++ after_spaces (identifiers envelope.now)) }
{
    put_next_nstring(out, &envelope.in_reply_to)?;
    put_next_nstring(out, &envelope.message_id)
}

// Appends a parenthesis, the date and the subject.
fn put_front(out: &mut Vec<u8>, envelope: &Envelope) -> Result<(), AllocError>
    ensures { OnOk result (out.new.items ≡ out.old.items ++ 40 ∷ (nstring_text envelope.now.date ++ 32 ∷ nstring_text envelope.now.subject)) }
{
    out.push(b'(')?;
    put_nstring(out, &envelope.date)?;
    put_next_nstring(out, &envelope.subject)
}

#[tactic(auto, unfolding(crate::specs::Envelopes::envelope_text), using(crate::proofs::Lists::envelope_values))]
fn put_envelope(out: &mut Vec<u8>, envelope: &Envelope) -> Result<(), AllocError>
    ensures { OnOk result (out.new.items ≡ out.old.items ++ envelope_text envelope.now) }
{
    put_front(out, envelope)?;
    put_senders(out, envelope)?;
    put_receivers(out, envelope)?;
    put_identifiers(out, envelope)?;
    out.extend_from_slice(b")")
}

/// Appends the envelope of a header.
pub(crate) fn put_header_envelope(
    alloc: Global,
    out: &mut Vec<u8>,
    header: &[u8],
) -> Result<(), AllocError>
    ensures { OnOk result (Appends (IsEnvelope header.now) out.old.items out.new.items) }
{
    let envelope = read_envelope(alloc, header)?;
    put_envelope(out, &envelope)
}

/// The envelope of a message, by its header, which stands at a span of a text.
///
/// A field that is absent is NIL, and so is a list without an address; a field outside the grammar of
/// address lists has none. Sender and Reply-To are those of From where they have no address. Of a span
/// that goes on behind the text, what stands in the text counts.
pub fn envelope(alloc: Global, text: &[u8], head: Span) -> Result<Vec<u8>, AllocError>
    ensures is { IfOk result (λ v. IsEnvelope (slice_range text.now head.from head.to) v.items) }
    ensures only { IfOk result (λ v. IsOnlyEnvelope (slice_range text.now head.from head.to) v.items) }
{
    let mut out = Vec::new(alloc);
    put_header_envelope(alloc, &mut out, slice_of(text, head))?;
    Ok(out)
}
