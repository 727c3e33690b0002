// What the fields of a header say of the content (RFC 2045, sections 5 to 8).
ghost use Rattle.std.specs.Prelude.{◌≡◌, [], Some, None, length, map, codes, All, IfOk, MatchOption};
ghost use Rattle.text_lines.specs.Lines.{header_of};
ghost use Rattle.head_fields.specs.Fields.{reading_in, readings_of, StandsWithin};
ghost use Rattle.mime_parts.specs.Contents.{first_value, text_of, plain_text, HasMedia, HasEncoding, HasDisposition, HasLanguages, HasContent};

use crate::content::{Content, Disposition};
use crate::value::{Media, first_token, languages, read_disposition, read_media};
use crate::word::is_same_word;
use head_fields::{Field, fields, unfold};
use mail_fields::{ByteStrings, Bytes, Parameters};
use std::alloc::{AllocError, Global};

// The value of the first field of a name, in any letter case.
fn first_value<'a>(text: &'a [u8], fields: &[Field], name: &[u8]) -> Option<&'a [u8]>
    requires { All (StandsWithin (length text.now)) fields.now }
    ensures { MatchOption result (first_value name.now (map (reading_in text.now) fields.now) ≡ None)
        (λ value. first_value name.now (map (reading_in text.now) fields.now) ≡ Some value.now) }
{
    for field in fields {
        if is_same_word(&text[field.name.from..field.name.to], name) {
            return Some(&text[field.value.from..field.value.to]);
        }
    }
    None
}

/// The unfolded value of the first field of a name, in any letter case.
///
/// The fields stand in the text as `head_fields::fields` gives them for it.
pub fn field_text(
    alloc: Global,
    text: &[u8],
    fields: &[Field],
    name: &[u8],
) -> Result<Option<Bytes>, AllocError>
    requires { All (StandsWithin (length text.now)) fields.now }
    ensures { IfOk result (λ found. found ≡ text_of name.now (map (reading_in text.now) fields.now)) }
{
    match first_value(text, fields, name) {
        Some(value) => {
            let unfolded = unfold(alloc, value)?;
            Ok(Some(Bytes::from_vec(unfolded)))
        }
        None => Ok(None),
    }
}

fn plain_text(alloc: Global) -> Result<Media, AllocError>
    ensures { IfOk result (λ media. media ≡ plain_text) }
{
    let mut params = Vec::new(alloc);
    params.push((
        Bytes::of(alloc, b"CHARSET")?,
        Bytes::of(alloc, b"US-ASCII")?,
    ))?;
    Ok(Media {
        kind: Bytes::of(alloc, b"TEXT")?,
        subkind: Bytes::of(alloc, b"PLAIN")?,
        params: Parameters::of(params),
    })
}

/// A media type without parameters.
pub(crate) fn bare_media(alloc: Global, kind: &[u8], subkind: &[u8]) -> Result<Media, AllocError>
    ensures { IfOk result (λ media. media ≡ record { kind = kind.now; subkind = subkind.now; params = [] }) }
{
    Ok(Media {
        kind: Bytes::of(alloc, kind)?,
        subkind: Bytes::of(alloc, subkind)?,
        params: Parameters::of(Vec::new(alloc)),
    })
}

fn media(alloc: Global, text: &[u8], fields: &[Field], digest: bool) -> Result<Media, AllocError>
    requires { All (StandsWithin (length text.now)) fields.now }
    ensures { IfOk result (λ media. HasMedia digest (first_value (codes "Content-Type") (map (reading_in text.now) fields.now)) media) }
{
    let Some(value) = first_value(text, fields, b"Content-Type") else {
        if digest {
            return bare_media(alloc, b"MESSAGE", b"RFC822");
        }
        return plain_text(alloc);
    };
    match read_media(alloc, value)? {
        Some(media) => Ok(media),
        None => plain_text(alloc),
    }
}

fn disposition(
    alloc: Global,
    text: &[u8],
    fields: &[Field],
) -> Result<Option<Disposition>, AllocError>
    requires { All (StandsWithin (length text.now)) fields.now }
    ensures { IfOk result (λ found. HasDisposition (first_value (codes "Content-Disposition") (map (reading_in text.now) fields.now)) found) }
{
    let Some(value) = first_value(text, fields, b"Content-Disposition") else {
        return Ok(None);
    };
    match read_disposition(alloc, value)? {
        Some(found) => Ok(Some(found)),
        None => Ok(None),
    }
}

fn language(alloc: Global, text: &[u8], fields: &[Field]) -> Result<ByteStrings, AllocError>
    requires { All (StandsWithin (length text.now)) fields.now }
    ensures { IfOk result (λ found. HasLanguages (first_value (codes "Content-Language") (map (reading_in text.now) fields.now)) found) }
{
    let Some(value) = first_value(text, fields, b"Content-Language") else {
        return Ok(ByteStrings::of(Vec::new(alloc)));
    };
    match languages(alloc, value)? {
        Some(found) => Ok(found),
        None => Ok(ByteStrings::of(Vec::new(alloc))),
    }
}

fn encoding(alloc: Global, text: &[u8], fields: &[Field]) -> Result<Bytes, AllocError>
    requires { All (StandsWithin (length text.now)) fields.now }
    ensures { IfOk result (λ found. HasEncoding (first_value (codes "Content-Transfer-Encoding") (map (reading_in text.now) fields.now)) found) }
{
    let Some(value) = first_value(text, fields, b"Content-Transfer-Encoding") else {
        return Bytes::of(alloc, b"7BIT");
    };
    match first_token(value) {
        Some(token) => Bytes::of(alloc, token),
        None => Bytes::of(alloc, b"7BIT"),
    }
}

/// What the header of a text says of its content.
pub(crate) fn read_content(alloc: Global, text: &[u8], digest: bool) -> Result<Content, AllocError>
    ensures { IfOk result (λ content. HasContent digest (readings_of (header_of text.now)) content) }
{
    let found = fields(alloc, text)?;
    let fields = found.as_slice();
    let Media {
        kind,
        subkind,
        params,
    } = media(alloc, text, fields, digest)?;
    Ok(Content {
        kind,
        subkind,
        params,
        id: field_text(alloc, text, fields, b"Content-ID")?,
        description: field_text(alloc, text, fields, b"Content-Description")?,
        encoding: encoding(alloc, text, fields)?,
        md5: field_text(alloc, text, fields, b"Content-MD5")?,
        disposition: disposition(alloc, text, fields)?,
        language: language(alloc, text, fields)?,
        location: field_text(alloc, text, fields, b"Content-Location")?,
    })
}
