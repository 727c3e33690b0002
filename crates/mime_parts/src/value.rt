// The values of content fields (RFC 2045, section 5.1).
ghost use Rattle.std.specs.Prelude.{◌≡◌, true, false, ◌<◌, length, IfOk, IfSome, IfNone, MatchOption};
ghost use Rattle.mime_parts.specs.Values.{IsSkipped, EndsQuoted, HasNoEnd, BeginsWith, HasNoToken, BeginsValue, HasNoValue, BeginsParameter, HasNoParameter, HasParameters, IsMedia, IsNoMedia, IsDisposition, IsNoDisposition, AreLanguages, AreNoLanguages};

use crate::content::Disposition;
use crate::skip::{behind, next_word, skip_length};
use addr_list::{push_unquoted, quotes_length};
use mail_fields::{ByteStrings, Bytes, Parameters};
use std::alloc::{AllocError, Global};

// A value of a parameter, and what stands behind it.
#[derive(Drop)]
struct Valued<'a> {
    value: Bytes,
    rest: &'a [u8],
}

// A quoted value, by what stands behind its first quote.
fn quoted_value<'a>(alloc: Global, inner: &'a [u8]) -> Result<Option<Valued<'a>>, AllocError>
    ensures some { IfOk result (λ found. IfSome found (λ v. EndsQuoted inner.now v.value v.rest.now)) }
    ensures none { IfOk result (λ found. IfNone found (HasNoEnd inner.now)) }
{
    let Some(width) = quotes_length(inner) else {
        return Ok(None);
    };
    let mut value = Vec::new(alloc);
    push_unquoted(&mut value, &inner[..width])?;
    Ok(Some(Valued {
        value: Bytes::from_vec(value),
        rest: &inner[width + 1..],
    }))
}

// The value at the front of a text.
fn next_value<'a>(alloc: Global, text: &'a [u8]) -> Result<Option<Valued<'a>>, AllocError>
    ensures some { IfOk result (λ found. IfSome found (λ v. BeginsValue text.now v.value v.rest.now)) }
    ensures none { IfOk result (λ found. IfNone found (HasNoValue text.now)) }
{
    if let Some(inner) = behind(text, b'"') {
        let Some(valued) = quoted_value(alloc, inner)? else {
            return Ok(None);
        };
        return Ok(Some(valued));
    }
    let Some(word) = next_word(text) else {
        return Ok(None);
    };
    Ok(Some(Valued {
        value: Bytes::of(alloc, word.token)?,
        rest: word.rest,
    }))
}

// A parameter, and what stands behind it.
#[derive(Drop)]
struct Parameter<'a> {
    name: Bytes,
    value: Bytes,
    rest: &'a [u8],
}

// The parameter at the front of a text.
fn next_parameter<'a>(alloc: Global, text: &'a [u8]) -> Result<Option<Parameter<'a>>, AllocError>
    ensures some { IfOk result (λ found. IfSome found (λ p. BeginsParameter text.now p.name p.value p.rest.now)) }
    ensures none { IfOk result (λ found. IfNone found (HasNoParameter text.now)) }
{
    let Some(begun) = behind(text, b';') else {
        return Ok(None);
    };
    let Some(name) = next_word(begun) else {
        return Ok(None);
    };
    let Some(after) = behind(name.rest, b'=') else {
        return Ok(None);
    };
    let Some(Valued { value, rest }) = next_value(alloc, after)? else {
        return Ok(None);
    };
    Ok(Some(Parameter {
        name: Bytes::of(alloc, name.token)?,
        value,
        rest,
    }))
}

// The parameters in front; they end where one can't be read.
fn parameters(alloc: Global, text: &[u8]) -> Result<Parameters, AllocError>
    ensures { IfOk result (λ params. HasParameters text.now params) }
{
    let mut params = Vec::new(alloc);
    let mut left = text;
    while let Some(Parameter { name, value, rest }) = next_parameter(alloc, left)? {
        params.push((name, value))?;
        left = rest;
    }
    Ok(Parameters::of(params))
}

/// A media type.
#[derive(Drop)]
pub(crate) struct Media {
    pub(crate) kind: Bytes,
    pub(crate) subkind: Bytes,
    pub(crate) params: Parameters,
}

/// The media type that a value is.
pub(crate) fn read_media(alloc: Global, value: &[u8]) -> Result<Option<Media>, AllocError>
    ensures some { IfOk result (λ found. IfSome found (λ m. IsMedia value.now m.kind m.subkind m.params)) }
    ensures none { IfOk result (λ found. IfNone found (IsNoMedia value.now)) }
{
    let Some(kind) = next_word(value) else {
        return Ok(None);
    };
    let Some(after) = behind(kind.rest, b'/') else {
        return Ok(None);
    };
    let Some(subkind) = next_word(after) else {
        return Ok(None);
    };
    Ok(Some(Media {
        kind: Bytes::of(alloc, kind.token)?,
        subkind: Bytes::of(alloc, subkind.token)?,
        params: parameters(alloc, subkind.rest)?,
    }))
}

/// The token that a value begins with.
pub(crate) fn first_token(value: &[u8]) -> Option<&[u8]>
    ensures { MatchOption result (HasNoToken value.now) (λ token. BeginsWith value.now token.now) }
{
    let word = next_word(value)?;
    Some(word.token)
}

/// A kind and its parameters.
pub(crate) fn read_disposition(
    alloc: Global,
    value: &[u8],
) -> Result<Option<Disposition>, AllocError>
    ensures some { IfOk result (λ found. IfSome found (λ d. IsDisposition value.now d.kind d.params)) }
    ensures none { IfOk result (λ found. IfNone found (IsNoDisposition value.now)) }
{
    let Some(kind) = next_word(value) else {
        return Ok(None);
    };
    Ok(Some(Disposition {
        kind: Bytes::of(alloc, kind.token)?,
        params: parameters(alloc, kind.rest)?,
    }))
}

fn is_skipped(text: &[u8]) -> bool
    ensures yes { result ≡ true → IsSkipped text.now }
    ensures no { result ≡ false → IsSkipped text.now → ⊥ }
{
    skip_length(text) == text.len()
}

/// Tokens with commas between them, and nothing else.
pub(crate) fn languages(alloc: Global, value: &[u8]) -> Result<Option<ByteStrings>, AllocError>
    ensures some { IfOk result (λ found. IfSome found (λ tokens. AreLanguages value.now tokens)) }
    ensures none { IfOk result (λ found. IfNone found (AreNoLanguages value.now)) }
{
    let mut tokens = Vec::new(alloc);
    let mut left = value;
    while let Some(word) = next_word(left) {
        tokens.push(Bytes::of(alloc, word.token)?)?;
        match behind(word.rest, b',') {
            Some(later) => left = later,
            None if is_skipped(word.rest) => return Ok(Some(ByteStrings::of(tokens))),
            None => return Ok(None),
        }
    }
    Ok(None)
}
