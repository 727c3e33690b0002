// What the content fields of a part say, as it is written (RFC 3501, section 7.4.2).
ghost use Rattle.std.specs.Prelude.{◌≡◌, ◌++◌, ◌∷◌, map, OnOk};
ghost use Rattle.structure_text.specs.Strings.{string_text, after_spaces, listed};
ghost use Rattle.structure_text.specs.Bodies.{param_text, params_text, disposition_text, languages_text, last_fields, leaf_extension, multipart_extension};

use crate::string::{put_next_nstring, put_next_string, put_nil, put_string, put_word};
use mail_fields::Bytes;
use mime_parts::{Content, Disposition};
use std::alloc::{AllocError, Global};

fn put_param(
    alloc: Global,
    out: &mut Vec<u8>,
    name: &Bytes,
    value: &Bytes,
) -> Result<(), AllocError>
    ensures { OnOk result (out.new.items ≡ out.old.items ++ param_text (name.now, value.now)) }
{
    put_word(alloc, out, name.as_slice())?;
    put_next_string(out, value.as_slice())
}

// Appends parameters.
#[tactic(auto, unfolding(crate::specs::Bodies::params_text))]
fn put_params(alloc: Global, out: &mut Vec<u8>, params: &[(Bytes, Bytes)]) -> Result<(), AllocError>
    ensures { OnOk result (out.new.items ≡ out.old.items ++ params_text params.now) }
{
    let Some((first, more)) = params.split_first() else {
        return put_nil(out);
    };
    out.push(b'(')?;
    put_param(alloc, out, &first.0, &first.1)?;
    for param in more {
        out.push(b' ')?;
        put_param(alloc, out, &param.0, &param.1)?;
    }
    out.extend_from_slice(b")")
}

/// Appends a space and parameters.
pub(crate) fn put_next_params(
    alloc: Global,
    out: &mut Vec<u8>,
    params: &[(Bytes, Bytes)],
) -> Result<(), AllocError>
    ensures { OnOk result (out.new.items ≡ out.old.items ++ 32 ∷ params_text params.now) }
{
    out.push(b' ')?;
    put_params(alloc, out, params)
}

#[tactic(auto, unfolding(crate::specs::Bodies::disposition_text))]
fn put_disposition(
    alloc: Global,
    out: &mut Vec<u8>,
    disposition: &Option<Disposition>,
) -> Result<(), AllocError>
    ensures { OnOk result (out.new.items ≡ out.old.items ++ disposition_text disposition.now) }
{
    let Some(found) = disposition else {
        return put_nil(out);
    };
    out.push(b'(')?;
    put_word(alloc, out, found.kind.as_slice())?;
    put_next_params(alloc, out, found.params.as_slice())?;
    out.extend_from_slice(b")")
}

// Several languages.
fn put_list(out: &mut Vec<u8>, first: &Bytes, more: &[Bytes]) -> Result<(), AllocError>
    ensures { OnOk result (out.new.items ≡ out.old.items ++ listed (map string_text (first.now ∷ more.now))) }
{
    out.push(b'(')?;
    put_string(out, first.as_slice())?;
    for language in more {
        put_next_string(out, language.as_slice())?;
    }
    out.extend_from_slice(b")")
}

#[tactic(auto, unfolding(crate::specs::Bodies::languages_text))]
fn put_languages(out: &mut Vec<u8>, languages: &[Bytes]) -> Result<(), AllocError>
    ensures { OnOk result (out.new.items ≡ out.old.items ++ languages_text languages.now) }
{
    match languages {
        [] => put_nil(out),
        [language] => put_string(out, language.as_slice()),
        [first, more @ ..] => put_list(out, first, more),
    }
}

// Disposition, languages and location, each behind a space.
fn put_last_fields(alloc: Global, out: &mut Vec<u8>, content: &Content) -> Result<(), AllocError>
    ensures { OnOk result (out.new.items ≡ out.old.items ++ after_spaces (last_fields content.now)) }
{
    out.push(b' ')?;
    put_disposition(alloc, out, &content.disposition)?;
    out.push(b' ')?;
    put_languages(out, content.language.as_slice())?;
    put_next_nstring(out, &content.location)
}

/// Appends what BODYSTRUCTURE has behind what BODY has of a part that is no multipart.
pub(crate) fn put_leaf_extension(
    alloc: Global,
    out: &mut Vec<u8>,
    content: &Content,
    extended: bool,
) -> Result<(), AllocError>
    ensures { OnOk result (out.new.items ≡ out.old.items ++ after_spaces (leaf_extension extended content.now)) }
{
    if extended {
        put_next_nstring(out, &content.md5)?;
        put_last_fields(alloc, out, content)?;
    }
    Ok(())
}

/// Appends what BODYSTRUCTURE has behind what BODY has of a multipart.
pub(crate) fn put_multipart_extension(
    alloc: Global,
    out: &mut Vec<u8>,
    content: &Content,
    extended: bool,
) -> Result<(), AllocError>
    ensures { OnOk result (out.new.items ≡ out.old.items ++ after_spaces (multipart_extension extended content.now)) }
{
    if extended {
        put_next_params(alloc, out, content.params.as_slice())?;
        put_last_fields(alloc, out, content)?;
    }
    Ok(())
}
