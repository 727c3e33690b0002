// Strings in a reply (RFC 3501, section 4.3).
ghost use Rattle.std.specs.Prelude.{◌≡◌, ◌++◌, ◌∷◌, decimal, length, OnOk};
ghost use Rattle.std.specs.List.{list_all};
ghost use Rattle.structure_text.specs.Strings.{is_quotable, quoted_text, literal_text, string_text, nstring_text, nil, word_text};

use itoa::Buffer;
use mail_fields::Bytes;
use std::alloc::{AllocError, Global};

fn is_quotable(byte: u8) -> bool
    ensures { result ≡ is_quotable byte }
{
    (b' '..=b'~').contains(&byte) && byte != b'"' && byte != b'\\'
}

fn are_quotable(bytes: &[u8]) -> bool
    ensures { result ≡ list_all is_quotable bytes.now }
{
    bytes.iter().all(|byte| is_quotable(*byte))
}

/// Appends a number.
pub fn put_number(out: &mut Vec<u8>, number: usize) -> Result<(), AllocError>
    ensures { OnOk result (out.new.items ≡ out.old.items ++ decimal number) }
{
    let mut digits = Buffer::new();
    out.extend_from_slice(digits.format(number).as_bytes())
}

/// Appends bytes in quotes, as they are.
pub fn put_quoted(out: &mut Vec<u8>, bytes: &[u8]) -> Result<(), AllocError>
    ensures { OnOk result (out.new.items ≡ out.old.items ++ quoted_text bytes.now) }
{
    out.push(b'"')?;
    out.extend_from_slice(bytes)?;
    out.extend_from_slice(b"\"")
}

/// Appends a literal: how many bytes it has, and the bytes.
pub fn put_literal(out: &mut Vec<u8>, bytes: &[u8]) -> Result<(), AllocError>
    ensures { OnOk result (out.new.items ≡ out.old.items ++ literal_text bytes.now) }
{
    out.push(b'{')?;
    put_number(out, bytes.len())?;
    out.extend_from_slice(b"}\r\n")?;
    out.extend_from_slice(bytes)
}

/// Appends a string: quoted where each of its bytes may stand in quotes, else a literal.
#[tactic(auto, unfolding(crate::specs::Strings::string_text))]
pub fn put_string(out: &mut Vec<u8>, bytes: &[u8]) -> Result<(), AllocError>
    ensures { OnOk result (out.new.items ≡ out.old.items ++ string_text bytes.now) }
{
    if are_quotable(bytes) {
        put_quoted(out, bytes)
    } else {
        put_literal(out, bytes)
    }
}

/// Appends what says that nothing is there.
pub(crate) fn put_nil(out: &mut Vec<u8>) -> Result<(), AllocError>
    ensures { OnOk result (out.new.items ≡ out.old.items ++ nil) }
{
    out.extend_from_slice(b"NIL")
}

/// Appends a string, or that there is none.
pub(crate) fn put_nstring(out: &mut Vec<u8>, bytes: &Option<Bytes>) -> Result<(), AllocError>
    ensures { OnOk result (out.new.items ≡ out.old.items ++ nstring_text bytes.now) }
{
    match bytes {
        Some(bytes) => put_string(out, bytes.as_slice()),
        None => put_nil(out),
    }
}

/// Appends a space and a string, or that there is none.
pub(crate) fn put_next_nstring(out: &mut Vec<u8>, bytes: &Option<Bytes>) -> Result<(), AllocError>
    ensures { OnOk result (out.new.items ≡ out.old.items ++ 32 ∷ nstring_text bytes.now) }
{
    out.push(b' ')?;
    put_nstring(out, bytes)
}

/// Appends a space and a string.
pub(crate) fn put_next_string(out: &mut Vec<u8>, bytes: &[u8]) -> Result<(), AllocError>
    ensures { OnOk result (out.new.items ≡ out.old.items ++ 32 ∷ string_text bytes.now) }
{
    out.push(b' ')?;
    put_string(out, bytes)
}

/// Appends a string in upper case.
pub(crate) fn put_word(alloc: Global, out: &mut Vec<u8>, bytes: &[u8]) -> Result<(), AllocError>
    ensures { OnOk result (out.new.items ≡ out.old.items ++ word_text bytes.now) }
{
    let upper = bytes.to_ascii_uppercase(alloc)?;
    put_string(out, upper.as_slice())
}

/// Appends a space and a string in upper case.
pub(crate) fn put_next_word(
    alloc: Global,
    out: &mut Vec<u8>,
    bytes: &[u8],
) -> Result<(), AllocError>
    ensures { OnOk result (out.new.items ≡ out.old.items ++ 32 ∷ word_text bytes.now) }
{
    out.push(b' ')?;
    put_word(alloc, out, bytes)
}

/// Appends a space and a number.
pub(crate) fn put_next_number(out: &mut Vec<u8>, number: usize) -> Result<(), AllocError>
    ensures { OnOk result (out.new.items ≡ out.old.items ++ 32 ∷ decimal number) }
{
    out.push(b' ')?;
    put_number(out, number)
}
