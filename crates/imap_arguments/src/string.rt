// Strings of a command.
ghost use Rattle.std.specs.Prelude.{◌≡◌, ◌≤◌, length, IfSome};
ghost use Rattle.std.specs.Option.{option_map};
ghost use Rattle.std.specs.List.{prefix_len};
ghost use Rattle.imap_arguments.specs.Readings.{Gives};
ghost use Rattle.imap_arguments.specs.Strings.{Taken, is_astring, is_pattern, quoted_at, behind_close, behind_size, behind_mark, literal_at, string_of, astring_at, pattern_at};

use crate::number::digits;
use crate::reason::{Reason, Refused};
use crate::token::{begins, broken_off, is_atom_byte};
use mail_fields::Bytes;
use std::alloc::Global;
use std::collections::VecDeque;

fn is_astring_byte(byte: u8) -> bool
    ensures { result ≡ is_astring byte }
{
    is_atom_byte(byte) || byte == b']'
}

fn is_pattern_byte(byte: u8) -> bool
    ensures { result ≡ is_pattern byte }
{
    is_astring_byte(byte) || byte == b'%' || byte == b'*'
}

// How many bytes of a string without quotes stand at the front.
fn astring_width(bytes: &[u8]) -> usize
    ensures value { result ≡ prefix_len is_astring bytes.now }
    ensures within { result ≤ length bytes.now }
{
    bytes
        .iter()
        .take_while(|byte| is_astring_byte(**byte))
        .count()
}

fn pattern_width(bytes: &[u8]) -> usize
    ensures value { result ≡ prefix_len is_pattern bytes.now }
    ensures within { result ≤ length bytes.now }
{
    bytes
        .iter()
        .take_while(|byte| is_pattern_byte(**byte))
        .count()
}

/// What stands between quotes, behind the first of them, and what stands behind the last.
pub fn quoted_at(alloc: Global, bytes: &[u8]) -> Result<(Vec<u8>, &[u8]), Refused>
    ensures { Gives (λ x. (x.0.items, x.1.now)) result (quoted_at bytes.now) }
{
    let mut value = Vec::new(alloc);
    let mut escaped = false;
    for (i, byte) in bytes.iter().enumerate() {
        if escaped {
            if *byte != b'"' && *byte != b'\\' {
                return Err(Refused::Bad(Reason::NotUnderstood));
            }
            value.push(*byte)?;
            escaped = false;
        } else if *byte == b'"' {
            return Ok((value, &bytes[i + 1..]));
        } else if *byte == b'\\' {
            escaped = true;
        } else if *byte == b'\r' || *byte == b'\n' {
            return Err(Refused::Bad(Reason::NotUnderstood));
        } else {
            value.push(*byte)?;
        }
    }
    Err(Refused::Bad(Reason::Missing))
}

// What stands behind `}` and CRLF.
fn behind_close(bytes: &[u8]) -> Option<&[u8]>
    ensures { option_map (λ rest. rest.now) result ≡ behind_close bytes.now }
{
    if begins(b'}', bytes) && begins(b'\r', &bytes[1..]) && begins(b'\n', &bytes[2..]) {
        Some(&bytes[3..])
    } else {
        None
    }
}

// What stands behind 1 to 10 digits, `}` and CRLF.
fn behind_size(bytes: &[u8]) -> Option<&[u8]>
    ensures { option_map (λ rest. rest.now) result ≡ behind_size bytes.now }
{
    let width = digits(bytes);
    if width < 1 || width > 10 {
        return None;
    }
    behind_close(&bytes[width..])
}

// What stands behind the mark of a literal.
fn behind_mark(bytes: &[u8]) -> Option<&[u8]>
    ensures { option_map (λ rest. rest.now) result ≡ behind_mark bytes.now }
{
    if begins(b'{', bytes) {
        behind_size(&bytes[1..])
    } else {
        None
    }
}

/// The literal at the front: the next of the command's literals, which it takes from them.
pub fn literal_at<'a>(
    bytes: &'a [u8],
    literals: &mut VecDeque<Bytes>,
) -> Result<(Bytes, &'a [u8]), Refused>
    ensures { Gives (λ x. record { value = x.0; rest = x.1.now; literals = literals.new.items }) result (literal_at bytes.now literals.old.items) }
{
    let Some(rest) = behind_mark(bytes) else {
        return Err(Refused::Bad(broken_off(bytes)));
    };
    match literals.pop_front() {
        Some(value) => Ok((value, rest)),
        None => Err(Refused::Bad(broken_off(bytes))),
    }
}

// A string by how many bytes stand at its front without quotes.
fn string_at<'a>(
    alloc: Global,
    width: usize,
    bytes: &'a [u8],
    literals: &mut VecDeque<Bytes>,
) -> Result<(Bytes, &'a [u8]), Refused>
    requires { width ≤ length bytes.now }
    ensures { Gives (λ x. record { value = x.0; rest = x.1.now; literals = literals.new.items }) result (string_of width bytes.now literals.old.items) }
{
    if begins(b'"', bytes) {
        let (value, rest) = quoted_at(alloc, &bytes[1..])?;
        return Ok((Bytes::from_vec(value), rest));
    }
    if width == 0 {
        return literal_at(bytes, literals);
    }
    let value = Bytes::of(alloc, &bytes[..width])?;
    Ok((value, &bytes[width..]))
}

/// A string: bare, quoted or a literal.
pub fn astring_at<'a>(
    alloc: Global,
    bytes: &'a [u8],
    literals: &mut VecDeque<Bytes>,
) -> Result<(Bytes, &'a [u8]), Refused>
    ensures { Gives (λ x. record { value = x.0; rest = x.1.now; literals = literals.new.items }) result (astring_at bytes.now literals.old.items) }
{
    string_at(alloc, astring_width(bytes), bytes, literals)
}

/// A pattern of mailbox names, which may have `%` and `*` without quotes.
pub fn pattern_at<'a>(
    alloc: Global,
    bytes: &'a [u8],
    literals: &mut VecDeque<Bytes>,
) -> Result<(Bytes, &'a [u8]), Refused>
    ensures { Gives (λ x. record { value = x.0; rest = x.1.now; literals = literals.new.items }) result (pattern_at bytes.now literals.old.items) }
{
    string_at(alloc, pattern_width(bytes), bytes, literals)
}
